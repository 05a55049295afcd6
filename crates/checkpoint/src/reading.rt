//! Reads the numbers and values of an image.
ghost use Rattle.std.specs.Prelude.{◌≡◌, ◌<◌, ◌≤◌, length, IfOk, FitsSigned};
ghost use Rattle.std.specs.Int.{w64};
ghost use Rattle.limits.specs.Limits.{greatest_clock};
ghost use Rattle.matching.specs.PacketValue.{greatest_tag, least_items, most_items};
ghost use Rattle.checkpoint.specs.Reading.{Gives, number_at, count_at, value_at, values_at, context_at, tail_at};

use crate::fault::ImageFault;
use byteorder::{BigEndian, ByteOrder};
use limits::{GREATEST_CLOCK, GREATEST_TAG, Heap, MOST_COLLECTIVE_ITEMS, MOST_ITEMS};
use matching::{Context, Packet, PacketItems};

pub fn u8_at(bytes: &[u8]) -> Result<(u8, &[u8]), ImageFault>
    ensures { Gives (λ x. (x.0, x.1.now)) result (number_at 1 bytes.now) }
{
    match bytes {
        [] => Err(ImageFault::Short),
        [first, rest @ ..] => Ok((*first, rest)),
    }
}

pub fn u16_at(bytes: &[u8]) -> Result<(u16, &[u8]), ImageFault>
    ensures { Gives (λ x. (x.0, x.1.now)) result (number_at 2 bytes.now) }
{
    if bytes.len() < 2 {
        return Err(ImageFault::Short);
    }
    Ok((BigEndian::read_u16(bytes), &bytes[2..]))
}

pub fn u32_at(bytes: &[u8]) -> Result<(u32, &[u8]), ImageFault>
    ensures { Gives (λ x. (x.0, x.1.now)) result (number_at 4 bytes.now) }
{
    if bytes.len() < 4 {
        return Err(ImageFault::Short);
    }
    Ok((BigEndian::read_u32(bytes), &bytes[4..]))
}

/// A clock, a base, or how many packets were accepted.
#[tactic(auto, unfolding(crate::specs::Reading::field))]
pub fn count_of(bytes: &[u8]) -> Result<(u32, &[u8]), ImageFault>
    ensures read { Gives (λ x. (x.0, x.1.now)) result (count_at bytes.now) }
    ensures high { IfOk result (λ x. x.0 ≤ greatest_clock) }
{
    let (count, rest) = u32_at(bytes)?;
    if count > GREATEST_CLOCK {
        return Err(ImageFault::Field);
    }
    Ok((count, rest))
}

#[tactic(auto, unfolding(crate::specs::Reading::value_at))]
fn value_of(bytes: &[u8]) -> Result<(i64, &[u8]), ImageFault>
    ensures read { Gives (λ x. (x.0, x.1.now)) result (value_at bytes.now) }
    ensures range { IfOk result (λ x. FitsSigned w64 x.0) }
{
    if bytes.len() < 8 {
        return Err(ImageFault::Short);
    }
    Ok((BigEndian::read_i64(bytes), &bytes[8..]))
}

/// So many values.
pub fn values_of(
    alloc: Heap,
    count: usize,
    bytes: &[u8],
) -> Result<(Vec<i64, Heap>, &[u8]), ImageFault>
    ensures read { Gives (λ x. (x.0.items, x.1.now)) result (values_at count bytes.now) }
    ensures count { IfOk result (λ x. length x.0.items ≡ count) }
{
    let mut values = Vec::new(alloc);
    let mut rest = bytes;
    for _ in 0..count {
        let (value, after) = value_of(rest)?;
        values.push(value)?;
        rest = after;
    }
    Ok((values, rest))
}

#[tactic(auto, unfolding(crate::specs::Reading::context_at, crate::specs::Reading::field))]
fn context_of(bytes: &[u8]) -> Result<(Context, &[u8]), ImageFault>
    ensures { Gives (λ x. (x.0, x.1.now)) result (context_at bytes.now) }
{
    let (number, rest) = u8_at(bytes)?;
    match number {
        0 => Ok((Context::PointToPoint, rest)),
        1 => Ok((Context::Collective, rest)),
        _ => Err(ImageFault::Field),
    }
}

fn tag_most(context: Context) -> u16
    ensures { result ≡ greatest_tag context }
{
    match context {
        Context::PointToPoint => GREATEST_TAG,
        Context::Collective => 0,
    }
}

fn items_least(context: Context) -> u16
    ensures { result ≡ least_items context }
{
    match context {
        Context::PointToPoint => 1,
        Context::Collective => 3,
    }
}

fn items_most(context: Context) -> u16
    ensures { result ≡ most_items context }
{
    match context {
        Context::PointToPoint => MOST_ITEMS as u16,
        Context::Collective => MOST_COLLECTIVE_ITEMS as u16,
    }
}

/// The packet of this source, clock and number whose tail stands here.
#[tactic(auto, unfolding(crate::specs::Reading::tail_at, crate::specs::Reading::field))]
pub fn tail_of(
    alloc: Heap,
    source: u8,
    clock: u32,
    number: u32,
    bytes: &[u8],
) -> Result<(Packet, &[u8]), ImageFault>
    requires clock_low { 1 ≤ clock }
    requires clock_high { clock ≤ greatest_clock }
    requires number_low { 1 ≤ number }
    requires number_high { number ≤ greatest_clock }
    ensures read { Gives (λ x. (x.0, x.1.now)) result (tail_at source clock number bytes.now) }
    ensures source { IfOk result (λ x. x.0.source ≡ source) }
    ensures clock { IfOk result (λ x. x.0.clock ≡ clock) }
    ensures number { IfOk result (λ x. x.0.number ≡ number) }
{
    let (context, rest) = context_of(bytes)?;
    let (tag, rest) = u16_at(rest)?;
    if tag > tag_most(context) {
        return Err(ImageFault::Field);
    }
    let (count, rest) = u16_at(rest)?;
    if count < items_least(context) || count > items_most(context) {
        return Err(ImageFault::Field);
    }
    let (values, rest) = values_of(alloc, usize::from(count), rest)?;
    let packet = Packet {
        source,
        clock,
        number,
        context,
        tag,
        payload: PacketItems::from_vec(values),
    };
    Ok((packet, rest))
}
