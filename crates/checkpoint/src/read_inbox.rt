//! Reads the inbox of an image.
ghost use Rattle.std.specs.Prelude.{◌≡◌, ◌≤◌, ◌<◌, [], true, length, IfOk, All};
ghost use Rattle.limits.specs.Limits.{greatest_clock};
ghost use Rattle.matching.specs.Inbox.{may_follow};
ghost use Rattle.checkpoint.specs.Reading.{Gives, count_at, many_at, packet_at, inbox_at};

use crate::fault::ImageFault;
use crate::reading::{count_of, tail_of, u8_at, u32_at};
use limits::{GREATEST_CLOCK, Heap};
use matching::{Inbox, Packet};

/// How many packets were accepted, for each rank.
fn counts_of(alloc: Heap, size: usize, bytes: &[u8]) -> Result<(Vec<u32, Heap>, &[u8]), ImageFault>
    ensures read { Gives (λ x. (x.0.items, x.1.now)) result (many_at (λ before. count_at) size [] bytes.now) }
    ensures count { IfOk result (λ x. length x.0.items ≡ size) }
    ensures high { IfOk result (λ x. All (λ n. n ≤ greatest_clock) x.0.items) }
{
    let mut counts = Vec::new(alloc);
    let mut rest = bytes;
    for _ in 0..size {
        let (count, after) = count_of(rest)?;
        counts.push(count)?;
        rest = after;
    }
    Ok((counts, rest))
}

/// A packet that can stand behind those of the inbox.
#[tactic(auto, unfolding(crate::specs::Reading::packet_at, crate::specs::Reading::field))]
fn packet_of<'b>(
    alloc: Heap,
    inbox: &Inbox,
    size: usize,
    bytes: &'b [u8],
) -> Result<(Packet, &'b [u8]), ImageFault>
    requires { length inbox.now.accepted ≡ size }
    ensures read { Gives (λ x. (x.0, x.1.now)) result (packet_at size inbox.now.accepted inbox.now.packets bytes.now) }
    ensures source { IfOk result (λ x. x.0.source < size) }
    ensures follows { IfOk result (λ x. may_follow inbox.now x.0.source x.0.number ≡ true) }
{
    let (source, rest) = u8_at(bytes)?;
    if usize::from(source) >= size {
        return Err(ImageFault::Field);
    }
    let (clock, rest) = u32_at(rest)?;
    if clock < 1 || clock > GREATEST_CLOCK {
        return Err(ImageFault::Field);
    }
    let (number, rest) = u32_at(rest)?;
    if !inbox.may_follow(source, number) {
        return Err(ImageFault::Field);
    }
    tail_of(alloc, source, clock, number, rest)
}

/// So many packets, behind those of the inbox.
fn packets_of(
    alloc: Heap,
    inbox: Inbox,
    size: usize,
    count: u32,
    bytes: &[u8],
) -> Result<(Inbox, &[u8]), ImageFault>
    requires { length inbox.accepted ≡ size }
    ensures read { Gives (λ x. (x.0.packets, x.1.now)) result
        (many_at (packet_at size inbox.accepted) count inbox.packets bytes.now) }
    ensures stays { IfOk result (λ x. x.0.accepted ≡ inbox.accepted) }
{
    let mut inbox = inbox;
    let mut rest = bytes;
    for _ in 0..count {
        let (packet, after) = packet_of(alloc, &inbox, size, rest)?;
        inbox.put_back(packet)?;
        rest = after;
    }
    Ok((inbox, rest))
}

/// The inbox of a rank among so many.
#[tactic(auto, unfolding(crate::specs::Reading::inbox_at))]
pub fn inbox_of(alloc: Heap, size: usize, bytes: &[u8]) -> Result<(Inbox, &[u8]), ImageFault>
    ensures read { Gives (λ x. (x.0, x.1.now)) result (inbox_at size bytes.now) }
{
    let (accepted, rest) = counts_of(alloc, size, bytes)?;
    let (count, rest) = u32_at(rest)?;
    packets_of(alloc, Inbox::after(alloc, accepted), size, count, rest)
}
