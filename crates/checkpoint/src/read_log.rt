//! Reads the payload log of an image.
ghost use Rattle.std.specs.Prelude.{◌≡◌, ◌+◌, ◌-◌, ◌≤◌, ◌<◌, [], length, IfOk};
ghost use Rattle.limits.specs.Limits.{greatest_clock};
ghost use Rattle.payload_log.specs.Backlog.{AreNumbered};
ghost use Rattle.checkpoint.specs.Reading.{Gives, many_at, kept_above, kept_at, lane_at, log_at};

use crate::fault::ImageFault;
use crate::reading::{count_of, tail_of, u32_at};
use limits::Heap;
use matching::Packet;
use payload_log::{Backlog, PayloadLog};
use std::collections::VecDeque;

/// A packet that is kept: it was sent after the clock `above`, and not after `most`.
#[tactic(auto, unfolding(crate::specs::Reading::kept_above, crate::specs::Reading::field))]
fn packet_of(
    alloc: Heap,
    rank: u8,
    most: u32,
    above: u32,
    number: u32,
    bytes: &[u8],
) -> Result<(Packet, &[u8]), ImageFault>
    requires most { most ≤ greatest_clock }
    requires number_low { 1 ≤ number }
    requires number_high { number ≤ greatest_clock }
    ensures read { Gives (λ x. (x.0, x.1.now)) result (kept_above rank most above number bytes.now) }
    ensures number { IfOk result (λ x. x.0.number ≡ number) }
{
    let (clock, rest) = u32_at(bytes)?;
    if clock <= above || clock > most {
        return Err(ImageFault::Field);
    }
    tail_of(alloc, rank, clock, number, rest)
}

/// The packets that are kept above a base.
fn packets_of(
    alloc: Heap,
    rank: u8,
    most: u32,
    base: u32,
    count: u32,
    bytes: &[u8],
) -> Result<(VecDeque<Packet, Heap>, &[u8]), ImageFault>
    requires most { most ≤ greatest_clock }
    requires numbers { base + count ≤ greatest_clock }
    ensures read { Gives (λ x. (x.0.items, x.1.now)) result (many_at (kept_at rank most base) count [] bytes.now) }
    ensures count { IfOk result (λ x. length x.0.items ≡ count) }
    ensures numbered { IfOk result (λ x. AreNumbered base x.0.items) }
{
    let mut packets = VecDeque::new(alloc);
    let mut above = 0;
    let mut rest = bytes;
    for place in 0..count {
        let (packet, after) = packet_of(alloc, rank, most, above, base + place + 1, rest)?;
        above = packet.clock;
        packets.push_back(packet)?;
        rest = after;
    }
    Ok((packets, rest))
}

/// What is kept for a destination.
#[tactic(auto, unfolding(crate::specs::Reading::lane_at, crate::specs::Reading::field))]
fn lane_of(alloc: Heap, rank: u8, clock: u32, bytes: &[u8]) -> Result<(Backlog, &[u8]), ImageFault>
    requires { clock ≤ greatest_clock }
    ensures { Gives (λ x. (x.0, x.1.now)) result (lane_at rank clock bytes.now) }
{
    let (sent, rest) = u32_at(bytes)?;
    if sent > clock {
        return Err(ImageFault::Field);
    }
    let (base, rest) = count_of(rest)?;
    let (packets, rest) = packets_of(alloc, rank, clock, base, sent.saturating_sub(base), rest)?;
    Ok((Backlog::of(base, sent, packets), rest))
}

/// What is kept for each destination.
#[tactic(auto, unfolding(crate::specs::Reading::log_at))]
pub fn log_of(
    alloc: Heap,
    rank: u8,
    size: usize,
    clock: u32,
    bytes: &[u8],
) -> Result<(PayloadLog, &[u8]), ImageFault>
    requires { clock ≤ greatest_clock }
    ensures { Gives (λ x. (x.0, x.1.now)) result (log_at rank clock size bytes.now) }
{
    lanes_of(alloc, rank, size, clock, bytes)
}

fn lanes_of(
    alloc: Heap,
    rank: u8,
    size: usize,
    clock: u32,
    bytes: &[u8],
) -> Result<(PayloadLog, &[u8]), ImageFault>
    requires { clock ≤ greatest_clock }
    ensures { Gives (λ x. (x.0, x.1.now)) result (many_at (λ before. lane_at rank clock) size [] bytes.now) }
{
    let mut lanes = Vec::new(alloc);
    let mut rest = bytes;
    for _ in 0..size {
        let (lane, after) = lane_of(alloc, rank, clock, rest)?;
        lanes.push(lane)?;
        rest = after;
    }
    Ok((PayloadLog::of(lanes), rest))
}
