//! Messages that nobody received.

use crate::trace::deliveries::Delivery;
use crate::trace::ends::put_sent;
use crate::trace::given::Told;
use crash_free::{Act, Passed};
use rank_text::text_writer::TextWriter;

/// Whether the act of this index sends to the rank, which doesn't receive it.
pub fn unreceived(acts: &[Passed], deliveries: &[Delivery], index: usize, rank: u8) -> bool {
    let (Some(passed), Some(delivery)) = (acts.get(index), deliveries.get(index)) else {
        return false;
    };
    match &passed.act {
        Act::Sends { dest, .. } => *dest == rank && !delivery.taken,
        Act::Takes { .. } | Act::Hits { .. } | Act::Misses | Act::Prints(_) => false,
    }
}

/// Writes for each rank how many messages it never received, and the first of them.
pub fn put_unreceived(to: &mut TextWriter, told: Told<'_, '_>) {
    for rank in 0..told.run.ranks() {
        if let Some((count, first)) = unreceived_by(told.acts, told.deliveries, rank) {
            put_count(to, told, rank, count, first);
        }
    }
}

/// How many messages a rank never received, and the index of the first one's
/// send, if there are any.
pub fn unreceived_by(acts: &[Passed], deliveries: &[Delivery], rank: u8) -> Option<(usize, usize)> {
    let mut count = 0usize;
    let mut first = None;
    for index in 0..acts.len() {
        if unreceived(acts, deliveries, index, rank) {
            count = count.saturating_add(1);
            if first.is_none() {
                first = Some(index);
            }
        }
    }
    match first {
        Some(index) => Some((count, index)),
        None => None,
    }
}

fn put_count(to: &mut TextWriter, told: Told<'_, '_>, rank: u8, count: usize, first: usize) {
    to.numbered("rank ", u64::from(rank), ": ");
    to.number(count as u64);
    to.text(if count == 1 {
        " message was never received, from "
    } else {
        " messages were never received, the first from "
    });
    put_sent(to, told.acts, told.places, first);
    to.sign('\n');
}
