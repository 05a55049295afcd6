//! What the script's lines came to: crashes and images, and those that never came to pass.

use crate::trace::fates::{Fate, Fated};
use crate::trace::place::Place;
use crate::trace::words::put_count;
use crash_free::{Act, Passed};
use limits::Heap;
use rank_text::script::Order;
use rank_text::text_writer::TextWriter;
use std::alloc::AllocError;

/// Writes each line of the script that never came to pass, and why.
pub fn put_unmet(to: &mut TextWriter, orders: &[Fated]) {
    for order in orders {
        if !order.is_used() {
            put_why(to, *order);
        }
    }
}

fn put_why(to: &mut TextWriter, order: Fated) {
    to.numbered("line ", order.number as u64, ": ");
    to.text(word_of(order.line.order));
    to.numbered(" ", u64::from(order.line.rank), " at ");
    to.numbered("", u64::from(order.line.clock), ": ");
    put_reason(to, order);
    to.sign('\n');
}

/// Why a line never came to pass; nothing for one that did.
pub fn reason_of(alloc: Heap, order: Fated) -> Result<String<Heap>, AllocError> {
    let mut reason = TextWriter::new(alloc);
    put_reason(&mut reason, order);
    reason.done()
}

fn put_reason(to: &mut TextWriter, order: Fated) {
    let rank = u64::from(order.line.rank);
    match order.fate {
        Fate::Used => {}
        Fate::Short(made) => {
            to.numbered("rank ", rank, " made ");
            put_count(to, made as u64, "act");
        }
        Fate::Behind => {
            to.numbered("behind its image at ", u64::from(order.image), " rank ");
            to.numbered("", rank, " doesn't make that act again");
        }
        Fate::Passed => to.numbered(
            "rank ",
            rank,
            " made that act in a replay, or before this line was next",
        ),
        Fate::Held(line) => to.numbered("line ", line as u64, " stays next"),
    }
}

/// The word for an order in a script.
pub fn word_of(order: Order) -> &'static str {
    match order {
        Order::Kill => "kill",
        Order::Image => "image",
    }
}

/// Writes a line for each crash and each image, in the order of the script, and
/// before them by whom they are counted.
pub fn put_crashes(to: &mut TextWriter, orders: &[Fated], acts: &[Passed], places: &[Place]) {
    let mut is_first = true;
    for order in orders {
        if order.is_used() {
            if is_first {
                to.text(
                    "# crashes and images as the runner counted them; no audit certifies them\n",
                );
                is_first = false;
            }
            put_used(to, acts, places, *order);
        }
    }
}

fn put_used(to: &mut TextWriter, acts: &[Passed], places: &[Place], order: Fated) {
    let (clock, image) = (order.line.clock, order.image);
    to.numbered("rank ", u64::from(order.line.rank), ": ");
    match order.line.order {
        Order::Image => to.numbered("image at clock ", u64::from(clock), "\n"),
        Order::Kill => {
            to.numbered("crash at clock ", u64::from(clock), ", back to clock ");
            to.numbered("", u64::from(image), ": ");
            put_count(to, u64::from(clock.saturating_sub(image)), "act");
            to.text(" made again, ");
            put_count(to, received_again(acts, places, order), "message");
            to.text(" asked for again\n");
        }
    }
}

/// How many messages the rank had received between its image and this crash.
pub fn received_again(acts: &[Passed], places: &[Place], order: Fated) -> u64 {
    let mut count = 0u64;
    for index in 0..acts.len() {
        if let (Some(passed), Some(place)) = (acts.get(index), places.get(index)) {
            if is_reception(&passed.act)
                && passed.rank == order.line.rank
                && order.image < place.clock
                && place.clock <= order.line.clock
            {
                count = count.saturating_add(1);
            }
        }
    }
    count
}

fn is_reception(act: &Act) -> bool {
    match act {
        Act::Takes { .. } => true,
        Act::Sends { .. } | Act::Hits { .. } | Act::Misses | Act::Prints(_) => false,
    }
}
