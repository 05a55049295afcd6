//! What nobody received, what the script's lines came to, and what the run took, an object each.

use super::acts::put_sent;
use crate::json::{JsonLines, Object};
use crate::trace::fates::Fated;
use crate::trace::given::Told;
use crate::trace::left::unreceived_by;
use crate::trace::orders::{reason_of, received_again, word_of};
use crate::trace::place::Place;
use crash_free::Passed;
use limits::Heap;
use rank_text::script::Order;

/// Writes for each rank that left messages how many they are, and the first of them.
pub fn put_unreceived(alloc: Heap, to: &mut JsonLines, told: Told<'_, '_>) {
    for rank in 0..told.run.ranks() {
        if let Some((count, first)) = unreceived_by(told.acts, told.deliveries, rank) {
            let mut object = Object::new(alloc);
            object.number("rank", u64::from(rank));
            object.number("unreceived", count as u64);
            put_sent(&mut object, told.acts, told.places, first);
            to.line(object);
        }
    }
}

/// Writes each line of the script, and what became of it.
pub fn put_orders(
    alloc: Heap,
    to: &mut JsonLines,
    orders: &[Fated],
    acts: &[Passed],
    places: &[Place],
) {
    for order in orders {
        let mut object = Object::new(alloc);
        put_order(&mut object, *order);
        if !order.is_used() {
            object.made_text("why", reason_of(alloc, *order));
        } else if let Order::Kill = order.line.order {
            put_repeated(&mut object, acts, places, *order);
        }
        to.line(object);
    }
}

fn put_order(object: &mut Object, order: Fated) {
    object.text("order", word_of(order.line.order));
    object.number("script_line", order.number as u64);
    object.number("rank", u64::from(order.line.rank));
    object.number("clock", u64::from(order.line.clock));
    object.flag("used", order.is_used());
}

// What a crash made the rank do again.
fn put_repeated(object: &mut Object, acts: &[Passed], places: &[Place], order: Fated) {
    let again = order.line.clock.saturating_sub(order.image);
    object.number("back_to", u64::from(order.image));
    object.number("acts_again", u64::from(again));
    object.number("messages_again", received_again(acts, places, order));
}

/// Writes what the run took.
pub fn put_cost(alloc: Heap, to: &mut JsonLines, crashes: u64, calls: u64) {
    let mut object = Object::new(alloc);
    object.number("crashes", crashes);
    object.number("logger_calls", calls);
    to.line(object);
}
