//! Determinants, and what waits at a gate.

use crate::json::Object;
use event_logger::{Event, Kind};
use limits::Heap;
use rank_node::Waiting;

/// A determinant.
pub fn determinant_object(alloc: Heap, event: Event) -> Object {
    let mut object = Object::new(alloc);
    put_determinant(&mut object, event);
    object
}

/// Something that waits; `stored` is whether it is a determinant that is stored.
pub fn waiting_object(alloc: Heap, waiting: Waiting, stored: bool) -> Object {
    let mut object = Object::new(alloc);
    match waiting {
        Waiting::Event(event) => {
            put_determinant(&mut object, event);
            object.flag("stored", stored);
        }
        Waiting::Send { dest, clock } => {
            object.text("kind", "send");
            object.number("clock", u64::from(clock));
            object.number("destination", u64::from(dest));
        }
        Waiting::Line { clock, value } => {
            object.text("kind", "print");
            object.number("clock", u64::from(clock));
            object.integer("value", value);
        }
    }
    object
}

fn put_determinant(object: &mut Object, event: Event) {
    object.text("kind", kind_name(event.kind()));
    object.number("clock", u64::from(event.receiver_clock()));
    match event.kind() {
        Kind::Reception | Kind::Hit => {
            object.number("source", u64::from(event.sender()));
            object.number("sent_at", u64::from(event.sender_clock()));
        }
        Kind::Miss => {}
        Kind::Misses => object.number("count", u64::from(event.count())),
    }
}

fn kind_name(kind: Kind) -> &'static str {
    match kind {
        Kind::Reception => "reception",
        Kind::Hit => "hit",
        Kind::Miss => "miss",
        Kind::Misses => "misses",
    }
}
