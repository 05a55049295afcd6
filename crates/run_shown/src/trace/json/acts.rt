//! The acts of a run, an object each.

use crate::json::{JsonLines, Object};
use crate::trace::acts::{message_at, sent};
use crate::trace::given::Told;
use crate::trace::message::{SentMessage, call_items, call_name, call_number};
use crate::trace::place::Place;
use crash_free::{Act, Passed};
use limits::Heap;
use matching::Context;

/// Writes each act.
pub fn put_acts(alloc: Heap, to: &mut JsonLines, told: Told<'_, '_>) {
    for index in 0..told.acts.len() {
        if let (Some(passed), Some(place)) = (told.acts.get(index), told.places.get(index)) {
            let mut object = Object::new(alloc);
            put_place(&mut object, told.lines, passed, *place);
            put_act(&mut object, told, index, &passed.act, *place);
            to.line(object);
        }
    }
}

fn put_place(object: &mut Object, lines: &[usize], passed: &Passed, place: Place) {
    object.text("act", name_of(&passed.act));
    object.number("rank", u64::from(passed.rank));
    object.number("clock", u64::from(place.clock));
    let line = lines.get(place.position).copied().unwrap_or(0);
    object.number("line", line as u64);
}

fn name_of(act: &Act) -> &'static str {
    match act {
        Act::Sends { .. } => "send",
        Act::Takes { .. } => "reception",
        Act::Hits { .. } => "hit",
        Act::Misses => "miss",
        Act::Prints(_) => "print",
    }
}

fn put_act(object: &mut Object, told: Told<'_, '_>, index: usize, act: &Act, place: Place) {
    match act {
        Act::Sends { dest, .. } => {
            object.number("destination", u64::from(*dest));
            put_message(object, message_at(told.acts, told.places, index));
        }
        Act::Takes { source, .. } => {
            object.number("source", u64::from(*source));
            let message = sent(told, index);
            if let Some(message) = message {
                object.number("sent_at", u64::from(message.clock));
            }
            put_message(object, message);
        }
        Act::Hits { source, .. } => {
            object.number("source", u64::from(*source));
            object.flag("iprobe", place.tries);
            if let Some(message) = sent(told, index) {
                put_mark(object, message);
            }
        }
        Act::Misses => {}
        Act::Prints(value) => object.integer("value", *value),
    }
}

fn put_message(object: &mut Object, message: Option<SentMessage<'_>>) {
    if let Some(message) = message {
        put_mark(object, message);
        object.integers("items", call_items(message));
    }
}

/// Of the message that the act of this index sent its source, and by what to know it.
pub fn put_sent(object: &mut Object, acts: &[Passed], places: &[Place], index: usize) {
    if let Some(passed) = acts.get(index) {
        object.number("source", u64::from(passed.rank));
    }
    if let Some(message) = message_at(acts, places, index) {
        put_mark(object, message);
    }
}

// By what to know a message: its tag, or the collective that it is of.
fn put_mark(object: &mut Object, message: SentMessage<'_>) {
    match message.context {
        Context::PointToPoint => object.number("tag", u64::from(message.tag)),
        Context::Collective => {
            object.text("collective", call_name(message.items));
            if let Some(number) = call_number(message.items) {
                object.integer("number", number);
            }
        }
    }
}
