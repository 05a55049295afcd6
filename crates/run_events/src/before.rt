//! What has to come before what, for each rank to find what the run gives it.
//!
//! A rank finds the message that arrived first of those that match and aren't
//! taken, and the messages of a source arrive in the order of their sends. So what
//! the run gives to an act has arrived before the act, and before each other
//! message that the act could have been given; and what a miss could have found
//! arrives after it. Of each source the first such message is enough.

use crate::asked::Asked;
use crate::messages::{Message, Messages};
use crate::order::{Dependencies, Happening};
use crash_free::{Act, Passed};
use limits::{Heap, MOST_RANKS};
use matching::Selector;
use std::alloc::AllocError;

/// What waits for what in a run of so many ranks.
pub fn waits_of(
    alloc: Heap,
    ranks: u8,
    acts: &[Passed],
    asked: &[Asked],
) -> Result<Dependencies, AllocError> {
    let mut messages = Messages::of(alloc, acts)?;
    let mut waits = Dependencies::new(alloc, acts.len())?;
    add_turns(&mut waits, acts);
    for index in 0..acts.len() {
        let passed = &acts[index];
        let found = SeekingAct {
            ranks,
            rank: passed.rank,
            index,
            selector: selector_of(asked, index),
        };
        add_waits(&mut waits, &mut messages, &found, &passed.act);
    }
    add_lanes(&mut waits, &messages, ranks);
    Ok(waits)
}

fn made(act: usize) -> Happening {
    Happening {
        act,
        arrives: false,
    }
}

fn arrived(act: usize) -> Happening {
    Happening { act, arrives: true }
}

// Each act of a rank waits for the one before it.
fn add_turns(waits: &mut Dependencies, acts: &[Passed]) {
    let mut last = [None; MOST_RANKS];
    for index in 0..acts.len() {
        let passed = &acts[index];
        if let Some(before) = last.get_mut(usize::from(passed.rank)) {
            if let Some(before) = *before {
                waits.add(made(index), made(before));
            }
            *before = Some(index);
        }
    }
}

// What the act of this index names.
fn selector_of(asked: &[Asked], index: usize) -> Option<Selector> {
    match asked.get(index) {
        Some(asked) => asked.selector,
        None => None,
    }
}

// An act that may find a message.
#[derive(Clone, Copy)]
struct SeekingAct {
    ranks: u8,
    rank: u8,
    index: usize,
    selector: Option<Selector>,
}

fn add_waits(waits: &mut Dependencies, messages: &mut Messages, found: &SeekingAct, act: &Act) {
    match act {
        Act::Sends { .. } => waits.add(arrived(found.index), made(found.index)),
        Act::Takes { source, place } => {
            add_given(waits, messages, found, *source, *place);
            messages.take(*source, found.rank, *place);
        }
        Act::Hits { source, place } => add_given(waits, messages, found, *source, *place),
        Act::Misses => add_others(waits, messages, found, made(found.index)),
        Act::Prints(_) => {}
    }
}

// The act is given the message at this place of the source.
fn add_given(
    waits: &mut Dependencies,
    messages: &Messages,
    found: &SeekingAct,
    source: u8,
    place: u64,
) {
    if let Some(send) = messages.send_of(source, found.rank, place) {
        waits.add(made(found.index), arrived(send));
        add_others(waits, messages, found, arrived(send));
    }
}

// What the act could have been given arrives behind this.
fn add_others(
    waits: &mut Dependencies,
    messages: &Messages,
    found: &SeekingAct,
    before: Happening,
) {
    let Some(selector) = found.selector else {
        return;
    };
    for source in 0..found.ranks {
        if let Some(send) = messages.first(source, found.rank, &selector) {
            if !before.arrives || before.act != send {
                waits.add(arrived(send), before);
            }
        }
    }
}

// Of each rank the messages to another arrive in the order of their sends.
fn add_lanes(waits: &mut Dependencies, messages: &Messages, ranks: u8) {
    for source in 0..ranks {
        for dest in 0..ranks {
            add_lane(waits, messages.between(source, dest));
        }
    }
}

fn add_lane(waits: &mut Dependencies, lane: &[Message]) {
    let mut last = None;
    for message in lane {
        if let Some(before) = last {
            waits.add(arrived(message.send), arrived(before));
        }
        last = Some(message.send);
    }
}
