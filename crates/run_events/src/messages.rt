//! The messages of a run, by the ranks between which they go.

use crash_free::{Act, Passed};
use limits::{Heap, MOST_RANKS};
use matching::{Context, Selector};
use std::alloc::AllocError;

/// A message.
#[derive(Clone, Copy)]
pub struct Message {
    /// The index of the act that sends it.
    pub send: usize,
    pub context: Context,
    pub tag: u16,
    pub taken: bool,
}

// The messages of one rank to another, the first one first.
#[derive(Drop)]
struct MessageLane {
    messages: Vec<Message, Heap>,
    /// How many of the first ones are taken.
    taken: usize,
}

/// All messages of a run.
#[derive(Drop)]
pub struct Messages {
    lanes: Vec<MessageLane, Heap>,
}

fn lane_of(source: u8, dest: u8) -> usize {
    usize::from(source)
        .saturating_mul(MOST_RANKS)
        .saturating_add(usize::from(dest))
}

// A lane from each rank to each.
fn lanes_of(alloc: Heap) -> Result<Vec<MessageLane, Heap>, AllocError> {
    let mut lanes = Vec::new(alloc);
    for _ in 0..MOST_RANKS * MOST_RANKS {
        lanes.push(MessageLane {
            messages: Vec::new(alloc),
            taken: 0,
        })?;
    }
    Ok(lanes)
}

// The index of a place from 1; none is at place 0.
fn index_of(place: u64) -> usize {
    place.wrapping_sub(1) as usize
}

impl Messages {
    /// The messages that these acts send, none of them taken.
    pub fn of(alloc: Heap, acts: &[Passed]) -> Result<Messages, AllocError> {
        let lanes = lanes_of(alloc)?;
        let mut messages = Messages { lanes };
        for send in 0..acts.len() {
            messages.note(send, &acts[send])?;
        }
        Ok(messages)
    }

    // Notes what the act of this index sends.
    fn note(&mut self, send: usize, passed: &Passed) -> Result<(), AllocError> {
        match &passed.act {
            Act::Sends {
                dest,
                context,
                tag,
                ..
            } => {
                let message = Message {
                    send,
                    context: *context,
                    tag: *tag,
                    taken: false,
                };
                self.add(passed.rank, *dest, message)
            }
            Act::Takes { .. } | Act::Hits { .. } | Act::Misses | Act::Prints(_) => Ok(()),
        }
    }

    fn add(&mut self, source: u8, dest: u8, message: Message) -> Result<(), AllocError> {
        if let Some(lane) = self.lanes.get_mut(lane_of(source, dest)) {
            lane.messages.push(message)?;
        }
        Ok(())
    }

    /// The act that sent the message at this place, from 1, of the source to the rank.
    pub fn send_of(&self, source: u8, dest: u8, place: u64) -> Option<usize> {
        match self.between(source, dest).get(index_of(place)) {
            Some(message) => Some(message.send),
            None => None,
        }
    }

    /// The act that sends the first message of the source to the rank that
    /// matches and isn't taken, at any time of the run.
    pub fn first(&self, source: u8, dest: u8, selector: &Selector) -> Option<usize> {
        match selector.source {
            Some(named) if named != source => return None,
            Some(_) | None => {}
        }
        let lane = self.lanes.get(lane_of(source, dest))?;
        for message in lane.messages.get(lane.taken..).unwrap_or(&[]) {
            if is_match(message, selector) {
                return Some(message.send);
            }
        }
        None
    }

    /// The messages of the source to the rank, the first one first.
    pub fn between(&self, source: u8, dest: u8) -> &[Message] {
        match self.lanes.get(lane_of(source, dest)) {
            Some(lane) => lane.messages.as_slice(),
            None => &[],
        }
    }

    /// The message at this place, from 1, is taken.
    pub fn take(&mut self, source: u8, dest: u8, place: u64) {
        if let Some(lane) = self.lanes.get_mut(lane_of(source, dest)) {
            lane.take(place);
        }
    }
}

impl MessageLane {
    fn take(&mut self, place: u64) {
        if let Some(message) = self.messages.get_mut(index_of(place)) {
            message.taken = true;
        }
        for _ in 0..self.messages.len() {
            match self.messages.get(self.taken) {
                Some(message) if message.taken => self.taken = self.taken.saturating_add(1),
                Some(_) | None => return,
            }
        }
    }
}

fn is_match(message: &Message, selector: &Selector) -> bool {
    if message.taken || message.context != selector.context {
        return false;
    }
    match selector.tag {
        Some(tag) => tag == message.tag,
        None => true,
    }
}
