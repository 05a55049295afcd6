//! A world that is led along a run, and the events that it took.

use crate::fault::PlayFault;
use crate::lives::LedRank;
use crate::looks::{clock_of, is_known};
use crate::used::used_lines;
use limits::{Heap, MOST_EVENT_LINES};
use rank_text::script::ScriptLine;
use std::alloc::AllocError;
use world_model::{Reply, World, WorldEvent};

/// What a world was given so far, and where its ranks are.
#[derive(Drop)]
pub struct Course {
    events: Vec<WorldEvent, Heap>,
    pub lives: Vec<LedRank, Heap>,
    /// Why it can't be led further; then the world is given nothing more.
    room: Result<(), PlayFault>,
}

impl Course {
    /// No event. Each rank is at its beginning, with the lines of the script that
    /// it is to use.
    pub fn new(
        alloc: Heap,
        ranks: u8,
        script: &[ScriptLine],
        unused: &[usize],
    ) -> Result<Course, AllocError> {
        let mut lives = Vec::new(alloc);
        for rank in 0..ranks {
            let lines = used_lines(alloc, script, unused, rank)?;
            lives.push(LedRank::new(lines))?;
        }
        Ok(Course {
            events: Vec::new(alloc),
            lives,
            room: Ok(()),
        })
    }

    /// The events, which the world took all.
    pub fn into_events(self) -> Result<Vec<WorldEvent, Heap>, PlayFault> {
        let Course { events, room, .. } = self;
        match room {
            Ok(()) => Ok(events),
            Err(fault) => Err(fault),
        }
    }

    /// Whether it can be led further.
    pub fn goes_on(&self) -> bool {
        self.room.is_ok()
    }

    /// Gives the world an event. It goes on the list if it can happen.
    pub fn give(&mut self, world: &mut World<'_>, event: WorldEvent) -> Reply {
        if !self.goes_on() {
            return Reply::Refused;
        }
        match world.apply(event) {
            Ok(Reply::Refused) => Reply::Refused,
            Ok(reply) => {
                self.note(event);
                reply
            }
            Err(_) => {
                self.room = Err(PlayFault::Memory);
                Reply::Refused
            }
        }
    }

    fn note(&mut self, event: WorldEvent) {
        if self.events.len() >= MOST_EVENT_LINES {
            self.room = Err(PlayFault::TooManyEvents);
        } else if let Err(_) = self.events.push(event) {
            self.room = Err(PlayFault::Memory);
        }
    }

    /// The rank makes a step; whether that was an act.
    pub fn step(&mut self, world: &mut World<'_>, rank: u32) -> bool {
        let before = clock_of(world, rank);
        let _ = self.give(world, WorldEvent::Step { rank });
        clock_of(world, rank) != before
    }

    /// The next packet of the source arrives that didn't arrive before, behind
    /// all that comes before it on this wire.
    pub fn deliver(&mut self, world: &mut World<'_>, source: u32, dest: u32) {
        self.repeat(world, source, dest);
        if self.pass_frame(world, source, dest)
            && let Some(life) = self.lives.get_mut(dest as usize)
        {
            life.count(source);
        }
    }

    /// What goes from a rank to another arrives, up to the first packet that is
    /// new there: asks, words of an image, and packets that come again.
    pub fn repeat(&mut self, world: &mut World<'_>, source: u32, dest: u32) {
        let arrived = match self.lives.get(dest as usize) {
            Some(life) => life.arrived(source),
            None => 0,
        };
        // an ask and a word of an image come before the packets
        for _ in 0..arrived.saturating_add(2) {
            if !self.repeats(world, source, dest, arrived) {
                return;
            }
            let _ = self.pass_frame(world, source, dest);
        }
    }

    // Whether what goes next isn't new to a rank that has so many packets of the source.
    fn repeats(&mut self, world: &World<'_>, source: u32, dest: u32, arrived: u32) -> bool {
        match is_known(world, source, dest, arrived) {
            Ok(known) => known && self.goes_on(),
            Err(_) => {
                self.room = Err(PlayFault::Memory);
                false
            }
        }
    }

    // What goes next from a rank to another, if anything does, is put and arrives.
    fn pass_frame(&mut self, world: &mut World<'_>, source: u32, dest: u32) -> bool {
        let (Reply::PutData { index, .. }
        | Reply::PutAsk { index, .. }
        | Reply::PutKept { index, .. }) = self.give(world, WorldEvent::Put { source, dest }) else {
            return false;
        };
        let arrival = WorldEvent::Arrive {
            source,
            dest,
            index,
        };
        let _ = self.give(world, arrival);
        true
    }
}
