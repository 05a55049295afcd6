//! The events of what happens.

use crate::fault::PlayFault;
use crate::plan::PlannedEvents;
use limits::{Heap, MOST_EVENTS, MOST_RANKS};
use world_model::WorldEvent;

// What is known of one rank while events are written.
#[derive(Clone, Copy)]
struct EventWriter {
    /// Whether its last act is a miss that isn't stored.
    missed: bool,
    /// How many events it has at the logger.
    stored: usize,
    /// How many frames it put, to each rank.
    put: [u64; MOST_RANKS],
}

/// A plan that grows.
///
/// What a rank is given is stored and acknowledged at once, and misses in a row
/// before its next other act: so no send and no line waits, and misses in a row
/// are one event.
#[derive(Drop)]
pub struct WrittenEvents {
    plan: PlannedEvents,
    writers: [EventWriter; MOST_RANKS],
    /// Why there are no events, the first that was found.
    room: Result<(), PlayFault>,
}

impl WrittenEvents {
    /// No event.
    pub fn new(alloc: Heap) -> WrittenEvents {
        let writer = EventWriter {
            missed: false,
            stored: 0,
            put: [0; MOST_RANKS],
        };
        WrittenEvents {
            plan: PlannedEvents::new(alloc),
            writers: [writer; MOST_RANKS],
            room: Ok(()),
        }
    }

    fn fail(&mut self, fault: PlayFault) {
        if self.room.is_ok() {
            self.room = Err(fault);
        }
    }

    /// The plan.
    pub fn into_plan(self) -> Result<PlannedEvents, PlayFault> {
        let WrittenEvents { plan, room, .. } = self;
        match room {
            Ok(()) => Ok(plan),
            Err(fault) => Err(fault),
        }
    }

    fn add(&mut self, event: WorldEvent, times: u32) {
        if let Err(_) = self.plan.add(event, times) {
            self.fail(PlayFault::Memory);
        }
    }

    /// The rank makes so many steps.
    pub fn step(&mut self, rank: u8, steps: u32) {
        let rank = u32::from(rank);
        self.add(WorldEvent::Step { rank }, steps);
    }

    /// The next message of the source to the rank arrives.
    pub fn arrive(&mut self, source: u8, dest: u8) {
        if let Some(index) = self.next_frame(source, dest) {
            let source = u32::from(source);
            let dest = u32::from(dest);
            self.add(WorldEvent::Put { source, dest }, 1);
            let arrival = WorldEvent::Arrive {
                source,
                dest,
                index,
            };
            self.add(arrival, 1);
        }
    }

    fn next_frame(&mut self, source: u8, dest: u8) -> Option<u64> {
        let writer = self.writers.get_mut(usize::from(source))?;
        let put = writer.put.get_mut(usize::from(dest))?;
        let index = *put;
        *put = index.saturating_add(1);
        Some(index)
    }

    /// The rank's last act is a miss.
    pub fn miss(&mut self, rank: u8) {
        if let Some(writer) = self.writers.get_mut(usize::from(rank)) {
            writer.missed = true;
        }
    }

    /// What the rank missed last is stored and acknowledged.
    pub fn store_misses(&mut self, rank: u8) {
        let Some(writer) = self.writers.get_mut(usize::from(rank)) else {
            return;
        };
        if writer.missed {
            writer.missed = false;
            self.store(rank);
        }
    }

    /// The rank's event is stored and acknowledged.
    pub fn store(&mut self, rank: u8) {
        let Some(writer) = self.writers.get_mut(usize::from(rank)) else {
            return;
        };
        writer.stored = writer.stored.saturating_add(1);
        if writer.stored > MOST_EVENTS {
            self.fail(PlayFault::RowLimit);
        }
        let rank = u32::from(rank);
        self.add(WorldEvent::Store { rank }, 1);
        self.add(WorldEvent::Ack { rank }, 1);
    }
}
