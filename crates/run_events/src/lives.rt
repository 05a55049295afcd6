//! Where a rank begins again, and which lines of its script come next.

use limits::{Heap, MOST_RANKS};
use rank_text::script::{Order, ScriptLine};
use std::alloc::AllocError;

/// What is known of a rank while a world is led along a run.
#[derive(Drop)]
pub struct LedRank {
    /// The lines of the script that it is to use, and how many it used.
    lines: Vec<ScriptLine, Heap>,
    used: usize,
    /// How many packets of each rank arrived at it, and how many its image has.
    arrived: [u32; MOST_RANKS],
    imaged: [u32; MOST_RANKS],
    /// The place in the plan behind its image.
    begin: usize,
}

impl LedRank {
    /// A rank at its beginning, which is to use these lines of a script.
    pub fn new(lines: Vec<ScriptLine, Heap>) -> LedRank {
        LedRank {
            lines,
            used: 0,
            arrived: [0; MOST_RANKS],
            imaged: [0; MOST_RANKS],
            begin: 0,
        }
    }

    /// How many packets of the source arrived.
    pub fn arrived(&self, source: u32) -> u32 {
        match self.arrived.get(source as usize) {
            Some(arrived) => *arrived,
            None => 0,
        }
    }

    /// One more packet of the source arrived.
    pub fn count(&mut self, source: u32) {
        if let Some(arrived) = self.arrived.get_mut(source as usize) {
            *arrived = arrived.saturating_add(1);
        }
    }

    /// What the next line asks for, if it is for this clock. It is used then,
    /// unless it asks for an image that can't be taken now.
    pub fn order_at(&mut self, clock: u32, may_image: bool) -> Option<Order> {
        let line = *self.lines.get(self.used)?;
        if line.clock != clock || (line.order == Order::Image && !may_image) {
            return None;
        }
        self.used = self.used.saturating_add(1);
        Some(line.order)
    }

    /// Whether the next line kills it at this clock.
    pub fn is_killed_at(&self, clock: u32) -> bool {
        match self.lines.get(self.used) {
            Some(line) => line.order == Order::Kill && line.clock == clock,
            None => false,
        }
    }

    /// It takes an image of itself at this place of the plan.
    pub fn image(&mut self, place: usize) {
        self.imaged = self.arrived;
        self.begin = place.saturating_add(1);
    }

    /// It starts again at its image, or at the beginning: the place in the plan
    /// behind that.
    pub fn restart(&mut self) -> usize {
        self.arrived = self.imaged;
        self.begin
    }
}
