//! A rank that replays its events, its determinants, between a restart and the
//! last of them.
ghost use Rattle.std.specs.Prelude.{◌≡◌, ◌≢◌, ◌≤◌, [], length, Ok, Err};
ghost use Rattle.limits.specs.Limits.{most_events};
ghost use Rattle.rank_machine.specs.Machine.{machine_want, IsWantedBy};

mod frames;
mod stepping;
mod striding;

use crate::down::Down;
use crate::running::Running;
use crate::stable::Stable;
use checkpoint::Shelf;
use event_logger::Event;
use limits::Heap;
use rank_machine::{Want, Wanted};
use std::marker::Model;

/// A rank that replays. It must be settled, crashed or retired.
// It hands the rank that runs what is the same in a replay: frames, strides,
// clock, and what is read. Its own clauses add that the events left stay, and
// that nothing waits at the gate.
pub struct Replaying<'p, S: Shelf, D> {
    pub(crate) running: Running<'p, S, D>,
    // what its row had above the clock of its beginning
    pub(crate) events: Vec<Event, Heap>,
    // how many of them are replayed
    pub(crate) next: usize,
}

impl<'p, S: Shelf, D> Model for Replaying<'p, S, D> {
    ghost use Rattle.std.specs.Prelude.{◌≡◌, ◌≤◌, length, drop, []};
    ghost use Rattle.std.specs.Coded.{codes};
    ghost use Rattle.limits.specs.Limits.{most_events};
    ghost use Rattle.rank_language.specs.Coding.{placed_code};
    ghost use Rattle.rank_node.specs.Replay.{Replay};

    ghost Value = { Replay S D };

    ghost coded = { Prim.hlevel (codes, placed_code) };

    ghost view = { λ r. record { node = r.running; left = drop r.next r.events.items } };

    ghost invariant = { λ r. (r.next ≤ length r.events.items) × (length r.events.items ≤ most_events) × (r.running.pending ≡ []) };
}

impl<'p, S: Shelf, D> Replaying<'p, S, D> {
    /// How many events are still to be replayed.
    pub fn left(&self) -> u32
        ensures left { result ≡ length self.now.left }
        ensures most { result ≤ most_events }
    {
        (self.events.len() - self.next) as u32
    }

    /// Goes on as a rank that runs, if nothing is left to be replayed. An `Err`
    /// gives the rank back.
    pub fn settle(self) -> Result<Running<'p, S, D>, Replaying<'p, S, D>>
        ensures done { self.entry.left ≡ [] → result ≡ Ok self.entry.node }
        ensures more { self.entry.left ≢ [] → result ≡ Err self.entry }
    {
        if self.left() != 0 {
            return Err(self);
        }
        Ok(self.end())
    }

    /// The rank crashes again: what is stable outlives it. It takes no memory.
    pub fn crash(self) -> Down<S, D>
        ensures { result ≡ self.entry.node.stable }
    {
        self.end().crash()
    }

    /// The rank stops for good.
    pub fn retire(self) -> Stable<S, D>
        ensures { result ≡ self.entry.node.stable }
    {
        self.end().retire()
    }

    // The replay ends here.
    pub(crate) fn end(self) -> Running<'p, S, D>
        ensures { result ≡ self.entry.node }
    {
        let Replaying {
            running,
            events: _,
            next: _,
        } = self;
        running
    }

    /// What its machine wants next.
    pub fn wants(&self) -> Want
        ensures { result ≡ machine_want self.now.node.machine }
    {
        self.running.wants()
    }

    /// What its machine wants next, with what was evaluated to find it.
    pub fn wanted(&self) -> Wanted
        ensures { IsWantedBy self.now.node.machine result }
    {
        self.running.wanted()
    }

    /// How many acts it has made.
    pub fn clock(&self) -> u32
        ensures { result ≡ self.now.node.clock }
    {
        self.running.clock()
    }
}
