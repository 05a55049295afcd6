//! What one rank made in a run, without its acts.
ghost use Rattle.std.specs.Prelude.{◌≡◌, ℕ, ◌+◌, ◌^◌, ◌<◌, [], length, slice_index_or, Some, IfSome, IfNone, IfOk, OnOk, OnErr};
ghost use Rattle.crash_free.specs.Runs.{at_place};
ghost use Rattle.crash_free.specs.Seen.{act_of};
ghost use Rattle.audit.specs.Trace.{AreInOrder};
ghost use Rattle.bare_world.specs.RunIndex.{none_made, made_with, made_without};

use audit::Clocks;
use crash_free::Act;
use limits::Heap;
use std::alloc::AllocError;
use std::marker::Model;

/// How many acts one rank made, and the clocks of what it sent to each.
#[derive(Drop)]
pub(super) struct Made {
    count: usize,
    clocks: Vec<Clocks, Heap>,
}

impl Model for Made {
    ghost use Rattle.bare_world.specs.RunIndex.{MadeValue};

    ghost Value = { MadeValue };

    ghost view = { λ m. record { count = m.count; clocks = m.clocks.items } };
}

impl Clone for Made {
    ghost is_clone = { λ made clone. clone ≡ made };

    fn clone(&self) -> Result<Made, AllocError> {
        let alloc = *self.clocks.allocator();
        Ok(Made {
            count: self.count,
            clocks: self.clocks.as_slice().to_vec(alloc)?,
        })
    }
}

impl Made {
    pub(super) fn new(alloc: Heap, ranks: u8) -> Result<Made, AllocError>
        ensures { IfOk result (λ made. made ≡ none_made ranks) }
    {
        let mut clocks = Vec::new(alloc);
        for _ in 0..ranks {
            clocks.push(Clocks::new(alloc))?;
        }
        Ok(Made { count: 0, clocks })
    }

    pub(super) fn count(&self) -> usize
        ensures { result ≡ self.now.count }
    {
        self.count
    }

    /// How many messages it sent to a rank.
    pub(super) fn sent(&self, dest: u8) -> usize
        requires { dest < length self.now.clocks }
        ensures { result ≡ length (slice_index_or self.now.clocks dest []) }
    {
        self.clocks[usize::from(dest)].len()
    }

    /// The place of a clock, from 1, among those of what was sent to a rank.
    pub(super) fn place_of(&self, dest: u8, clock: u64) -> Option<u64>
        requires there { dest < length self.now.clocks }
        requires rises { AreInOrder (slice_index_or self.now.clocks dest []) }
        ensures some { let sent = slice_index_or self.now.clocks dest [] in
            IfSome result (λ j. at_place sent j ≡ Some clock) }
        ensures none { let sent = slice_index_or self.now.clocks dest [] in
            IfNone result ((j : ℕ) → at_place sent j ≡ Some clock → ⊥) }
    {
        self.clocks[usize::from(dest)].place_of(clock)
    }

    /// Counts an act, and notes the clock of a send.
    pub(super) fn note(&mut self, act: &Act) -> Result<(), AllocError>
        requires { self.old.count + 1 < 2 ^ 64 }
        ensures ok { OnOk result (self.new ≡ made_with self.old (act_of act.now)) }
        ensures err { OnErr result (self.new ≡ self.old) }
    {
        let clock = self.count + 1;
        match act {
            Act::Sends { dest, .. } => {
                let dest = usize::from(*dest);
                if dest < self.clocks.len() {
                    self.clocks[dest].push(clock as u64)?;
                }
            }
            Act::Takes { .. } | Act::Hits { .. } | Act::Misses | Act::Prints(_) => {}
        }
        self.count = clock;
        Ok(())
    }

    /// Takes the last act back.
    pub(super) fn forget(&mut self, act: &Act)
        requires { 0 < self.old.count }
        ensures { self.new ≡ made_without self.old (act_of act.now) }
    {
        match act {
            Act::Sends { dest, .. } => {
                let dest = usize::from(*dest);
                if dest < self.clocks.len() {
                    self.clocks[dest].drop_last();
                }
            }
            Act::Takes { .. } | Act::Hits { .. } | Act::Misses | Act::Prints(_) => {}
        }
        self.count -= 1;
    }
}
