//! Stretches: what ranks do between two acts, side by side on threads.
//!
//! Between two acts a machine needs nobody. So copies of the machines go on, each
//! with nothing but itself, and the simulation takes up where they stand.
ghost use Rattle.std.specs.Prelude.{◌≡◌, ◌<◌, ℕ, IfOk, IsSomeAnd, OnErr, OnOk, length, slice_get};
ghost use Rattle.rank_machine.specs.Machine.{Strides, KeepsRank};
ghost use Rattle.crash_free.specs.Sim.{Simulates, CollectivesAgree};
ghost use Rattle.crash_free.specs.SideBySide.{GoSideBySide, StopAtActs};
ghost use Rattle.crash_free.specs.Stretches.{GoesAhead, AreBefore, GoFrom, with_machine};

use crate::sim::Sim;
use limits::Heap;
use rank_machine::Machine;
use rank_machine::laws::law_wants_of_its_state;
use std::alloc::AllocError;
use std::thread::{Threads, for_each_mut};

/// A machine, and how many steps of its own it may still make.
#[derive(Drop)]
struct Stretch<'p> {
    machine: Machine<'p>,
    left: u32,
}

impl Stretch<'_> {
    /// Makes steps until the machine wants something else, or none is left.
    fn go(&mut self)
        ensures { GoesAhead self.old self.new }
    {
        self.left -= self.machine.advance(self.left);
        law_wants_of_its_state(&self.machine);
    }
}

impl<'p> Sim<'p> {
    /// Makes steps of their own of all ranks, side by side on so many threads: of
    /// each rank until it wants something else, but no more than it has left.
    /// Where a thread can't be made it does what that thread would.
    ///
    /// An `Err` means out of memory. Then nothing has changed.
    pub fn stride_all<R: Threads + Sync>(
        &mut self,
        rt: &R,
        threads: usize,
        left: &mut [u32],
    ) -> Result<(), AllocError>
        requires threads { 0 < threads }
        requires width { length left.old ≡ length self.old.machines }
        ensures inside { OnOk result (GoSideBySide self.old left.old left.new self.new) }
        ensures stops { OnOk result (StopAtActs left.new self.new) }
        ensures err { OnErr result (self.new ≡ self.old) }
        ensures kept { OnErr result (left.new ≡ left.old) }
        ensures stands { Simulates self.new }
        ensures collectives { CollectivesAgree self.new }
    {
        let _ = &self.machines;
        let mut stretches = self.stretches(left)?;
        for_each_mut(
            rt,
            &mut stretches,
            threads,
            &|_: usize, stretch: &mut Stretch<'_>|
                ensures { GoesAhead stretch.old stretch.new }
            { stretch.go() },
        );
        self.take_up_all(stretches, left);
        let _ = &self.machines;
        Ok(())
    }

    /// The stretches that lie before the ranks.
    fn stretches(&self, left: &[u32]) -> Result<Vec<Stretch<'p>, Heap>, AllocError>
        requires width { length left.now ≡ length self.now.machines }
        ensures width { IfOk result (λ stretches. length stretches.items ≡ length self.now.machines) }
        ensures before { IfOk result (λ stretches. AreBefore self.now.machines left.now stretches.items) }
    {
        let mut stretches = Vec::with_capacity(self.alloc, left.len())?;
        for place in 0..left.len() {
            stretches.push(Stretch {
                machine: self.machines[place].copy(self.alloc)?,
                left: left[place],
            })?;
        }
        Ok(stretches)
    }

    /// The ranks go on to where their stretches went.
    fn take_up_all(&mut self, mut stretches: Vec<Stretch<'p>, Heap>, left: &mut [u32])
        requires ranks { length stretches.items ≡ length self.old.machines }
        requires width { length left.old ≡ length self.old.machines }
        requires goes { GoFrom self.old.machines left.old stretches.items }
        ensures inside { GoSideBySide self.old left.old left.new self.new }
        ensures stops { StopAtActs left.new self.new }
    {
        while let Some(stretch) = stretches.pop() {
            let place = stretches.len();
            self.take_up(place, stretch.machine);
            left[place] = stretch.left;
        }
    }

    /// One rank goes on to where this machine stands.
    fn take_up(&mut self, place: usize, machine: Machine<'p>)
        requires goes { IsSomeAnd (slice_get self.old.machines place) (λ m. KeepsRank m machine × (n : ℕ) × Strides n m machine) }
        ensures { self.new ≡ with_machine self.old place machine.entry }
    {
        self.machines[place] = machine;
    }
}
