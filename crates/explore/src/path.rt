//! Runs that a search makes.
ghost use Rattle.std.specs.Prelude.{◌≡◌, ◌<◌, ◌≤◌, [], IfOk, OnOk, length, sum, slice_index};
ghost use Rattle.limits.specs.Limits.{most_ranks};
ghost use Rattle.crash_free.specs.Sim.{Allows, Simulates};
ghost use Rattle.crash_free.specs.Wanted.{StandsAtAct};
ghost use Rattle.explore.specs.Chosen.{IsNoteAt};

use crate::moves::{Move, Noted};
use crate::races::asks_to_probe;
use crate::resting::RestingSim;
use crash_free::Sim;
use limits::{Heap, MOST_RANKS};
use rank_language::Program;
use std::alloc::AllocError;

/// A run, with what a search notes of it.
#[derive(Drop)]
pub struct Path<'p> {
    pub sim: RestingSim<'p>,
    /// How many steps each rank has left.
    pub left: [u32; MOST_RANKS],
    /// The moves that were made when there were others too, the first one
    /// first.
    pub choices: Vec<Noted, Heap>,
}

impl<'p> Path<'p> {
    ghost use Rattle.explore.specs.Chosen.{KeepsChoices};
    ghost use Rattle.explore.specs.Counts.{Counts, KeepsCount};
    ghost use Rattle.explore.specs.Sending.{IsReleasedAt};
    ghost use Rattle.explore.specs.declared.send_mode.SendMode.{SendMode};
    ghost use Rattle.explore.specs.Searching.{Begins};

    /// The empty run of a program on so many ranks, each of which has so many
    /// steps.
    pub fn new(
        alloc: Heap,
        program: &'p Program,
        ranks: u8,
        steps: u32,
    ) -> Result<Path<'p>, AllocError>
        requires some { 1 ≤ ranks }
        requires few { ranks ≤ most_ranks }
        ensures begins { IfOk result (λ path. Begins program.entry.now ranks path) }
        ensures stands { IfOk result (λ path. Simulates path.sim) }
        ensures counts { IfOk result (λ path. Counts steps path.sim path.left) }
        ensures none { IfOk result (λ path. path.choices.items ≡ []) }
    {
        Ok(Path {
            sim: RestingSim::new(alloc, program, ranks)?,
            left: [steps; MOST_RANKS],
            choices: Vec::new(alloc),
        })
    }

    /// Makes a move, which is noted as a choice if there are others. An `Err`
    /// means out of memory.
    pub fn choose(&mut self, chosen: Move, others: bool) -> Result<(), AllocError>
        requires rank { chosen.rank < length self.old.sim.machines }
        requires few { length self.old.sim.machines ≤ most_ranks }
        requires at { StandsAtAct self.old.sim.machines chosen.rank }
        requires left { 0 < slice_index self.old.left chosen.rank }
        ensures allowed { OnOk result (Allows self.old.sim chosen.rank chosen.choice self.new.sim) }
        ensures stands { OnOk result (Simulates self.new.sim) }
        ensures less { OnOk result (sum self.new.left < sum self.old.left) }
        ensures counts { OnOk result (KeepsCount self.old.sim self.old.left self.new.sim self.new.left) }
        ensures choices { OnOk result ((mode : SendMode) → IsReleasedAt mode self.old.sim chosen.rank → KeepsChoices mode self.old self.new) }
    {
        let _ = self.sim.ranks();
        let noted = noted(self.sim.as_sim(), chosen);
        // a choice of `moves` is allowed, so there was no memory
        if self.sim.act(chosen.rank, chosen.choice).is_err() {
            return Err(AllocError);
        }
        if others {
            self.choices.push(noted)?;
        }
        self.left[usize::from(chosen.rank)] -= 1;
        Ok(())
    }
}

#[tactic(auto, using(crate::proofs::Chosen::note_there))]
fn noted(sim: &Sim<'_>, chosen: Move) -> Noted
    requires { chosen.rank < length sim.now.machines }
    ensures { IsNoteAt sim.now.machines chosen result }
{
    Noted {
        chosen,
        position: sim.machine(chosen.rank).position(),
        probes: asks_to_probe(sim, chosen.rank),
    }
}
