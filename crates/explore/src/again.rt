//! Acts of a run that are made once more.
ghost use Rattle.std.specs.Prelude.{◌≡◌, ◌<◌, Some, OnOk, length, slice_get};
ghost use Rattle.crash_free.specs.Seen.{act_of};
ghost use Rattle.crash_free.specs.Sim.{Simulates, start_of};
ghost use Rattle.crash_free.specs.Wanted.{StandsAtAct};
ghost use Rattle.audit.specs.FinalRuns.Maximal.{MayFollow};
ghost use Rattle.explore.specs.Counts.{Spends};
ghost use Rattle.explore.specs.Exploring.{and_then};
ghost use Rattle.explore.specs.Searching.{IsAlike};

use crate::resting::RestingSim;
use crash_free::{Act, Passed};
use std::alloc::AllocError;

pub fn act_at(acts: &[Passed], at: usize) -> &Passed
    requires { at < length acts.now }
    ensures { slice_get acts.now at ≡ Some result.now }
{
    &acts[at]
}

/// Makes this act of the rank, which asks for no step of its own first. An
/// `Err` means out of memory.
#[tactic(auto, using(crate::proofs::Shown::made_it, crate::proofs::Shown::made_alike))]
pub fn make(sim: &mut RestingSim<'_>, rank: u8, act: &Act) -> Result<(), AllocError>
    requires stands { Simulates sim.old }
    requires at { StandsAtAct sim.old.machines rank }
    requires may { MayFollow (start_of sim.old.program (length sim.old.machines)) (length sim.old.machines) sim.old.run rank (act_of act.now) }
    ensures alike { OnOk result (IsAlike sim.old sim.new) }
    ensures stands { Simulates sim.new }
    ensures spends { OnOk result (Spends sim.old rank 1 sim.new) }
    ensures run { OnOk result (sim.new.run ≡ and_then sim.old.run rank (act_of act.now)) }
{
    // the act may follow, so there was no memory
    if sim.act(rank, act.choice()).is_err() {
        return Err(AllocError);
    }
    Ok(())
}
