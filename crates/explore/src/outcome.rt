//! The outcome of a run in which no rank can go on.
ghost use Rattle.std.specs.Prelude.{◌≡◌, ◌<◌, ℕ, ℤ, IfOk, length, map};
ghost use Rattle.crash_free.specs.Runs.{printed};
ghost use Rattle.crash_free.specs.Sim.{Simulates, start_of};
ghost use Rattle.explore.specs.Sending.{AllStillUnder, HasRunUnder, IsOutcomeUnder, IsRankOutcomeUnder, StandsStillUnder};

use crate::released::is_released;
use crate::send_mode::SendMode;
use audit::End;
use audit::final_runs::{RankEnd, rank_end};
use crash_free::Sim;
use limits::Heap;
use std::alloc::AllocError;

/// The outcome of a run, rank by rank. A rank that a send holds has stalled. An
/// `Err` means out of memory.
pub fn outcome_of(
    alloc: Heap,
    mode: SendMode,
    sim: &Sim<'_>,
) -> Result<Vec<RankEnd, Heap>, AllocError>
    requires stands { Simulates sim.now }
    requires is_run { HasRunUnder mode sim.now }
    requires still { AllStillUnder mode sim.now }
    ensures { IfOk result (λ ends. IsOutcomeUnder mode (start_of sim.now.program (length sim.now.machines)) (length sim.now.machines) sim.now.run ends.items) }
{
    let ranks = sim.ranks();
    let mut ends = Vec::new(alloc);
    let mut rank = 0;
    while rank < ranks {
        ends.push(end_of(alloc, mode, sim, rank)?)?;
        rank += 1;
    }
    Ok(ends)
}

// What is seen of this rank.
fn end_of(alloc: Heap, mode: SendMode, sim: &Sim<'_>, rank: u8) -> Result<RankEnd, AllocError>
    requires rank { rank < length sim.now.machines }
    requires stands { Simulates sim.now }
    requires still { StandsStillUnder mode sim.now rank }
    ensures { IfOk result (λ ended. IsRankOutcomeUnder mode (start_of sim.now.program (length sim.now.machines)) (length sim.now.machines)
        sim.now.run rank ended) }
{
    if is_released(mode, sim, rank) {
        rank_end(alloc, sim, rank)
    } else {
        held_end(alloc, sim, rank)
    }
}

// What is seen of a rank that a send holds.
fn held_end(alloc: Heap, sim: &Sim<'_>, rank: u8) -> Result<RankEnd, AllocError>
    requires { rank < length sim.now.machines }
    ensures lines { IfOk result (λ ended. ended.lines ≡ map (λ (line : ℕ × ℤ). line.1) (printed sim.now.run rank)) }
    ensures stalled { IfOk result (λ ended. ended.end ≡ End.Stalled) }
{
    let lines = sim.lines(rank).to_vec(alloc)?;
    Ok(RankEnd {
        lines,
        end: End::Stalled,
    })
}
