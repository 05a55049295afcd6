//! A state that comes back, so that the ranks may go on for ever.
ghost use Rattle.std.specs.Prelude.{◌<◌, ◌≤◌, IfOk, IfSome, OnOk, length, slice_index};
ghost use Rattle.limits.specs.Limits.{most_ranks};
ghost use Rattle.crash_free.specs.LiveVariables.Live.{IsTableOf};
ghost use Rattle.crash_free.specs.Sim.{Simulates};
ghost use Rattle.crash_free.specs.Wanted.{StandsAtAct};
ghost use Rattle.explore.specs.Cycles.{GoesFurther, MayGoOnForEver};
ghost use Rattle.explore.specs.Outcomes.{IsAmong};
ghost use Rattle.explore.specs.Sending.{HasRunUnder, IsReleasedAt};

mod mark;

use crate::bounds::Limits;
use crate::cycle::mark::CycleMark;
use crate::moves::{Move, add_moves};
use crate::path::Path;
use crate::released::is_released;
use crate::send_mode::SendMode;
use crate::steps::go_on;
use crash_free::live_variables::Live;
use limits::Heap;
use rank_language::Program;
use std::alloc::AllocError;

/// After how many rounds no state is looked for any more.
const MOST_ROUNDS: u32 = 10_000;

/// A state that came back in a run.
#[derive(Drop)]
pub struct Cycle {
    /// How many acts had been made when it stood first.
    pub before: usize,
    /// How many acts were made until it came back.
    pub acts: usize,
    /// The statements, from 0, at which ranks went on meanwhile.
    pub positions: Vec<usize, Heap>,
}

/// Plays one run, in which the ranks take turns and each probe that doesn't wait misses, and looks
/// whether a state comes back. If one does, the ranks may go on for ever. `None` if the run ends, if
/// no rank has steps left, or after many rounds. An `Err` means out of memory.
pub fn came_back(
    alloc: Heap,
    mode: SendMode,
    program: &Program,
    ranks: u8,
    limits: Limits,
) -> Result<Option<Cycle>, AllocError>
    requires some { 1 ≤ ranks }
    requires few { ranks ≤ most_ranks }
    ensures { IfOk result (λ found. IfSome found (λ _. MayGoOnForEver mode program.now ranks)) }
{
    let live = Live::of(alloc, program)?;
    let mut path = Path::new(alloc, program, ranks, limits.steps)?;
    follow(alloc, mode, &mut path, &live)
}

// Goes on with the path until a state comes back.
fn follow(
    alloc: Heap,
    mode: SendMode,
    path: &mut Path<'_>,
    live: &Live,
) -> Result<Option<Cycle>, AllocError>
    requires few { length path.old.sim.machines ≤ most_ranks }
    requires stands { Simulates path.old.sim }
    requires is_run { HasRunUnder mode path.old.sim }
    requires table { IsTableOf path.old.sim.program live.now }
    ensures { IfOk result (λ found. IfSome found (λ _. MayGoOnForEver mode path.old.sim.program (length path.old.sim.machines))) }
{
    let mut mark = CycleMark::new(alloc, path.sim.as_sim(), live)?;
    for _ in 0..MOST_ROUNDS {
        if !round(alloc, mode, path, &mut mark.positions)? {
            return Ok(None);
        }
        if mark.is_met(mode, path.sim.as_sim(), live)? {
            return Ok(Some(mark.into_cycle(path.sim.as_sim())));
        }
        mark.pass(path.sim.as_sim(), live)?;
    }
    Ok(None)
}

// Each rank makes steps of its own and an act, if it can. Answers whether any did. The statements
// at which one did are added.
fn round(
    alloc: Heap,
    mode: SendMode,
    path: &mut Path<'_>,
    positions: &mut Vec<usize, Heap>,
) -> Result<bool, AllocError>
    requires few { length path.old.sim.machines ≤ most_ranks }
    requires stands { Simulates path.old.sim }
    ensures { OnOk result (GoesFurther mode path.old.sim path.new.sim) }
{
    let ranks = path.sim.ranks();
    let mut some = false;
    let mut rank = 0;
    while rank < ranks {
        let position = path.sim.as_sim().machine(rank).position();
        if go_further(alloc, mode, path, rank)? {
            some = true;
            note(positions, position)?;
        }
        rank += 1;
    }
    Ok(some)
}

// Adds the position, unless it is among them.
fn note(positions: &mut Vec<usize, Heap>, position: usize) -> Result<(), AllocError> {
    if !positions.contains(&position) {
        positions.push(position)?;
    }
    Ok(())
}

// The rank makes steps of its own, and the act behind them if that is fixed; if there are none, it
// makes the last of the acts that it may make. A rank that a send holds does nothing. Answers whether
// it went on.
fn go_further(
    alloc: Heap,
    mode: SendMode,
    path: &mut Path<'_>,
    rank: u8,
) -> Result<bool, AllocError>
    requires rank { rank < length path.old.sim.machines }
    requires few { length path.old.sim.machines ≤ most_ranks }
    requires stands { Simulates path.old.sim }
    ensures { OnOk result (GoesFurther mode path.old.sim path.new.sim) }
{
    let left = path.left[usize::from(rank)];
    let made = go_on(mode, &mut path.sim, rank, left)?;
    path.left[usize::from(rank)] = left - made.count;
    if made.acted || made.count > 0 {
        return Ok(true);
    }
    if left == 0 || !is_released(mode, path.sim.as_sim(), rank) {
        return Ok(false);
    }
    choose_last(alloc, mode, path, rank)
}

// The rank makes the last of the acts that it may make: a miss, where there is one. Answers whether
// there was any.
fn choose_last(
    alloc: Heap,
    mode: SendMode,
    path: &mut Path<'_>,
    rank: u8,
) -> Result<bool, AllocError>
    requires rank { rank < length path.old.sim.machines }
    requires few { length path.old.sim.machines ≤ most_ranks }
    requires stands { Simulates path.old.sim }
    requires released { IsReleasedAt mode path.old.sim rank }
    requires at { StandsAtAct path.old.sim.machines rank }
    requires left { 0 < slice_index path.old.left rank }
    ensures { OnOk result (GoesFurther mode path.old.sim path.new.sim) }
{
    let mut found = Vec::new(alloc);
    if !add_moves(path.sim.as_sim(), rank, &mut found)? {
        return Ok(false);
    }
    let Some(last) = last_of(&found) else {
        return Ok(false);
    };
    path.choose(last, false)?;
    Ok(true)
}

fn last_of(moves: &[Move]) -> Option<Move>
    ensures { IfSome result (λ m. IsAmong moves.now m) }
{
    let index = moves.len().checked_sub(1)?;
    Some(moves[index])
}
