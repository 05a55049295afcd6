//! What was never received in runs that have an outcome, with the lines of the sends.
ghost use Rattle.std.specs.Prelude.{◌≡◌, ◌<◌, IfOk, Some, length, slice_get};
ghost use Rattle.runner.specs.SentLines.{AreLined, AreListed, HaveLines};

use crate::commands::exploring::limits_of;
use crate::commands::sent_lines::{lined_left, unlined};
use crate::explored::{LinedLeftovers, LinedOutcome, outcome_at};
use command_line::ExploreJob;
use explore::{Explored, FoundOutcome, Leftovers, SendMode, run_leaving};
use limits::Heap;
use rank_language::Program;
use std::alloc::AllocError;

/// What is listed of each outcome of a search by this mode of sends. The statement at position K of
/// the program stands on line `lines[K]` of its text. An `Err` means out of memory.
#[tactic(auto, using(crate::proofs::SentLines::none_lined, crate::proofs::SentLines::one_more_lined))]
pub fn lined_of(
    alloc: Heap,
    mode: SendMode,
    job: ExploreJob<'_>,
    program: &Program,
    lines: &[usize],
    found: &Explored,
) -> Result<Vec<LinedOutcome, Heap>, AllocError>
    ensures { IfOk result (λ lined. AreLined mode program.now job.entry.ranks lines.now found.now.outcomes found.now.left lined.items) }
{
    let mut lined = Vec::new(alloc);
    for index in 0..found.outcomes.len() {
        let outcome = outcome_at(found, index);
        lined.push(lined_outcome(alloc, mode, job, program, lines, outcome)?)?;
    }
    Ok(lined)
}

#[tactic(auto, using(crate::proofs::SentLines::none_listed))]
fn lined_outcome(
    alloc: Heap,
    mode: SendMode,
    job: ExploreJob<'_>,
    program: &Program,
    lines: &[usize],
    outcome: &FoundOutcome,
) -> Result<LinedOutcome, AllocError>
    ensures { IfOk result (AreListed mode program.now job.entry.ranks lines.now outcome.now.ranks outcome.now.left) }
{
    let mut left = Vec::new(alloc);
    for index in 0..outcome.left.len() {
        let some = leftovers_at(outcome, index);
        left.push(lined_leftovers(alloc, mode, job, program, lines, outcome, some)?)?;
    }
    Ok(LinedOutcome { left })
}

fn leftovers_at(outcome: &FoundOutcome, index: usize) -> &Leftovers
    requires { index < length outcome.now.left }
    ensures { slice_get outcome.now.left index ≡ Some result.now }
{
    &outcome.left[index]
}

// Lines are those of a run that is made again; without one none is told.
#[tactic(auto, using(crate::proofs::SentLines::unknown_lines))]
fn lined_leftovers(
    alloc: Heap,
    mode: SendMode,
    job: ExploreJob<'_>,
    program: &Program,
    lines: &[usize],
    outcome: &FoundOutcome,
    left: &Leftovers,
) -> Result<LinedLeftovers, AllocError>
    ensures { IfOk result (HaveLines mode program.now job.entry.ranks lines.now outcome.now.ranks left.now) }
{
    if left.messages.is_empty() {
        return Ok(unlined(alloc, left.messages.as_slice())?);
    }
    match run_leaving(
        alloc,
        mode,
        program,
        job.ranks,
        limits_of(job),
        outcome,
        left,
    )? {
        Some(run) => Ok(lined_left(alloc, program, job.ranks, lines, &run)?),
        None => Ok(unlined(alloc, left.messages.as_slice())?),
    }
}
