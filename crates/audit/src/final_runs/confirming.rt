//! Whether an outcome is that of a run without crashes, and final: validation
//! after the fact, by a certifying checker.
ghost use Rattle.std.specs.Prelude.{◌≤◌, IfOk, IfErr};
ghost use Rattle.limits.specs.Limits.{most_ranks};
ghost use Rattle.audit.specs.Reachable.{IsReachable};
ghost use Rattle.audit.specs.FinalRuns.Final.{IsConfirmed, IsFinal, IsWhy, NoneIsUnfinished, seen_of};
ghost use Rattle.audit.specs.FinalRuns.Maximal.{IsPossible};

use crate::Outcome;
use crate::ahead::Ahead;
use crate::auditing::find_with;
use crate::auditor::stretching::{InTurn, SideBySide, Stretching};
use crate::final_runs::fault::FinalFault;
use crate::final_runs::stalled::not_stalled;
use crash_free::Sim;
use limits::Heap;
use rank_language::Program;
use std::thread::Threads;

/// That an outcome is one of a run without crashes, in which each rank reported
/// as stalled has stalled.
#[derive(Clone, Copy)]
pub struct Final;

/// Audits the outcome, and says yes only if each rank reported as stalled has,
/// too, no message in the run that it waits for. What an unfinished rank sent
/// isn't looked at: the run may have more of that than was sent.
///
/// So if no rank is unfinished, the outcome is one that the program can come to
/// at an end. It takes an audit, and of each such rank a look at what each
/// other sent it.
pub fn confirm(
    alloc: Heap,
    program: &Program,
    ranks: u8,
    outcome: &Outcome,
    steps: u32,
) -> Result<Final, FinalFault>
    requires some { 1 ≤ ranks }
    requires few { ranks ≤ most_ranks }
    ensures ok { IfOk result (λ _. IsFinal program.now ranks outcome.now) }
    ensures possible { IfOk result (λ _. NoneIsUnfinished outcome.now.ends → IsPossible program.now ranks (seen_of outcome.now)) }
    ensures within { IfOk result (λ _. IsReachable program.now ranks outcome.now steps) }
    ensures err { IfErr result (λ fault. IsWhy program.now ranks outcome.now steps fault) }
{
    match confirmed_run(alloc, program, ranks, outcome, steps) {
        Ok(run) => {
            drop(run);
            Ok(Final)
        }
        Err(fault) => Err(fault),
    }
}

/// The run that `confirm` finds: one of the program without crashes that has the
/// outcome, in which each rank reported as stalled has stalled.
///
/// It answers as `confirm` does, and takes as long.
pub fn confirmed_run<'p>(
    alloc: Heap,
    program: &'p Program,
    ranks: u8,
    outcome: &Outcome,
    steps: u32,
) -> Result<Sim<'p>, FinalFault>
    requires some { 1 ≤ ranks }
    requires few { ranks ≤ most_ranks }
    ensures ok { IfOk result (λ run. IsConfirmed program.entry.now ranks outcome.now steps run) }
    ensures err { IfErr result (λ fault. IsWhy program.entry.now ranks outcome.now steps fault) }
{
    confirmed_with(&InTurn, Ahead::none(program, ranks, steps), alloc, outcome)
}

/// The same, behind a run that was made ahead, of its program, its ranks and its steps.
/// It goes through long stretches of steps of the ranks' own side by side, on threads.
/// Where a thread can't be made it does what that thread would.
pub fn confirmed_run_behind<'p, R: Threads + Sync>(
    rt: &R,
    ahead: Ahead<'p>,
    alloc: Heap,
    outcome: &Outcome,
) -> Result<Sim<'p>, FinalFault>
    ensures ok { IfOk result (λ run. IsConfirmed ahead.entry.program ahead.entry.ranks outcome.now ahead.entry.steps run) }
    ensures err { IfErr result (λ fault. IsWhy ahead.entry.program ahead.entry.ranks outcome.now ahead.entry.steps fault) }
{
    confirmed_with(&SideBySide { rt }, ahead, alloc, outcome)
}

/// The same, with long stretches of steps of the ranks' own left to `stretching`.
fn confirmed_with<'p, S: Stretching>(
    stretching: &S,
    ahead: Ahead<'p>,
    alloc: Heap,
    outcome: &Outcome,
) -> Result<Sim<'p>, FinalFault>
    requires can { S.can stretching.now }
    ensures ok { IfOk result (λ run. IsConfirmed ahead.entry.program ahead.entry.ranks outcome.now ahead.entry.steps run) }
    ensures err { IfErr result (λ fault. IsWhy ahead.entry.program ahead.entry.ranks outcome.now ahead.entry.steps fault) }
{
    match find_with(stretching, ahead, alloc, outcome) {
        Ok(run) => match not_stalled(&run, outcome.ends.as_slice()) {
            None => Ok(run),
            Some(rank) => Err(FinalFault::FalseStall(rank)),
        },
        Err(fault) => Err(FinalFault::Audit(fault)),
    }
}
