//! Whether an outcome is that of a run without crashes: validation after the
//! fact, by a certifying checker.
ghost use Rattle.std.specs.Prelude.{◌≡◌, ◌≤◌, length, IfOk, IfErr};
ghost use Rattle.limits.specs.Limits.{most_ranks};
ghost use Rattle.audit.specs.Outcome.{IsOfSomeRun};
ghost use Rattle.audit.specs.Lines.{IsSorted};
ghost use Rattle.audit.specs.Counts.{AreCounted};
ghost use Rattle.audit.specs.Reachable.{IsReachable};
ghost use Rattle.audit.specs.Found.{IsFound};

use crate::ahead::Ahead;
use crate::auditor::Goal;
use crate::auditor::stretching::{InTurn, Stretching};
use crate::fault::AuditFault;
use crate::outcome::Outcome;
use crate::progress::Progress;
use crate::{counts, lines};
use crash_free::Sim;
use limits::Heap;
use rank_language::Program;

/// That an outcome is one of a run without crashes.
#[derive(Clone, Copy, Debug, PartialEq, Eq)]
pub struct Audited;

/// Says yes only if some run of the program without crashes has the outcome,
/// and, if there is memory, to each such outcome that no rank needs more than
/// so many steps for.
///
/// There are 1 to `MOST_RANKS` ranks of `limits`. Internal steps count
/// as acts do. A no names a fault, by its number 1 to 6.
pub fn audit(
    alloc: Heap,
    program: &Program,
    ranks: u8,
    outcome: &Outcome,
    steps: u32,
) -> Result<Audited, AuditFault>
    requires some { 1 ≤ ranks }
    requires few { ranks ≤ most_ranks }
    ensures ok { IfOk result (λ _. IsOfSomeRun program.now ranks outcome.now) }
    ensures within { IfOk result (λ _. IsReachable program.now ranks outcome.now steps) }
    ensures err { IfErr result (λ fault. IsReachable program.now ranks outcome.now steps → fault ≡ AuditFault.Memory) }
{
    match find_run(alloc, program, ranks, outcome, steps) {
        Ok(run) => {
            drop(run);
            Ok(Audited)
        }
        Err(fault) => Err(fault),
    }
}

/// The run that `audit` finds: one of the program without crashes that has the
/// outcome, with each rank where the outcome says that it ended.
///
/// It answers as `audit` does, and takes as long. Of an unfinished rank it has
/// what the rank can do with its row, its lines and its steps.
pub fn find_run<'p>(
    alloc: Heap,
    program: &'p Program,
    ranks: u8,
    outcome: &Outcome,
    steps: u32,
) -> Result<Sim<'p>, AuditFault>
    requires some { 1 ≤ ranks }
    requires few { ranks ≤ most_ranks }
    ensures ok { IfOk result (λ run. IsFound program.entry.now ranks outcome.now steps run) }
    ensures err { IfErr result (λ fault. IsReachable program.entry.now ranks outcome.now steps → fault ≡ AuditFault.Memory) }
{
    find_with(&InTurn, Ahead::none(program, ranks, steps), alloc, outcome)
}

/// The same, behind a run that was made ahead, and with long stretches of steps of the
/// ranks' own left to `stretching`.
pub(crate) fn find_with<'p, S: Stretching>(
    stretching: &S,
    ahead: Ahead<'p>,
    alloc: Heap,
    outcome: &Outcome,
) -> Result<Sim<'p>, AuditFault>
    requires can { S.can stretching.now }
    ensures ok { IfOk result (λ run. IsFound ahead.entry.program ahead.entry.ranks outcome.now ahead.entry.steps run) }
    ensures err { IfErr result (λ fault. IsReachable ahead.entry.program ahead.entry.ranks outcome.now ahead.entry.steps → fault ≡ AuditFault.Memory) }
{
    let ranks = ahead.ranks();
    if outcome.rows_count() != usize::from(ranks) {
        return Err(AuditFault::RowLeft);
    }
    if outcome.ends_count() != usize::from(ranks) {
        return Err(AuditFault::EndState);
    }
    let Some(lines) = lines::sort(alloc, ranks, outcome.lines.as_slice())? else {
        return Err(AuditFault::Output);
    };
    let Some(counts) = counts::count(alloc, outcome)? else {
        return Err(AuditFault::RowLeft);
    };
    let goal = Goal {
        outcome,
        counts: counts.as_slice(),
        lines: lines.as_slice(),
    };
    come_to(stretching, ahead, alloc, &goal)
}

/// The same, if the outcome has a row, its lines and an end of each rank.
fn come_to<'p, S: Stretching>(
    stretching: &S,
    ahead: Ahead<'p>,
    alloc: Heap,
    goal: &Goal<'_>,
) -> Result<Sim<'p>, AuditFault>
    requires can { S.can stretching.now }
    requires rows { length goal.now.outcome.now.rows ≡ ahead.ranks }
    requires ends { length goal.now.outcome.now.ends ≡ ahead.ranks }
    requires sorted { IsSorted ahead.ranks goal.now.outcome.now.lines goal.now.lines.now }
    requires counted { AreCounted goal.now.outcome.now.rows goal.now.counts.now }
    ensures ok { IfOk result (λ run. IsFound ahead.entry.program ahead.entry.ranks goal.now.outcome.now ahead.entry.steps run) }
    ensures err { IfErr result (λ fault. IsReachable ahead.entry.program ahead.entry.ranks goal.now.outcome.now ahead.entry.steps → fault ≡ AuditFault.Memory) }
{
    let Progress {
        mut auditor,
        mut left,
        ..
    } = ahead.progress_to(alloc, goal)?;
    auditor.play(stretching, goal, &mut left)?;
    auditor.verdict(goal, left.as_slice())?;
    Ok(auditor.into_run())
}
