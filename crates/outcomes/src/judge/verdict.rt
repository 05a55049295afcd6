//! Whether some run without crashes has an outcome.
ghost use Rattle.std.specs.Prelude.{◌≤◌, IfOk};
ghost use Rattle.limits.specs.Limits.{most_ranks};
ghost use Rattle.outcomes.specs.Judge.Judged.{IsRight};

use audit::final_runs::{FinalFault, confirm};
use audit::{AuditFault, Outcome};
use limits::Heap;
use rank_language::Program;
use std::alloc::AllocError;

/// Whether an outcome is that of some run without crashes, in which each rank
/// reported as stalled has stalled.
#[derive(Clone, Copy)]
pub enum Verdict {
    /// Some run has it.
    Yes,
    /// No run has it in which each rank comes to its end within the steps. The
    /// fault is that of `confirm`.
    No(FinalFault),
}

/// Judges the outcome of a run of `ranks` ranks, each of which may make so many
/// steps, its own and acts. An `Err` means out of memory.
#[tactic(auto, using(crate::proofs::JudgeLaws::Judging::is_no, crate::proofs::JudgeLaws::Judging::is_yes))]
pub fn judge(
    alloc: Heap,
    program: &Program,
    ranks: u8,
    outcome: &Outcome,
    steps: u32,
) -> Result<Verdict, AllocError>
    requires some { 1 ≤ ranks }
    requires few { ranks ≤ most_ranks }
    ensures { IfOk result (IsRight program.now ranks outcome.now steps) }
{
    match confirm(alloc, program, ranks, outcome, steps) {
        Ok(_) => Ok(Verdict::Yes),
        Err(FinalFault::Audit(AuditFault::Memory)) => Err(AllocError),
        Err(fault) => Ok(Verdict::No(fault)),
    }
}
