//! A job's run, and its report.
ghost use Rattle.std.specs.Prelude.{◌≡◌, ◌≤◌, IfErr, IfOk, length, string_bytes};
ghost use Rattle.limits.specs.Limits.{most_ranks};
ghost use Rattle.runner.specs.Answers.{IsReportText, IsRunAnswer};
ghost use Rattle.runner.specs.Reasons.{IsRunRefusal, UnlessMemory};
ghost use Rattle.runner.specs.Reports.{IsReportOf, IsReportUnder};
ghost use Rattle.runner.specs.Unreceived.{IsRunTold, TellsLeft};

use crate::commands::reading::{lined_in, script_by};
use crate::commands::refusal::Refusal;
use crate::commands::said::Said;
use crate::commands::scheduling::{certified_by, schedule_of};
use crate::commands::unreceived::left_text;
use crate::costs::print_costs;
use crate::files::Files;
use crate::output::{all_halted, print_report};
use command_line::RunJob;
use limits::Heap;
use rank_language::Program;
use rank_text::script::Script;
use rank_threads::{AuditStart, Certified, Hold, Report, RunFault, RunLimits, Schedule};
use std::alloc::AllocError;
use std::sync::Wait;
use std::thread::Threads;

/// Waits for no act.
#[derive(Drop)]
pub struct Nobody;

impl Hold for Nobody {
    fn before(&self, _rank: u8, _clock: u32) {}
}

/// The text of the report of the job's run. The status is 1 where a rank isn't
/// halted.
#[tactic(auto, using(crate::proofs::Answers::is_run_answer, crate::proofs::Answers::as_many_ends, crate::proofs::Reasons::of_memory, crate::proofs::Unreceived::is_run_told))]
pub fn ran<'a, R: Threads + Wait + Sync + Copy + Send, F: Files>(
    rt: &R,
    alloc: Heap,
    job: RunJob<'a>,
    files: &mut F,
) -> Result<Said, Refusal<'a>>
    ensures answer { IfOk result (λ said. IsRunAnswer (F.holds files.old) job.entry said.out.items said.status) }
    ensures told { IfOk result (λ said. IsRunTold (F.holds files.old) job.entry said.out.items (string_bytes said.err) said.status) }
    ensures refused { IfErr result (UnlessMemory (IsRunRefusal (F.holds files.old) job.entry)) }
{
    let made = report_of(rt, alloc, job, files)?;
    match answer(alloc, job, made) {
        Ok(said) => Ok(said),
        Err(error) => Err(Refusal::from(error)),
    }
}

// A report, and what is told of messages that were never received.
#[derive(Drop)]
struct Reported {
    report: Report,
    left: String<Heap>,
}

// The program is read and parsed before the script is read.
#[tactic(auto, using(crate::proofs::Answers::is_report_of, crate::proofs::Reasons::of_memory, crate::proofs::Reasons::run_of_program, crate::proofs::Reasons::run_of_script, crate::proofs::Reasons::run_of_fault, crate::proofs::Unreceived::as_many_machines, crate::proofs::Unreceived::tells_left))]
fn report_of<'a, R: Threads + Wait + Sync + Copy + Send, F: Files>(
    rt: &R,
    alloc: Heap,
    job: RunJob<'a>,
    files: &mut F,
) -> Result<Reported, Refusal<'a>>
    ensures report { IfOk result (λ made. IsReportOf (F.holds files.old) job.entry made.report) }
    ensures left { IfOk result (λ made. TellsLeft (F.holds files.old) job.entry made.report (string_bytes made.left)) }
    ensures refused { IfErr result (UnlessMemory (IsRunRefusal (F.holds files.old) job.entry)) }
{
    let lined = lined_in(alloc, job.program, files)?;
    let asked = script_by(alloc, job.script, job.ranks, files)?;
    let (program, script) = (&lined.program, &asked.script);
    let (limits, schedule) = (limits_of(job), schedule_of(job.scheduling));
    let start = AuditStart::Early;
    let made = certified_by(
        rt, alloc, program, job.ranks, script, limits, schedule, start,
    );
    drop(asked);
    let certified = match made {
        Ok(certified) => certified,
        Err(fault) => return Err(Refusal::from(fault)),
    };
    let left = left_text(alloc, &lined, job.ranks, &certified.run);
    let Certified { report, run } = certified;
    drop(run);
    match left {
        Ok(left) => Ok(Reported { report, left }),
        Err(error) => Err(Refusal::from(error)),
    }
}

/// The report of a run of the program under this script, scheduled so.
pub fn report_by<R: Threads + Wait + Sync + Copy + Send>(
    rt: &R,
    alloc: Heap,
    program: &Program,
    ranks: u8,
    script: &Script,
    limits: RunLimits,
    schedule: Option<Schedule>,
) -> Result<Report, RunFault>
    requires some { 1 ≤ ranks }
    requires few { ranks ≤ most_ranks }
    ensures { IfOk result (λ report. IsReportUnder program.now ranks script.now limits.steps report) }
{
    let start = AuditStart::Early;
    let Certified { report, run: _ } = certified_by(
        rt, alloc, program, ranks, script, limits, schedule, start,
    )?;
    Ok(report)
}

/// The limits of the job's run.
pub fn limits_of(job: RunJob<'_>) -> RunLimits
    ensures idle { result.idle ≡ job.entry.idle }
    ensures steps { result.steps ≡ job.entry.steps }
    ensures images { result.images_every ≡ job.entry.images_every }
{
    RunLimits {
        idle: job.idle,
        steps: job.steps,
        images_every: job.images_every,
    }
}

fn answer(alloc: Heap, job: RunJob<'_>, made: Reported) -> Result<Said, AllocError>
    requires { length made.report.outcome.ends ≡ job.ranks }
    ensures out { IfOk result (λ said. IsReportText job.entry.costs made.report said.out.items said.status) }
    ensures err { IfOk result (λ said. string_bytes said.err ≡ string_bytes made.left) }
{
    let Reported { report, left } = made;
    let mut text = print_report(alloc, job.ranks, &report)?;
    print_costs(&mut text, job.costs, &report)?;
    let status = if all_halted(&report.outcome) { 0 } else { 1 };
    Ok(Said {
        status,
        out: text.into_bytes(),
        err: left,
    })
}
