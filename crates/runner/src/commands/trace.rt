//! A job's run, told act by act, or given as events.
ghost use Rattle.std.specs.Prelude.{◌≡◌, ◌≢◌, ◌≤◌, ◌++◌, [], IfErr, IfOk, reverse, string_bytes};
ghost use Rattle.audit.specs.Found.{IsFound};
ghost use Rattle.limits.specs.Limits.{most_ranks};
ghost use Rattle.run_events.specs.Plays.{IsPlayText};
ghost use Rattle.run_events.specs.Scripted.{IsScriptText};
ghost use Rattle.run_shown.specs.Trace.Lines.{BeginsWithActs};
ghost use Rattle.runner.specs.Statuses.{HasStatus};
ghost use Rattle.runner.specs.Events.{PlaysReport, PlaysScriptOf};
ghost use Rattle.runner.specs.Reasons.{IsTraceRefusal, IsUntold, UnlessMemory};
ghost use Rattle.runner.specs.Traces.{IsTold, IsTraceAnswer, TracesReport};
ghost use Rattle.rank_language.specs.StandOn.{IsLinedOf};

use crate::commands::reading::{ScriptFile, script_by, text_in};
use crate::commands::refusal::Refusal;
use crate::commands::run::limits_of;
use crate::commands::said::Said;
use crate::commands::scheduling::{certified_by, schedule_of};
use crate::files::Files;
use crate::output::{all_halted, calls_of, print_cost};
use command_line::{RunJob, TraceForm, TraceJob};
use crash_free::Sim;
use limits::Heap;
use rank_language::{LinedProgram, Program};
use rank_threads::{AuditStart, Cause, Certified, Report};
use run_events::{PlayFault, play_script_text, play_text};
use run_shown::trace::{Given, WhyUnfinished, trace_json, trace_text};
use std::alloc::AllocError;
use std::sync::Wait;
use std::thread::Threads;

/// The run without crashes behind the job's report. The status is 1 where a rank
/// isn't halted.
#[tactic(auto, using(crate::proofs::Traces::is_trace_answer, crate::proofs::Reasons::trace_unread, crate::proofs::Reasons::trace_faulty, crate::proofs::Reasons::trace_of_script, crate::proofs::Reasons::trace_untold))]
pub fn traced<'a, R: Threads + Wait + Sync + Copy + Send, F: Files>(
    rt: &R,
    alloc: Heap,
    job: TraceJob<'a>,
    files: &mut F,
) -> Result<Said, Refusal<'a>>
    ensures answer { IfOk result (λ said. IsTraceAnswer (F.holds files.old) job.entry said.out.items said.status) }
    ensures refused { IfErr result (UnlessMemory (IsTraceRefusal (F.holds files.old) job.entry.run)) }
{
    let text = text_in(job.run.program, files)?;
    let lined = LinedProgram::parse(alloc, text.as_slice())?;
    let asked = match script_by(alloc, job.run.script, job.run.ranks, files) {
        Ok(asked) => asked,
        Err(refusal) => {
            drop(lined);
            return Err(refusal);
        }
    };
    let said = told(rt, alloc, job, text.as_slice(), &lined, &asked);
    drop(lined);
    drop(asked);
    drop(text);
    match said {
        Ok(said) => Ok(said),
        Err(refusal) => Err(refusal),
    }
}

// The run is made, and that which confirms its report is told.
#[tactic(auto, using(crate::proofs::Reasons::untold_run))]
fn told<'a, R: Threads + Wait + Sync + Copy + Send>(
    rt: &R,
    alloc: Heap,
    job: TraceJob<'a>,
    text: &[u8],
    lined: &LinedProgram,
    asked: &ScriptFile,
) -> Result<Said, Refusal<'a>>
    requires { IsLinedOf text.now lined.now.program lined.now.lines.items }
    ensures told { IfOk result (λ said. IsTold text.now lined.now.program job.entry asked.now.script said.out.items said.status) }
    ensures refused { IfErr result (UnlessMemory IsUntold) }
{
    let limits = limits_of(job.run);
    let program = &lined.program;
    let script = &asked.script;
    let schedule = schedule_of(job.run.scheduling);
    // the acts of one outcome are shown in one order
    let start = AuditStart::Behind;
    let ranks = job.run.ranks;
    let certified = certified_by(rt, alloc, program, ranks, script, limits, schedule, start)?;
    let said = told_of(alloc, job, text, lined, asked, &certified);
    drop(certified);
    match said {
        Ok(said) => Ok(said),
        Err(refusal) => Err(refusal),
    }
}

#[tactic(auto, using(crate::proofs::Events::plays_report, crate::proofs::Events::plays_script, crate::proofs::Traces::traces_report, crate::proofs::Reasons::untold_run, crate::proofs::Reasons::untold_events, crate::proofs::Reasons::of_memory))]
fn told_of<'a>(
    alloc: Heap,
    job: TraceJob<'a>,
    text: &[u8],
    lined: &LinedProgram,
    asked: &ScriptFile,
    certified: &Certified<'_>,
) -> Result<Said, Refusal<'a>>
    requires lined { IsLinedOf text.now lined.now.program lined.now.lines.items }
    requires found { IsFound lined.now.program job.run.ranks certified.now.report.outcome job.run.steps certified.now.run }
    ensures status { IfOk result (λ said. HasStatus certified.now.report.outcome said.status) }
    ensures text { IfOk result (λ said. job.entry.form ≡ TraceForm.Text
        → TracesReport text.now lined.now.program job.entry.run.ranks certified.now.report.outcome job.entry.run.steps said.out.items) }
    ensures events { IfOk result (λ said. job.entry.form ≡ TraceForm.Events → asked.now.script ≡ []
        → PlaysReport lined.now.program job.entry.run.ranks certified.now.report.outcome job.entry.run.steps said.out.items) }
    ensures script { IfOk result (λ said. job.entry.form ≡ TraceForm.Events → asked.now.script ≢ []
        → PlaysScriptOf lined.now.program job.entry.run.ranks certified.now.report job.entry.run.steps asked.now.script said.out.items) }
    ensures refused { IfErr result (UnlessMemory IsUntold) }
{
    let report = &certified.report;
    let whys = whys_of(alloc, report.causes.as_slice())?;
    let given = Given {
        text,
        lines: lined.lines.as_slice(),
        script: asked.text.as_slice(),
        orders: asked.script.lines(),
        unused: report.unused.as_slice(),
        images_every: job.run.images_every,
        outcome: &report.outcome,
        whys: whys.as_slice(),
        crashes: report.crashes,
        calls: calls_of(report),
    };
    let answer = in_form(alloc, job, &lined.program, &certified.run, given, report)?;
    let status = if all_halted(&report.outcome) { 0 } else { 1 };
    Ok(Said::answer(alloc, status, answer.into_bytes()))
}

// Why each rank is unfinished, in the words of a trace.
fn whys_of(
    alloc: Heap,
    causes: &[Option<Cause>],
) -> Result<Vec<Option<WhyUnfinished>, Heap>, AllocError> {
    let mut whys = Vec::new(alloc);
    for cause in causes {
        whys.push(why_of(*cause))?;
    }
    Ok(whys)
}

fn why_of(cause: Option<Cause>) -> Option<WhyUnfinished> {
    match cause {
        Some(Cause::Steps(_)) => Some(WhyUnfinished::Steps),
        Some(Cause::Clock(_)) => Some(WhyUnfinished::Clock),
        Some(Cause::Events) => Some(WhyUnfinished::Events),
        Some(Cause::Replay(_)) => Some(WhyUnfinished::Replay),
        None => None,
    }
}

// The run that was found, in the form that is asked for.
fn in_form<'a>(
    alloc: Heap,
    job: TraceJob<'_>,
    program: &Program,
    found: &'a Sim<'_>,
    given: Given<'a>,
    report: &Report,
) -> Result<String<Heap>, PlayFault>
    requires { IsLinedOf given.text.now program.now given.lines.now }
    ensures text { IfOk result (λ text. job.entry.form ≡ TraceForm.Text
        → BeginsWithActs given.entry.text.now program.now job.entry.run.ranks (reverse found.entry.now.run) (string_bytes text)) }
    ensures events { IfOk result (λ text. job.entry.form ≡ TraceForm.Events → given.entry.orders.now ≡ []
        → IsPlayText program.now job.entry.run.ranks found.entry.now.run (string_bytes text)) }
    ensures script { IfOk result (λ text. job.entry.form ≡ TraceForm.Events → given.entry.orders.now ≢ []
        → IsScriptText program.now job.entry.run.ranks found.entry.now.run given.entry.orders.now given.entry.unused.now (string_bytes text)) }
{
    let ranks = job.run.ranks;
    match job.form {
        TraceForm::Text => Ok(text_of(alloc, job.run, program, found, given, report)?),
        TraceForm::Json => Ok(trace_json(alloc, program, ranks, found, given)?),
        TraceForm::Events => events_of(alloc, ranks, program, found, given),
    }
}

// The run as events, with the kills and the images of its script among them.
fn events_of(
    alloc: Heap,
    ranks: u8,
    program: &Program,
    found: &Sim<'_>,
    given: Given<'_>,
) -> Result<String<Heap>, PlayFault>
    requires some { 1 ≤ ranks }
    requires few { ranks ≤ most_ranks }
    ensures events { IfOk result (λ text. given.entry.orders.now ≡ [] → IsPlayText program.now ranks found.now.run (string_bytes text)) }
    ensures script { IfOk result (λ text. given.entry.orders.now ≢ []
        → IsScriptText program.now ranks found.now.run given.entry.orders.now given.entry.unused.now (string_bytes text)) }
{
    if given.orders.is_empty() {
        play_text(alloc, program, ranks, found)
    } else {
        play_script_text(alloc, program, ranks, found, given.orders, given.unused)
    }
}

// The acts of the run, what stands behind them, and last what the run took.
#[tactic(auto, using(crate::proofs::Traces::goes_on))]
fn text_of(
    alloc: Heap,
    job: RunJob<'_>,
    program: &Program,
    found: &Sim<'_>,
    given: Given<'_>,
    report: &Report,
) -> Result<String<Heap>, AllocError>
    requires { IsLinedOf given.text.now program.now given.lines.now }
    ensures { IfOk result (λ text. BeginsWithActs given.entry.text.now program.now job.entry.ranks (reverse found.now.run) (string_bytes text)) }
{
    let mut text = trace_text(alloc, program, job.ranks, found, given)?;
    let mut cost = String::new(alloc);
    print_cost(&mut cost, report)?;
    text.push_str(cost.as_str())?;
    Ok(text)
}
