//! All outcomes of a job's program, or a run of one of them as events.
ghost use Rattle.std.specs.Prelude.{◌≡◌, ◌+◌, ℕ, IfErr, IfOk, IfSome, Some, slice_get, string_bytes};
ghost use Rattle.runner.specs.Events.{PlaysOutcome};
ghost use Rattle.explore.specs.Shown.{AreMarked};
ghost use Rattle.runner.specs.Modes.{mode_of};
ghost use Rattle.runner.specs.OutcomesText.{GoesOnAt, IsMarkedObject, IsMarkedSummary, IsMarkedText};
ghost use Rattle.runner.specs.Reasons.{HasNoOutcome, HasNoOutcomeOf, IsSearchRefusal, UnlessMemory};
ghost use Rattle.runner.specs.Searches.{HasSearchStatus, IsExploreAnswer, IsFoundBy, IsPrinted, IsSearchAnswer};

use crate::commands::determinism::print_determinism;
use crate::commands::lining::lined_of;
use crate::commands::reading::text_in;
use crate::commands::refusal::Refusal;
use crate::commands::safety::safety_of;
use crate::commands::said::Said;
use crate::commands::sending::mode_of;
use crate::explored::{
    Safety, all_halt, explored_json, print_explored, print_safety, print_summary,
};
use crate::files::Files;
use command_line::{ExploreForm, ExploreJob};
use explore::{
    Explored, FoundOutcome, Limits, SendMode, Watch, came_back, explore, explore_ends, marks_of,
    run_of,
};
use limits::Heap;
use rank_language::{LinedProgram, Program};
use run_events::laws::law_masks_reports;
use run_events::play_text;
use std::alloc::AllocError;

/// What is found of the job's program, or the events of the outcome that the job
/// names; with status 0 where all is found and each rank halts.
#[tactic(auto, using(crate::proofs::Searches::is_explore_answer, crate::proofs::Reasons::search_unread, crate::proofs::Reasons::search_unparsed, crate::proofs::Reasons::search_of_outcome))]
pub fn explored_by<'a, F: Files, W: Watch>(
    alloc: Heap,
    job: ExploreJob<'a>,
    files: &mut F,
    watch: &mut W,
) -> Result<Said, Refusal<'a>>
    ensures answer { IfOk result (λ said. IsExploreAnswer (F.holds files.old job.entry.program.now) job.entry said.out.items said.status) }
    ensures refused { IfErr result (UnlessMemory (IsSearchRefusal (F.holds files.old) job.entry)) }
{
    let text = text_in(job.program, files)?;
    let source = text.as_slice();
    let searched = LinedProgram::parse(alloc, source)?;
    match found_of(alloc, job, source, &searched, watch) {
        Ok(said) => Ok(said),
        Err(refusal) => Err(refusal),
    }
}

// What is found of this program.
#[tactic(auto, using(crate::proofs::Searches::is_search_answer, crate::proofs::Reasons::of_memory))]
fn found_of<'a, W: Watch>(
    alloc: Heap,
    job: ExploreJob<'a>,
    text: &[u8],
    searched: &LinedProgram,
    watch: &mut W,
) -> Result<Said, Refusal<'a>>
    ensures answer { IfOk result (λ said. IsSearchAnswer text.now searched.now.lines.items searched.now.program job.entry said.out.items said.status) }
    ensures refused { IfErr result (UnlessMemory (HasNoOutcomeOf job.entry)) }
{
    let program = &searched.program;
    let mode = mode_of(job.synchronous);
    let found = search(alloc, mode, job, job.runs, program, watch)?;
    let safety = safety_of(alloc, job, searched, &found, watch)?;
    let mut answer = answer_of(
        alloc,
        mode,
        job,
        searched.lines.as_slice(),
        program,
        &found,
        &safety,
    )?;
    print_determinism(alloc, job, text, &found, watch, &mut answer)?;
    Ok(Said::answer(alloc, status_of(&found), answer.into_bytes()))
}

/// What a search of the program finds by this mode of sends that looks at so many runs at most, within
/// the job's limits of steps and states. If it isn't complete, another closes over states, if one
/// comes back.
#[tactic(auto, using(crate::proofs::Searches::is_found_by, crate::proofs::Searches::ends_found_by))]
pub fn search<W: Watch>(
    alloc: Heap,
    mode: SendMode,
    job: ExploreJob<'_>,
    runs: u32,
    program: &Program,
    watch: &mut W,
) -> Result<Explored, AllocError>
    ensures { IfOk result (λ found. IsFoundBy program.now mode job.entry runs found) }
{
    law_masks_reports();
    let limits = Limits {
        runs,
        ..limits_of(job)
    };
    let found = explore(alloc, mode, program, job.ranks, limits, watch)?;
    if found.complete {
        return Ok(found);
    }
    match explore_ends(alloc, mode, program, job.ranks, limits, watch)? {
        Some(closed) => Ok(closed),
        None => Ok(found),
    }
}

fn status_of(found: &Explored) -> u8
    ensures { HasSearchStatus found.now result }
{
    if found.complete && all_halt(found) {
        0
    } else {
        1
    }
}

#[tactic(auto, using(crate::proofs::Searches::text_printed, crate::proofs::Searches::summary_printed, crate::proofs::Searches::json_printed, crate::proofs::Searches::events_printed, crate::proofs::Reasons::of_memory, crate::proofs::Reasons::outcome_of_job))]
fn answer_of<'a>(
    alloc: Heap,
    mode: SendMode,
    job: ExploreJob<'a>,
    lines: &[usize],
    program: &Program,
    found: &Explored,
    safety: &Safety,
) -> Result<String<Heap>, Refusal<'a>>
    requires { mode ≡ mode_of job.synchronous }
    ensures answer { IfOk result (λ answer. IsPrinted lines.now program.now job.entry found.now safety.now (string_bytes answer)) }
    ensures refused { IfErr result (UnlessMemory (HasNoOutcomeOf job.entry)) }
{
    match job.form {
        ExploreForm::Events(number) => match events_of(alloc, mode, job, number, program, found) {
            Ok(text) => Ok(text),
            Err(refusal) => Err(refusal),
        },
        ExploreForm::Text => Ok(found_text(alloc, mode, job, lines, program, found, safety)?),
        ExploreForm::Summary => Ok(summary_text(alloc, mode, job, lines, program, found, safety)?),
        ExploreForm::Json => Ok(json_text(alloc, mode, job, lines, program, found, safety)?),
    }
}

fn found_text(
    alloc: Heap,
    mode: SendMode,
    job: ExploreJob<'_>,
    lines: &[usize],
    program: &Program,
    found: &Explored,
    safety: &Safety,
) -> Result<String<Heap>, AllocError>
    requires { mode ≡ mode_of job.synchronous }
    ensures { IfOk result (λ answer. IsMarkedText job.entry.synchronous lines.now program.now job.entry.ranks found.now safety.now job.entry.runs (string_bytes answer)) }
{
    let marks = marks_in(alloc, mode, job, program, found)?;
    let cycle = cycle_in(alloc, mode, job, program, found, lines)?;
    let left = lined_of(alloc, mode, job, program, lines, found)?;
    let mut text = print_explored(
        alloc,
        found,
        left.as_slice(),
        marks.as_slice(),
        cycle.as_slice(),
        limits_of(job),
        lines,
        job.synchronous,
    )?;
    print_safety(alloc, &mut text, safety, job.synchronous)?;
    Ok(text)
}

fn summary_text(
    alloc: Heap,
    mode: SendMode,
    job: ExploreJob<'_>,
    lines: &[usize],
    program: &Program,
    found: &Explored,
    safety: &Safety,
) -> Result<String<Heap>, AllocError>
    requires { mode ≡ mode_of job.synchronous }
    ensures { IfOk result (λ answer. IsMarkedSummary job.entry.synchronous lines.now program.now job.entry.ranks found.now safety.now job.entry.runs (string_bytes answer)) }
{
    let marks = marks_in(alloc, mode, job, program, found)?;
    let cycle = cycle_in(alloc, mode, job, program, found, lines)?;
    let left = lined_of(alloc, mode, job, program, lines, found)?;
    let mut text = print_summary(
        alloc,
        found,
        left.as_slice(),
        marks.as_slice(),
        cycle.as_slice(),
        limits_of(job),
        lines,
        job.synchronous,
    )?;
    print_safety(alloc, &mut text, safety, job.synchronous)?;
    Ok(text)
}

fn json_text(
    alloc: Heap,
    mode: SendMode,
    job: ExploreJob<'_>,
    lines: &[usize],
    program: &Program,
    found: &Explored,
    safety: &Safety,
) -> Result<String<Heap>, AllocError>
    requires { mode ≡ mode_of job.synchronous }
    ensures { IfOk result (λ answer. IsMarkedObject job.entry.synchronous lines.now program.now job.entry.ranks found.now safety.now (string_bytes answer)) }
{
    let marks = marks_in(alloc, mode, job, program, found)?;
    let left = lined_of(alloc, mode, job, program, lines, found)?;
    explored_json(
        alloc,
        found,
        left.as_slice(),
        marks.as_slice(),
        lines,
        safety,
    )
}

// The lines at which ranks went on until a state came back, if all wasn't searched and one did.
fn cycle_in(
    alloc: Heap,
    mode: SendMode,
    job: ExploreJob<'_>,
    program: &Program,
    found: &Explored,
    lines: &[usize],
) -> Result<Vec<usize, Heap>, AllocError>
    ensures { IfOk result (λ cycle. GoesOnAt mode program.now job.entry.ranks cycle.items) }
{
    if found.complete {
        return Ok(Vec::new(alloc));
    }
    match came_back(alloc, mode, program, job.ranks, limits_of(job))? {
        Some(cycle) => lines_at(alloc, cycle.positions.as_slice(), lines),
        None => Ok(Vec::new(alloc)),
    }
}

// The lines of the statements at these positions, each once, in order.
fn lines_at(
    alloc: Heap,
    positions: &[usize],
    lines: &[usize],
) -> Result<Vec<usize, Heap>, AllocError> {
    let mut found = Vec::new(alloc);
    for position in positions {
        add_line(&mut found, lines.get(*position).copied())?;
    }
    found.sort()?;
    Ok(found)
}

fn add_line(found: &mut Vec<usize, Heap>, line: Option<usize>) -> Result<(), AllocError> {
    let Some(line) = line else {
        return Ok(());
    };
    if !found.contains(&line) {
        found.push(line)?;
    }
    Ok(())
}

// The mark of each outcome that was found.
fn marks_in(
    alloc: Heap,
    mode: SendMode,
    job: ExploreJob<'_>,
    program: &Program,
    found: &Explored,
) -> Result<Vec<Option<bool>, Heap>, AllocError>
    ensures { IfOk result (λ marks. AreMarked mode program.now job.entry.ranks found.now.outcomes found.now.choices marks.items) }
{
    let outcomes = found.outcomes.as_slice();
    marks_of(alloc, mode, program, job.ranks, limits_of(job), outcomes)
}

// The events of a run that has the outcome of this number, from 1.
#[tactic(auto, using(crate::proofs::Events::plays_outcome, crate::proofs::Reasons::no_outcome, crate::proofs::Reasons::outcome_not_played, crate::proofs::Reasons::of_memory))]
fn events_of<'a>(
    alloc: Heap,
    mode: SendMode,
    job: ExploreJob<'a>,
    number: u32,
    program: &Program,
    found: &Explored,
) -> Result<String<Heap>, Refusal<'a>>
    ensures played { IfOk result (λ text. PlaysOutcome mode program.now job.entry.ranks found.now.outcomes number (string_bytes text)) }
    ensures refused { IfErr result (UnlessMemory (HasNoOutcome number)) }
{
    let Some(outcome) = outcome_at(found, number) else {
        return Err(Refusal::NoOutcome(number));
    };
    match run_of(alloc, mode, program, job.ranks, limits_of(job), outcome) {
        Ok(Some(run)) => match play_text(alloc, program, job.ranks, &run) {
            Ok(text) => Ok(text),
            Err(fault) => Err(Refusal::from(fault)),
        },
        Ok(None) => Err(Refusal::NoOutcome(number)),
        Err(error) => Err(Refusal::from(error)),
    }
}

fn outcome_at(found: &Explored, number: u32) -> Option<&FoundOutcome>
    ensures { IfSome result (λ outcome. (index : ℕ) × (number ≡ index + 1) × (slice_get found.now.outcomes index ≡ Some outcome.now.ranks)) }
{
    let index = number.checked_sub(1)? as usize;
    found.outcomes.get(index)
}

/// How far a search may go that the job asks for.
pub fn limits_of(job: ExploreJob<'_>) -> Limits
    ensures runs { result.runs ≡ job.entry.runs }
    ensures steps { result.steps ≡ job.entry.steps }
{
    Limits {
        runs: job.runs,
        steps: job.steps,
        states: job.states,
    }
}
