//! Whether the program of a search is safe: a second search, of its synchronous runs.
ghost use Rattle.std.specs.Prelude.{◌≡◌, false, true, IfOk, slice_get};
ghost use Rattle.rank_language.specs.Seen.{line_of};
ghost use Rattle.runner.specs.Safety.{IsHalting, IsVerdict, has_send, is_send, is_told, needs_second, sends_at};
ghost use Rattle.runner.specs.Searches.{IsSafetyOf, IsSecond};

use crate::commands::exploring::search;
use crate::commands::waiting::{waiting_at, waits_in};
use crate::explored::{Safety, Unknown, all_halt, outcome_at};
use command_line::{ExploreForm, ExploreJob};
use explore::{Explored, SendMode, Watch};
use limits::Heap;
use rank_language::{LinedProgram, Program, Statement};
use std::alloc::AllocError;

/// Whether the program is safe, of which a search found this. If the search was one of
/// synchronous runs, it says so itself.
#[tactic(auto, using(crate::proofs::Searches::is_itself, crate::proofs::Searches::is_untold, crate::proofs::Searches::is_second))]
pub fn safety_of<W: Watch>(
    alloc: Heap,
    job: ExploreJob<'_>,
    searched: &LinedProgram,
    found: &Explored,
    watch: &mut W,
) -> Result<Safety, AllocError>
    ensures { IfOk result (λ safety. IsSafetyOf searched.now.lines.items searched.now.program job.entry found.now safety) }
{
    if job.synchronous {
        return Ok(verdict_of(alloc, job, searched, found)?);
    }
    if !needs_second(job, &searched.program, found) {
        return Ok(Safety::Untold);
    }
    Ok(second_search(alloc, job, searched, watch)?)
}

fn needs_second(job: ExploreJob<'_>, program: &Program, found: &Explored) -> bool
    ensures { result ≡ needs_second job.entry program.now found.now }
{
    found.complete && is_told(job.form) && has_send(program)
}

fn is_told(form: ExploreForm) -> bool
    ensures { result ≡ is_told form }
{
    match form {
        ExploreForm::Text | ExploreForm::Summary | ExploreForm::Json => true,
        ExploreForm::Events(_) => false,
    }
}

#[tactic(auto, using(crate::proofs::Safety::none_further, crate::proofs::Safety::none_sends, crate::proofs::Safety::one_sends))]
fn has_send(program: &Program) -> bool
    ensures { result ≡ has_send program.now }
{
    for position in 0..program.len() {
        if sends_at(program, position) {
            return true;
        }
    }
    false
}

fn sends_at(program: &Program, position: usize) -> bool
    ensures { result ≡ sends_at (slice_get program.now.statements position) }
{
    match program.statement(position) {
        Some(statement) => is_send(statement),
        None => false,
    }
}

fn is_send(statement: &Statement) -> bool
    ensures { result ≡ is_send (line_of statement.now) }
{
    match statement {
        Statement::Send { .. } => true,
        Statement::Declare(_) | Statement::DeclareArray(_) => false,
        Statement::Assign(..) | Statement::AssignItem(..) => false,
        Statement::If(..) | Statement::Else(_) | Statement::EndIf => false,
        Statement::While(..) | Statement::EndWhile(_) => false,
        Statement::Receive { .. } | Statement::Probe { .. } | Statement::TryProbe { .. } => false,
        Statement::Print(_) | Statement::Collect(_) => false,
    }
}

// What a search of the program's synchronous runs says.
#[tactic(auto, using(crate::proofs::Searches::of_second))]
fn second_search<W: Watch>(
    alloc: Heap,
    job: ExploreJob<'_>,
    searched: &LinedProgram,
    watch: &mut W,
) -> Result<Safety, AllocError>
    ensures { IfOk result (λ safety. IsSecond searched.now.lines.items searched.now.program job.entry safety) }
{
    let found = search(
        alloc,
        SendMode::Synchronous,
        job,
        job.runs,
        &searched.program,
        watch,
    )?;
    let verdict = verdict_of(alloc, job, searched, &found);
    drop(found);
    match verdict {
        Ok(verdict) => Ok(verdict),
        Err(error) => Err(error),
    }
}

// What was found of the synchronous runs of the program says whether it is safe.
#[tactic(auto, using(crate::proofs::Safety::is_safe, crate::proofs::Safety::is_not_safe, crate::proofs::Safety::is_unhalted, crate::proofs::Safety::is_stopped))]
fn verdict_of(
    alloc: Heap,
    job: ExploreJob<'_>,
    searched: &LinedProgram,
    found: &Explored,
) -> Result<Safety, AllocError>
    ensures { IfOk result (λ safety. IsVerdict searched.now.lines.items searched.now.program job.entry.ranks found.now safety) }
{
    if is_halting(found) {
        return Ok(Safety::Safe);
    }
    match waiting_at(found) {
        Some(index) => {
            let waits = waits_in(alloc, job, searched, outcome_at(found, index))?;
            Ok(Safety::NotSafe(waits))
        }
        None if found.complete => Ok(Safety::Unknown(Unknown::Unhalted)),
        None => Ok(Safety::Unknown(Unknown::Stopped)),
    }
}

// Whether all was found, and each rank halts in each outcome.
fn is_halting(found: &Explored) -> bool
    ensures yes { result ≡ true → IsHalting found.now }
    ensures no { result ≡ false → IsHalting found.now → ⊥ }
{
    found.complete && all_halt(found)
}
