//! The first fault of a job's texts, explained.
ghost use Rattle.std.specs.Prelude.{ℕ, List, IfErr, IfOk, is_err, is_some};
ghost use Rattle.runner.specs.Explanations.{HoldsEvents, HoldsEventsIn, HoldsProgram, HoldsScript, HoldsScriptIn, IsExplainAnswer, SaysNone};
ghost use Rattle.runner.specs.Reasons.{IsExplainRefusal, IsUnread, IsUnreadBy, UnlessMemory};

use crate::commands::reading::text_in;
use crate::commands::refusal::Refusal;
use crate::commands::said::Said;
use crate::files::Files;
use command_line::ExplainJob;
use diagnostics::{explain_events, explain_program, explain_script, first_unmet};
use limits::Heap;
use rank_language::{ParseFault, Program};
use rank_text::script::{Script, ScriptParseFault};
use std::alloc::AllocError;
use world_model::events_text::{EventsFault, parse_events};

/// What is said of the job's texts: the first fault, with status 2, or that there
/// is none. Each text is read once the one before has no fault.
#[tactic(auto, using(crate::proofs::Explanations::in_program, crate::proofs::Explanations::in_script, crate::proofs::Explanations::in_events, crate::proofs::Explanations::in_none, crate::proofs::Reasons::explain_of_program, crate::proofs::Reasons::explain_of_script, crate::proofs::Reasons::explain_of_events, crate::proofs::Reasons::of_memory))]
pub fn explained<'a, F: Files>(
    alloc: Heap,
    job: ExplainJob<'a>,
    files: &mut F,
) -> Result<Said, Refusal<'a>>
    ensures answer { IfOk result (λ said. IsExplainAnswer (F.holds files.old) job.entry said.out.items said.status) }
    ensures refused { IfErr result (UnlessMemory (IsExplainRefusal job.entry)) }
{
    if let Some(told) = of_program(alloc, job.program, files)? {
        return Ok(Said::answer(alloc, 2, told.into_bytes()));
    }
    let unmet = match of_script(alloc, job.script, job.ranks, files)? {
        Ok(unmet) => unmet,
        Err(told) => return Ok(Said::answer(alloc, 2, told.into_bytes())),
    };
    if let Some(told) = of_events(alloc, job.events, files)? {
        return Ok(Said::answer(alloc, 2, told.into_bytes()));
    }
    Ok(faultless(alloc, unmet.as_str())?)
}

// That there is no fault; and of the script the line that no run can use, if there is one.
#[tactic(auto, using(crate::proofs::Explanations::says_none))]
fn faultless(alloc: Heap, unmet: &str) -> Result<Said, AllocError>
    ensures { IfOk result (λ said. SaysNone said.out.items said.status) }
{
    let mut answer = String::from_str(alloc, "no fault\n")?;
    answer.push_str(unmet)?;
    Ok(Said::answer(alloc, 0, answer.into_bytes()))
}

// The fault of the program, explained, if it has one.
#[tactic(auto, using(crate::proofs::Explanations::has_program, crate::proofs::Explanations::has_faulty_program, crate::proofs::Reasons::of_memory))]
fn of_program<'a, F: Files>(
    alloc: Heap,
    name: &'a str,
    files: &mut F,
) -> Result<Option<String<Heap>>, Refusal<'a>>
    ensures said { IfOk result (λ told. HoldsProgram (F.holds files.old name.entry.now) (is_some told)) }
    ensures refused { IfErr result (UnlessMemory (IsUnread name.entry)) }
    ensures kept { (file text : List ℕ) → F.holds files.new file text → F.holds files.old file text }
{
    let text = text_in(name, files)?;
    match Program::parse(alloc, text.as_slice()) {
        Ok(program) => {
            drop(program);
            Ok(None)
        }
        Err(ParseFault::Fault(fault)) => Ok(Some(explain_program(alloc, text.as_slice(), fault)?)),
        Err(ParseFault::Memory) => Err(Refusal::Memory),
    }
}

// Of a script without a fault, the line that no run can use, if there is one; else the fault, explained.
fn of_script<'a, F: Files>(
    alloc: Heap,
    name: Option<&'a str>,
    ranks: u8,
    files: &mut F,
) -> Result<Result<String<Heap>, String<Heap>>, Refusal<'a>>
    ensures said { IfOk result (λ told. HoldsScript (F.holds files.old) ranks name.entry (is_err told)) }
    ensures refused { IfErr result (UnlessMemory (IsUnreadBy name.entry)) }
    ensures kept { (file text : List ℕ) → F.holds files.new file text → F.holds files.old file text }
{
    match name {
        Some(name) => of_script_in(alloc, name, ranks, files),
        None => Ok(Ok(String::new(alloc))),
    }
}

#[tactic(auto, using(crate::proofs::Explanations::has_script, crate::proofs::Explanations::has_faulty_script, crate::proofs::Reasons::of_memory))]
fn of_script_in<'a, F: Files>(
    alloc: Heap,
    name: &'a str,
    ranks: u8,
    files: &mut F,
) -> Result<Result<String<Heap>, String<Heap>>, Refusal<'a>>
    ensures said { IfOk result (λ told. HoldsScriptIn (F.holds files.old name.entry.now) ranks (is_err told)) }
    ensures refused { IfErr result (UnlessMemory (IsUnread name.entry)) }
    ensures kept { (file text : List ℕ) → F.holds files.new file text → F.holds files.old file text }
{
    let text = text_in(name, files)?;
    match Script::parse(alloc, text.as_slice(), ranks) {
        Ok(script) => {
            let unmet = unmet_of(alloc, &script);
            drop(script);
            Ok(Ok(unmet?))
        }
        Err(ScriptParseFault::Fault(fault)) => {
            Ok(Err(explain_script(alloc, text.as_slice(), fault, ranks)?))
        }
        Err(ScriptParseFault::Memory) => Err(Refusal::Memory),
    }
}

// The line of a script that no run can use, if there is one.
fn unmet_of(alloc: Heap, script: &Script) -> Result<String<Heap>, AllocError> {
    match first_unmet(script.lines()) {
        Some(unmet) => unmet.text(alloc),
        None => Ok(String::new(alloc)),
    }
}

// The fault of the events, explained, if they have one.
fn of_events<'a, F: Files>(
    alloc: Heap,
    name: Option<&'a str>,
    files: &mut F,
) -> Result<Option<String<Heap>>, Refusal<'a>>
    ensures said { IfOk result (λ told. HoldsEvents (F.holds files.old) name.entry (is_some told)) }
    ensures refused { IfErr result (UnlessMemory (IsUnreadBy name.entry)) }
{
    match name {
        Some(name) => of_events_in(alloc, name, files),
        None => Ok(None),
    }
}

#[tactic(auto, using(crate::proofs::Explanations::has_events, crate::proofs::Explanations::has_faulty_events, crate::proofs::Reasons::of_memory))]
fn of_events_in<'a, F: Files>(
    alloc: Heap,
    name: &'a str,
    files: &mut F,
) -> Result<Option<String<Heap>>, Refusal<'a>>
    ensures said { IfOk result (λ told. HoldsEventsIn (F.holds files.old name.entry.now) (is_some told)) }
    ensures refused { IfErr result (UnlessMemory (IsUnread name.entry)) }
{
    let text = text_in(name, files)?;
    match parse_events(alloc, text.as_slice()) {
        Ok(events) => {
            drop(events);
            Ok(None)
        }
        Err(EventsFault::Fault { line, kind }) => {
            Ok(Some(explain_events(alloc, text.as_slice(), line, kind)?))
        }
        Err(EventsFault::Memory) => Err(Refusal::Memory),
    }
}
