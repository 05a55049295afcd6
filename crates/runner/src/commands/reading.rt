//! Files that the program's words name, read and parsed.
ghost use Rattle.std.specs.Prelude.{ℕ, List, IfErr, IfOk};
ghost use Rattle.runner.specs.Reading.{AreEventsIn, IsLinedIn, IsProgramIn, IsScriptBy, IsScriptIn};
ghost use Rattle.runner.specs.Reasons.{IsEventsRefusal, IsFileRefusal, IsProgramRefusal, HasScriptFault, IsScriptRefusal, IsUnread, UnlessMemory};

use crate::commands::refusal::Refusal;
use crate::files::Files;
use limits::Heap;
use rank_language::{LinedProgram, Program};
use rank_text::script::Script;
use world_model::WorldEvent;
use world_model::events_text::parse_events;

/// What a script asks for, and the text of its file.
#[derive(Drop)]
pub struct ScriptFile {
    pub text: Vec<u8>,
    pub script: Script,
}

/// The bytes of the file with this name.
pub fn text_in<'a, F: Files>(name: &'a str, files: &mut F) -> Result<Vec<u8>, Refusal<'a>>
    ensures text { IfOk result (λ text. F.holds files.old name.entry.now text.items) }
    ensures refused { IfErr result (UnlessMemory (IsUnread name.entry)) }
    ensures kept { (file text : List ℕ) → F.holds files.new file text → F.holds files.old file text }
{
    match files.read(name) {
        Ok(text) => Ok(text),
        Err(fault) => Err(Refusal::of_file(name, fault)),
    }
}

/// The program of the file with this name.
#[tactic(auto, using(crate::proofs::Reading::is_program_in, crate::proofs::Reasons::unread, crate::proofs::Reasons::faulty_program))]
pub fn program_in<'a, F: Files>(
    alloc: Heap,
    name: &'a str,
    files: &mut F,
) -> Result<Program, Refusal<'a>>
    ensures program { IfOk result (λ program. IsProgramIn (F.holds files.old name.entry.now) program) }
    ensures refused { IfErr result (UnlessMemory (IsProgramRefusal (F.holds files.old) name.entry)) }
    ensures kept { (file text : List ℕ) → F.holds files.new file text → F.holds files.old file text }
{
    match files.read(name) {
        Ok(text) => Ok(Program::parse(alloc, text.as_slice())?),
        Err(fault) => Err(Refusal::of_file(name, fault)),
    }
}

/// The same, with the lines on which the program's statements stand.
#[tactic(auto, using(crate::proofs::Reading::is_lined_in, crate::proofs::Reasons::unread, crate::proofs::Reasons::faulty_program))]
pub fn lined_in<'a, F: Files>(
    alloc: Heap,
    name: &'a str,
    files: &mut F,
) -> Result<LinedProgram, Refusal<'a>>
    ensures lined { IfOk result (λ lined. IsLinedIn (F.holds files.old name.entry.now) lined.program lined.lines.items) }
    ensures refused { IfErr result (UnlessMemory (IsProgramRefusal (F.holds files.old) name.entry)) }
    ensures kept { (file text : List ℕ) → F.holds files.new file text → F.holds files.old file text }
{
    match files.read(name) {
        Ok(text) => Ok(LinedProgram::parse(alloc, text.as_slice())?),
        Err(fault) => Err(Refusal::of_file(name, fault)),
    }
}

/// The script of the file with this name, for so many ranks, with the text of the
/// file. Without a name it asks for nothing.
pub fn script_by<'a, F: Files>(
    alloc: Heap,
    name: Option<&'a str>,
    ranks: u8,
    files: &mut F,
) -> Result<ScriptFile, Refusal<'a>>
    ensures script { IfOk result (λ read. IsScriptBy (F.holds files.old) ranks name.entry read.script) }
    ensures refused { IfErr result (UnlessMemory (IsScriptRefusal (F.holds files.old) ranks name.entry)) }
{
    match name {
        Some(name) => script_in(alloc, name, ranks, files),
        None => Ok(ScriptFile {
            text: Vec::new(alloc),
            script: Script::new(alloc),
        }),
    }
}

#[tactic(auto, using(crate::proofs::Reading::is_script_in, crate::proofs::Reasons::unread, crate::proofs::Reasons::faulty_script))]
fn script_in<'a, F: Files>(
    alloc: Heap,
    name: &'a str,
    ranks: u8,
    files: &mut F,
) -> Result<ScriptFile, Refusal<'a>>
    ensures script { IfOk result (λ read. IsScriptIn (F.holds files.old name.entry.now) ranks read.script) }
    ensures refused { IfErr result (UnlessMemory (IsFileRefusal name.entry (HasScriptFault (F.holds files.old name.entry.now) ranks))) }
{
    let text = text_in(name, files)?;
    let script = Script::parse(alloc, text.as_slice(), ranks)?;
    Ok(ScriptFile { text, script })
}

/// The events of the file with this name.
#[tactic(auto, using(crate::proofs::Reading::are_events_in, crate::proofs::Reasons::unread, crate::proofs::Reasons::faulty_events))]
pub fn events_in<'a, F: Files>(
    alloc: Heap,
    name: &'a str,
    files: &mut F,
) -> Result<Vec<WorldEvent, Heap>, Refusal<'a>>
    ensures events { IfOk result (λ events. AreEventsIn (F.holds files.old name.entry.now) events.items) }
    ensures refused { IfErr result (UnlessMemory (IsEventsRefusal (F.holds files.old) name.entry)) }
{
    match files.read(name) {
        Ok(text) => Ok(parse_events(alloc, text.as_slice())?),
        Err(fault) => Err(Refusal::of_file(name, fault)),
    }
}
