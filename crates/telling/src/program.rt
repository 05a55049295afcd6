//! The telling programs of a text.
ghost use Rattle.std.specs.Prelude.{◌≡◌, ℕ, Err, IfOk, List};
ghost use Rattle.rank_text.specs.Checker.Faults.{IsFaultOf, IsText};
ghost use Rattle.rank_text.specs.Checker.SeenLines.{forms_seen};
ghost use Rattle.rank_text.specs.declared.checker.fault.ProgramFault.{ProgramFault};
ghost use Rattle.rank_language.specs.StandOn.{StandOn};
ghost use Rattle.telling.specs.Free.{HasFreeName};
ghost use Rattle.telling.specs.Telling.{IsTelling, IsUntellable, telling_forms, telling_lines};
ghost use Rattle.telling.specs.declared.program.TellingFault.TheVariants.{Fault, PastLimits};

mod copied;
mod statements;
mod tells;

use crate::added::Added;
use crate::free::free_name;
use crate::lined_forms::LinedForms;
use crate::program::statements::telling_forms;
use limits::Heap;
use rank_language::{LinedProgram, statement_lines};
use rank_text::checker::{ParseFault, ProgramFault, read};
use rank_text::grammar::Form;
use std::alloc::AllocError;

/// What the ranks of a telling program print.
#[derive(Clone, Copy)]
pub enum Telling {
    Sends,
    Receptions,
}

/// Why a text gives no telling program.
#[derive(Clone, Copy, Debug)]
pub enum TellingFault {
    /// The text is no program.
    Fault(ProgramFault),
    /// With what tells the program passes a limit of texts.
    PastLimits,
    Memory,
}

/// The telling statements, with the lines of the text on which they stand.
fn stated(
    alloc: Heap,
    telling: Telling,
    text: &[u8],
    added: &Added,
    forms: &[Form],
) -> Result<LinedForms, AllocError>
    requires { IsText text.now (forms_seen forms.now) }
    ensures forms { IfOk result (λ all. forms_seen all.forms.items ≡ telling_forms telling added.now (forms_seen forms.now)) }
    ensures lines { IfOk result (λ all. (numbers : List ℕ) × StandOn text.now (forms_seen forms.now) numbers
        × (all.lines.items ≡ telling_lines telling added.now numbers (forms_seen forms.now))) }
{
    let numbers = statement_lines(alloc, text)?;
    let all = telling_forms(alloc, telling, added, numbers.as_slice(), forms)?;
    Ok(all)
}

/// The telling program of statements of the text, with these names.
#[tactic(auto, using(crate::proofs::Tellings::is_telling))]
fn with_name(
    alloc: Heap,
    telling: Telling,
    text: &[u8],
    added: &Added,
    forms: &[Form],
) -> Result<LinedProgram, TellingFault>
    requires text { IsText text.now (forms_seen forms.now) }
    requires name { HasFreeName (forms_seen forms.now) added.now }
    ensures program { IfOk result (λ lined. IsTelling telling text.now lined.program lined.lines.items) }
    ensures fault { (f : ProgramFault) → result ≡ Err (Fault f) → ⊥ }
    ensures past { result ≡ Err PastLimits → IsUntellable telling text.now }
{
    let Ok(all) = stated(alloc, telling, text, added, forms) else {
        return Err(TellingFault::Memory);
    };
    match all.into_program(alloc) {
        Ok(lined) => Ok(lined),
        Err(ParseFault::Fault(_)) => Err(TellingFault::PastLimits),
        Err(ParseFault::Memory) => Err(TellingFault::Memory),
    }
}

/// The telling program of statements of the text.
fn of_forms(
    alloc: Heap,
    telling: Telling,
    text: &[u8],
    forms: &[Form],
) -> Result<LinedProgram, TellingFault>
    requires { IsText text.now (forms_seen forms.now) }
    ensures program { IfOk result (λ lined. IsTelling telling text.now lined.program lined.lines.items) }
    ensures fault { (f : ProgramFault) → result ≡ Err (Fault f) → ⊥ }
    ensures past { result ≡ Err PastLimits → IsUntellable telling text.now }
{
    match free_name(forms) {
        Some(added) => with_name(alloc, telling, text, &added, forms),
        None => Err(TellingFault::PastLimits),
    }
}

/// The program whose ranks print what they send, or what they receive, in runs of a text's program,
/// with the lines of the text on which its statements stand, or why there is none.
pub fn telling_program(
    alloc: Heap,
    telling: Telling,
    text: &[u8],
) -> Result<LinedProgram, TellingFault>
    ensures program { IfOk result (λ lined. IsTelling telling text.now lined.program lined.lines.items) }
    ensures fault { (f : ProgramFault) → result ≡ Err (Fault f) → IsFaultOf text.now f.line f.kind }
    ensures past { result ≡ Err PastLimits → IsUntellable telling text.now }
{
    let draft = match read(alloc, text) {
        Ok(draft) => draft,
        Err(ParseFault::Fault(fault)) => return Err(TellingFault::Fault(fault)),
        Err(ParseFault::Memory) => return Err(TellingFault::Memory),
    };
    let made = of_forms(alloc, telling, text, draft.forms.as_slice());
    drop(draft);
    made
}
