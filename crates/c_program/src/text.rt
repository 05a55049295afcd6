//! The whole C text of a rank program.
ghost use Rattle.std.specs.Prelude.{◌≡◌, Err, IfErr, IfOk, List};
ghost use Rattle.rank_text.specs.declared.checker.fault.ParseFault.TheVariants.{Fault, Memory};
ghost use Rattle.rank_text.specs.declared.checker.fault.ProgramFault.{ProgramFault};
ghost use Rattle.rank_text.specs.Checker.Faults.{IsFaultOf, IsText};
ghost use Rattle.rank_text.specs.Checker.SeenLines.{forms_seen};
ghost use Rattle.rank_text.specs.Grammar.Forms as forms;
ghost use Rattle.c_program.specs.Whole.{IsCText, c_text};

use crate::program::put_program;
use crate::runtime::{
    fixed_collectives, fixed_ending, fixed_head, fixed_messages, fixed_sending, fixed_values,
};
use limits::Heap;
use rank_language::statement_lines;
use rank_text::checker::{ParseFault, ProgramFault, read};
use rank_text::grammar::Form;
use std::alloc::AllocError;

/// The text of statements with the numbers of their lines.
fn text_of(
    alloc: Heap,
    synchronous: bool,
    numbers: &[usize],
    forms: &[Form],
) -> Result<Vec<u8, Heap>, AllocError>
    ensures { IfOk result (λ c. c.items ≡ c_text synchronous numbers.now (forms_seen forms.now)) }
{
    let mut text = Vec::new(alloc);
    text.extend_from_slice(fixed_head())?;
    put_program(alloc, &mut text, numbers, forms)?;
    text.extend_from_slice(fixed_values())?;
    text.extend_from_slice(fixed_messages())?;
    text.extend_from_slice(fixed_sending(synchronous))?;
    text.extend_from_slice(fixed_collectives())?;
    text.extend_from_slice(fixed_ending())?;
    Ok(text)
}

/// The text of the statements of a program's text.
fn translated(
    alloc: Heap,
    synchronous: bool,
    text: &[u8],
    forms: &[Form],
) -> Result<Vec<u8, Heap>, AllocError>
    requires { IsText text.now (forms_seen forms.now) }
    ensures { IfOk result (λ c. IsCText synchronous text.now c.items) }
{
    let numbers = statement_lines(alloc, text)?;
    text_of(alloc, synchronous, numbers.as_slice(), forms)
}

/// The C text of a rank program, or the program's first fault, as `Program::parse` has it. If its
/// sends are synchronous, each waits until its message is received.
///
/// The text is C99 with calls of MPI 1.1 (MPI Forum, MPI: A Message-Passing Interface Standard,
/// version 1.1, 1995). What it does when it is compiled and run isn't proved.
pub fn c_text(alloc: Heap, synchronous: bool, text: &[u8]) -> Result<Vec<u8, Heap>, ParseFault>
    ensures text { IfOk result (λ c. IsCText synchronous text.now c.items) }
    ensures fault { (f : ProgramFault) → result ≡ Err (Fault f) → IsFaultOf text.now f.line f.kind }
    ensures accepted { (fs : List forms.Form) → IsText text.now fs → IfErr result (λ e. e ≡ Memory) }
{
    let draft = match read(alloc, text) {
        Ok(draft) => draft,
        Err(fault) => return Err(fault),
    };
    let c = translated(alloc, synchronous, text, draft.forms.as_slice());
    drop(draft);
    match c {
        Ok(c) => Ok(c),
        Err(_) => Err(ParseFault::Memory),
    }
}
