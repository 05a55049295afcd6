//! Writes the statements of a program, a line each.

ghost use Rattle.std.specs.Prelude.{◌≡◌, ◌++◌, IfOk, OnOk, codes};
ghost use Rattle.rank_text.specs.Grammar.SeenForms.{form_seen};
ghost use Rattle.rank_text.specs.Checker.SeenLines.{forms_seen};
ghost use Rattle.rank_text.specs.Printer.Canonical.{indentation, line_text, program_text};

use crate::grammar::Form;
use crate::printer::layout::{depth_after, depth_of};
use crate::printer::statement::put_form;
use limits::Heap;
use std::alloc::AllocError;

/// Writes two spaces for each open block.
fn indent(text: &mut Vec<u8, Heap>, depth: usize) -> Result<(), AllocError>
    ensures { OnOk result (text.new.items ≡ text.old.items ++ indentation depth) }
{
    for _i in 0..depth {
        text.extend_from_slice(b"  ".as_slice())?;
    }
    Ok(())
}

/// Writes the line of a statement, where this many blocks are open.
fn put_line(
    alloc: Heap,
    text: &mut Vec<u8, Heap>,
    depth: usize,
    form: &Form,
) -> Result<(), AllocError>
    ensures { OnOk result (text.new.items ≡ text.old.items ++ (line_text depth (form_seen form.now) ++ codes "\n")) }
{
    indent(text, depth_of(depth, form))?;
    put_form(alloc, text, form)?;
    text.push(b'\n')?;
    Ok(())
}

/// The canonical text of statements.
///
/// An expression is written with as much stack as it nests. Statements that
/// `checker::read` has read nest no deeper than `limits::MOST_NODES`;
/// `grammar::forms::form` alone puts no bound to it but the line's length. The only error is
/// refused memory.
pub fn print(alloc: Heap, forms: &[Form]) -> Result<Vec<u8, Heap>, AllocError>
    ensures text { IfOk result (λ text. text.items ≡ program_text (forms_seen forms.now)) }
{
    let mut text = Vec::new(alloc);
    let mut depth = 0;
    for form in forms {
        put_line(alloc, &mut text, depth, form)?;
        depth = depth_after(depth, form);
    }
    Ok(text)
}
