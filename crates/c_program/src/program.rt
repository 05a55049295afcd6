//! Writes the part of the text that differs from program to program.
ghost use Rattle.std.specs.Prelude.{◌≡◌, ◌++◌, IfOk, OnOk};
ghost use Rattle.rank_text.specs.Grammar.SeenForms.{form_seen};
ghost use Rattle.rank_text.specs.Checker.SeenLines.{forms_seen};
ghost use Rattle.c_program.specs.Translation.{c_comment, c_indentation, c_lines, c_member, c_members, c_program, c_struct, function_begin, struct_begin};

use crate::names::put_name;
use crate::statement::put_statement;
use limits::Heap;
use rank_text::grammar::Form;
use rank_text::printer::{depth_after, depth_of, put_number};
use std::alloc::AllocError;

/// Writes four spaces for the function, and for each open block.
fn indent(text: &mut Vec<u8, Heap>, depth: usize) -> Result<(), AllocError>
    ensures { OnOk result (text.new.items ≡ text.old.items ++ c_indentation depth) }
{
    text.extend_from_slice(b"    ".as_slice())?;
    for _i in 0..depth {
        text.extend_from_slice(b"    ".as_slice())?;
    }
    Ok(())
}

/// Writes the line of these statements as a comment.
fn put_comment(
    alloc: Heap,
    text: &mut Vec<u8, Heap>,
    depth: usize,
    number: usize,
    forms: &[Form],
) -> Result<(), AllocError>
    ensures { OnOk result (text.new.items ≡ text.old.items ++ c_comment depth number (forms_seen forms.now)) }
{
    indent(text, depth)?;
    text.extend_from_slice(b"// ".as_slice())?;
    put_number(alloc, text, number as u64)?;
    text.extend_from_slice(b": ".as_slice())?;
    let line = rank_text::printer::print(alloc, forms)?;
    text.extend_from_slice(line.as_slice())
}

/// Writes the lines of statements, each with the number of its line.
fn put_lines(
    alloc: Heap,
    text: &mut Vec<u8, Heap>,
    numbers: &[usize],
    forms: &[Form],
) -> Result<(), AllocError>
    ensures { OnOk result (text.new.items ≡ text.old.items ++ c_lines 0 numbers.now (forms_seen forms.now)) }
{
    let mut depth = 0;
    let mut numbers_left = numbers;
    let mut left = forms;
    while let [number, more_numbers @ ..] = numbers_left {
        let [form, more @ ..] = left else {
            return Ok(());
        };
        let indented = depth_of(depth, form);
        put_comment(alloc, text, indented, *number, &left[..1])?;
        indent(text, indented)?;
        put_statement(alloc, text, form)?;
        text.push(b'\n')?;
        depth = depth_after(depth, form);
        numbers_left = more_numbers;
        left = more;
    }
    Ok(())
}

/// Writes the member of the rank's struct that a statement declares, if it declares one.
fn put_member(alloc: Heap, text: &mut Vec<u8, Heap>, form: &Form) -> Result<(), AllocError>
    ensures { OnOk result (text.new.items ≡ text.old.items ++ c_member (form_seen form.now)) }
{
    match form {
        Form::Var(name) => {
            text.extend_from_slice(b"    long long ".as_slice())?;
            put_name(text, name)?;
            text.extend_from_slice(b";\n".as_slice())
        }
        Form::Array(name, length) => {
            text.extend_from_slice(b"    long long ".as_slice())?;
            put_name(text, name)?;
            text.extend_from_slice(b"[".as_slice())?;
            put_number(alloc, text, *length)?;
            text.extend_from_slice(b"];\n".as_slice())
        }
        Form::Let(..) | Form::LetItem(..) | Form::If(_) | Form::Else | Form::End => Ok(()),
        Form::While(_) | Form::Send(..) | Form::Recv(..) | Form::Probe(..) => Ok(()),
        Form::TryProbe(..) | Form::Print(_) | Form::Barrier => Ok(()),
        Form::Bcast(..) | Form::Reduce(..) => Ok(()),
    }
}

/// The members of the rank's struct.
fn members_of(alloc: Heap, forms: &[Form]) -> Result<Vec<u8, Heap>, AllocError>
    ensures { IfOk result (λ members. members.items ≡ c_members (forms_seen forms.now)) }
{
    let mut members = Vec::new(alloc);
    for form in forms {
        put_member(alloc, &mut members, form)?;
    }
    Ok(members)
}

/// How the rank's struct begins.
#[tactic(auto, unfolding(crate::specs::Translation::struct_begin))]
fn struct_begin() -> &'static [u8]
    ensures { result.now ≡ struct_begin }
{
    b"// The rank's own variables and arrays.\nstatic struct {\n"
}

/// Writes the struct with these members, if there are any.
fn put_struct(text: &mut Vec<u8, Heap>, members: &[u8]) -> Result<(), AllocError>
    ensures { OnOk result (text.new.items ≡ text.old.items ++ c_struct members.now) }
{
    let [_, ..] = members else {
        return Ok(());
    };
    text.extend_from_slice(struct_begin())?;
    text.extend_from_slice(members)?;
    text.extend_from_slice(b"} my;\n\n".as_slice())
}

/// How the function that a rank runs begins.
#[tactic(auto, unfolding(crate::specs::Translation::function_begin))]
fn function_begin() -> &'static [u8]
    ensures { result.now ≡ function_begin }
{
    b"static void run_program(void)\n{\n"
}

/// Writes the program's own part.
pub(crate) fn put_program(
    alloc: Heap,
    text: &mut Vec<u8, Heap>,
    numbers: &[usize],
    forms: &[Form],
) -> Result<(), AllocError>
    ensures { OnOk result (text.new.items ≡ text.old.items ++ c_program numbers.now (forms_seen forms.now)) }
{
    let members = members_of(alloc, forms)?;
    put_struct(text, members.as_slice())?;
    text.extend_from_slice(function_begin())?;
    put_lines(alloc, text, numbers, forms)?;
    text.extend_from_slice(b"}\n".as_slice())
}
