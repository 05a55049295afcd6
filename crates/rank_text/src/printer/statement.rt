//! Writes a statement.

ghost use Rattle.std.specs.Prelude.{◌≡◌, ◌++◌, OnOk, codes};
ghost use Rattle.rank_text.specs.Grammar.Forms.{array_form, bcast_form, item_form, let_form, probe_form, recv_form};
ghost use Rattle.rank_text.specs.Grammar.Forms.{reduce_form, send_form, try_probe_form, var_form};
ghost use Rattle.rank_text.specs.Grammar.SeenForms.{pattern_of, form_seen, payload_seen};
ghost use Rattle.rank_text.specs.Grammar.Tree.{tree_of};
ghost use Rattle.rank_text.specs.Printer.Canonical.{pattern_text, expression_text, form_text, payload_text, reduction_text};

use crate::grammar::{Form, Name, Pattern, Payload, Reduction, Written};
use crate::printer::expression::{put_expression, put_number};
use limits::Heap;
use std::alloc::AllocError;

fn put_pattern(alloc: Heap, text: &mut Vec<u8, Heap>, pattern: &Pattern) -> Result<(), AllocError>
    ensures { OnOk result (text.new.items ≡ text.old.items ++ pattern_text (pattern_of pattern.now)) }
{
    match pattern {
        Pattern::Any => text.extend_from_slice(b"any".as_slice()),
        Pattern::Value(value) => put_expression(alloc, text, value),
    }
}

fn put_payload(alloc: Heap, text: &mut Vec<u8, Heap>, payload: &Payload) -> Result<(), AllocError>
    ensures { OnOk result (text.new.items ≡ text.old.items ++ payload_text (payload_seen payload.now)) }
{
    match payload {
        Payload::Lone(name) => text.extend_from_slice(name.as_bytes()),
        Payload::One(value) => put_expression(alloc, text, value),
    }
}

fn put_comma(text: &mut Vec<u8, Heap>) -> Result<(), AllocError>
    ensures { OnOk result (text.new.items ≡ text.old.items ++ codes ", ") }
{
    text.extend_from_slice(b", ".as_slice())
}

fn put_declaration(text: &mut Vec<u8, Heap>, name: &Name) -> Result<(), AllocError>
    ensures { OnOk result (text.new.items ≡ text.old.items ++ form_text (var_form name.now)) }
{
    text.extend_from_slice(b"var ".as_slice())?;
    text.extend_from_slice(name.as_bytes())
}

fn put_array(
    alloc: Heap,
    text: &mut Vec<u8, Heap>,
    name: &Name,
    length: u64,
) -> Result<(), AllocError>
    ensures { OnOk result (text.new.items ≡ text.old.items ++ form_text (array_form name.now length)) }
{
    text.extend_from_slice(b"array ".as_slice())?;
    text.extend_from_slice(name.as_bytes())?;
    text.extend_from_slice(b"[".as_slice())?;
    put_number(alloc, text, length)?;
    text.extend_from_slice(b"]".as_slice())
}

fn put_let(
    alloc: Heap,
    text: &mut Vec<u8, Heap>,
    name: &Name,
    value: &Written,
) -> Result<(), AllocError>
    ensures { OnOk result (text.new.items ≡ text.old.items ++ form_text (let_form name.now (tree_of value.now))) }
{
    text.extend_from_slice(b"let ".as_slice())?;
    text.extend_from_slice(name.as_bytes())?;
    text.extend_from_slice(b" = ".as_slice())?;
    put_expression(alloc, text, value)
}

fn put_item(
    alloc: Heap,
    text: &mut Vec<u8, Heap>,
    name: &Name,
    index: &Written,
    value: &Written,
) -> Result<(), AllocError>
    ensures { OnOk result (text.new.items
        ≡ text.old.items ++ form_text (item_form name.now (tree_of index.now) (tree_of value.now))) }
{
    text.extend_from_slice(b"let ".as_slice())?;
    text.extend_from_slice(name.as_bytes())?;
    text.extend_from_slice(b"[".as_slice())?;
    put_expression(alloc, text, index)?;
    text.extend_from_slice(b"] = ".as_slice())?;
    put_expression(alloc, text, value)
}

/// Writes a statement word with the space behind it, and an expression.
fn put_with(
    alloc: Heap,
    text: &mut Vec<u8, Heap>,
    word: &[u8],
    expression: &Written,
) -> Result<(), AllocError>
    ensures { OnOk result (text.new.items ≡ text.old.items ++ (word.now ++ expression_text (tree_of expression.now))) }
{
    text.extend_from_slice(word)?;
    put_expression(alloc, text, expression)
}

fn put_send(
    alloc: Heap,
    text: &mut Vec<u8, Heap>,
    dest: &Written,
    tag: &Written,
    payload: &Payload,
) -> Result<(), AllocError>
    ensures { OnOk result (text.new.items
        ≡ text.old.items ++ form_text (send_form (tree_of dest.now) (tree_of tag.now) (payload_seen payload.now))) }
{
    text.extend_from_slice(b"send ".as_slice())?;
    put_expression(alloc, text, dest)?;
    put_comma(text)?;
    put_expression(alloc, text, tag)?;
    put_comma(text)?;
    put_payload(alloc, text, payload)
}

/// Writes a source and a tag, with a comma between them.
fn put_patterns(
    alloc: Heap,
    text: &mut Vec<u8, Heap>,
    source: &Pattern,
    tag: &Pattern,
) -> Result<(), AllocError>
    ensures { OnOk result (text.new.items
        ≡ text.old.items ++ (pattern_text (pattern_of source.now) ++ codes ", " ++ pattern_text (pattern_of tag.now))) }
{
    put_pattern(alloc, text, source)?;
    put_comma(text)?;
    put_pattern(alloc, text, tag)
}

fn put_receive(
    alloc: Heap,
    text: &mut Vec<u8, Heap>,
    source: &Pattern,
    tag: &Pattern,
    buffer: &Name,
) -> Result<(), AllocError>
    ensures { OnOk result (text.new.items
        ≡ text.old.items ++ form_text (recv_form (pattern_of source.now) (pattern_of tag.now) buffer.now)) }
{
    text.extend_from_slice(b"recv ".as_slice())?;
    put_patterns(alloc, text, source, tag)?;
    put_comma(text)?;
    text.extend_from_slice(buffer.as_bytes())
}

fn put_probe(
    alloc: Heap,
    text: &mut Vec<u8, Heap>,
    source: &Pattern,
    tag: &Pattern,
) -> Result<(), AllocError>
    ensures { OnOk result (text.new.items
        ≡ text.old.items ++ form_text (probe_form (pattern_of source.now) (pattern_of tag.now))) }
{
    text.extend_from_slice(b"probe ".as_slice())?;
    put_patterns(alloc, text, source, tag)
}

fn put_try_probe(
    alloc: Heap,
    text: &mut Vec<u8, Heap>,
    source: &Pattern,
    tag: &Pattern,
    flag: &Name,
) -> Result<(), AllocError>
    ensures { OnOk result (text.new.items
        ≡ text.old.items ++ form_text (try_probe_form (pattern_of source.now) (pattern_of tag.now) flag.now)) }
{
    text.extend_from_slice(b"iprobe ".as_slice())?;
    put_patterns(alloc, text, source, tag)?;
    put_comma(text)?;
    text.extend_from_slice(flag.as_bytes())
}

fn put_broadcast(
    alloc: Heap,
    text: &mut Vec<u8, Heap>,
    root: &Written,
    buffer: &Name,
) -> Result<(), AllocError>
    ensures { OnOk result (text.new.items
        ≡ text.old.items ++ form_text (bcast_form (tree_of root.now) buffer.now)) }
{
    put_with(alloc, text, b"bcast ", root)?;
    put_comma(text)?;
    text.extend_from_slice(buffer.as_bytes())
}

/// The word for how a reduction combines two values.
fn reduction_word(reduction: Reduction) -> &'static [u8]
    ensures { result.now ≡ reduction_text reduction }
{
    match reduction {
        Reduction::Sum => b"sum",
        Reduction::Max => b"max",
        Reduction::Min => b"min",
    }
}

fn put_reduction(
    alloc: Heap,
    text: &mut Vec<u8, Heap>,
    reduction: Reduction,
    root: &Written,
    value: &Written,
    place: &Name,
) -> Result<(), AllocError>
    ensures { OnOk result (text.new.items
        ≡ text.old.items ++ form_text (reduce_form reduction (tree_of root.now) (tree_of value.now) place.now)) }
{
    text.extend_from_slice(b"reduce ".as_slice())?;
    text.extend_from_slice(reduction_word(reduction))?;
    put_comma(text)?;
    put_expression(alloc, text, root)?;
    put_comma(text)?;
    put_expression(alloc, text, value)?;
    put_comma(text)?;
    text.extend_from_slice(place.as_bytes())
}

/// Writes a statement, without its line.
pub(crate) fn put_form(alloc: Heap, text: &mut Vec<u8, Heap>, form: &Form) -> Result<(), AllocError>
    ensures { OnOk result (text.new.items ≡ text.old.items ++ form_text (form_seen form.now)) }
{
    match form {
        Form::Var(name) => put_declaration(text, name),
        Form::Array(name, length) => put_array(alloc, text, name, *length),
        Form::Let(name, value) => put_let(alloc, text, name, value),
        Form::LetItem(name, index, value) => put_item(alloc, text, name, index, value),
        Form::If(test) => put_with(alloc, text, b"if ", test),
        Form::Else => text.extend_from_slice(b"else".as_slice()),
        Form::End => text.extend_from_slice(b"end".as_slice()),
        Form::While(test) => put_with(alloc, text, b"while ", test),
        Form::Send(dest, tag, payload) => put_send(alloc, text, dest, tag, payload),
        Form::Recv(source, tag, buffer) => put_receive(alloc, text, source, tag, buffer),
        Form::Probe(source, tag) => put_probe(alloc, text, source, tag),
        Form::TryProbe(source, tag, flag) => put_try_probe(alloc, text, source, tag, flag),
        Form::Print(value) => put_with(alloc, text, b"print ", value),
        Form::Barrier => text.extend_from_slice(b"barrier".as_slice()),
        Form::Bcast(root, buffer) => put_broadcast(alloc, text, root, buffer),
        Form::Reduce(reduction, root, value, place) => {
            put_reduction(alloc, text, *reduction, root, value, place)
        }
    }
}
