//! Writes a statement.
ghost use Rattle.std.specs.Prelude.{◌≡◌, ◌++◌, OnOk, codes};
ghost use Rattle.rank_text.specs.Grammar.Forms.{bcast_form, item_form, let_form, probe_form, recv_form, reduce_form, send_form, try_probe_form};
ghost use Rattle.rank_text.specs.Grammar.Forms.{lone, one};
ghost use Rattle.rank_text.specs.Grammar.SeenForms.{form_seen, pattern_of, payload_seen};
ghost use Rattle.rank_text.specs.Grammar.Tree.{tree_of};
ghost use Rattle.c_program.specs.Translation.{all_text, c_expression, c_pattern, c_patterns, c_send, c_statement, c_target, c_two, reduction_call};

use crate::expression::{put_all, put_expression, put_own};
use limits::Heap;
use rank_text::grammar::{Form, Name, Pattern, Payload, Reduction, Written};
use std::alloc::AllocError;

fn put_comma(text: &mut Vec<u8, Heap>) -> Result<(), AllocError>
    ensures { OnOk result (text.new.items ≡ text.old.items ++ codes ", ") }
{
    text.extend_from_slice(b", ".as_slice())
}

/// Writes the end of a call.
fn put_end(text: &mut Vec<u8, Heap>) -> Result<(), AllocError>
    ensures { OnOk result (text.new.items ≡ text.old.items ++ codes ");") }
{
    text.extend_from_slice(b");".as_slice())
}

/// Writes the variable that a call sets, its last argument, and the end of the call.
fn put_target(text: &mut Vec<u8, Heap>, name: &Name) -> Result<(), AllocError>
    ensures { OnOk result (text.new.items ≡ text.old.items ++ c_target name.now) }
{
    text.extend_from_slice(b", &".as_slice())?;
    put_own(text, name)?;
    put_end(text)
}

fn put_pattern(alloc: Heap, text: &mut Vec<u8, Heap>, pattern: &Pattern) -> Result<(), AllocError>
    ensures { OnOk result (text.new.items ≡ text.old.items ++ c_pattern (pattern_of pattern.now)) }
{
    match pattern {
        Pattern::Any => text.extend_from_slice(b"any()".as_slice()),
        Pattern::Value(value) => {
            text.extend_from_slice(b"exactly(".as_slice())?;
            put_expression(alloc, text, value)?;
            text.extend_from_slice(b")".as_slice())
        }
    }
}

/// Writes a source and a tag, with a comma between them.
#[tactic(auto, unfolding(crate::specs::Translation::c_patterns))]
fn put_patterns(
    alloc: Heap,
    text: &mut Vec<u8, Heap>,
    source: &Pattern,
    tag: &Pattern,
) -> Result<(), AllocError>
    ensures { OnOk result (text.new.items ≡ text.old.items ++ c_patterns (pattern_of source.now) (pattern_of tag.now)) }
{
    put_pattern(alloc, text, source)?;
    put_comma(text)?;
    put_pattern(alloc, text, tag)
}

/// Writes the call that sets a variable or an array to zero.
fn put_declaration(text: &mut Vec<u8, Heap>, name: &Name) -> Result<(), AllocError>
    ensures { OnOk result (text.new.items ≡ text.old.items ++ (codes "declare(" ++ all_text name.now ++ codes ");")) }
{
    text.extend_from_slice(b"declare(".as_slice())?;
    put_all(text, name)?;
    put_end(text)
}

fn put_let(
    alloc: Heap,
    text: &mut Vec<u8, Heap>,
    name: &Name,
    value: &Written,
) -> Result<(), AllocError>
    ensures { OnOk result (text.new.items ≡ text.old.items ++ c_statement (let_form name.now (tree_of value.now))) }
{
    text.extend_from_slice(b"set_variable(&".as_slice())?;
    put_own(text, name)?;
    put_comma(text)?;
    put_expression(alloc, text, value)?;
    put_end(text)
}

fn put_item(
    alloc: Heap,
    text: &mut Vec<u8, Heap>,
    name: &Name,
    index: &Written,
    value: &Written,
) -> Result<(), AllocError>
    ensures { OnOk result (text.new.items
        ≡ text.old.items ++ c_statement (item_form name.now (tree_of index.now) (tree_of value.now))) }
{
    text.extend_from_slice(b"set_item(".as_slice())?;
    put_all(text, name)?;
    put_comma(text)?;
    put_two(alloc, text, index, value)?;
    put_end(text)
}

/// Writes an expression between two texts.
fn put_between(
    alloc: Heap,
    text: &mut Vec<u8, Heap>,
    before: &[u8],
    expression: &Written,
    after: &[u8],
) -> Result<(), AllocError>
    ensures { OnOk result (text.new.items
        ≡ text.old.items ++ (before.now ++ c_expression (tree_of expression.now) ++ after.now)) }
{
    text.extend_from_slice(before)?;
    put_expression(alloc, text, expression)?;
    text.extend_from_slice(after)
}

/// Writes two expressions, with a comma between them.
#[tactic(auto, unfolding(crate::specs::Translation::c_two))]
fn put_two(
    alloc: Heap,
    text: &mut Vec<u8, Heap>,
    first: &Written,
    second: &Written,
) -> Result<(), AllocError>
    ensures { OnOk result (text.new.items ≡ text.old.items ++ c_two (tree_of first.now) (tree_of second.now)) }
{
    put_expression(alloc, text, first)?;
    put_comma(text)?;
    put_expression(alloc, text, second)
}

/// Writes a send of all items of a variable or an array.
fn put_send_items(
    alloc: Heap,
    text: &mut Vec<u8, Heap>,
    destination: &Written,
    tag: &Written,
    name: &Name,
) -> Result<(), AllocError>
    ensures { OnOk result (text.new.items
        ≡ text.old.items ++ c_send (tree_of destination.now) (tree_of tag.now) (lone name.now)) }
{
    text.extend_from_slice(b"send_items(".as_slice())?;
    put_two(alloc, text, destination, tag)?;
    put_comma(text)?;
    put_all(text, name)?;
    put_end(text)
}

/// Writes a send of a value.
fn put_send_value(
    alloc: Heap,
    text: &mut Vec<u8, Heap>,
    destination: &Written,
    tag: &Written,
    value: &Written,
) -> Result<(), AllocError>
    ensures { OnOk result (text.new.items
        ≡ text.old.items ++ c_send (tree_of destination.now) (tree_of tag.now) (one (tree_of value.now))) }
{
    text.extend_from_slice(b"send_value(".as_slice())?;
    put_two(alloc, text, destination, tag)?;
    put_comma(text)?;
    put_expression(alloc, text, value)?;
    put_end(text)
}

fn put_send(
    alloc: Heap,
    text: &mut Vec<u8, Heap>,
    destination: &Written,
    tag: &Written,
    payload: &Payload,
) -> Result<(), AllocError>
    ensures { OnOk result (text.new.items
        ≡ text.old.items ++ c_statement (send_form (tree_of destination.now) (tree_of tag.now) (payload_seen payload.now))) }
{
    match payload {
        Payload::Lone(name) => put_send_items(alloc, text, destination, tag, name),
        Payload::One(value) => put_send_value(alloc, text, destination, tag, value),
    }
}

fn put_receive(
    alloc: Heap,
    text: &mut Vec<u8, Heap>,
    source: &Pattern,
    tag: &Pattern,
    buffer: &Name,
) -> Result<(), AllocError>
    ensures { OnOk result (text.new.items
        ≡ text.old.items ++ c_statement (recv_form (pattern_of source.now) (pattern_of tag.now) buffer.now)) }
{
    text.extend_from_slice(b"receive_items(".as_slice())?;
    put_patterns(alloc, text, source, tag)?;
    put_comma(text)?;
    put_all(text, buffer)?;
    put_end(text)
}

fn put_probe(
    alloc: Heap,
    text: &mut Vec<u8, Heap>,
    source: &Pattern,
    tag: &Pattern,
) -> Result<(), AllocError>
    ensures { OnOk result (text.new.items
        ≡ text.old.items ++ c_statement (probe_form (pattern_of source.now) (pattern_of tag.now))) }
{
    text.extend_from_slice(b"await_message(".as_slice())?;
    put_patterns(alloc, text, source, tag)?;
    put_end(text)
}

fn put_try_probe(
    alloc: Heap,
    text: &mut Vec<u8, Heap>,
    source: &Pattern,
    tag: &Pattern,
    flag: &Name,
) -> Result<(), AllocError>
    ensures { OnOk result (text.new.items
        ≡ text.old.items ++ c_statement (try_probe_form (pattern_of source.now) (pattern_of tag.now) flag.now)) }
{
    text.extend_from_slice(b"find_message(".as_slice())?;
    put_patterns(alloc, text, source, tag)?;
    put_target(text, flag)
}

fn put_broadcast(
    alloc: Heap,
    text: &mut Vec<u8, Heap>,
    root: &Written,
    buffer: &Name,
) -> Result<(), AllocError>
    ensures { OnOk result (text.new.items
        ≡ text.old.items ++ c_statement (bcast_form (tree_of root.now) buffer.now)) }
{
    text.extend_from_slice(b"make_broadcast(".as_slice())?;
    put_expression(alloc, text, root)?;
    put_comma(text)?;
    put_all(text, buffer)?;
    put_end(text)
}

/// The call of a reduction, up to how it combines two values.
#[tactic(auto, unfolding(crate::specs::Translation::reduction_call))]
fn reduction_call(reduction: Reduction) -> &'static [u8]
    ensures { result.now ≡ reduction_call reduction }
{
    match reduction {
        Reduction::Sum => b"make_reduce(BY_SUM, ",
        Reduction::Max => b"make_reduce(BY_MAX, ",
        Reduction::Min => b"make_reduce(BY_MIN, ",
    }
}

fn put_reduction(
    alloc: Heap,
    text: &mut Vec<u8, Heap>,
    reduction: Reduction,
    root: &Written,
    value: &Written,
    place: &Name,
) -> Result<(), AllocError>
    ensures { OnOk result (text.new.items
        ≡ text.old.items ++ c_statement (reduce_form reduction (tree_of root.now) (tree_of value.now) place.now)) }
{
    text.extend_from_slice(reduction_call(reduction))?;
    put_two(alloc, text, root, value)?;
    put_target(text, place)
}

/// Writes a statement, without its line.
pub(crate) fn put_statement(
    alloc: Heap,
    text: &mut Vec<u8, Heap>,
    form: &Form,
) -> Result<(), AllocError>
    ensures { OnOk result (text.new.items ≡ text.old.items ++ c_statement (form_seen form.now)) }
{
    match form {
        Form::Var(name) | Form::Array(name, _) => put_declaration(text, name),
        Form::Let(name, value) => put_let(alloc, text, name, value),
        Form::LetItem(name, index, value) => put_item(alloc, text, name, index, value),
        Form::If(test) => put_between(alloc, text, b"if (is_nonzero(", test, b")) {"),
        Form::Else => text.extend_from_slice(b"} else {".as_slice()),
        Form::End => text.extend_from_slice(b"}".as_slice()),
        Form::While(test) => put_between(alloc, text, b"while (is_nonzero(", test, b")) {"),
        Form::Send(destination, tag, payload) => put_send(alloc, text, destination, tag, payload),
        Form::Recv(source, tag, buffer) => put_receive(alloc, text, source, tag, buffer),
        Form::Probe(source, tag) => put_probe(alloc, text, source, tag),
        Form::TryProbe(source, tag, flag) => put_try_probe(alloc, text, source, tag, flag),
        Form::Print(value) => put_between(alloc, text, b"print_value(", value, b");"),
        Form::Barrier => text.extend_from_slice(b"make_barrier();".as_slice()),
        Form::Bcast(root, buffer) => put_broadcast(alloc, text, root, buffer),
        Form::Reduce(reduction, root, value, place) => {
            put_reduction(alloc, text, *reduction, root, value, place)
        }
    }
}
