//! What is printed behind a statement, to tell what was sent or received.
ghost use Rattle.std.specs.Prelude.{◌≡◌, ◌++◌, OnOk, IfOk, ◌∷◌, []};
ghost use Rattle.rank_text.specs.Checker.SeenLines.{forms_seen};
ghost use Rattle.rank_text.specs.Grammar.Forms.{if_form, print_form, reduce_form, while_form};
ghost use Rattle.rank_text.specs.Grammar.SeenForms.{form_seen, payload_seen};
ghost use Rattle.rank_text.specs.Grammar.Tree.{item, number, operation, reading, tree_of, variable};
ghost use Rattle.rank_text.specs.declared.grammar.token.Operator.TheVariants.{Add, Less};
ghost use Rattle.rank_text.specs.declared.grammar.token.Reading.TheVariants as reads;
ghost use Rattle.telling.specs.Telling.{evaluates, length_in, length_of, number_of, prints_items};
ghost use Rattle.telling.specs.Telling.{tells_barrier, tells_broadcast, tells_message, tells_named, tells_payload, tells_reduction, tells_send};

use crate::added::Added;
use crate::program::copied::copied;
use crate::statements::put;
use limits::Heap;
use rank_text::grammar::{Form, Name, Operator, Payload, Reading, Reduction, Written};
use std::alloc::AllocError;

fn length_in(name: &Name, form: &Form) -> Option<u64>
    ensures { result ≡ length_in name.now (form_seen form.now) }
{
    match form {
        Form::Array(other, length) => {
            if other.as_bytes() == name.as_bytes() {
                Some(*length)
            } else {
                None
            }
        }
        Form::Var(_) | Form::Let(..) | Form::LetItem(..) | Form::Send(..) => None,
        Form::If(_) | Form::Else | Form::End | Form::While(_) | Form::Print(_) => None,
        Form::Recv(..) | Form::Probe(..) | Form::TryProbe(..) => None,
        Form::Barrier | Form::Bcast(..) | Form::Reduce(..) => None,
    }
}

/// How many items the array of this name has; a variable isn't an array.
fn length_of(name: &Name, forms: &[Form]) -> Option<u64>
    ensures { result ≡ length_of name.now (forms_seen forms.now) }
{
    let mut left = forms;
    while let [form, more @ ..] = left {
        if let Some(length) = length_in(name, form) {
            return Some(length);
        }
        left = more;
    }
    None
}

fn put_print(to: &mut Vec<Form, Heap>, value: Written) -> Result<(), AllocError>
    ensures { OnOk result (forms_seen to.new.items ≡ forms_seen to.old.items ++ print_form (tree_of value) ∷ []) }
{
    put(to, Form::Print(value))
}

fn put_number(to: &mut Vec<Form, Heap>, value: u64) -> Result<(), AllocError>
    ensures { OnOk result (forms_seen to.new.items ≡ forms_seen to.old.items ++ print_form (number value) ∷ []) }
{
    put_print(to, Written::Number(value))
}

fn put_copy(alloc: Heap, to: &mut Vec<Form, Heap>, value: &Written) -> Result<(), AllocError>
    ensures { OnOk result (forms_seen to.new.items ≡ forms_seen to.old.items ++ print_form (tree_of value.now) ∷ []) }
{
    let value = copied(alloc, value)?;
    put_print(to, value)
}

/// Puts a statement that evaluates a value.
pub(crate) fn put_evaluated(
    alloc: Heap,
    to: &mut Vec<Form, Heap>,
    added: &Added,
    value: &Written,
) -> Result<(), AllocError>
    ensures { OnOk result (forms_seen to.new.items ≡ forms_seen to.old.items ++ evaluates added.now (tree_of value.now) ∷ []) }
{
    let value = copied(alloc, value)?;
    put(to, Form::Let(added.reply, value))
}

/// Two operands.
fn operation(
    alloc: Heap,
    operator: Operator,
    left: Written,
    right: Written,
) -> Result<Written, AllocError>
    ensures { IfOk result (λ e. tree_of e ≡ operation operator (tree_of left) (tree_of right)) }
{
    let left = Box::new(alloc, left)?;
    let right = Box::new(alloc, right)?;
    Ok(Written::Operation(operator, left, right))
}

/// Puts the beginning of a part that is made if these values compare so.
fn put_if(
    alloc: Heap,
    to: &mut Vec<Form, Heap>,
    operator: Operator,
    left: Written,
    right: Written,
) -> Result<(), AllocError>
    ensures { OnOk result (forms_seen to.new.items ≡ forms_seen to.old.items ++ if_form (operation operator (tree_of left) (tree_of right)) ∷ []) }
{
    let test = operation(alloc, operator, left, right)?;
    put(to, Form::If(test))
}

fn put_while(
    alloc: Heap,
    to: &mut Vec<Form, Heap>,
    added: &Added,
    count: Written,
) -> Result<(), AllocError>
    ensures { OnOk result (forms_seen to.new.items ≡ forms_seen to.old.items ++ while_form (operation Less (variable added.now.reply) (tree_of count)) ∷ []) }
{
    let test = operation(alloc, Operator::Less, Written::Variable(added.reply), count)?;
    put(to, Form::While(test))
}

fn put_item(
    alloc: Heap,
    to: &mut Vec<Form, Heap>,
    added: &Added,
    name: Name,
) -> Result<(), AllocError>
    ensures { OnOk result (forms_seen to.new.items ≡ forms_seen to.old.items ++ print_form (item name (variable added.now.reply)) ∷ []) }
{
    let index = Box::new(alloc, Written::Variable(added.reply))?;
    put_print(to, Written::Item(name, index))
}

fn put_step(alloc: Heap, to: &mut Vec<Form, Heap>, added: &Added) -> Result<(), AllocError>
    ensures { OnOk result (forms_seen to.new.items ≡ forms_seen to.old.items ++ evaluates added.now (operation Add (variable added.now.reply) (number 1)) ∷ []) }
{
    let place = Written::Variable(added.reply);
    let next = operation(alloc, Operator::Add, place, Written::Number(1))?;
    put(to, Form::Let(added.reply, next))
}

/// Puts a loop that prints so many items of an array.
fn put_items(
    alloc: Heap,
    to: &mut Vec<Form, Heap>,
    added: &Added,
    name: Name,
    count: Written,
) -> Result<(), AllocError>
    ensures { OnOk result (forms_seen to.new.items ≡ forms_seen to.old.items ++ prints_items added.now name (tree_of count)) }
{
    if let Err(error) = put(to, Form::Let(added.reply, Written::Number(0))) {
        drop(count);
        return Err(error);
    }
    put_while(alloc, to, added, count)?;
    put_item(alloc, to, added, name)?;
    put_step(alloc, to, added)?;
    put(to, Form::End)
}

/// Puts what tells a variable, or an array of so many items.
fn put_named(
    alloc: Heap,
    to: &mut Vec<Form, Heap>,
    added: &Added,
    name: Name,
    length: Option<u64>,
) -> Result<(), AllocError>
    ensures { OnOk result (forms_seen to.new.items ≡ forms_seen to.old.items ++ tells_named added.now name length) }
{
    match length {
        Some(length) => {
            put_number(to, length)?;
            put_items(alloc, to, added, name, Written::Number(length))
        }
        None => {
            put_number(to, 1)?;
            put_print(to, Written::Variable(name))
        }
    }
}

fn put_payload(
    alloc: Heap,
    to: &mut Vec<Form, Heap>,
    added: &Added,
    forms: &[Form],
    payload: &Payload,
) -> Result<(), AllocError>
    ensures { OnOk result (forms_seen to.new.items ≡ forms_seen to.old.items ++ tells_payload added.now (forms_seen forms.now) (payload_seen payload.now)) }
{
    match payload {
        Payload::Lone(name) => put_named(alloc, to, added, *name, length_of(name, forms)),
        Payload::One(value) => {
            put_number(to, 1)?;
            put_copy(alloc, to, value)
        }
    }
}

/// Puts what tells a send.
pub(crate) fn put_send(
    alloc: Heap,
    to: &mut Vec<Form, Heap>,
    added: &Added,
    forms: &[Form],
    destination: &Written,
    tag: &Written,
    payload: &Payload,
) -> Result<(), AllocError>
    ensures { OnOk result (forms_seen to.new.items ≡ forms_seen to.old.items ++ tells_send added.now (forms_seen forms.now) (tree_of destination.now) (tree_of tag.now) (payload_seen payload.now)) }
{
    put_copy(alloc, to, destination)?;
    put_copy(alloc, to, tag)?;
    put_payload(alloc, to, added, forms, payload)
}

/// Puts a barrier that is told.
pub(crate) fn put_barrier(alloc: Heap, to: &mut Vec<Form, Heap>) -> Result<(), AllocError>
    ensures { OnOk result (forms_seen to.new.items ≡ forms_seen to.old.items ++ tells_barrier) }
{
    put(to, Form::If(Written::Reading(Reading::Rank)))?;
    put_number(to, 16)?;
    put(to, Form::End)?;
    put(to, Form::Barrier)?;
    let rank = Written::Reading(Reading::Rank);
    put_if(alloc, to, Operator::Equal, rank, Written::Number(0))?;
    put_number(to, 16)?;
    put(to, Form::End)
}

fn put_if_root(
    alloc: Heap,
    to: &mut Vec<Form, Heap>,
    operator: Operator,
    added: &Added,
) -> Result<(), AllocError>
    ensures { OnOk result (forms_seen to.new.items ≡ forms_seen to.old.items ++ if_form (operation operator (variable added.now.reply) (reading reads.Rank)) ∷ []) }
{
    let root = Written::Variable(added.reply);
    put_if(alloc, to, operator, root, Written::Reading(Reading::Rank))
}

/// Puts a broadcast that is told.
pub(crate) fn put_broadcast(
    alloc: Heap,
    to: &mut Vec<Form, Heap>,
    added: &Added,
    forms: &[Form],
    root: &Written,
    buffer: Name,
) -> Result<(), AllocError>
    ensures { OnOk result (forms_seen to.new.items ≡ forms_seen to.old.items ++ tells_broadcast added.now (forms_seen forms.now) (tree_of root.now) buffer) }
{
    put_evaluated(alloc, to, added, root)?;
    put(to, Form::Bcast(Written::Variable(added.reply), buffer))?;
    put_if_root(alloc, to, Operator::Equal, added)?;
    put_number(to, 17)?;
    put_named(alloc, to, added, buffer, length_of(&buffer, forms))?;
    put(to, Form::End)
}

fn number_of(reduction: Reduction) -> u64
    ensures { result ≡ number_of reduction }
{
    match reduction {
        Reduction::Sum => 18,
        Reduction::Max => 19,
        Reduction::Min => 20,
    }
}

fn put_reduce(
    alloc: Heap,
    to: &mut Vec<Form, Heap>,
    added: &Added,
    reduction: Reduction,
    value: &Written,
    name: Name,
) -> Result<(), AllocError>
    ensures { OnOk result (forms_seen to.new.items ≡ forms_seen to.old.items ++ reduce_form reduction (variable added.now.reply) (tree_of value.now) name ∷ []) }
{
    let value = copied(alloc, value)?;
    put(
        to,
        Form::Reduce(reduction, Written::Variable(added.reply), value, name),
    )
}

/// Puts a reduction that is told.
pub(crate) fn put_reduction(
    alloc: Heap,
    to: &mut Vec<Form, Heap>,
    added: &Added,
    reduction: Reduction,
    root: &Written,
    value: &Written,
    name: Name,
) -> Result<(), AllocError>
    ensures { OnOk result (forms_seen to.new.items ≡ forms_seen to.old.items ++ tells_reduction added.now reduction (tree_of root.now) (tree_of value.now) name) }
{
    put_evaluated(alloc, to, added, root)?;
    put_reduce(alloc, to, added, reduction, value, name)?;
    put_if_root(alloc, to, Operator::NotEqual, added)?;
    put_number(to, number_of(reduction))?;
    put_print(to, Written::Variable(added.reply))?;
    put_copy(alloc, to, value)?;
    put(to, Form::End)
}

/// Puts what tells a message in its buffer.
pub(crate) fn put_message(
    alloc: Heap,
    to: &mut Vec<Form, Heap>,
    added: &Added,
    forms: &[Form],
    buffer: Name,
) -> Result<(), AllocError>
    ensures { OnOk result (forms_seen to.new.items ≡ forms_seen to.old.items ++ tells_message added.now (forms_seen forms.now) buffer) }
{
    put_print(to, Written::Reading(Reading::Source))?;
    put_print(to, Written::Reading(Reading::Tag))?;
    put_print(to, Written::Reading(Reading::Count))?;
    match length_of(&buffer, forms) {
        Some(_) => put_items(alloc, to, added, buffer, Written::Reading(Reading::Count)),
        None => put_print(to, Written::Variable(buffer)),
    }
}
