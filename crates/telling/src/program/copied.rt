//! Copies of statements.
ghost use Rattle.std.specs.Prelude.{◌≡◌, IfOk};
ghost use Rattle.rank_text.specs.Grammar.Forms.{send_form};
ghost use Rattle.rank_text.specs.Grammar.SeenForms.{form_seen, pattern_of, payload_seen};
ghost use Rattle.rank_text.specs.Grammar.Tree.{tree_of};

use limits::Heap;
use rank_text::grammar::{Form, Pattern, Payload, Written};
use std::alloc::AllocError;

pub(crate) fn copied(alloc: Heap, expression: &Written) -> Result<Written, AllocError>
    ensures { IfOk result (λ e. tree_of e ≡ tree_of expression.now) }
{
    match expression {
        Written::Number(number) => Ok(Written::Number(*number)),
        Written::Variable(name) => Ok(Written::Variable(*name)),
        Written::Item(name, index) => {
            let index = copied(alloc, index)?;
            Ok(Written::Item(*name, Box::new(alloc, index)?))
        }
        Written::Reading(reading) => Ok(Written::Reading(*reading)),
        Written::Negation(operand) => {
            let operand = copied(alloc, operand)?;
            Ok(Written::Negation(Box::new(alloc, operand)?))
        }
        Written::Operation(operator, left, right) => {
            let left = Box::new(alloc, copied(alloc, left)?)?;
            let right = Box::new(alloc, copied(alloc, right)?)?;
            Ok(Written::Operation(*operator, left, right))
        }
    }
}

fn copied_pattern(alloc: Heap, pattern: &Pattern) -> Result<Pattern, AllocError>
    ensures { IfOk result (λ p. pattern_of p ≡ pattern_of pattern.now) }
{
    match pattern {
        Pattern::Any => Ok(Pattern::Any),
        Pattern::Value(expression) => copied(alloc, expression).map(Pattern::Value),
    }
}

fn copied_payload(alloc: Heap, payload: &Payload) -> Result<Payload, AllocError>
    ensures { IfOk result (λ p. payload_seen p ≡ payload_seen payload.now) }
{
    match payload {
        Payload::Lone(name) => Ok(Payload::Lone(*name)),
        Payload::One(expression) => copied(alloc, expression).map(Payload::One),
    }
}

fn copied_two(
    alloc: Heap,
    first: &Written,
    second: &Written,
) -> Result<(Written, Written), AllocError>
    ensures { IfOk result (λ both. (tree_of both.0 ≡ tree_of first.now) × (tree_of both.1 ≡ tree_of second.now)) }
{
    let first = copied(alloc, first)?;
    match copied(alloc, second) {
        Ok(second) => Ok((first, second)),
        Err(error) => {
            drop(first);
            Err(error)
        }
    }
}

fn copied_envelope(
    alloc: Heap,
    source: &Pattern,
    tag: &Pattern,
) -> Result<(Pattern, Pattern), AllocError>
    ensures { IfOk result (λ both. (pattern_of both.0 ≡ pattern_of source.now) × (pattern_of both.1 ≡ pattern_of tag.now)) }
{
    let source = copied_pattern(alloc, source)?;
    match copied_pattern(alloc, tag) {
        Ok(tag) => Ok((source, tag)),
        Err(error) => {
            drop(source);
            Err(error)
        }
    }
}

fn copied_send(
    alloc: Heap,
    destination: &Written,
    tag: &Written,
    payload: &Payload,
) -> Result<Form, AllocError>
    ensures { IfOk result (λ f. form_seen f ≡ send_form (tree_of destination.now) (tree_of tag.now) (payload_seen payload.now)) }
{
    let (destination, tag) = copied_two(alloc, destination, tag)?;
    match copied_payload(alloc, payload) {
        Ok(payload) => Ok(Form::Send(destination, tag, payload)),
        Err(error) => {
            drop(destination);
            drop(tag);
            Err(error)
        }
    }
}

pub(crate) fn copied_form(alloc: Heap, form: &Form) -> Result<Form, AllocError>
    ensures { IfOk result (λ f. form_seen f ≡ form_seen form.now) }
{
    match form {
        Form::Var(name) => Ok(Form::Var(*name)),
        Form::Array(name, length) => Ok(Form::Array(*name, *length)),
        Form::Let(name, value) => match copied(alloc, value) {
            Ok(value) => Ok(Form::Let(*name, value)),
            Err(error) => Err(error),
        },
        Form::LetItem(name, index, value) => match copied_two(alloc, index, value) {
            Ok((index, value)) => Ok(Form::LetItem(*name, index, value)),
            Err(error) => Err(error),
        },
        Form::If(test) => copied(alloc, test).map(Form::If),
        Form::Else => Ok(Form::Else),
        Form::End => Ok(Form::End),
        Form::While(test) => copied(alloc, test).map(Form::While),
        Form::Send(destination, tag, payload) => copied_send(alloc, destination, tag, payload),
        Form::Recv(source, tag, buffer) => match copied_envelope(alloc, source, tag) {
            Ok((source, tag)) => Ok(Form::Recv(source, tag, *buffer)),
            Err(error) => Err(error),
        },
        Form::Probe(source, tag) => match copied_envelope(alloc, source, tag) {
            Ok((source, tag)) => Ok(Form::Probe(source, tag)),
            Err(error) => Err(error),
        },
        Form::TryProbe(source, tag, flag) => match copied_envelope(alloc, source, tag) {
            Ok((source, tag)) => Ok(Form::TryProbe(source, tag, *flag)),
            Err(error) => Err(error),
        },
        Form::Print(value) => copied(alloc, value).map(Form::Print),
        Form::Barrier => Ok(Form::Barrier),
        Form::Bcast(root, buffer) => match copied(alloc, root) {
            Ok(root) => Ok(Form::Bcast(root, *buffer)),
            Err(error) => Err(error),
        },
        Form::Reduce(reduction, root, value, name) => match copied_two(alloc, root, value) {
            Ok((root, value)) => Ok(Form::Reduce(*reduction, root, value, *name)),
            Err(error) => Err(error),
        },
    }
}
