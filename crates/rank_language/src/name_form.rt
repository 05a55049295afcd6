//! Names for the places of a statement.
ghost use Rattle.std.specs.Prelude.{◌≡◌, ◌<◌, IfOk, length, map};
ghost use Rattle.rank_text.specs.Grammar.SeenForms.{pattern_of as pattern_seen, form_seen, payload_seen};
ghost use Rattle.rank_text.specs.Grammar.Tree.{tree_of};
ghost use Rattle.rank_text.specs.Checker.SeenLines.{forms_seen};
ghost use Rattle.rank_language.specs.Named.{array_at, buffer_name, pattern_named, form_named};
ghost use Rattle.rank_language.specs.Named.{named, payload_named, value_named};
ghost use Rattle.rank_language.specs.Placed.{assign, assign_item, declare_array, does};
ghost use Rattle.rank_language.specs.Program.{AllPlaced, IsPlaced, IsWithin};
ghost use Rattle.rank_language.specs.Program.{IsBufferWithin, IsPatternWithin, IsPayloadWithin};
ghost use Rattle.rank_language.specs.Seen.{buffer_of, pattern_of, line_of, operand_of, payload_of, placed_of};
ghost use Rattle.rank_language.specs.SeenTables.{tables_seen};
ghost use Rattle.rank_language.specs.Shape.{step_of};

mod collectives;
mod messages;

use crate::expression::{Expression, Operand};
use crate::resolve::Tables;
use crate::statement::{Buffer, Pattern, Payload, Statement};
use collectives::name_collective;
use limits::Heap;
use messages::{name_probe, name_receive, name_send, name_try_probe};
use rank_text::checker::Array;
use rank_text::grammar::{Form, Name, Written, form};
use std::alloc::AllocError;

/// The array at a place.
#[tactic(auto, using(crate::proofs::Naming::arrays_length, crate::proofs::Naming::array_seen_at))]
fn array_at(tables: Tables<'_>, place: usize) -> Array
    requires { place < length (tables_seen tables).arrays }
    ensures { (result.name, result.length) ≡ array_at (tables_seen tables.entry) place }
{
    tables.arrays[place]
}

/// The operand with a name for its place.
fn name_operand(tables: Tables<'_>, operand: Operand) -> Written
    requires { IsWithin (length (tables_seen tables).variables) (length (tables_seen tables).arrays) (operand_of operand) }
    ensures { tree_of result ≡ named (tables_seen tables.entry) (operand_of operand) }
{
    match operand {
        Operand::Number(number) => Written::Number(number.unsigned_abs()),
        Operand::Variable(place) => Written::Variable(tables.variables[place]),
    }
}

/// The expression with names for its places.
fn name(alloc: Heap, tables: Tables<'_>, expression: &Expression) -> Result<Written, AllocError>
    requires { IsWithin (length (tables_seen tables).variables) (length (tables_seen tables).arrays) (placed_of expression.now) }
    ensures { IfOk result (λ e. tree_of e ≡ named (tables_seen tables.entry) (placed_of expression.now)) }
{
    match expression {
        Expression::Number(number) => Ok(Written::Number(number.unsigned_abs())),
        Expression::Variable(place) => Ok(Written::Variable(tables.variables[*place])),
        Expression::Item(place, index) => {
            let index = name(alloc, tables, index)?;
            Ok(Written::Item(array_at(tables, *place).name, Box::new(alloc, index)?))
        }
        Expression::Reading(reading) => Ok(Written::Reading(*reading)),
        Expression::Negation(operand) => {
            let operand = name(alloc, tables, operand)?;
            Ok(Written::Negation(Box::new(alloc, operand)?))
        }
        Expression::Operation(operator, left, right) => {
            let left = Box::new(alloc, name(alloc, tables, left)?)?;
            let right = Box::new(alloc, name(alloc, tables, right)?)?;
            Ok(Written::Operation(*operator, left, right))
        }
        Expression::Simple(operator, place, right) => {
            let left = Box::new(alloc, Written::Variable(tables.variables[*place]))?;
            let right = Box::new(alloc, name_operand(tables, *right))?;
            Ok(Written::Operation(*operator, left, right))
        }
    }
}

/// The source or the tag with names for its places.
fn name_pattern(
    alloc: Heap,
    tables: Tables<'_>,
    pattern: &Pattern,
) -> Result<form::Pattern, AllocError>
    requires { IsPatternWithin (length (tables_seen tables).variables) (length (tables_seen tables).arrays) (pattern_of pattern.now) }
    ensures { IfOk result (λ c. pattern_seen c ≡ pattern_named (tables_seen tables.entry) (pattern_of pattern.now)) }
{
    match pattern {
        Pattern::Any => Ok(form::Pattern::Any),
        Pattern::Value(expression) => name(alloc, tables, expression).map(form::Pattern::Value),
    }
}

/// The value that is sent; a variable by itself is a lone name.
fn name_value(
    alloc: Heap,
    tables: Tables<'_>,
    expression: &Expression,
) -> Result<form::Payload, AllocError>
    requires { IsWithin (length (tables_seen tables).variables) (length (tables_seen tables).arrays) (placed_of expression.now) }
    ensures { IfOk result (λ p. payload_seen p ≡ value_named (tables_seen tables.entry) (placed_of expression.now)) }
{
    match expression {
        Expression::Variable(place) => Ok(form::Payload::Lone(tables.variables[*place])),
        Expression::Number(_)
        | Expression::Item(..)
        | Expression::Reading(_)
        | Expression::Negation(_)
        | Expression::Operation(..)
        | Expression::Simple(..) => name(alloc, tables, expression).map(form::Payload::One),
    }
}

/// The payload with names for its places.
fn name_payload(
    alloc: Heap,
    tables: Tables<'_>,
    payload: &Payload,
) -> Result<form::Payload, AllocError>
    requires { IsPayloadWithin (length (tables_seen tables).variables) (length (tables_seen tables).arrays) (payload_of payload.now) }
    ensures { IfOk result (λ p. payload_seen p ≡ payload_named (tables_seen tables.entry) (payload_of payload.now)) }
{
    match payload {
        Payload::One(expression) => name_value(alloc, tables, expression),
        Payload::All(place) => Ok(form::Payload::Lone(array_at(tables, *place).name)),
    }
}

/// The name of the buffer.
fn name_buffer(tables: Tables<'_>, buffer: &Buffer) -> Name
    requires { IsBufferWithin (length (tables_seen tables).variables) (length (tables_seen tables).arrays) (buffer_of buffer.now) }
    ensures { result ≡ buffer_name (tables_seen tables.entry) (buffer_of buffer.now) }
{
    match buffer {
        Buffer::Variable(place) => tables.variables[*place],
        Buffer::Array(place) => array_at(tables, *place).name,
    }
}

/// The declaration of the array at a place.
fn name_array(tables: Tables<'_>, place: usize) -> Form
    requires { place < length (tables_seen tables).arrays }
    ensures { form_seen result ≡ form_named (tables_seen tables.entry) (does (declare_array place)) }
{
    let array = array_at(tables, place);
    Form::Array(array.name, array.length as u64)
}

/// An assignment to a variable with names for its places.
fn name_assignment(
    alloc: Heap,
    tables: Tables<'_>,
    place: usize,
    value: &Expression,
) -> Result<Form, AllocError>
    requires place { place < length (tables_seen tables).variables }
    requires value { IsWithin (length (tables_seen tables).variables) (length (tables_seen tables).arrays) (placed_of value.now) }
    ensures { IfOk result (λ f. form_seen f ≡ form_named (tables_seen tables.entry) (does (assign place (placed_of value.now)))) }
{
    match name(alloc, tables, value) {
        Ok(value) => Ok(Form::Let(tables.variables[place], value)),
        Err(error) => Err(error),
    }
}

/// An assignment to an item of an array with names for its places.
fn name_item_assignment(
    alloc: Heap,
    tables: Tables<'_>,
    place: usize,
    index: &Expression,
    value: &Expression,
) -> Result<Form, AllocError>
    requires place { place < length (tables_seen tables).arrays }
    requires index { IsWithin (length (tables_seen tables).variables) (length (tables_seen tables).arrays) (placed_of index.now) }
    requires value { IsWithin (length (tables_seen tables).variables) (length (tables_seen tables).arrays) (placed_of value.now) }
    ensures { IfOk result (λ f. form_seen f
        ≡ form_named (tables_seen tables.entry) (does (assign_item place (placed_of index.now) (placed_of value.now)))) }
{
    let index = name(alloc, tables, index)?;
    match name(alloc, tables, value) {
        Ok(value) => Ok(Form::LetItem(array_at(tables, place).name, index, value)),
        Err(error) => {
            drop(index);
            Err(error)
        }
    }
}

/// The statement with names for its places.
pub(crate) fn name_form(
    alloc: Heap,
    tables: Tables<'_>,
    statement: &Statement,
) -> Result<Form, AllocError>
    requires { IsPlaced (length (tables_seen tables).variables) (length (tables_seen tables).arrays) (line_of statement.now) }
    ensures { IfOk result (λ f. form_seen f ≡ form_named (tables_seen tables.entry) (step_of (line_of statement.now))) }
{
    match statement {
        Statement::Declare(place) => Ok(Form::Var(tables.variables[*place])),
        Statement::DeclareArray(place) => Ok(name_array(tables, *place)),
        Statement::Assign(place, value) => name_assignment(alloc, tables, *place, value),
        Statement::AssignItem(place, index, value) => {
            name_item_assignment(alloc, tables, *place, index, value)
        }
        Statement::If(test, _) => name(alloc, tables, test).map(Form::If),
        Statement::Else(_) => Ok(Form::Else),
        Statement::EndIf | Statement::EndWhile(_) => Ok(Form::End),
        Statement::While(test, _) => name(alloc, tables, test).map(Form::While),
        Statement::Send {
            destination,
            tag,
            payload,
        } => name_send(alloc, tables, destination, tag, payload),
        Statement::Receive {
            source,
            tag,
            buffer,
        } => name_receive(alloc, tables, source, tag, buffer),
        Statement::Probe { source, tag } => name_probe(alloc, tables, source, tag),
        Statement::TryProbe { source, tag, flag } => {
            name_try_probe(alloc, tables, source, tag, *flag)
        }
        Statement::Print(value) => name(alloc, tables, value).map(Form::Print),
        Statement::Collect(collective) => name_collective(alloc, tables, collective),
    }
}

/// The statements with names for their places.
pub(crate) fn name_forms(
    alloc: Heap,
    tables: Tables<'_>,
    statements: &[Statement],
) -> Result<Vec<Form, Heap>, AllocError>
    requires { AllPlaced (length (tables_seen tables).variables) (length (tables_seen tables).arrays) (map line_of statements.now) }
    ensures { IfOk result (λ forms. forms_seen forms.items ≡ map (form_named (tables_seen tables.entry)) (map step_of (map line_of statements.now))) }
{
    let mut forms = Vec::new(alloc);
    for statement in statements {
        let form = name_form(alloc, tables, statement)?;
        forms.push(form)?;
    }
    Ok(forms)
}
