//! Places for the names of a statement.
ghost use Rattle.std.specs.Prelude.{◌≡◌, ℕ, Some, IfOk, true, false, option_map};
ghost use Rattle.rank_text.specs.Grammar.SeenForms.{pattern_of as pattern_seen, form_seen, payload_seen};
ghost use Rattle.rank_text.specs.Grammar.Forms.{bcast_form, item_form, let_form, lone, probe_form, recv_form, reduce_form};
ghost use Rattle.rank_text.specs.Grammar.Forms.{send_form, try_probe_form};
ghost use Rattle.rank_text.specs.Grammar.Tree.{tree_of};
ghost use Rattle.rank_text.specs.Checker.Scope.{is_declared, pattern_declared, pattern_is_great, payload_declared, payload_is_great};
ghost use Rattle.rank_language.specs.Resolvable.{IsResolvable};
ghost use Rattle.rank_language.specs.Resolved.{buffer_resolved, pattern_resolved, form_resolved, payload_resolved};
ghost use Rattle.rank_language.specs.Ends.{line_to};
ghost use Rattle.rank_language.specs.Placed.{collect, does};
ghost use Rattle.rank_language.specs.Seen.{buffer_of, pattern_of, collective_of, line_of, payload_of};
ghost use Rattle.rank_language.specs.SeenTables.{tables_seen};

use crate::expression::Expression;
use crate::resolve::{Declared, Tables, resolve};
use crate::statement::{Buffer, Collective, Pattern, Payload, Statement};
use limits::Heap;
use rank_text::grammar::{Form, Name, Reduction, Written, form};
use std::alloc::AllocError;

/// The source or the tag with places for its names.
pub(crate) fn resolve_pattern(
    alloc: Heap,
    tables: Tables<'_>,
    pattern: &form::Pattern,
) -> Result<Pattern, AllocError>
    requires declared { pattern_declared (tables_seen tables) (pattern_seen pattern.now) ≡ true }
    requires fitting { pattern_is_great (pattern_seen pattern.now) ≡ false }
    ensures { IfOk result (λ c. pattern_resolved (tables_seen tables.entry) (pattern_seen pattern.now) ≡ Some (pattern_of c)) }
{
    match pattern {
        form::Pattern::Any => Ok(Pattern::Any),
        form::Pattern::Value(written) => resolve(alloc, tables, written).map(Pattern::Value),
    }
}

/// The payload that a name by itself is: a variable's value, or all items of an array.
fn resolve_lone(tables: Tables<'_>, name: Name) -> Payload
    requires { is_declared (tables_seen tables) name ≡ true }
    ensures { payload_resolved (tables_seen tables.entry) (lone name) ≡ Some (payload_of result) }
{
    match tables.declared(name) {
        Declared::Variable(place) => Payload::One(Expression::Variable(place)),
        Declared::Array(place) => Payload::All(place),
    }
}

/// The buffer of this name.
fn resolve_buffer(tables: Tables<'_>, name: Name) -> Buffer
    requires { is_declared (tables_seen tables) name ≡ true }
    ensures { buffer_resolved (tables_seen tables.entry) name ≡ Some (buffer_of result) }
{
    match tables.declared(name) {
        Declared::Variable(place) => Buffer::Variable(place),
        Declared::Array(place) => Buffer::Array(place),
    }
}

/// The payload with places for its names.
pub(crate) fn resolve_payload(
    alloc: Heap,
    tables: Tables<'_>,
    payload: &form::Payload,
) -> Result<Payload, AllocError>
    requires declared { payload_declared (tables_seen tables) (payload_seen payload.now) ≡ true }
    requires fitting { payload_is_great (payload_seen payload.now) ≡ false }
    ensures { IfOk result (λ p. payload_resolved (tables_seen tables.entry) (payload_seen payload.now) ≡ Some (payload_of p)) }
{
    match payload {
        form::Payload::Lone(name) => Ok(resolve_lone(tables, *name)),
        form::Payload::One(written) => resolve(alloc, tables, written).map(Payload::One),
    }
}

/// The assignment to a variable, with places for its names.
fn resolve_assignment(
    alloc: Heap,
    tables: Tables<'_>,
    name: Name,
    value: &Written,
) -> Result<Statement, AllocError>
    requires resolvable { IsResolvable (tables_seen tables) (let_form name (tree_of value.now)) }
    ensures { (target : ℕ) → IfOk result (λ statement.
        option_map (line_to target) (form_resolved (tables_seen tables.entry) (let_form name (tree_of value.now)))
        ≡ Some (line_of statement)) }
{
    let value = resolve(alloc, tables, value)?;
    Ok(Statement::Assign(tables.variable(name), value))
}

/// The assignment to an item of an array, with places for its names.
fn resolve_item_assignment(
    alloc: Heap,
    tables: Tables<'_>,
    name: Name,
    index: &Written,
    value: &Written,
) -> Result<Statement, AllocError>
    requires resolvable { IsResolvable (tables_seen tables) (item_form name (tree_of index.now) (tree_of value.now)) }
    ensures { (target : ℕ) → IfOk result (λ statement.
        option_map (line_to target) (form_resolved (tables_seen tables.entry) (item_form name (tree_of index.now) (tree_of value.now)))
        ≡ Some (line_of statement)) }
{
    let index = resolve(alloc, tables, index)?;
    match resolve(alloc, tables, value) {
        Ok(value) => Ok(Statement::AssignItem(tables.array(name), index, value)),
        Err(error) => {
            drop(index);
            Err(error)
        }
    }
}

/// The send with places for its names.
fn resolve_send(
    alloc: Heap,
    tables: Tables<'_>,
    destination: &Written,
    tag: &Written,
    payload: &form::Payload,
) -> Result<Statement, AllocError>
    requires resolvable { IsResolvable (tables_seen tables) (send_form (tree_of destination.now) (tree_of tag.now) (payload_seen payload.now)) }
    ensures { (target : ℕ) → IfOk result (λ statement.
        option_map (line_to target) (form_resolved (tables_seen tables.entry)
        (send_form (tree_of destination.now) (tree_of tag.now) (payload_seen payload.now)))
        ≡ Some (line_of statement)) }
{
    let destination = resolve(alloc, tables, destination)?;
    let tag = match resolve(alloc, tables, tag) {
        Ok(tag) => tag,
        Err(error) => {
            drop(destination);
            return Err(error);
        }
    };
    match resolve_payload(alloc, tables, payload) {
        Ok(payload) => Ok(Statement::Send {
            destination,
            tag,
            payload,
        }),
        Err(error) => {
            drop(destination);
            drop(tag);
            Err(error)
        }
    }
}

/// The receive with places for its names.
fn resolve_receive(
    alloc: Heap,
    tables: Tables<'_>,
    source: &form::Pattern,
    tag: &form::Pattern,
    buffer: Name,
) -> Result<Statement, AllocError>
    requires resolvable { IsResolvable (tables_seen tables) (recv_form (pattern_seen source.now) (pattern_seen tag.now) buffer) }
    ensures { (target : ℕ) → IfOk result (λ statement.
        option_map (line_to target) (form_resolved (tables_seen tables.entry) (recv_form (pattern_seen source.now) (pattern_seen tag.now) buffer))
        ≡ Some (line_of statement)) }
{
    let source = resolve_pattern(alloc, tables, source)?;
    match resolve_pattern(alloc, tables, tag) {
        Ok(tag) => Ok(Statement::Receive {
            source,
            tag,
            buffer: resolve_buffer(tables, buffer),
        }),
        Err(error) => {
            drop(source);
            Err(error)
        }
    }
}

/// The probe that waits, with places for its names.
fn resolve_probe(
    alloc: Heap,
    tables: Tables<'_>,
    source: &form::Pattern,
    tag: &form::Pattern,
) -> Result<Statement, AllocError>
    requires resolvable { IsResolvable (tables_seen tables) (probe_form (pattern_seen source.now) (pattern_seen tag.now)) }
    ensures { (target : ℕ) → IfOk result (λ statement.
        option_map (line_to target) (form_resolved (tables_seen tables.entry) (probe_form (pattern_seen source.now) (pattern_seen tag.now)))
        ≡ Some (line_of statement)) }
{
    let source = resolve_pattern(alloc, tables, source)?;
    match resolve_pattern(alloc, tables, tag) {
        Ok(tag) => Ok(Statement::Probe { source, tag }),
        Err(error) => {
            drop(source);
            Err(error)
        }
    }
}

/// The probe that doesn't wait, with places for its names.
fn resolve_try_probe(
    alloc: Heap,
    tables: Tables<'_>,
    source: &form::Pattern,
    tag: &form::Pattern,
    flag: Name,
) -> Result<Statement, AllocError>
    requires resolvable { IsResolvable (tables_seen tables) (try_probe_form (pattern_seen source.now) (pattern_seen tag.now) flag) }
    ensures { (target : ℕ) → IfOk result (λ statement.
        option_map (line_to target) (form_resolved (tables_seen tables.entry) (try_probe_form (pattern_seen source.now) (pattern_seen tag.now) flag))
        ≡ Some (line_of statement)) }
{
    let source = resolve_pattern(alloc, tables, source)?;
    match resolve_pattern(alloc, tables, tag) {
        Ok(tag) => Ok(Statement::TryProbe {
            source,
            tag,
            flag: tables.variable(flag),
        }),
        Err(error) => {
            drop(source);
            Err(error)
        }
    }
}

/// The broadcast with places for its names.
fn resolve_broadcast(
    alloc: Heap,
    tables: Tables<'_>,
    root: &Written,
    buffer: Name,
) -> Result<Collective, AllocError>
    requires resolvable { IsResolvable (tables_seen tables) (bcast_form (tree_of root.now) buffer) }
    ensures { IfOk result (λ c. form_resolved (tables_seen tables.entry) (bcast_form (tree_of root.now) buffer)
        ≡ Some (does (collect (collective_of c)))) }
{
    Ok(Collective::Broadcast {
        root: resolve(alloc, tables, root)?,
        buffer: resolve_buffer(tables, buffer),
    })
}

/// The reduction with places for its names.
fn resolve_reduction(
    alloc: Heap,
    tables: Tables<'_>,
    reduction: Reduction,
    root: &Written,
    value: &Written,
    name: Name,
) -> Result<Collective, AllocError>
    requires resolvable { IsResolvable (tables_seen tables) (reduce_form reduction (tree_of root.now) (tree_of value.now) name) }
    ensures { IfOk result (λ c. form_resolved (tables_seen tables.entry) (reduce_form reduction (tree_of root.now) (tree_of value.now) name)
        ≡ Some (does (collect (collective_of c)))) }
{
    let root = resolve(alloc, tables, root)?;
    match resolve(alloc, tables, value) {
        Ok(value) => Ok(Collective::Reduce {
            reduction,
            root,
            value,
            place: tables.variable(name),
        }),
        Err(error) => {
            drop(root);
            Err(error)
        }
    }
}

/// The statement with places for its names, which leads to a target.
pub(crate) fn resolve_form(
    alloc: Heap,
    tables: Tables<'_>,
    form: &Form,
    target: usize,
) -> Result<Statement, AllocError>
    requires resolvable { IsResolvable (tables_seen tables) (form_seen form.now) }
    ensures { IfOk result (λ statement. option_map (line_to target) (form_resolved (tables_seen tables.entry) (form_seen form.now))
        ≡ Some (line_of statement)) }
{
    match form {
        Form::Var(name) => Ok(Statement::Declare(tables.variable(*name))),
        Form::Array(name, _) => Ok(Statement::DeclareArray(tables.array(*name))),
        Form::Let(name, value) => resolve_assignment(alloc, tables, *name, value),
        Form::LetItem(name, index, value) => {
            resolve_item_assignment(alloc, tables, *name, index, value)
        }
        Form::If(test) => match resolve(alloc, tables, test) {
            Ok(test) => Ok(Statement::If(test, target)),
            Err(error) => Err(error),
        },
        Form::Else => Ok(Statement::Else(target)),
        // an `end` of a `while` is led back when that `while` is met
        Form::End => Ok(Statement::EndIf),
        Form::While(test) => match resolve(alloc, tables, test) {
            Ok(test) => Ok(Statement::While(test, target)),
            Err(error) => Err(error),
        },
        Form::Send(destination, tag, payload) => {
            resolve_send(alloc, tables, destination, tag, payload)
        }
        Form::Recv(source, tag, buffer) => resolve_receive(alloc, tables, source, tag, *buffer),
        Form::Probe(source, tag) => resolve_probe(alloc, tables, source, tag),
        Form::TryProbe(source, tag, flag) => resolve_try_probe(alloc, tables, source, tag, *flag),
        Form::Print(value) => resolve(alloc, tables, value).map(Statement::Print),
        Form::Barrier => Ok(Statement::Collect(Collective::Barrier)),
        Form::Bcast(root, buffer) => {
            resolve_broadcast(alloc, tables, root, *buffer).map(Statement::Collect)
        }
        Form::Reduce(reduction, root, value, name) => {
            resolve_reduction(alloc, tables, *reduction, root, value, *name).map(Statement::Collect)
        }
    }
}
