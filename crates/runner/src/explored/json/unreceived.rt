//! What was never received in runs that have an outcome.
ghost use Rattle.std.specs.Prelude.{◌≡◌, IfOk, OnOk, map};
ghost use Rattle.serde_json.specs.View.{members_view, view};
ghost use Rattle.runner.specs.SearchObject.{known_members, left_array, left_members, left_object, ordinal_members, says_none, with_members};

use crate::explored::json::members::{put_place, put_text};
use crate::explored::lined::{LinedLeftover, LinedLeftovers};
use crash_free::MessageMark;
use limits::Heap;
use run_shown::trace::kind_name;
use serde_json::{Map, Value, put};
use std::alloc::AllocError;

/// What was never received in runs that have an outcome, if something was.
pub fn put_left(
    alloc: Heap,
    to: &mut Map<String<Heap>, Value>,
    listed: &[LinedLeftovers],
) -> Result<(), AllocError>
    ensures { OnOk result (members_view to.new.entries ≡ with_members (left_members listed.now) (members_view to.old.entries)) }
{
    if says_none(listed) {
        return Ok(());
    }
    let left = listed_of(alloc, listed)?;
    put(to, alloc, "unreceived", Value::from(left))
}

fn says_none(listed: &[LinedLeftovers]) -> bool
    ensures { result ≡ says_none listed.now }
{
    match listed {
        [] => true,
        [only] => only.messages.is_empty(),
        [_, _, ..] => false,
    }
}

// The same, a list for each run.
fn listed_of(alloc: Heap, listed: &[LinedLeftovers]) -> Result<Vec<Value, Heap>, AllocError>
    ensures { IfOk result (λ list. map view list.items ≡ map left_array listed.now) }
{
    let mut list = Vec::new(alloc);
    for some in listed {
        list.push(messages_value(alloc, some)?)?;
    }
    Ok(list)
}

fn messages_value(alloc: Heap, some: &LinedLeftovers) -> Result<Value, AllocError>
    ensures { IfOk result (λ v. view v ≡ left_array some.now) }
{
    let messages = messages_of(alloc, some.messages.as_slice())?;
    Ok(Value::from(messages))
}

fn messages_of(alloc: Heap, messages: &[LinedLeftover]) -> Result<Vec<Value, Heap>, AllocError>
    ensures { IfOk result (λ list. map view list.items ≡ map left_object messages.now) }
{
    let mut list = Vec::new(alloc);
    for one in messages {
        list.push(message_value(alloc, *one)?)?;
    }
    Ok(list)
}

fn message_value(alloc: Heap, one: LinedLeftover) -> Result<Value, AllocError>
    ensures { IfOk result (λ v. view v ≡ left_object one) }
{
    let message = one.message;
    let mut object = Map::new(alloc);
    put_place(alloc, &mut object, message.rank, one.line)?;
    let source = Value::from(u64::from(message.source));
    put(&mut object, alloc, "source", source)?;
    put_known(alloc, &mut object, message.mark)?;
    Ok(Value::from(object))
}

// By what to know a message.
fn put_known(
    alloc: Heap,
    to: &mut Map<String<Heap>, Value>,
    mark: MessageMark,
) -> Result<(), AllocError>
    ensures { OnOk result (members_view to.new.entries ≡ with_members (known_members mark) (members_view to.old.entries)) }
{
    match mark {
        MessageMark::Tag(tag) => put(to, alloc, "tag", Value::from(u64::from(tag))),
        MessageMark::Call { kind, number } => {
            put_text(alloc, to, "collective", kind_name(kind))?;
            put_ordinal(alloc, to, number)
        }
    }
}

fn put_ordinal(
    alloc: Heap,
    to: &mut Map<String<Heap>, Value>,
    number: Option<i64>,
) -> Result<(), AllocError>
    ensures { OnOk result (members_view to.new.entries ≡ with_members (ordinal_members number) (members_view to.old.entries)) }
{
    match number {
        Some(number) => put(to, alloc, "number", Value::from(number)),
        None => Ok(()),
    }
}
