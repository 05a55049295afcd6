//! The choices of a run.
ghost use Rattle.std.specs.Prelude.{◌≡◌, IfOk, OnOk, map};
ghost use Rattle.serde_json.specs.View.{members_view, view};
ghost use Rattle.runner.specs.SearchObject.{choice_members, choice_object, with_members};

use crate::explored::json::members::{put_place, put_text};
use crash_free::Choice;
use explore::Noted;
use limits::Heap;
use serde_json::{Map, Value, put};
use std::alloc::AllocError;

/// The choices of a run, the first one first.
pub fn choices_of(
    alloc: Heap,
    choices: &[Noted],
    lines: &[usize],
) -> Result<Vec<Value, Heap>, AllocError>
    ensures { IfOk result (λ list. map view list.items ≡ map (choice_object lines.now) choices.now) }
{
    let mut list = Vec::new(alloc);
    for noted in choices {
        list.push(choice_value(alloc, noted, lines)?)?;
    }
    Ok(list)
}

fn choice_value(alloc: Heap, noted: &Noted, lines: &[usize]) -> Result<Value, AllocError>
    ensures { IfOk result (λ v. view v ≡ choice_object lines.now noted.now) }
{
    let mut one = Map::new(alloc);
    let line = lines.get(noted.position).copied();
    put_place(alloc, &mut one, noted.chosen.rank, line)?;
    put_choice(alloc, &mut one, noted)?;
    Ok(Value::from(one))
}

// The act's name as in a trace, and the source of its message.
fn put_choice(
    alloc: Heap,
    to: &mut Map<String<Heap>, Value>,
    noted: &Noted,
) -> Result<(), AllocError>
    ensures { OnOk result (members_view to.new.entries ≡ with_members (choice_members noted.now.chosen.choice noted.now.probes) (members_view to.old.entries)) }
{
    match noted.chosen.choice {
        Choice::Take { source, index: _ } => {
            let name = if noted.probes { "hit" } else { "reception" };
            put_text(alloc, to, "act", name)?;
            put(to, alloc, "source", Value::from(u64::from(source)))
        }
        Choice::Miss => put_text(alloc, to, "act", "miss"),
        Choice::Next => Ok(()),
    }
}
