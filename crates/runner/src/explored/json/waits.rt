//! Whether the program is safe, and who waits if it isn't.
ghost use Rattle.std.specs.Prelude.{◌≡◌, IfOk, OnOk, map};
ghost use Rattle.serde_json.specs.View.{members_view, view};
ghost use Rattle.runner.specs.SearchObject.{is_safe_if_known, safety_members, wait_object, waits_objects, with_members};

use crate::explored::json::members::{put_place, shown};
use crate::explored::safety::{Safety, WaitingRank};
use limits::Heap;
use serde_json::{Map, Value, put};
use std::alloc::AllocError;

/// Whether the program is safe, and who waits if it isn't.
pub fn put_safety(
    alloc: Heap,
    to: &mut Map<String<Heap>, Value>,
    safety: &Safety,
) -> Result<(), AllocError>
    ensures { OnOk result (members_view to.new.entries ≡ with_members (safety_members safety.now) (members_view to.old.entries)) }
{
    put(to, alloc, "safe", shown(is_safe(safety)))?;
    let waits = waits_of(alloc, safety)?;
    put(to, alloc, "waits", Value::from(waits))
}

fn is_safe(safety: &Safety) -> Option<bool>
    ensures { result ≡ is_safe_if_known safety.now }
{
    match safety {
        Safety::Safe => Some(true),
        Safety::NotSafe(_) => Some(false),
        Safety::Untold | Safety::Unknown(_) => None,
    }
}

fn waits_of(alloc: Heap, safety: &Safety) -> Result<Vec<Value, Heap>, AllocError>
    ensures { IfOk result (λ list. map view list.items ≡ waits_objects safety.now) }
{
    match safety {
        Safety::NotSafe(waits) => wait_values(alloc, waits.ranks.as_slice()),
        Safety::Untold | Safety::Safe | Safety::Unknown(_) => Ok(Vec::new(alloc)),
    }
}

// Each of these ranks, with its line.
fn wait_values(alloc: Heap, ranks: &[WaitingRank]) -> Result<Vec<Value, Heap>, AllocError>
    ensures { IfOk result (λ list. map view list.items ≡ map wait_object ranks.now) }
{
    let mut list = Vec::new(alloc);
    for wait in ranks {
        list.push(wait_value(alloc, *wait)?)?;
    }
    Ok(list)
}

fn wait_value(alloc: Heap, wait: WaitingRank) -> Result<Value, AllocError>
    ensures { IfOk result (λ v. view v ≡ wait_object wait) }
{
    let mut one = Map::new(alloc);
    put_place(alloc, &mut one, wait.rank, wait.line)?;
    Ok(Value::from(one))
}
