//! What a search found, as JSON.
ghost use Rattle.std.specs.Prelude.{◌≡◌, IfOk, OnOk, string_bytes};
ghost use Rattle.serde_json.specs.View.{members_view};
ghost use Rattle.runner.specs.SearchObject.{IsSearchObject, closed_members, count_members, with_members};

mod choices;
mod each_outcome;
mod members;
mod races;
mod ranks;
mod unreceived;
mod waits;

use crate::explored::json::each_outcome::outcomes_of;
use crate::explored::json::races::races_of;
use crate::explored::json::waits::put_safety;
use crate::explored::lined::LinedOutcome;
use crate::explored::safety::Safety;
use explore::Explored;
use limits::Heap;
use serde_json::{Map, Value, put};
use std::alloc::AllocError;

/// All that a search found, as one object on a line. The statement at position K
/// of the program stands on line `lines[K]` of its text. An `Err` means out of
/// memory.
#[tactic(auto, using(crate::proofs::SearchObjects::is_search_object))]
pub fn explored_json(
    alloc: Heap,
    found: &Explored,
    left: &[LinedOutcome],
    marks: &[Option<bool>],
    lines: &[usize],
    safety: &Safety,
) -> Result<String<Heap>, AllocError>
    ensures { IfOk result (λ text. IsSearchObject found.now left.now marks.now lines.now safety.now (string_bytes text)) }
{
    let mut all = Map::new(alloc);
    let outcomes = outcomes_of(alloc, found.outcomes.as_slice(), left, marks, lines)?;
    put(&mut all, alloc, "outcomes", Value::from(outcomes))?;
    let races = races_of(alloc, found.races.as_slice(), lines)?;
    put(&mut all, alloc, "races", Value::from(races))?;
    put_counts(alloc, &mut all, found)?;
    put_safety(alloc, &mut all, safety)?;
    let mut text = Value::from(all).to_string(alloc)?;
    text.push('\n')?;
    Ok(text)
}

// How the search ended, and what it looked at and kept.
fn put_counts(
    alloc: Heap,
    to: &mut Map<String<Heap>, Value>,
    found: &Explored,
) -> Result<(), AllocError>
    ensures { OnOk result (members_view to.new.entries ≡ with_members (count_members found.now) (members_view to.old.entries)) }
{
    put(to, alloc, "complete", Value::from(found.complete))?;
    put(to, alloc, "out_of_steps", Value::from(found.out_of_steps))?;
    put(to, alloc, "runs", Value::from(u64::from(found.runs)))?;
    put(to, alloc, "states", Value::from(u64::from(found.states)))?;
    put(to, alloc, "all_states_kept", Value::from(found.kept_all))?;
    put_closed(alloc, to, found.closed)
}

// That the outcomes of all runs that end were found, while the ranks may go on for ever.
fn put_closed(
    alloc: Heap,
    to: &mut Map<String<Heap>, Value>,
    closed: bool,
) -> Result<(), AllocError>
    ensures { OnOk result (members_view to.new.entries ≡ with_members (closed_members closed) (members_view to.old.entries)) }
{
    if !closed {
        return Ok(());
    }
    put(to, alloc, "closed", Value::from(true))
}
