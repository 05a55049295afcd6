//! The receives and probes that had several answers.
ghost use Rattle.std.specs.Prelude.{◌≡◌, IfOk, false};
ghost use Rattle.serde_json.specs.View.{items_view, view};
ghost use Rattle.serde_json.specs.Written.{has_float, items_have_float};

use crate::explored::json::members::put_place;
use explore::Race;
use limits::Heap;
use serde_json::{Map, Value, put};
use std::alloc::AllocError;

#[tactic(auto, using(crate::proofs::SearchObjects::pushed))]
pub fn races_of(
    alloc: Heap,
    races: &[Race],
    lines: &[usize],
) -> Result<Vec<Value, Heap>, AllocError>
    ensures { IfOk result (λ list. items_have_float (items_view list.items) ≡ false) }
{
    let mut list = Vec::new(alloc);
    for race in races {
        list.push(race_value(alloc, race, lines)?)?;
    }
    Ok(list)
}

fn race_value(alloc: Heap, race: &Race, lines: &[usize]) -> Result<Value, AllocError>
    ensures { IfOk result (λ v. has_float (view v) ≡ false) }
{
    let mut one = Map::new(alloc);
    let line = lines.get(race.position).copied();
    put_place(alloc, &mut one, race.rank, line)?;
    put(&mut one, alloc, "probe", Value::from(race.probes))?;
    put(
        &mut one,
        alloc,
        "sources",
        Value::from(sources_of(alloc, race)?),
    )?;
    put(&mut one, alloc, "miss", Value::from(race.misses))?;
    Ok(Value::from(one))
}

fn sources_of(alloc: Heap, race: &Race) -> Result<Vec<Value, Heap>, AllocError>
    ensures { IfOk result (λ list. items_have_float (items_view list.items) ≡ false) }
{
    let mut list = Vec::new(alloc);
    for (rank, is_one) in race.sources.iter().enumerate() {
        if *is_one {
            list.push(Value::from(rank as u64))?;
        }
    }
    Ok(list)
}
