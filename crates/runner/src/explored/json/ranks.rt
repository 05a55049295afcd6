//! What each rank printed, and how it ended.
ghost use Rattle.std.specs.Prelude.{◌≡◌, IfOk, OnOk, map};
ghost use Rattle.serde_json.specs.View.{members_view, view};
ghost use Rattle.runner.specs.SearchObject.{end_members, rank_object, rank_objects, value, with_members};

use crate::explored::json::members::put_text;
use audit::End;
use explore::RankEnd;
use limits::Heap;
use serde_json::{Map, Value, put};
use std::alloc::AllocError;

/// What each rank printed, and how it ended.
pub fn ranks_of(alloc: Heap, ranks: &[RankEnd]) -> Result<Vec<Value, Heap>, AllocError>
    ensures { IfOk result (λ list. map view list.items ≡ rank_objects 0 ranks.now) }
{
    let mut list = Vec::new(alloc);
    let mut rank = 0usize;
    let mut rest = ranks;
    while let [seen, more @ ..] = rest {
        list.push(rank_value(alloc, rank, seen)?)?;
        rank += 1;
        rest = more;
    }
    Ok(list)
}

fn rank_value(alloc: Heap, rank: usize, seen: &RankEnd) -> Result<Value, AllocError>
    ensures { IfOk result (λ v. view v ≡ rank_object rank seen.now) }
{
    let mut one = Map::new(alloc);
    put(&mut one, alloc, "rank", Value::from(rank as u64))?;
    let lines = values_of(alloc, seen.lines.as_slice())?;
    put(&mut one, alloc, "lines", Value::from(lines))?;
    put_end(alloc, &mut one, seen.end)?;
    Ok(Value::from(one))
}

fn values_of(alloc: Heap, values: &[i64]) -> Result<Vec<Value, Heap>, AllocError>
    ensures { IfOk result (λ list. map view list.items ≡ map value values.now) }
{
    let mut list = Vec::new(alloc);
    for printed in values {
        list.push(Value::from(*printed))?;
    }
    Ok(list)
}

fn put_end(alloc: Heap, to: &mut Map<String<Heap>, Value>, end: End) -> Result<(), AllocError>
    ensures { OnOk result (members_view to.new.entries ≡ with_members (end_members end) (members_view to.old.entries)) }
{
    match end {
        End::Halted => put_text(alloc, to, "end", "halted"),
        End::Stalled => put_text(alloc, to, "end", "stalled"),
        End::Unfinished => put_text(alloc, to, "end", "unfinished"),
        End::Faulted(fault) => {
            put_text(alloc, to, "end", "fault")?;
            put(to, alloc, "fault", Value::from(u64::from(fault.number())))?;
            put_text(alloc, to, "name", fault.name())
        }
    }
}
