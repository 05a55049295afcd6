//! Each outcome, with what was noted of it.
ghost use Rattle.std.specs.Prelude.{◌≡◌, IfOk, map};
ghost use Rattle.explore.specs.Explored.{noted_choices, rank_outcomes};
ghost use Rattle.serde_json.specs.View.{view};
ghost use Rattle.runner.specs.SearchObject.{mark_at, outcome_object, outcome_objects};

use crate::explored::json::choices::choices_of;
use crate::explored::json::members::shown;
use crate::explored::json::ranks::ranks_of;
use crate::explored::json::unreceived::put_left;
use crate::explored::lined::{LinedLeftovers, LinedOutcome, left_at};
use explore::FoundOutcome;
use limits::Heap;
use serde_json::{Map, Value, put};
use std::alloc::AllocError;

pub fn outcomes_of(
    alloc: Heap,
    outcomes: &[FoundOutcome],
    left: &[LinedOutcome],
    marks: &[Option<bool>],
    lines: &[usize],
) -> Result<Vec<Value, Heap>, AllocError>
    ensures { IfOk result (λ list. map view list.items ≡ outcome_objects lines.now left.now marks.now 0 (rank_outcomes outcomes.now) (noted_choices outcomes.now)) }
{
    let mut list = Vec::new(alloc);
    let mut index = 0usize;
    let mut rest = outcomes;
    while let [outcome, more @ ..] = rest {
        let mark = mark_of(marks, index);
        let listed = left_at(left, index);
        index += 1;
        list.push(outcome_value(alloc, index, outcome, mark, listed, lines)?)?;
        rest = more;
    }
    Ok(list)
}

// Whether a probe of the run misses a message that its rank was shown; `None` where
// the run wasn't found again.
fn mark_of(marks: &[Option<bool>], index: usize) -> Option<bool>
    ensures { result ≡ mark_at marks.now index }
{
    marks.get(index).copied().flatten()
}

fn outcome_value(
    alloc: Heap,
    number: usize,
    outcome: &FoundOutcome,
    mark: Option<bool>,
    listed: &[LinedLeftovers],
    lines: &[usize],
) -> Result<Value, AllocError>
    ensures { IfOk result (λ v. view v ≡ outcome_object lines.now number outcome.now.ranks outcome.now.choices mark listed.now) }
{
    let mut one = Map::new(alloc);
    put(&mut one, alloc, "outcome", Value::from(number as u64))?;
    let ranks = ranks_of(alloc, outcome.ranks.as_slice())?;
    put(&mut one, alloc, "ranks", Value::from(ranks))?;
    let choices = choices_of(alloc, outcome.choices.as_slice(), lines)?;
    put(&mut one, alloc, "choices", Value::from(choices))?;
    put(&mut one, alloc, "misses_shown", shown(mark))?;
    put_left(alloc, &mut one, listed)?;
    Ok(Value::from(one))
}
