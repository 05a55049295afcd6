//! The plan of a run: its acts in an order that a world can take, and what each
//! rank does behind its last one.
ghost use Rattle.std.specs.Prelude.{◌≤◌};
ghost use Rattle.limits.specs.Limits.{most_ranks};

use crate::asked::{AskedAll, asked_of, is_over};
use crate::before::waits_of;
use crate::fault::PlayFault;
use crate::order::Happening;
use crate::plan::PlannedEvents;
use crate::writing::WrittenEvents;
use crash_free::{Act, Passed, Sim};
use limits::Heap;
use rank_language::Program;

/// Events that are to play a run of the program on so many ranks. Where a rank
/// has ended in the run, or waits for what isn't there, its last event is a step
/// that says so.
///
/// Nothing is promised of them here: whoever asks for them plays them first.
pub fn plan_of(
    alloc: Heap,
    program: &Program,
    ranks: u8,
    run: &Sim<'_>,
) -> Result<PlannedEvents, PlayFault>
    requires some { 1 ≤ ranks }
    requires few { ranks ≤ most_ranks }
{
    let acts = run.acts();
    let asked = asked_of(alloc, program, ranks, run)?;
    let order = waits_of(alloc, ranks, acts, asked.acts.as_slice())?.ordered()?;
    let mut events = WrittenEvents::new(alloc);
    for happening in &order {
        if let Some(passed) = acts.get(happening.act) {
            write(&mut events, passed, &asked, *happening);
        }
    }
    write_ends(&mut events, run, &asked);
    events.into_plan()
}

fn write(events: &mut WrittenEvents, passed: &Passed, asked: &AskedAll, happening: Happening) {
    if happening.arrives {
        return write_arrival(events, passed);
    }
    let steps = match asked.acts.get(happening.act) {
        Some(asked) => asked.steps,
        None => 0,
    };
    write_act(events, passed, steps);
}

// The act, behind so many steps of its rank's own.
fn write_act(events: &mut WrittenEvents, passed: &Passed, steps: u32) {
    let rank = passed.rank;
    let steps = steps.saturating_add(1);
    match &passed.act {
        Act::Misses => {
            events.step(rank, steps);
            events.miss(rank);
        }
        Act::Takes { .. } | Act::Hits { .. } => {
            events.store_misses(rank);
            events.step(rank, steps);
            events.store(rank);
        }
        Act::Sends { .. } | Act::Prints(_) => {
            events.store_misses(rank);
            events.step(rank, steps);
        }
    }
}

fn write_arrival(events: &mut WrittenEvents, passed: &Passed) {
    match &passed.act {
        Act::Sends { dest, .. } => events.arrive(passed.rank, *dest),
        Act::Takes { .. } | Act::Hits { .. } | Act::Misses | Act::Prints(_) => {}
    }
}

// What each rank does behind its last act, and one step more where it has ended or waits.
fn write_ends(events: &mut WrittenEvents, run: &Sim<'_>, asked: &AskedAll) {
    for rank in 0..run.ranks() {
        events.store_misses(rank);
        let steps = asked.rests.get(usize::from(rank)).copied().unwrap_or(0);
        events.step(rank, steps);
        if is_over(run, rank) {
            events.step(rank, 1);
        }
    }
}
