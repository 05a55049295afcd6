//! The text of the events of a run.
ghost use Rattle.std.specs.Prelude.{◌≡◌, ◌≤◌, true, Ok, IfOk, string_bytes};
ghost use Rattle.limits.specs.Limits.{most_ranks};
ghost use Rattle.world_model.specs.EventsText.Events.{events_of};
ghost use Rattle.world_model.specs.EventsText.Written.{events_text};
ghost use Rattle.run_events.specs.Plays.{IsPlayText};

use crate::fault::PlayFault;
use crate::planned::plan_of;
use crate::playing::plays;
use crash_free::Sim;
use limits::Heap;
use rank_language::Program;
use world_model::WorldEvent;
use world_model::events_text::{EventsFault, events_text, parse_events};

/// Events that play a run of the program on so many ranks, one a line and nothing
/// else: given to a new world none of them is a crash or refused, and each rank
/// makes the acts that it makes in the run, with the same messages. Where a rank
/// has ended in the run, or waits for what isn't there, its last event is a step
/// that says so.
///
/// That the text is read as these events and that they play the run is tried
/// before it is answered; `NoOrder` where it isn't so.
#[tactic(auto, using(crate::proofs::Played::is_text))]
pub fn play_text(
    alloc: Heap,
    program: &Program,
    ranks: u8,
    run: &Sim<'_>,
) -> Result<String<Heap>, PlayFault>
    requires some { 1 ≤ ranks }
    requires few { ranks ≤ most_ranks }
    ensures { IfOk result (λ text. IsPlayText program.now ranks run.now.run (string_bytes text)) }
{
    let plan = plan_of(alloc, program, ranks, run)?;
    let events = plan.written(alloc)?;
    let text = text_of(alloc, events.as_slice())?;
    if plays(alloc, program, ranks, run, events.as_slice())? {
        Ok(text)
    } else {
        Err(PlayFault::NoOrder)
    }
}

/// The text of the events, where it is read as these.
pub fn text_of(alloc: Heap, events: &[WorldEvent]) -> Result<String<Heap>, PlayFault>
    ensures written { IfOk result (λ text. string_bytes text ≡ events_text events.now) }
    ensures read { IfOk result (λ text. events_of (string_bytes text) ≡ Ok events.now) }
{
    let text = events_text(alloc, events)?;
    let read = match parse_events(alloc, text.as_bytes()) {
        Ok(read) => read,
        Err(EventsFault::Memory) => return Err(PlayFault::Memory),
        Err(EventsFault::Fault { .. }) => return Err(PlayFault::NoOrder),
    };
    if are_same(read.as_slice(), events) {
        Ok(text)
    } else {
        Err(PlayFault::NoOrder)
    }
}

fn are_same(events: &[WorldEvent], others: &[WorldEvent]) -> bool
    ensures { result ≡ true → events.now ≡ others.now }
{
    let mut rest = events;
    let mut left = others;
    while let ([event, more @ ..], [other, behind @ ..]) = (rest, left) {
        if event != other {
            return false;
        }
        rest = more;
        left = behind;
    }
    rest.is_empty() && left.is_empty()
}
