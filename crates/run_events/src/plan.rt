//! Events in their order, before they are written out.
ghost use Rattle.std.specs.Prelude.{◌≡◌, ◌+◌, ◌<◌, ◌≤◌, ◌++◌, ◌⊎◌, [], length, replicate, IfOk, IfErr, OnOk};
ghost use Rattle.limits.specs.Limits.{most_event_lines};
ghost use Rattle.run_events.specs.Planned.{events_in};

use crate::fault::PlayFault;
use crate::times::Times;
use limits::{Heap, MOST_EVENT_LINES};
use std::alloc::AllocError;
use std::marker::Model;
use world_model::WorldEvent;

/// A list of events that grows. Contracts see it as that list.
///
/// A rank that computes for long makes many steps in a row, which take no memory here.
#[derive(Drop)]
pub struct PlannedEvents {
    parts: Vec<Times, Heap>,
}

impl Model for PlannedEvents {
    ghost use Rattle.std.specs.Prelude.{List};
    ghost use Rattle.bare_world.specs.declared.event.WorldEvent.{WorldEvent};
    ghost use Rattle.run_events.specs.Planned.{events_in};

    ghost Value = { List WorldEvent };

    ghost view = { λ p. events_in p.parts.items };
}

impl PlannedEvents {
    /// No event.
    pub fn new(alloc: Heap) -> PlannedEvents
        ensures { result ≡ [] }
    {
        PlannedEvents {
            parts: Vec::new(alloc),
        }
    }

    /// The event comes next, so many times.
    #[tactic(auto, using(crate::proofs::Planning::one_more))]
    pub fn add(&mut self, event: WorldEvent, count: u32) -> Result<(), AllocError>
        ensures { OnOk result (self.new ≡ self.old ++ replicate count event) }
    {
        self.parts.push(Times { event, count })?;
        Ok(())
    }

    /// The list, unless it has more than `MOST_EVENT_LINES` events.
    pub fn written(&self, alloc: Heap) -> Result<Vec<WorldEvent, Heap>, PlayFault>
        ensures ok { IfOk result (λ events. events.items ≡ self.now) }
        ensures few { IfOk result (λ events. length events.items ≤ most_event_lines) }
        ensures many { IfErr result (λ fault. fault ≡ PlayFault.TooManyEvents → most_event_lines < length self.now) }
        ensures others { IfErr result (λ fault. (fault ≡ PlayFault.TooManyEvents) ⊎ (fault ≡ PlayFault.Memory)) }
    {
        spread(alloc, self.parts.as_slice())
    }
}

// Each event as often as it happens in a row.
#[tactic(auto, using(crate::proofs::Planning::too_long, crate::proofs::Planning::one_written))]
fn spread(alloc: Heap, parts: &[Times]) -> Result<Vec<WorldEvent, Heap>, PlayFault>
    ensures ok { IfOk result (λ events. events.items ≡ events_in parts.now) }
    ensures few { IfOk result (λ events. length events.items ≤ most_event_lines) }
    ensures many { IfErr result (λ fault. fault ≡ PlayFault.TooManyEvents → most_event_lines < length (events_in parts.now)) }
    ensures others { IfErr result (λ fault. (fault ≡ PlayFault.TooManyEvents) ⊎ (fault ≡ PlayFault.Memory)) }
{
    let mut events = Vec::new(alloc);
    let mut rest = parts;
    while let [part, more @ ..] = rest {
        repeat(&mut events, *part)?;
        rest = more;
    }
    Ok(events)
}

// Adds an event as often as it happens in a row.
#[tactic(auto, using(crate::proofs::Planning::repeated))]
fn repeat(events: &mut Vec<WorldEvent, Heap>, part: Times) -> Result<(), PlayFault>
    requires { length events.old.items ≤ most_event_lines }
    ensures ok { OnOk result (events.new.items ≡ events.old.items ++ replicate part.count part.event) }
    ensures few { OnOk result (length events.new.items ≤ most_event_lines) }
    ensures many { IfErr result (λ fault. fault ≡ PlayFault.TooManyEvents → most_event_lines < length events.old.items + part.count) }
    ensures others { IfErr result (λ fault. (fault ≡ PlayFault.TooManyEvents) ⊎ (fault ≡ PlayFault.Memory)) }
{
    let room = MOST_EVENT_LINES - events.len();
    if part.count as usize > room {
        return Err(PlayFault::TooManyEvents);
    }
    for _ in 0..part.count {
        if events.push(part.event).is_err() {
            return Err(PlayFault::Memory);
        }
    }
    Ok(())
}
