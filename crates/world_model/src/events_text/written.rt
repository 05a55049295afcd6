//! The text of events, and that of a way on.
ghost use Rattle.std.specs.Prelude.{◌≡◌, IfOk, string_bytes};
ghost use Rattle.world_model.specs.EventsText.Written.{IsWayText, events_text};

use crate::events_text::event_line::EventLine;
use crate::{World, WorldEvent};
use limits::Heap;
use std::alloc::AllocError;
use std::fmt::Write;

/// The events in their order, one a line. An `Err` means out of memory.
pub fn events_text(alloc: Heap, events: &[WorldEvent]) -> Result<String<Heap>, AllocError>
    ensures { IfOk result (λ text. string_bytes text ≡ events_text events.now) }
{
    let mut text = String::new(alloc);
    let mut rest = events;
    while let [event, more @ ..] = rest {
        let event = EventLine(*event);
        writeln!(text, "{event}")?;
        rest = more;
    }
    Ok(text)
}

/// Makes the events, one after another, and answers a way on from where they
/// lead, one event a line.
///
/// An `Err` means out of memory; the world then stands after some of the events.
pub fn way_text(
    alloc: Heap,
    world: &mut World<'_>,
    events: &[WorldEvent],
) -> Result<String<Heap>, AllocError>
    ensures { IfOk result (λ text. IsWayText world.old events.now world.new (string_bytes text)) }
{
    let Ok(_) = world.run(alloc, events) else {
        return Err(AllocError);
    };
    let way = world.catch_up()?;
    events_text(alloc, way.as_slice())
}
