//! The parts of an event: its word, and the numbers behind it.
ghost use Rattle.std.specs.Prelude.{◌≡◌};
ghost use Rattle.run_shown.specs.World.Parts.{word_of};

use crate::json::Object;
use limits::Heap;
use world_model::WorldEvent;

/// The word of an event, and each rank and index that it names.
pub fn parts_object(alloc: Heap, event: WorldEvent) -> Object {
    let mut object = Object::new(alloc);
    object.text("kind", word_of(event));
    match event {
        WorldEvent::Step { rank } | WorldEvent::Store { rank } | WorldEvent::Ack { rank } => {
            object.number("rank", u64::from(rank));
        }
        WorldEvent::Image { rank } | WorldEvent::Crash { rank } => {
            object.number("rank", u64::from(rank));
        }
        WorldEvent::Restart { rank } | WorldEvent::Release { rank } => {
            object.number("rank", u64::from(rank));
        }
        WorldEvent::Put { source, dest } => put_ends(&mut object, source, dest),
        WorldEvent::Arrive {
            source,
            dest,
            index,
        } => {
            put_ends(&mut object, source, dest);
            object.number("index", index);
        }
    }
    object
}

fn put_ends(object: &mut Object, source: u32, dest: u32) {
    object.number("source", u64::from(source));
    object.number("destination", u64::from(dest));
}

// The word with which the event is told.
fn word_of(event: WorldEvent) -> &'static str
    ensures { result.now ≡ word_of event }
{
    match event {
        WorldEvent::Step { .. } => "step",
        WorldEvent::Put { .. } => "put",
        WorldEvent::Arrive { .. } => "arrive",
        WorldEvent::Store { .. } => "store",
        WorldEvent::Ack { .. } => "ack",
        WorldEvent::Image { .. } => "image",
        WorldEvent::Crash { .. } => "crash",
        WorldEvent::Restart { .. } => "restart",
        WorldEvent::Release { .. } => "release",
    }
}
