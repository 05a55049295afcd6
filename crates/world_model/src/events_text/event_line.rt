//! How an event is written.
ghost use Rattle.std.specs.Prelude.{Some};
ghost use Rattle.world_model.specs.EventsText.Written.{event_text};

use crate::WorldEvent;
use std::fmt;

/// An event, shown as the line of an events text that tells it.
#[derive(Clone, Copy)]
pub struct EventLine(pub WorldEvent);

impl fmt::Display for EventLine {
    ghost output = { λ line. Some (event_text line.0) };

    fn fmt<W: fmt::Write>(&self, f: &mut fmt::Formatter<W>) -> fmt::Result {
        match self.0 {
            WorldEvent::Step { rank } => write!(f, "step {rank}"),
            WorldEvent::Put { source, dest } => write!(f, "put {source} {dest}"),
            WorldEvent::Arrive {
                source,
                dest,
                index,
            } => write!(f, "arrive {source} {dest} {index}"),
            WorldEvent::Store { rank } => write!(f, "store {rank}"),
            WorldEvent::Ack { rank } => write!(f, "ack {rank}"),
            WorldEvent::Image { rank } => write!(f, "image {rank}"),
            WorldEvent::Crash { rank } => write!(f, "crash {rank}"),
            WorldEvent::Restart { rank } => write!(f, "restart {rank}"),
            WorldEvent::Release { rank } => write!(f, "release {rank}"),
        }
    }
}
