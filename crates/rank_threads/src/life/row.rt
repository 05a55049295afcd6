//! What a rank fetched from its logger.
ghost use Rattle.std.specs.Prelude.{◌≡◌, ◌≤◌, length};
ghost use Rattle.limits.specs.Limits.{most_events};

use event_logger::Event;
use limits::Heap;

/// The whole row of a rank.
#[derive(Drop)]
pub struct Row {
    events: Vec<Event, Heap>,
    ghost most: { length events.items ≤ most_events },
}

impl Row {
    pub fn new(events: Vec<Event, Heap>) -> Row
        requires { length events.items ≤ most_events }
        ensures { result.events ≡ events }
    {
        Row { events }
    }

    pub fn into_events(self) -> Vec<Event, Heap>
        ensures most { length result.items ≤ most_events }
        ensures events { result ≡ self.events }
    {
        let Row { events } = self;
        events
    }
}
