//! The events that a rank has stored, on their way to the audit of its run.

use crossbeam_queue::ArrayQueue;
use event_logger::Event;
use limits::Heap;
use std::alloc::AllocError;
use std::sync::Wait;
use std::sync::atomic::{AtomicBool, Ordering};

/// So many events of a rank may be on their way.
const ROOM: usize = 4096;

/// The events of one rank, in their order. One for which there is no room is left out, and
/// the run ahead doesn't go past it: it looks at clocks.
#[derive(Drop)]
pub struct Feed {
    events: ArrayQueue<Event, Heap>,
    ended: AtomicBool,
}

impl Feed {
    /// That of a rank that hasn't begun. An `Err` is refused memory.
    pub fn new(alloc: Heap) -> Result<Feed, AllocError> {
        Ok(Feed {
            events: ArrayQueue::new(alloc, ROOM)?,
            ended: AtomicBool::new(false),
        })
    }

    /// The rank has stored this event.
    pub fn put<W: Wait>(&self, rt: &W, event: Event) {
        match self.events.push(rt, event) {
            Ok(()) | Err(_) => {}
        }
    }

    /// The rank lives no more.
    pub fn end(&self) {
        self.ended.store(true, Ordering::SeqCst);
    }

    pub fn has_ended(&self) -> bool {
        self.ended.load(Ordering::SeqCst)
    }

    /// Those that have come stand behind the others then. Answers whether any have. An `Err`
    /// is refused memory.
    pub fn take_all<W: Wait>(
        &self,
        rt: &W,
        events: &mut Vec<Event, Heap>,
    ) -> Result<bool, AllocError> {
        let before = events.len();
        for _ in 0..ROOM {
            let Some(event) = self.events.pop(rt) else {
                break;
            };
            events.push(event)?;
        }
        Ok(events.len() > before)
    }
}
