//! What waits at the gate of a rank until output may be committed.

use event_logger::Event;

/// Something of a rank that hasn't passed its gate, or isn't acknowledged yet.
#[derive(Clone, Copy)]
pub enum Waiting {
    /// An event, which waits for its store and then for its acknowledgment.
    Event(Event),
    /// A send, whose packet the payload log holds for the destination; the
    /// clock is that of its act.
    Send { dest: u8, clock: u32 },
    /// A line, with the clock of its print.
    Line { clock: u32, value: i64 },
}
