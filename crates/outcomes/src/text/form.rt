//! What a line of an outcome text says.
use audit::End;
use event_logger::{Event, Kind};

/// What a line says of its rank, as its words have it. `u32::MAX` stands for
/// each greater rank.
#[derive(Clone, Copy)]
pub(crate) enum LinePart {
    /// The rank's act of this clock took or found the message that the source
    /// sent at its clock `sent`, or found none: then both are 0.
    Event {
        kind: Kind,
        source: u32,
        sent: u32,
        clock: u32,
    },
    Print {
        clock: u32,
        value: i64,
    },
    End(End),
}

/// A rank, and what a line says of it.
#[derive(Clone, Copy)]
pub(crate) struct LineForm {
    pub(crate) rank: u32,
    pub(crate) part: LinePart,
}

/// What a line says that isn't skipped: its number, from 1, a rank, and what it
/// says of that rank.
#[derive(Clone, Copy)]
pub enum Entry {
    /// It received or found a message, or found none. A run of misses stands as
    /// single ones.
    Event {
        line: usize,
        rank: u8,
        event: Event,
    },
    /// It printed the value as its act of this clock.
    Print {
        line: usize,
        rank: u8,
        clock: u32,
        value: i64,
    },
    /// It ended so.
    End {
        line: usize,
        rank: u8,
        end: End,
    },
}
