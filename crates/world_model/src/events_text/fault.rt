//! What is wrong with a text of events.
ghost use Rattle.std.specs.Prelude.{◌≡◌, Some};
ghost use Rattle.world_model.specs.EventsText.Faults.{name_of, fault_number};

use std::fmt;
use thiserror::Error;

/// What is wrong with a line. The lowest number that holds of a line is answered.
#[derive(Clone, Copy, Debug, Error)]
pub enum EventsFaultKind {
    /// The line has no form.
    BadLine,
    /// There are too many lines.
    Limit,
}

/// Why a text gives no events.
#[derive(Clone, Copy)]
pub enum EventsFault {
    /// The first faulty line, from 1.
    Fault { line: usize, kind: EventsFaultKind },
    Memory,
}

impl EventsFaultKind {
    /// The number that the program's messages name, 1 or 2.
    pub fn number(self) -> u8
        ensures { result ≡ fault_number self }
    {
        match self {
            EventsFaultKind::BadLine => 1,
            EventsFaultKind::Limit => 2,
        }
    }
}

impl fmt::Display for EventsFaultKind {
    ghost output = { λ kind. Some (name_of kind) };

    fn fmt<W: fmt::Write>(&self, f: &mut fmt::Formatter<W>) -> fmt::Result {
        match self {
            EventsFaultKind::BadLine => write!(f, "BadLine"),
            EventsFaultKind::Limit => write!(f, "Limit"),
        }
    }
}
