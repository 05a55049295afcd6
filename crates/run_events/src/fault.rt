//! Why a run gives no events.
ghost use Rattle.std.specs.Prelude.{◌≡◌};
ghost use Rattle.run_events.specs.Fault.{fault_number};
ghost use Rattle.run_events.specs.declared.fault.PlayFault.TheVariants.{Memory};

use std::alloc::{AllocError, AllocFailed};
use std::fmt;

/// Why a run gives no events.
#[derive(Clone, Copy, Debug)]
pub enum PlayFault {
    /// Packets can't arrive in such an order that each rank finds what the run
    /// gives it, if none crashes.
    NoOrder,
    /// There would be more than `MOST_EVENT_LINES` of them.
    TooManyEvents,
    /// A rank would have more than `MOST_EVENTS` events stored.
    RowLimit,
    /// There was no memory.
    Memory,
    /// The lines of the script that the run used can't be used in this way along
    /// the run that was found.
    ScriptUnmet,
}

/// The names of faults, in the order of their numbers.
const NAMES: [&str; 5] = [
    "NoOrder",
    "TooManyEvents",
    "RowLimit",
    "out of memory",
    "ScriptUnmet",
];

impl PlayFault {
    /// The number that the program's messages name, 1 to 5.
    pub fn number(self) -> u8
        ensures { result ≡ fault_number self }
    {
        match self {
            PlayFault::NoOrder => 1,
            PlayFault::TooManyEvents => 2,
            PlayFault::RowLimit => 3,
            PlayFault::Memory => 4,
            PlayFault::ScriptUnmet => 5,
        }
    }
}

impl fmt::Display for PlayFault {
    fn fmt<W: fmt::Write>(&self, f: &mut fmt::Formatter<W>) -> fmt::Result {
        f.write_str(NAMES[*self as usize])
    }
}

impl<T: Drop> From<AllocFailed<T>> for PlayFault {
    ghost from_gives = { λ _ e. e ≡ Memory };

    fn from(_: AllocFailed<T>) -> PlayFault {
        PlayFault::Memory
    }
}

impl From<AllocError> for PlayFault {
    ghost from_gives = { λ _ e. e ≡ Memory };

    fn from(_: AllocError) -> PlayFault {
        PlayFault::Memory
    }
}
