//! Why a choice is refused.
ghost use Rattle.std.specs.Prelude.{◌≡◌};
ghost use Rattle.crash_free.specs.Sim.{refusal_number};
ghost use Rattle.crash_free.specs.declared.not_allowed.NotAllowed.TheVariants.{Memory};

use std::alloc::{AllocError, AllocFailed};
use thiserror::Error;

/// Why a choice is refused.
#[derive(Clone, Copy, Debug, PartialEq, Eq, Error)]
pub enum NotAllowed {
    /// The rank wants something else.
    #[error("the rank wants something else")]
    WantsOther,
    /// The message isn't there, is taken, doesn't match, or would overtake.
    #[error("the message may not be taken")]
    NotEligible,
    /// The rank has halted or faulted.
    #[error("the rank has ended")]
    Ended,
    /// There was no memory.
    #[error("out of memory")]
    Memory,
}

impl NotAllowed {
    /// The number of the refusal, 1 to 4.
    pub fn number(self) -> u8
        ensures { result ≡ refusal_number self }
    {
        match self {
            NotAllowed::WantsOther => 1,
            NotAllowed::NotEligible => 2,
            NotAllowed::Ended => 3,
            NotAllowed::Memory => 4,
        }
    }
}

impl<T: Drop> From<AllocFailed<T>> for NotAllowed {
    ghost from_gives = { λ _ e. e ≡ Memory };

    fn from(_e: AllocFailed<T>) -> NotAllowed {
        NotAllowed::Memory
    }
}

impl From<AllocError> for NotAllowed {
    ghost from_gives = { λ _ e. e ≡ Memory };

    fn from(_e: AllocError) -> NotAllowed {
        NotAllowed::Memory
    }
}
