//! Why an outcome isn't confirmed.
ghost use Rattle.std.specs.Prelude.{◌≡◌};
ghost use Rattle.audit.specs.Fault.{fault_number};
ghost use Rattle.audit.specs.declared.fault.AuditFault.TheVariants.{Memory};

use std::alloc::{AllocError, AllocFailed};
use thiserror::Error;

/// Why an outcome isn't confirmed.
#[derive(Clone, Copy, Debug, PartialEq, Eq, Error)]
pub enum AuditFault {
    /// A row has more events than its rank makes.
    #[error("a row has events that its rank doesn't come to")]
    RowLeft,
    /// An event names a message that may not be taken, or another choice than
    /// its rank has.
    #[error("an event is none that its rank can make")]
    NotEligible,
    /// A rank prints another line, or one more or less.
    #[error("a rank prints other lines")]
    Output,
    /// A rank ends in another way.
    #[error("a rank ends in another way")]
    EndState,
    /// A rank made all the steps that were allowed.
    #[error("a rank has no steps left")]
    Budget,
    /// There was no memory.
    #[error("out of memory")]
    Memory,
}

impl AuditFault {
    /// The number of the fault, 1 to 6.
    pub fn number(self) -> u8
        ensures { result ≡ fault_number self }
    {
        match self {
            AuditFault::RowLeft => 1,
            AuditFault::NotEligible => 2,
            AuditFault::Output => 3,
            AuditFault::EndState => 4,
            AuditFault::Budget => 5,
            AuditFault::Memory => 6,
        }
    }
}

impl<T: Drop> From<AllocFailed<T>> for AuditFault {
    ghost from_gives = { λ _ e. e ≡ Memory };

    fn from(_e: AllocFailed<T>) -> AuditFault {
        AuditFault::Memory
    }
}

impl From<AllocError> for AuditFault {
    ghost from_gives = { λ _ e. e ≡ Memory };

    fn from(_e: AllocError) -> AuditFault {
        AuditFault::Memory
    }
}
