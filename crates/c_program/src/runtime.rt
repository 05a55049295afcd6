//! The parts of the C text that are the same for every program, in their order; there are two of
//! how a message is sent.
ghost use Rattle.std.specs.Prelude.{◌≡◌};
ghost use Rattle.c_program.specs.Whole.{fixed_collectives, fixed_ending, fixed_head, fixed_messages, fixed_sending, fixed_values};

mod collectives;
mod ending;
mod head;
mod messages;
mod sending;
mod values;

use collectives::COLLECTIVES;
use ending::ENDING;
use head::HEAD;
use messages::MESSAGES;
use sending::{AWAITED, STARTED};
use values::VALUES;

/// What stands in front of the program's own part.
#[tactic(auto, unfolding(crate::specs::Whole::fixed_head))]
pub(crate) fn fixed_head() -> &'static [u8]
    ensures { result.now ≡ fixed_head }
{
    HEAD.as_bytes()
}

/// Values and the statements within a rank.
#[tactic(auto, unfolding(crate::specs::Whole::fixed_values))]
pub(crate) fn fixed_values() -> &'static [u8]
    ensures { result.now ≡ fixed_values }
{
    VALUES.as_bytes()
}

/// Sends, receives and probes.
#[tactic(auto, unfolding(crate::specs::Whole::fixed_messages))]
pub(crate) fn fixed_messages() -> &'static [u8]
    ensures { result.now ≡ fixed_messages }
{
    MESSAGES.as_bytes()
}

/// How a message is sent: its rank waits until it is received, or goes on.
#[tactic(auto, unfolding(crate::specs::Whole::fixed_sending))]
pub(crate) fn fixed_sending(synchronous: bool) -> &'static [u8]
    ensures { result.now ≡ fixed_sending synchronous }
{
    if synchronous {
        AWAITED.as_bytes()
    } else {
        STARTED.as_bytes()
    }
}

/// Collectives.
#[tactic(auto, unfolding(crate::specs::Whole::fixed_collectives))]
pub(crate) fn fixed_collectives() -> &'static [u8]
    ensures { result.now ≡ fixed_collectives }
{
    COLLECTIVES.as_bytes()
}

/// How a rank begins and ends.
#[tactic(auto, unfolding(crate::specs::Whole::fixed_ending))]
pub(crate) fn fixed_ending() -> &'static [u8]
    ensures { result.now ≡ fixed_ending }
{
    ENDING.as_bytes()
}
