//! Images that no script asks for, as a rank takes one after each so many acts.
ghost use Rattle.run_shown.specs.Trace.Due.{IsLastDue};

use std::num::NonZeroU32;

/// The clock of the last image that was due before the act of this clock; 0 where there was none. A
/// kill at a clock at which an image is due goes first.
#[tactic(auto, using(crate::proofs::TraceLaws::DueLemmas::last_multiple))]
pub fn last_due(every: Option<NonZeroU32>, clock: u32) -> u32
    ensures { IsLastDue every clock result }
{
    match every {
        Some(every) => {
            let before = clock.saturating_sub(1);
            before - before % every
        }
        None => 0,
    }
}
