//! Crashes (fail-stop): what is stable alone is left.

use crate::bare_world::BareWorld;
use crate::reply::Reply;

impl<'p> BareWorld<'p> {
    ghost use Rattle.bare_world.specs.declared.event.WorldEvent.TheVariants.{Crash};
    ghost use Rattle.bare_world.specs.Follows.{Follows};

    /// The rank crashes, and nothing of it stays but what is stable.
    #[tactic(auto, using(crate::proofs::Calls::Lives::crash_nowhere, crate::proofs::Calls::Lives::crash_down, crate::proofs::Calls::Lives::crash_some))]
    pub(crate) fn crash(&mut self, rank: u32) -> Reply
        ensures { Follows self.old (Crash rank) result self.new }
    {
        let Some(rank) = self.rank_of(rank) else {
            return Reply::Refused;
        };
        if self.seats.is_down(rank) {
            return Reply::Refused;
        }
        self.seats.crash(rank);
        Reply::Crashed
    }
}
