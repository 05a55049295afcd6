//! Acknowledgments.

use crate::bare_world::BareWorld;
use crate::reply::Reply;

impl<'p> BareWorld<'p> {
    ghost use Rattle.bare_world.specs.declared.event.WorldEvent.TheVariants.{Ack};
    ghost use Rattle.bare_world.specs.Follows.{Follows};
    ghost use Rattle.bare_world.specs.Stands.{Stands};

    /// The rank's oldest stored event is acknowledged.
    #[tactic(auto, using(crate::proofs::Calls::Stores::ack_laws, crate::proofs::Calls::RankOfEvent::works_at))]
    pub(crate) fn ack(&mut self, rank: u32) -> Reply
        requires { Stands self.old }
        ensures { Follows self.old (Ack rank) result self.new }
    {
        let Some(rank) = self.rank_of(rank) else {
            return Reply::Refused;
        };
        let Some(_running) = self.seats.running(rank) else {
            return Reply::Refused;
        };
        if !self.seats.ack(rank) {
            return Reply::Refused;
        }
        Reply::Acked
    }
}
