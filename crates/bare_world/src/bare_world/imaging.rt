//! Images: checkpoints of ranks.
ghost use Rattle.std.specs.Prelude.{◌≡◌, IfOk, OnErr};

use crate::bare_world::BareWorld;
use crate::reply::Reply;
use std::alloc::AllocError;

impl<'p> BareWorld<'p> {
    ghost use Rattle.bare_world.specs.declared.event.WorldEvent.TheVariants.{Image};
    ghost use Rattle.bare_world.specs.Follows.{CanNot, Follows};
    ghost use Rattle.bare_world.specs.Stands.{Stands};

    /// The rank takes an image of itself, in the place of an older one.
    #[tactic(auto, using(crate::proofs::Calls::Images::image_laws, crate::proofs::Calls::RankOfEvent::works_at))]
    pub(crate) fn image(&mut self, rank: u32) -> Result<Reply, AllocError>
        requires { Stands self.old }
        ensures follows { IfOk result (λ reply. Follows self.old (Image rank) reply self.new) }
        ensures err { OnErr result (self.new ≡ self.old) }
        ensures possible { OnErr result (CanNot self.old (Image rank) → ⊥) }
    {
        let Some(rank) = self.rank_of(rank) else {
            return Ok(Reply::Refused);
        };
        let Some(running) = self.seats.running(rank) else {
            return Ok(Reply::Refused);
        };
        if !running.is_settled() {
            return Ok(Reply::Refused);
        }
        self.seats.image(rank)?;
        Ok(Reply::Imaged)
    }
}
