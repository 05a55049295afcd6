//! Restarts: a rank that is down begins again at its image, its last
//! checkpoint, and replays.
ghost use Rattle.std.specs.Prelude.{IfOk, OnErr};

use crate::bare_world::BareWorld;
use crate::reply::Reply;
use std::alloc::AllocError;

impl<'p> BareWorld<'p> {
    ghost use Rattle.bare_world.specs.declared.event.WorldEvent.TheVariants.{Restart};
    ghost use Rattle.bare_world.specs.Follows.{CanNot, Follows};
    ghost use Rattle.bare_world.specs.Memory.{Unchanged};
    ghost use Rattle.bare_world.specs.Stands.{Stands};

    /// The rank starts again at its image: it fetches its row, and replays what
    /// is above that. Where memory ends after the fetch, that stays in the
    /// logger's history.
    #[tactic(auto, using(crate::proofs::Calls::Lives::restart_laws))]
    pub(crate) fn restart(&mut self, rank: u32) -> Result<Reply, AllocError>
        requires { Stands self.old }
        ensures follows { IfOk result (λ reply. Follows self.old (Restart rank) reply self.new) }
        ensures err { OnErr result (Unchanged self.old (Restart rank) self.new) }
        ensures possible { OnErr result (CanNot self.old (Restart rank) → ⊥) }
    {
        let Some(rank) = self.rank_of(rank) else {
            return Ok(Reply::Refused);
        };
        if !self.seats.is_down(rank) {
            return Ok(Reply::Refused);
        }
        let Ok(row) = self.logger.fetch(self.alloc, usize::from(rank), 0) else {
            return Err(AllocError);
        };
        let left = self.seats.restart(self.alloc, rank, row)?;
        Ok(Reply::Restarted(left))
    }
}
