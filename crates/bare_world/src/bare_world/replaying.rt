//! Steps of ranks that replay.
ghost use Rattle.std.specs.Prelude.{◌≡◌, ◌≢◌, ◌<◌, [], length, IfOk, OnErr};

use crate::bare_world::BareWorld;
use crate::bare_world::stepping::stepped;
use crate::reply::Reply;
use std::alloc::AllocError;

impl<'p> BareWorld<'p> {
    ghost use Rattle.bare_world.specs.declared.event.WorldEvent.TheVariants.{Step};
    ghost use Rattle.bare_world.specs.Follows.{CanNot, Follows};
    ghost use Rattle.bare_world.specs.Memory.{TakesNoMemory};
    ghost use Rattle.bare_world.specs.Seats.{AtRank};
    ghost use Rattle.bare_world.specs.Stands.{Stands};

    /// A rank that replays makes one step. Nothing passes: its acts are in the
    /// run.
    #[tactic(auto, using(crate::proofs::Calls::Steps::replay_laws))]
    pub(crate) fn replay(&mut self, rank: u8) -> Result<Reply, AllocError>
        requires stands { Stands self.old }
        requires rank { rank < length self.old.ranks }
        requires replays { AtRank self.old.ranks rank (λ v. v.left ≢ []) }
        ensures follows { IfOk result (λ reply. Follows self.old (Step rank) reply self.new) }
        ensures err { OnErr result (self.new ≡ self.old) }
        ensures possible { OnErr result (CanNot self.old (Step rank) → ⊥) }
        ensures frugal { OnErr result (TakesNoMemory self.old (Step rank) → ⊥) }
    {
        let turn = self.seats.replay(rank, &mut self.console)?;
        Ok(stepped(turn))
    }
}
