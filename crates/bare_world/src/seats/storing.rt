//! What waits at the gates of the ranks of a world: stores,
//! acknowledgments and releases.
ghost use Rattle.std.specs.Prelude.{◌≡◌, ◌<◌, [], length, OnErr, IsSome};
ghost use Rattle.std.specs.Bool.{OnTrue, OnFalse};
ghost use Rattle.bare_world.specs.Seats.{AtRank, CallsRank, ChangesRank, IsAccepted, IsAcked, IsReleased, IsStored};

use crate::seats::Seats;
use event_logger::LoggerState;
use ports::ConsoleState;
use std::alloc::AllocError;

impl<'p> Seats<'p> {
    ghost use Rattle.rank_node.specs.Storing.{next_unstored};
    ghost use Rattle.rank_node.specs.Releasing.{next_effect};

    /// The oldest unstored event of a rank at work, which the logger accepts,
    /// is stored, and this is its row's new length. An `Err` is want of
    /// memory.
    pub fn store(&mut self, rank: u8, logger: &mut LoggerState) -> Result<u32, AllocError>
        requires rank { rank < length self.old.ranks }
        requires work { AtRank self.old.ranks rank (λ v. v.left ≡ []) }
        requires row { AtRank self.old.ranks rank (λ v. (v.rank.stable.rank ≡ rank) × (rank < length logger.old.rows)) }
        requires accepted { AtRank self.old.ranks rank (λ v. IsAccepted logger.old rank (next_unstored v.rank)) }
        ensures ok { CallsRank self.old rank result self.new (IsStored logger.old logger.new) (λ v. v.left ≡ []) }
        ensures err_logger { OnErr result (logger.new ≡ logger.old) }
    {
        self.seats[usize::from(rank)].store(logger)
    }

    /// The oldest stored event of a rank at work is acknowledged.
    #[tactic(auto, using(crate::proofs::Lists::Replaced::set_same))]
    pub fn ack(&mut self, rank: u8) -> bool
        requires rank { rank < length self.old.ranks }
        requires work { AtRank self.old.ranks rank (λ v. v.left ≡ []) }
        ensures acked { OnTrue result (ChangesRank self.old rank self.new IsAcked) }
        ensures none { OnFalse result (AtRank self.old.ranks rank (λ v. v.rank.stored ≡ 0)) }
        ensures stays { OnFalse result (self.new ≡ self.old) }
    {
        self.seats[usize::from(rank)].ack()
    }

    /// The oldest effect of a rank at work is released, and this is its clock.
    /// An `Err` means out of memory.
    pub fn release(&mut self, rank: u8, console: &mut ConsoleState) -> Result<u32, AllocError>
        requires rank { rank < length self.old.ranks }
        requires work { AtRank self.old.ranks rank (λ v. v.left ≡ []) }
        requires effect { AtRank self.old.ranks rank (λ v. IsSome (next_effect v.rank)) }
        ensures ok { CallsRank self.old rank result self.new (IsReleased console.old console.new) (λ v. v.left ≡ []) }
        ensures err_console { OnErr result (console.new ≡ console.old) }
    {
        self.seats[usize::from(rank)].release(console)
    }
}
