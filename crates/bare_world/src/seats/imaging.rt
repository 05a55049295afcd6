//! Images of the ranks of a world.
ghost use Rattle.std.specs.Prelude.{◌≡◌, ◌<◌, [], length, OnOk, OnErr};
ghost use Rattle.bare_world.specs.Seats.{AtRank, TakesImage};

use crate::seats::Seats;
use std::alloc::AllocError;

impl<'p> Seats<'p> {
    /// A rank, which is at work and where nothing waits, takes an image of
    /// itself. An `Err` means out of memory.
    #[tactic(auto, using(crate::proofs::Lists::Replaced::set_same))]
    pub fn image(&mut self, rank: u8) -> Result<(), AllocError>
        requires rank { rank < length self.old.ranks }
        requires work { AtRank self.old.ranks rank (λ v. v.left ≡ []) }
        requires settled { AtRank self.old.ranks rank (λ v. v.rank.pending ≡ []) }
        ensures ok { OnOk result (TakesImage self.old rank self.new) }
        ensures err { OnErr result (self.new ≡ self.old) }
    {
        self.seats[usize::from(rank)].image()
    }
}
