//! Steps of the ranks of a world.
ghost use Rattle.std.specs.Prelude.{◌≡◌, ◌≢◌, ◌<◌, [], true, None, length, OnErr};
ghost use Rattle.bare_world.specs.Seats.{AtRank, CallsRank, IsFitting, MakesStep, ReplaysStep};

use crate::seats::Seats;
use ports::ConsoleState;
use rank_machine::Wanted;
use rank_node::Turn;
use std::alloc::AllocError;

impl<'p> Seats<'p> {
    ghost use Rattle.rank_machine.specs.Machine.{IsWantedBy};
    ghost use Rattle.rank_node.specs.Steps.{refusal_of, takes_memory};
    ghost use Rattle.rank_node.specs.Replay.{replay_takes_memory};

    /// A rank, which is at work, of which this was found and whose step isn't
    /// refused by name, makes one step. An `Err` means out of memory.
    pub fn step(
        &mut self,
        rank: u8,
        console: &mut ConsoleState,
        wanted: Wanted,
    ) -> Result<Turn, AllocError>
        requires rank { rank < length self.old.ranks }
        requires work { AtRank self.old.ranks rank (λ v. v.left ≡ []) }
        requires allowed { AtRank self.old.ranks rank (λ v. refusal_of v.rank ≡ None) }
        requires wanted { AtRank self.old.ranks rank (λ v. IsWantedBy v.rank.machine wanted) }
        ensures ok { CallsRank self.old rank result self.new (MakesStep console.old console.new) (λ v. takes_memory v.rank ≡ true) }
        ensures err_console { OnErr result (console.new ≡ console.old) }
    {
        self.seats[usize::from(rank)].step(console, wanted)
    }

    /// A rank, which replays and isn't refused, makes one step of its replay.
    /// An `Err` means out of memory.
    pub fn replay(&mut self, rank: u8, console: &mut ConsoleState) -> Result<Turn, AllocError>
        requires rank { rank < length self.old.ranks }
        requires replays { AtRank self.old.ranks rank (λ v. v.left ≢ []) }
        requires fits { AtRank self.old.ranks rank IsFitting }
        ensures ok { CallsRank self.old rank result self.new (ReplaysStep console.old console.new) (λ v. replay_takes_memory v.rank ≡ true) }
        ensures err_console { OnErr result (console.new ≡ console.old) }
    {
        self.seats[usize::from(rank)].replay(console)
    }
}
