//! How the ranks of a world go down and come up again.
ghost use Rattle.std.specs.Prelude.{◌≡◌, ◌<◌, ◌≤◌, false, None, Some, length, slice_get, IfOk, OnErr, IsSomeAnd};
ghost use Rattle.limits.specs.Limits.{most_events};
ghost use Rattle.rank_node.specs.Image.{begins_at};
ghost use Rattle.rank_node.specs.Replay.{cuts};
ghost use Rattle.bare_world.specs.Seats.{RestartsRank, SetsRank};

use crate::seats::Seats;
use event_logger::Event;
use limits::Heap;
use std::alloc::AllocError;

impl<'p> Seats<'p> {
    /// A rank crashes: its image stays. This takes no memory.
    pub fn crash(&mut self, rank: u8)
        requires { rank < length self.old.ranks }
        ensures { SetsRank self.old rank None self.new }
    {
        self.seats[usize::from(rank)].crash();
    }

    /// A rank, which is down, starts again at its image, or at the beginning of
    /// the program where it has none, which cuts no event of its row, and this
    /// is how many events of that are left to replay. An `Err` is want of
    /// memory.
    #[tactic(auto, using(crate::proofs::Lists::Replaced::set_same))]
    pub fn restart(
        &mut self,
        alloc: Heap,
        rank: u8,
        row: Vec<Event, Heap>,
    ) -> Result<u32, AllocError>
        requires rank { rank < length self.old.ranks }
        requires down { slice_get self.old.ranks rank ≡ Some None }
        requires row { length row.items ≤ most_events }
        requires uncut { IsSomeAnd (slice_get self.old.images rank) (λ image.
            cuts (begins_at self.old.program rank (length self.old.ranks) image).clock row.items ≡ false) }
        ensures ok { IfOk result (RestartsRank self.old rank row.items self.new) }
        ensures err { OnErr result (self.new ≡ self.old) }
    {
        self.seats[usize::from(rank)].restart(alloc, row)
    }
}
