//! The ranks of a world, to be looked at.
ghost use Rattle.std.specs.Prelude.{◌≡◌, ◌<◌, length, slice_get, Some};
ghost use Rattle.rank_node.specs.Image.{image_on};
ghost use Rattle.bare_world.specs.Seat.{IsStanding, bytes_of, live_of};

use crate::seats::Seats;
use checkpoint::MemoryShelf;
use rank_language::Program;
use rank_node::Phase;

impl<'p> Seats<'p> {
    /// The program of the ranks.
    pub fn program(&self) -> &'p Program
        ensures { result.now ≡ self.now.program }
    {
        self.program
    }

    /// A rank, whatever it does.
    pub fn phase(&self, rank: u8) -> &Phase<'p, MemoryShelf, ()>
        requires { rank < length self.now.ranks }
        ensures live { slice_get self.now.ranks rank ≡ Some (live_of result.now) }
        ensures standing { IsStanding self.now.program rank (length self.now.ranks) result.now }
        ensures image { slice_get self.now.images rank ≡ Some (image_on self.now.program rank (length self.now.ranks) (bytes_of result.now)) }
    {
        self.seats[usize::from(rank)].phase()
    }
}
