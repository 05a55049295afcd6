//! Who stands at a seat, to be looked at.
ghost use Rattle.std.specs.Prelude.{◌≡◌};
ghost use Rattle.rank_node.specs.Image.{image_on};
ghost use Rattle.bare_world.specs.Seat.{IsStanding, bytes_of, live_of};

use crate::seat::Seat;
use checkpoint::MemoryShelf;
use rank_node::Phase;

impl<'p> Seat<'p> {
    /// The rank, whatever it does.
    pub fn phase(&self) -> &Phase<'p, MemoryShelf, ()>
        ensures live { self.now.live ≡ live_of result.now }
        ensures standing { IsStanding self.now.program self.now.rank self.now.size result.now }
        ensures image { self.now.image ≡ image_on self.now.program self.now.rank self.now.size (bytes_of result.now) }
    {
        let Some(rank) = &self.occupant else {
            unreachable!();
        };
        rank
    }
}
