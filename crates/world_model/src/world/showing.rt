//! What can be looked at in a world beside its console and its run: the ranks,
//! the rows at the event logger and the wires.
ghost use Rattle.std.specs.Prelude.{◌≡◌, ◌<◌};
ghost use Rattle.event_logger.specs.Sequential.History.{row};
ghost use Rattle.bare_world.specs.Shown.{IsPhaseOf};
ghost use Rattle.bare_world.specs.Wires.{wire_of};
ghost use Rattle.bare_world.specs.World.{size};

use crate::world::World;
use checkpoint::MemoryShelf;
use event_logger::Event;
use rank_language::Program;
use rank_node::{Frame, Phase};

impl<'p> World<'p> {
    /// The program of the ranks.
    pub fn program(&self) -> &'p Program
        ensures { result.now ≡ self.now.program }
    {
        self.bare.program()
    }

    /// A rank, whatever it does, with the shelf that has its last image.
    pub fn phase(&self, rank: u8) -> &Phase<'p, MemoryShelf, ()>
        requires { rank < size self.now }
        ensures { IsPhaseOf self.now rank result.now }
    {
        self.bare.phase(rank)
    }

    /// The events of a rank that are stored, in order.
    #[tactic(auto, using(bare_world::proofs::Plain::Worlds::as_many_rows))]
    pub fn row(&self, rank: u8) -> &[Event]
        requires { rank < size self.now }
        ensures { result.now ≡ row self.now.logger.rows rank }
    {
        self.bare.row(rank)
    }

    /// The frames that were ever put on the wire from one rank to another,
    /// oldest first.
    #[tactic(auto, using(bare_world::proofs::Calls::Frames::has_wire))]
    pub fn frames(&self, source: u8, dest: u8) -> &[Frame]
        requires source { source < size self.now }
        requires dest { dest < size self.now }
        ensures { result.now ≡ wire_of self.now.wires source dest }
    {
        self.bare.frames_on(source, dest)
    }
}
