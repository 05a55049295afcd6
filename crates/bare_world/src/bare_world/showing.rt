//! Ranks, rows and wires, to be looked at.
ghost use Rattle.std.specs.Prelude.{◌≡◌, ◌<◌, length};
ghost use Rattle.event_logger.specs.Sequential.History.{row};
ghost use Rattle.bare_world.specs.Shown.{IsPhaseOf};
ghost use Rattle.bare_world.specs.Wires.{HasWire, wire_of};

use crate::bare_world::BareWorld;
use checkpoint::MemoryShelf;
use event_logger::Event;
use rank_language::Program;
use rank_node::{Frame, Phase};

impl<'p> BareWorld<'p> {
    /// The program of the ranks.
    pub fn program(&self) -> &'p Program
        ensures { result.now ≡ self.now.program }
    {
        self.seats.program()
    }

    /// A rank, whatever it does.
    pub fn phase(&self, rank: u8) -> &Phase<'p, MemoryShelf, ()>
        requires { rank < length self.now.ranks }
        ensures { IsPhaseOf self.now rank result.now }
    {
        self.seats.phase(rank)
    }

    /// The events of a rank that are stored, in order.
    pub fn row(&self, rank: u8) -> &[Event]
        requires { rank < length self.now.logger.rows }
        ensures { result.now ≡ row self.now.logger.rows rank }
    {
        self.logger.row(usize::from(rank))
    }

    /// The frames of the wire from one rank to another, oldest first.
    pub fn frames_on(&self, source: u8, dest: u8) -> &[Frame]
        requires { HasWire self.now.wires source dest }
        ensures { result.now ≡ wire_of self.now.wires source dest }
    {
        self.wires.wire(source, dest).frames()
    }
}
