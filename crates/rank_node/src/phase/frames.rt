//! The frames of a rank, whatever it does: those that arrive, and those that go
//! out.
ghost use Rattle.std.specs.Prelude.{◌≡◌, ◌<◌, Some, is_some, IsSome, IfOk, IfErr, OnOk, OnErr};
ghost use Rattle.rank_node.specs.Frames.{IsPacket};
ghost use Rattle.rank_node.specs.Phases.{stable_in, arrival_in, arrived_in, outgoing_in, passed_in};

use crate::fault::NodeFault;
use crate::frame::Frame;
use crate::phase::Phase;
use crate::turn::Arrived;
use checkpoint::Shelf;

impl<'p, S: Shelf, D> Phase<'p, S, D> {
    /// Takes in a frame that came from this rank. One that is down drops it,
    /// and answers nothing. An `Err` means out of memory, and gives the frame
    /// back.
    #[inline(always)]
    pub fn arrive(&mut self, from: u8, frame: Frame) -> Result<Option<Arrived>, (Frame, NodeFault)>
        requires { from < (stable_in self.old).size }
        ensures answer { IfOk result (λ answer. answer ≡ arrival_in self.old from frame) }
        ensures ok { OnOk result (self.new ≡ arrived_in self.old from frame) }
        ensures back { IfErr result (λ refused. refused ≡ (frame, NodeFault.Memory)) }
        ensures accepted_only { OnErr result (arrival_in self.old from frame ≡ Some Arrived.Accepted) }
        ensures err { OnErr result (self.new ≡ self.old) }
        ensures stable { stable_in self.new ≡ stable_in self.old }
    {
        let arrived = match self {
            Phase::Running(rank) => rank.arrive(from, frame)?,
            Phase::Replaying(rank) => rank.arrive(from, frame)?,
            Phase::Down(_) => return Ok(None),
        };
        Ok(Some(arrived))
    }

    /// Whether anything goes to this rank; nothing does from one that is down.
    pub fn has_outgoing(&self, dest: u8) -> bool
        requires { dest < (stable_in self.now).size }
        ensures { result ≡ is_some (outgoing_in self.now dest) }
    {
        match self {
            Phase::Running(rank) => rank.has_outgoing(dest),
            Phase::Replaying(rank) => rank.running.has_outgoing(dest),
            Phase::Down(_) => false,
        }
    }

    /// What goes to this rank next; nothing from one that is down. An `Err`
    /// means out of memory.
    #[inline(always)]
    pub fn outgoing(&self, dest: u8) -> Result<Option<Frame>, NodeFault>
        requires { dest < (stable_in self.now).size }
        ensures ok { IfOk result (λ frame. frame ≡ outgoing_in self.now dest) }
        ensures packet_only { OnErr result (IsPacket (outgoing_in self.now dest)) }
        ensures memory { IfErr result (λ e. e ≡ NodeFault.Memory) }
    {
        match self {
            Phase::Running(rank) => rank.outgoing(dest),
            Phase::Replaying(rank) => rank.outgoing(dest),
            Phase::Down(_) => Ok(None),
        }
    }

    /// What was outgoing to this rank has gone.
    pub fn passed(&mut self, dest: u8)
        requires rank { dest < (stable_in self.old).size }
        requires due { IsSome (outgoing_in self.old dest) }
        ensures passed { self.new ≡ passed_in self.old dest }
        ensures stable { stable_in self.new ≡ stable_in self.old }
    {
        match self {
            Phase::Running(rank) => rank.passed(dest),
            Phase::Replaying(rank) => rank.passed(dest),
            Phase::Down(_) => unreachable!(),
        }
    }
}
