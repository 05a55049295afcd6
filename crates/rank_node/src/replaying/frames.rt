//! The frames of a rank that replays: those that arrive, and those that go out.
ghost use Rattle.std.specs.Prelude.{◌≡◌, ◌<◌, IsSome, IfOk, IfErr, OnOk, OnErr};

use crate::fault::NodeFault;
use crate::frame::Frame;
use crate::replaying::Replaying;
use crate::turn::Arrived;
use checkpoint::Shelf;

impl<'p, S: Shelf, D> Replaying<'p, S, D> {
    ghost use Rattle.rank_node.specs.Frames.{arrival_of, after_frame, outgoing_of, after_passed, IsPacket};

    /// Takes in a frame that came from this rank, which must be below the size.
    /// An `Err` means out of memory, and gives the frame back.
    #[tactic(auto, using(crate::proofs::Settled::after_frame_pending))]
    pub fn arrive(&mut self, from: u8, frame: Frame) -> Result<Arrived, (Frame, NodeFault)>
        requires { from < self.old.node.stable.size }
        ensures answer { IfOk result (λ answer. answer ≡ arrival_of self.old.node from frame) }
        ensures ok { OnOk result (self.new ≡ record { node = after_frame self.old.node from frame; left = self.old.left }) }

        ensures accepted_only { OnErr result (arrival_of self.old.node from frame ≡ Arrived.Accepted) }
        ensures back { IfErr result (λ refused. refused ≡ (frame, NodeFault.Memory)) }
        ensures err { OnErr result (self.new ≡ self.old) }
        ensures stable { self.new.node.stable ≡ self.old.node.stable }
    {
        self.running.arrive(from, frame)
    }

    /// What goes to this rank next, which must be below the size: a due `Ask`,
    /// else a due `Kept`, else the payload log's next packet. An `Err` means
    /// out of memory.
    pub fn outgoing(&self, dest: u8) -> Result<Option<Frame>, NodeFault>
        requires { dest < self.now.node.stable.size }
        ensures ok { IfOk result (λ frame. frame ≡ outgoing_of self.now.node dest) }
        ensures packet_only { OnErr result (IsPacket (outgoing_of self.now.node dest)) }
        ensures memory { IfErr result (λ e. e ≡ NodeFault.Memory) }
    {
        self.running.outgoing(dest)
    }

    /// What was outgoing to this rank has gone.
    #[tactic(auto, using(crate::proofs::Settled::after_passed_pending))]
    pub fn passed(&mut self, dest: u8)
        requires rank { dest < self.old.node.stable.size }
        requires due { IsSome (outgoing_of self.old.node dest) }
        ensures passed { self.new ≡ record { node = after_passed self.old.node dest; left = self.old.left } }
        ensures stable { self.new.node.stable ≡ self.old.node.stable }
    {
        self.running.passed(dest);
    }
}
