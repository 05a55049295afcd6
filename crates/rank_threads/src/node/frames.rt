//! The frames of a rank in its lanes.
ghost use Rattle.std.specs.Prelude.{◌≡◌, ◌<◌, true, is_some, Some, IfOk, OnOk, OnErr};
ghost use Rattle.ports.specs.Lanes.{lane_to, put_of};
ghost use Rattle.rank_node.specs.declared.turn.Arrived.TheVariants.{Accepted};
ghost use Rattle.rank_node.specs.Phases.{arrival_in, arrived_in, outgoing_in};
ghost use Rattle.rank_threads.specs.Lives.{KeepsOutput};
ghost use Rattle.rank_threads.specs.Putting.{KeepsOthers, Puts};

use super::Node;
use crate::costs::{FrameKind, kind_of};
use ports::Tx;
use rank_node::Frame;
use std::alloc::AllocError;

/// What became of one frame.
#[derive(Clone, Copy)]
pub enum PutResult {
    /// It is in the lane.
    Gone(FrameKind),
    /// The lane is full; it is still outgoing.
    Full,
}

impl<'p, 'l> Node<'p, 'l> {
    /// Takes in a frame that came from this rank. One that is down drops it.
    /// An `Err` means out of memory.
    #[inline(always)]
    #[tactic(auto, using(crate::proofs::GateLemmas::arrived_waits))]
    pub fn arrive(&mut self, from: u8, frame: Frame) -> Result<(), AllocError>
        requires { from < self.old.size }
        ensures ok { OnOk result (self.new.phase ≡ arrived_in self.old.phase from frame) }
        ensures accepted_only { OnErr result (arrival_in self.old.phase from frame ≡ Some Accepted) }
        ensures err { OnErr result (self.new.phase ≡ self.old.phase) }
        ensures kept { KeepsOutput self.old self.new }
    {
        match self.phase.arrive(from, frame) {
            Ok(_) => Ok(()),
            Err(_) => Err(AllocError),
        }
    }

    /// Whether anything is outgoing to this rank.
    pub fn has_outgoing(&self, dest: u8) -> bool
        requires { dest < self.now.size }
        ensures { result ≡ is_some (outgoing_in self.now.phase dest) }
    {
        self.phase.has_outgoing(dest)
    }

    /// Puts what is outgoing to this rank next into the lane to it: it is gone
    /// when it is in the lane, and not before. An `Err` means out of memory, and
    /// leaves all as it was.
    #[inline(always)]
    #[tactic(auto, using(crate::proofs::GateLemmas::gone_waits, crate::proofs::PuttingLemmas::others_laws))]
    pub fn put_one(&mut self, dest: u8, lane: &mut Tx) -> Result<PutResult, AllocError>
        requires there { dest < self.old.size }
        requires outgoing { is_some (outgoing_in self.old.phase dest) ≡ true }
        ensures puts { IfOk result (λ went. Puts went self.old.phase dest (put_of lane.old) self.new.phase (put_of lane.new)) }
        ensures others { KeepsOthers dest self.old.phase self.new.phase }
        ensures err { OnErr result ((self.new.phase ≡ self.old.phase) × (put_of lane.new ≡ put_of lane.old)) }
        ensures kept { KeepsOutput self.old self.new }
        ensures lane { lane_to lane.new ≡ lane_to lane.old }
    {
        let Ok(frame) = self.phase.outgoing(dest) else {
            return Err(AllocError);
        };
        let Some(frame) = frame else { unreachable!() };
        let kind = kind_of(&frame);
        if lane.put(frame).is_err() {
            return Ok(PutResult::Full);
        }
        self.phase.passed(dest);
        Ok(PutResult::Gone(kind))
    }
}
