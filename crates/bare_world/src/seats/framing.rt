//! Frames that the ranks of a world put and take in.
ghost use Rattle.std.specs.Prelude.{◌≡◌, ◌<◌, length, IfOk, OnErr, IsSome};
ghost use Rattle.rank_node.specs.Frames.{outgoing_of, arrival_of, IsPacket};
ghost use Rattle.bare_world.specs.Seats.{AtRank, Arrives, CallsRank, ChangesRank, HasGone};

use crate::seats::Seats;
use rank_node::{Arrived, Frame};
use std::alloc::AllocError;

impl<'p> Seats<'p> {
    /// What goes next from a rank to another. An `Err` means out of memory.
    pub fn outgoing(&self, rank: u8, dest: u8) -> Result<Option<Frame>, AllocError>
        requires rank { rank < length self.now.ranks }
        requires dest { AtRank self.now.ranks rank (λ v. dest < v.rank.stable.size) }
        ensures ok { IfOk result (λ frame. AtRank self.now.ranks rank (λ v. frame ≡ outgoing_of v.rank dest)) }
        ensures packet_only { OnErr result (AtRank self.now.ranks rank (λ v. IsPacket (outgoing_of v.rank dest))) }
    {
        self.seats[usize::from(rank)].outgoing(dest)
    }

    /// What was outgoing from a rank to another has gone.
    pub fn passed(&mut self, rank: u8, dest: u8)
        requires rank { rank < length self.old.ranks }
        requires due { AtRank self.old.ranks rank (λ v. (dest < v.rank.stable.size) × IsSome (outgoing_of v.rank dest)) }
        ensures { ChangesRank self.old rank self.new (HasGone dest) }
    {
        self.seats[usize::from(rank)].passed(dest);
    }

    /// A frame from one rank arrives at another. An `Err` means out of memory.
    pub fn arrive(&mut self, rank: u8, from: u8, frame: Frame) -> Result<Arrived, AllocError>
        requires rank { rank < length self.old.ranks }
        requires from { AtRank self.old.ranks rank (λ v. from < v.rank.stable.size) }
        ensures { CallsRank self.old rank result self.new (Arrives from frame) (λ v. arrival_of v.rank from frame ≡ Arrived.Accepted) }
    {
        self.seats[usize::from(rank)].arrive(from, frame)
    }
}
