//! Images of a rank.
ghost use Rattle.std.specs.Prelude.{◌≡◌, [], OnOk, OnErr};
ghost use Rattle.bare_world.specs.Seats.{with_both, IfLive, IsImaged};

use crate::seat::Seat;
use rank_node::{NodeFault, Phase};
use std::alloc::AllocError;

impl<'p> Seat<'p> {
    /// The rank, which is at work and where nothing waits, takes an image of
    /// itself. An `Err` means out of memory.
    pub fn image(&mut self) -> Result<(), AllocError>
        requires work { IfLive self.old.live (λ v. v.left ≡ []) }
        requires settled { IfLive self.old.live (λ v. v.rank.pending ≡ []) }
        ensures ok { OnOk result (IfLive self.old.live (λ v. IsImaged self.old.program self.old.size self.old.rank v self.new.live self.new.image)) }
        ensures others { self.new ≡ with_both self.old self.new.live self.new.image }
        ensures err { OnErr result (self.new ≡ self.old) }
    {
        let imaged = match &mut self.occupant {
            Some(Phase::Running(running)) => running.image(),
            Some(Phase::Replaying(_) | Phase::Down(_)) | None => unreachable!(),
        };
        let Err(fault) = imaged else {
            return Ok(());
        };
        match fault {
            NodeFault::Memory => Err(AllocError),
            NodeFault::NotSettled
            | NodeFault::Shelf
            | NodeFault::Image
            | NodeFault::Replay
            | NodeFault::ClockSpent
            | NodeFault::Log => unreachable!(),
        }
    }
}
