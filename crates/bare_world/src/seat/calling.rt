//! The calls on a rank that don't step it.
ghost use Rattle.std.specs.Prelude.{◌≡◌, ◌<◌, [], Some, length, option_and_then, IfOk, OnOk, OnErr, IsSome};
ghost use Rattle.ports.specs.Console.{after_line};
ghost use Rattle.std.specs.Bool.{OnTrue, OnFalse};
ghost use Rattle.rank_node.specs.Frames.{outgoing_of, after_passed, arrival_of, after_frame, IsPacket};
ghost use Rattle.bare_world.specs.Seats.{IfLive, with_live, with_rank_value};

use crate::seat::Seat;
use event_logger::LoggerState;
use ports::ConsoleState;
use rank_node::{Arrived, Frame, Phase};
use std::alloc::AllocError;

impl<'p> Seat<'p> {
    ghost use Rattle.event_logger.specs.declared.sequential.call.Reply.TheVariants.{Length};
    ghost use Rattle.rank_node.specs.Storing.{next_unstored, after_store, after_ack, Appends};
    ghost use Rattle.rank_node.specs.Releasing.{next_effect, released, ShowsEffect};
    ghost use Rattle.rank_node.specs.Waiting.{effect_clock};
    ghost use Rattle.bare_world.specs.Seats.{IsAccepted};

    /// What goes next from the rank to another. An `Err` means out of memory.
    pub fn outgoing(&self, dest: u8) -> Result<Option<Frame>, AllocError>
        requires { IfLive self.now.live (λ v. dest < v.rank.stable.size) }
        ensures ok { IfOk result (λ frame. IfLive self.now.live (λ v. frame ≡ outgoing_of v.rank dest)) }
        ensures packet_only { OnErr result (IfLive self.now.live (λ v. IsPacket (outgoing_of v.rank dest))) }
    {
        let Some(rank) = &self.occupant else {
            unreachable!();
        };
        let Ok(frame) = rank.outgoing(dest) else {
            return Err(AllocError);
        };
        Ok(frame)
    }

    /// What was outgoing to another rank has gone.
    pub fn passed(&mut self, dest: u8)
        requires { IfLive self.old.live (λ v. (dest < v.rank.stable.size) × IsSome (outgoing_of v.rank dest)) }
        ensures passed { IfLive self.old.live (λ v. self.new.live ≡ with_rank_value v (after_passed v.rank dest)) }
        ensures others { self.new ≡ with_live self.old self.new.live }
    {
        let Some(rank) = &mut self.occupant else {
            unreachable!();
        };
        rank.passed(dest);
    }

    /// A frame from another rank arrives. An `Err` means out of memory.
    pub fn arrive(&mut self, from: u8, frame: Frame) -> Result<Arrived, AllocError>
        requires { IfLive self.old.live (λ v. from < v.rank.stable.size) }
        ensures answer { IfOk result (λ answer. IfLive self.old.live (λ v. answer ≡ arrival_of v.rank from frame)) }
        ensures accepted_only { OnErr result (IfLive self.old.live (λ v. arrival_of v.rank from frame ≡ Arrived.Accepted)) }
        ensures ok { OnOk result (IfLive self.old.live (λ v. self.new.live ≡ with_rank_value v (after_frame v.rank from frame))) }
        ensures others { self.new ≡ with_live self.old self.new.live }
        ensures err { OnErr result (self.new ≡ self.old) }
    {
        let Some(rank) = &mut self.occupant else {
            unreachable!();
        };
        match rank.arrive(from, frame) {
            Ok(Some(arrived)) => Ok(arrived),
            Ok(None) => unreachable!(),
            Err(_) => Err(AllocError),
        }
    }

    /// The oldest stored event is acknowledged, where the rank is at work.
    pub fn ack(&mut self) -> bool
        requires { IfLive self.old.live (λ v. v.left ≡ []) }
        ensures acked { OnTrue result (IfLive self.old.live (λ v. (0 < v.rank.stored) × (self.new.live ≡ with_rank_value v (after_ack v.rank)))) }
        ensures others { self.new ≡ with_live self.old self.new.live }
        ensures none { OnFalse result (IfLive self.old.live (λ v. v.rank.stored ≡ 0)) }
        ensures stays { OnFalse result (self.new ≡ self.old) }
    {
        match &mut self.occupant {
            Some(Phase::Running(running)) => running.ack(),
            Some(Phase::Replaying(_) | Phase::Down(_)) | None => unreachable!(),
        }
    }

    /// The oldest unstored event of the rank, which the logger accepts, is
    /// stored, and this is its row's new length. An `Err` means out of memory.
    pub fn store(&mut self, logger: &mut LoggerState) -> Result<u32, AllocError>
        requires work { IfLive self.old.live (λ v. v.left ≡ []) }
        requires row { IfLive self.old.live (λ v. v.rank.stable.rank < length logger.old.rows) }
        requires accepted { IfLive self.old.live (λ v. IsAccepted logger.old v.rank.stable.rank (next_unstored v.rank)) }
        ensures row { IfOk result (λ count. IfLive self.old.live (λ v.
            Appends (next_unstored v.rank) v.rank.stable.rank logger.old (Length count) logger.new)) }
        ensures ok { OnOk result (IfLive self.old.live (λ v. self.new.live ≡ with_rank_value v (after_store v.rank))) }
        ensures others { self.new ≡ with_live self.old self.new.live }
        ensures err { OnErr result (self.new ≡ self.old) }
        ensures err_logger { OnErr result (logger.new ≡ logger.old) }
    {
        let stored = match &mut self.occupant {
            Some(Phase::Running(running)) => running.store_state(logger),
            Some(Phase::Replaying(_) | Phase::Down(_)) | None => unreachable!(),
        };
        match stored {
            Ok(Some(count)) => Ok(count),
            Ok(None) => unreachable!(),
            Err(_) => Err(AllocError),
        }
    }

    /// The oldest effect of the rank is released, and this is its clock. An
    /// `Err` means out of memory.
    pub fn release(&mut self, console: &mut ConsoleState) -> Result<u32, AllocError>
        requires work { IfLive self.old.live (λ v. v.left ≡ []) }
        requires effect { IfLive self.old.live (λ v. IsSome (next_effect v.rank)) }
        ensures clock { IfOk result (λ clock. IfLive self.old.live (λ v. option_and_then effect_clock (next_effect v.rank) ≡ Some clock)) }
        ensures ok { OnOk result (IfLive self.old.live (λ v. self.new.live ≡ with_rank_value v (released v.rank (next_effect v.rank)))) }
        ensures others { self.new ≡ with_live self.old self.new.live }
        ensures shown { OnOk result (IfLive self.old.live (λ v.
            ShowsEffect (λ old rank clock value new. new ≡ after_line old rank clock value) v.rank (next_effect v.rank) console.old console.new)) }
        ensures err { OnErr result (self.new ≡ self.old) }
        ensures err_console { OnErr result (console.new ≡ console.old) }
    {
        let released = match &mut self.occupant {
            Some(Phase::Running(running)) => running.release(console),
            Some(Phase::Replaying(_) | Phase::Down(_)) | None => unreachable!(),
        };
        match released {
            Ok(Some(clock)) => Ok(clock),
            Ok(None) => unreachable!(),
            Err(_) => Err(AllocError),
        }
    }
}
