//! A rank of a world at its seat, the process slot that outlives its crashes.
ghost use Rattle.std.specs.Prelude.{◌≡◌, ◌≢◌, ◌<◌, ◌≤◌, [], None, Some, is_none, IfOk, IfSome, IfNone};
ghost use Rattle.std.specs.Bool.{OnTrue, OnFalse};
ghost use Rattle.limits.specs.Limits.{most_ranks};
ghost use Rattle.bare_world.specs.Seats.{at_work, IfLive, IsNew, IsNotAtWork, IsNotInReplay};
ghost use Rattle.bare_world.specs.View.{shown_of};
ghost use Rattle.bare_world.specs.Stocked.{IsSeatStocked};

mod calling;
mod copying;
mod imaging;
mod living;
mod showing;
mod stepping;

use crate::occupant::{Occupant, end};
use crate::view::View;
use checkpoint::MemoryShelf;
use limits::Heap;
use rank_language::Program;
use rank_node::{Phase, Running, Stable};
use std::alloc::AllocError;
use std::marker::Model;

/// What a rank keeps through its lives, with where it stands. It must be spent.
///
/// Contracts see the program and which rank of how many it is, the rank's
/// value, None where it is down, and the image on its shelf, None where that is
/// empty: what a shelf holds reads. A rank that replays has something left to
/// replay.
pub struct Seat<'p> {
    program: &'p Program,
    rank: u8,
    size: u8,
    occupant: Occupant<'p>,
}

impl<'p> Model for Seat<'p> {
    ghost use Rattle.std.specs.Coded.{codes};
    ghost use Rattle.rank_language.specs.Coding.{placed_code};
    ghost use Rattle.bare_world.specs.Seats.{SeatValue};
    ghost use Rattle.bare_world.specs.Seat.{seat_of, IsSeated};

    ghost Value = { SeatValue };

    ghost coded = { Prim.hlevel (codes, placed_code) };

    ghost view = { λ s. seat_of s.program.now s.rank s.size s.occupant };

    ghost invariant = { λ s. IsSeated s.program.now s.rank s.size s.occupant };
}

impl<'p> Seat<'p> {
    /// A rank at the beginning of the program.
    pub fn start(
        alloc: Heap,
        program: &'p Program,
        rank: u8,
        size: u8,
    ) -> Result<Seat<'p>, AllocError>
        requires rank { rank < size }
        requires size { size ≤ most_ranks }
        ensures { IfOk result (λ seat. IsNew program.entry.now size rank seat) }
    {
        let stable = Stable::new((), MemoryShelf::new(alloc), rank, size);
        match Running::start(alloc, program, stable) {
            Ok(running) => Ok(Seat {
                program,
                rank,
                size,
                occupant: Some(Phase::Running(running)),
            }),
            Err((stable, _)) => {
                stable.parts();
                Err(AllocError)
            }
        }
    }

    /// Ends the rank.
    pub fn end(self) {
        let Seat {
            program: _,
            rank: _,
            size: _,
            occupant,
        } = self;
        end(occupant);
    }

    /// Whether the rank is down.
    pub fn is_down(&self) -> bool
        ensures { result ≡ is_none self.now.live }
    {
        match &self.occupant {
            Some(Phase::Running(_) | Phase::Replaying(_)) => false,
            Some(Phase::Down(_)) | None => true,
        }
    }

    /// Whether the rank replays.
    pub fn is_replaying(&self) -> bool
        ensures yes { OnTrue result (IfLive self.now.live (λ v. v.left ≢ [])) }
        ensures no { OnFalse result (IsNotInReplay self.now.live) }
    {
        match &self.occupant {
            Some(Phase::Replaying(_)) => true,
            Some(Phase::Running(_) | Phase::Down(_)) | None => false,
        }
    }

    /// The rank, where it is at work.
    pub fn running(&self) -> Option<&Running<'p, MemoryShelf, ()>>
        ensures some { IfSome result (λ running. self.now.live ≡ at_work running.now) }
        ensures none { IfNone result (IsNotAtWork self.now.live) }
    {
        match &self.occupant {
            Some(Phase::Running(running)) => Some(running),
            Some(Phase::Replaying(_) | Phase::Down(_)) | None => None,
        }
    }

    /// A law, for proofs alone: the lines of the program are those of its tree,
    /// the machine of a live rank runs it, and some shelf holds the image.
    #[tactic(auto, using(crate::proofs::Calls::SeatStays::stocked_of))]
    pub fn law_stocked(&self)
        ensures { IsSeatStocked self.now }
    {
        self.program.law_lines();
        let _occupant = &self.occupant;
    }

    /// What is shown of the rank, which has made so many acts of the run.
    pub fn view(&self, acts: usize) -> View
        ensures { result ≡ shown_of self.now.live acts }
    {
        let Some(rank) = &self.occupant else {
            unreachable!();
        };
        View {
            live: !matches!(rank, Phase::Down(_)),
            left: rank.left(),
            clock: rank.clock(),
            acts,
        }
    }
}
