//! The ranks of a world, in the order of their numbers.
ghost use Rattle.std.specs.Prelude.{◌≡◌, ◌≢◌, ◌<◌, ◌≤◌, ℕ, [], length, slice_get, Option, Some, None, IsSomeAnd, IfSome, IfNone, IfOk, replicate};
ghost use Rattle.std.specs.Bool.{OnTrue, OnFalse};
ghost use Rattle.limits.specs.Limits.{most_ranks};
ghost use Rattle.bare_world.specs.Headline.{IsOpened};
ghost use Rattle.bare_world.specs.World.{Live};
ghost use Rattle.bare_world.specs.Seats.{at_work, AtRank, IsNew, IsNotAtWork, IsNotInReplay, SeatValue};
ghost use Rattle.bare_world.specs.View.{shown_of};
ghost use Rattle.bare_world.specs.Stocked.{AreStocked};

mod copying;
mod framing;
mod imaging;
mod living;
mod showing;
mod stepping;
mod storing;

use crate::seat::Seat;
use crate::view::View;
use checkpoint::MemoryShelf;
use limits::Heap;
use rank_language::Program;
use rank_node::Running;
use std::alloc::AllocError;
use std::marker::Model;

/// The ranks of a world. They must be spent.
///
/// Contracts see the program, the ranks, and what image each has.
// A call goes to the seat of its rank, and its own clauses are of all ranks: here
// lists are by rank, and all but one stay as they were.
pub struct Seats<'p> {
    program: &'p Program,
    seats: Vec<Seat<'p>, Heap>,
}

impl<'p> Model for Seats<'p> {
    ghost use Rattle.std.specs.Prelude.{length};
    ghost use Rattle.std.specs.Coded.{codes};
    ghost use Rattle.rank_language.specs.Coding.{placed_code};
    ghost use Rattle.bare_world.specs.Seats.{AreSeats, SeatsValue, images, lives};

    ghost Value = { SeatsValue };

    ghost coded = { Prim.hlevel (codes, placed_code) };

    ghost view = { λ s. record { program = s.program.now; ranks = lives s.seats.items; images = images s.seats.items } };

    ghost invariant = { λ s. AreSeats s.program.now (length s.seats.items) s.seats.items };
}

impl<'p> Seats<'p> {
    /// All ranks of a program, at its beginning.
    #[tactic(auto, using(crate::proofs::Lists::NewRanks::are_seats, crate::proofs::Lists::NewRanks::are_opened))]
    pub fn start(alloc: Heap, program: &'p Program, ranks: u8) -> Result<Seats<'p>, AllocError>
        requires { ranks ≤ most_ranks }
        ensures program { IfOk result (λ seats. seats.program ≡ program.entry.now) }
        ensures count { IfOk result (λ seats. length seats.ranks ≡ ranks) }
        ensures opened { IfOk result (λ seats. (r : ℕ) (x : Option Live) → slice_get seats.ranks r ≡ Some x → IsOpened program.entry.now ranks r x) }
        ensures images { IfOk result (λ seats. seats.images ≡ replicate ranks None) }
    {
        let seats = new_seats(alloc, program, ranks)?;
        Ok(Seats { program, seats })
    }

    /// Ends all ranks.
    pub fn end(self) {
        let Seats { program: _, seats } = self;
        end_all(seats);
    }

    /// How many ranks there are.
    pub fn len(&self) -> usize
        ensures { result ≡ length self.now.ranks }
    {
        self.seats.len()
    }

    /// Whether a rank is down.
    pub fn is_down(&self, rank: u8) -> bool
        requires { rank < length self.now.ranks }
        ensures yes { OnTrue result (slice_get self.now.ranks rank ≡ Some None) }
        ensures no { OnFalse result (AtRank self.now.ranks rank (λ v. Unit {0})) }
    {
        self.seats[usize::from(rank)].is_down()
    }

    /// Whether a rank replays.
    pub fn is_replaying(&self, rank: u8) -> bool
        requires { rank < length self.now.ranks }
        ensures yes { OnTrue result (AtRank self.now.ranks rank (λ v. v.left ≢ [])) }
        ensures no { OnFalse result (IsSomeAnd (slice_get self.now.ranks rank) IsNotInReplay) }
    {
        self.seats[usize::from(rank)].is_replaying()
    }

    /// A rank, where it is at work.
    pub fn running(&self, rank: u8) -> Option<&Running<'p, MemoryShelf, ()>>
        requires { rank < length self.now.ranks }
        ensures some { IfSome result (λ running. slice_get self.now.ranks rank ≡ Some (at_work running.now)) }
        ensures none { IfNone result (IsSomeAnd (slice_get self.now.ranks rank) IsNotAtWork) }
    {
        self.seats[usize::from(rank)].running()
    }

    /// A law, for proofs alone: the lines of the program are those of its tree,
    /// the machine of each live rank runs it, and some shelf holds each image.
    pub fn law_stocked(&self)
        ensures { AreStocked self.now.program self.now.ranks self.now.images }
    {
        self.program.law_lines();
        for index in 0..self.seats.len() {
            self.seats[index].law_stocked();
        }
    }

    /// What is shown of a rank, which has made so many acts of the run.
    pub fn view(&self, rank: u8, acts: usize) -> View
        requires { rank < length self.now.ranks }
        ensures { IsSomeAnd (slice_get self.now.ranks rank) (λ x. result ≡ shown_of x acts) }
    {
        self.seats[usize::from(rank)].view(acts)
    }
}

/// The seats of all ranks of a program, at its beginning.
fn new_seats<'p>(
    alloc: Heap,
    program: &'p Program,
    ranks: u8,
) -> Result<Vec<Seat<'p>, Heap>, AllocError>
    requires { ranks ≤ most_ranks }
    ensures count { IfOk result (λ seats. length seats.items ≡ ranks) }
    ensures new { IfOk result (λ seats. (r : ℕ) (s : SeatValue) → slice_get seats.items r ≡ Some s → IsNew program.entry.now ranks r s) }
{
    let mut seats = Vec::new(alloc);
    for rank in 0..ranks {
        match Seat::start(alloc, program, rank, ranks) {
            Ok(seat) => {
                if let Err(refused) = seats.push(seat) {
                    refused.value.end();
                    end_all(seats);
                    return Err(AllocError);
                }
            }
            Err(_) => {
                end_all(seats);
                return Err(AllocError);
            }
        }
    }
    Ok(seats)
}

/// Ends the rank of each seat.
fn end_all(mut seats: Vec<Seat<'_>, Heap>) {
    while let Some(seat) = seats.pop() {
        seat.end();
    }
    seats.destroy_empty();
}
