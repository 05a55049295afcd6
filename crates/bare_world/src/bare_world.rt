//! A world before it is said what it stands for, and what each event does to it.
//!
//! It is given here that it stands for its run. That it does so again follows
//! from what an event does, and is no concern of this module.
ghost use Rattle.std.specs.Prelude.{◌≡◌, ◌<◌, ◌≤◌, length, reverse, MatchOption, IfOk};
ghost use Rattle.limits.specs.Limits.{most_ranks};
ghost use Rattle.bare_world.specs.Headline.{IsFresh};
ghost use Rattle.bare_world.specs.View.{IsView};
ghost use Rattle.bare_world.specs.Stocked.{IsStocked};

mod acking;
mod applying;
mod arriving;
mod copying;
mod crashing;
mod imaging;
mod passing;
mod putting;
mod releasing;
mod replaying;
mod restarting;
mod resting;
mod showing;
mod stepping;
mod storing;
mod way;

use crate::run::Run;
use crate::seats::Seats;
use crate::view::View;
use crate::wires::Wires;
use crash_free::Passed;
use event_logger::LoggerState;
use limits::Heap;
use matching::Line;
use ports::ConsoleState;
use rank_language::Program;
use std::alloc::AllocError;
use std::marker::Model;

/// A world's ranks, event logger, wires, console and run. It must be spent.
pub struct BareWorld<'p> {
    alloc: Heap,
    ranks: u8,
    seats: Seats<'p>,
    logger: LoggerState,
    wires: Wires,
    console: ConsoleState,
    run: Run,
}

impl<'p> Model for BareWorld<'p> {
    ghost use Rattle.std.specs.Prelude.{◌≡◌, ◌≤◌, length};
    ghost use Rattle.limits.specs.Limits.{most_ranks};
    ghost use Rattle.std.specs.Coded.{codes};
    ghost use Rattle.rank_language.specs.Coding.{placed_code};
    ghost use Rattle.bare_world.specs.World.{WorldValue};

    ghost Value = { WorldValue };

    ghost coded = { Prim.hlevel (codes, placed_code) };

    ghost view = { λ w. record {
      program = w.seats.program;
      ranks = w.seats.ranks;
      images = w.seats.images;
      logger = w.logger;
      wires = w.wires;
      lines = w.console;
      run = w.run.acts;
    } };

    ghost invariant = { λ w. (w.ranks ≤ most_ranks) × (length w.seats.ranks ≡ w.ranks) × (w.run.ranks ≡ w.ranks) };
}

impl<'p> BareWorld<'p> {
    /// A new world of this many ranks.
    pub fn new(alloc: Heap, program: &'p Program, ranks: u8) -> Result<BareWorld<'p>, AllocError>
        requires { ranks ≤ most_ranks }
        ensures { IfOk result (λ world. IsFresh program.entry.now ranks world) }
    {
        let count = usize::from(ranks);
        let logger = LoggerState::new(alloc, count)?;
        let wires = Wires::new(alloc, count)?;
        let console = ConsoleState::new(alloc, ranks)?;
        let run = Run::new(alloc, ranks)?;
        let seats = Seats::start(alloc, program, ranks)?;
        Ok(BareWorld {
            alloc,
            ranks,
            seats,
            logger,
            wires,
            console,
            run,
        })
    }

    /// Ends the world.
    pub fn end(self) {
        let BareWorld {
            alloc: _,
            ranks: _,
            seats,
            logger: _,
            wires: _,
            console: _,
            run: _,
        } = self;
        seats.end();
    }

    /// How many ranks there are.
    pub fn ranks(&self) -> u8
        ensures { result ≡ length self.now.ranks }
    {
        self.ranks
    }

    /// The console's lines, in order.
    pub fn lines(&self) -> &[Line]
        ensures { result.now ≡ self.now.lines }
    {
        self.console.lines()
    }

    /// The acts of the run, the oldest first.
    pub fn acts(&self) -> &[Passed]
        ensures { result.now ≡ reverse self.now.run }
    {
        self.run.acts()
    }

    /// What is shown of a rank. This takes no memory.
    pub fn view(&self, rank: u8) -> View
        requires { rank < length self.now.ranks }
        ensures { IsView self.now rank result }
    {
        self.seats.view(rank, self.run.count(rank))
    }

    /// A law, for proofs alone: the lines of the program are those of its tree,
    /// the machine of each live rank runs it, and some shelf holds each image.
    pub fn law_stocked(&self)
        ensures { IsStocked self.now }
    {
        self.seats.law_stocked();
    }

    /// The rank of this number, if there is one.
    fn rank_of(&self, number: u32) -> Option<u8>
        ensures { MatchOption result (length self.now.ranks ≤ number) (λ rank. (rank ≡ number) × (rank < length self.now.ranks)) }
    {
        match u8::try_from(number) {
            Ok(rank) if rank < self.ranks => Some(rank),
            Ok(_) | Err(_) => None,
        }
    }
}
