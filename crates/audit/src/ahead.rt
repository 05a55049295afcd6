//! An audit that begins while the ranks still run.
ghost use Rattle.std.specs.Prelude.{◌≡◌, ◌≤◌, length, IfOk};
ghost use Rattle.limits.specs.Limits.{most_ranks};
ghost use Rattle.audit.specs.Ahead.{IsAhead};
ghost use Rattle.audit.specs.Counts.{AreCounted};
ghost use Rattle.audit.specs.Lines.{IsSorted};
ghost use Rattle.audit.specs.Playing.{IsWithin};

use crate::auditor::Goal;
use crate::progress::Progress;
use event_logger::Event;
use limits::Heap;
use rank_language::Program;
use std::alloc::AllocError;
use std::marker::Model;

/// A run of a program without crashes that is made before its outcome is known, from
/// the events that ranks have stored so far. What it has made counts only if the outcome
/// begins with it; else an audit goes on from the beginning. Whichever events it is given,
/// the contract of the audit holds, whose clauses name neither them nor how far it went.
#[derive(Drop)]
pub struct Ahead<'p> {
    program: &'p Program,
    ranks: u8,
    steps: u32,
    // none if it isn't made, or there was no memory to go on with it
    progress: Option<Progress<'p>>,
}

impl<'p> Model for Ahead<'p> {
    ghost use Rattle.std.specs.Coded.{codes};
    ghost use Rattle.rank_language.specs.Coding.{placed_code};
    ghost use Rattle.audit.specs.Ahead.{AheadValue, HasMade};

    ghost Value = { AheadValue };

    ghost coded = { Prim.hlevel (codes, placed_code) };

    ghost view = { λ a. record { program = a.program.now; ranks = a.ranks; steps = a.steps } };

    ghost invariant = { λ a. HasMade (record { program = a.program.now; ranks = a.ranks; steps = a.steps }) a.progress };
}

impl<'p> Ahead<'p> {
    /// Begins a run in which each rank may make so many steps. Without memory for it
    /// none is made.
    pub fn begin(alloc: Heap, program: &'p Program, ranks: u8, steps: u32) -> Ahead<'p>
        requires some { 1 ≤ ranks }
        requires few { ranks ≤ most_ranks }
        ensures { result ≡ record { program = program.entry.now; ranks = ranks; steps = steps } }
    {
        let progress = match Progress::new(alloc, program, ranks, steps) {
            Ok(progress) => Some(progress),
            Err(AllocError) => None,
        };
        Ahead {
            program,
            ranks,
            steps,
            progress,
        }
    }

    /// Makes no run: an audit begins once it has the outcome.
    pub fn none(program: &'p Program, ranks: u8, steps: u32) -> Ahead<'p>
        requires some { 1 ≤ ranks }
        requires few { ranks ≤ most_ranks }
        ensures { result ≡ record { program = program.entry.now; ranks = ranks; steps = steps } }
    {
        Ahead {
            program,
            ranks,
            steps,
            progress: None,
        }
    }

    /// How many ranks there are.
    pub fn ranks(&self) -> u8
        ensures { result ≡ self.now.ranks }
    {
        self.ranks
    }

    /// Lets a rank go on, by at most so many steps, as long as its next event is among
    /// these: all that it has stored so far. How far it goes no clause says.
    pub fn go_ahead(&mut self, rank: u8, events: &[Event], most: u32)
        ensures { self.new ≡ self.old }
    {
        if rank >= self.ranks {
            return;
        }
        let Some(progress) = self.progress.take() else {
            return;
        };
        match progress.go_ahead(rank, events, most) {
            Ok(progress) => self.progress = Some(progress),
            Err(AllocError) => {}
        }
    }

    /// What was made, if the outcome begins with it, and else a new beginning.
    pub(crate) fn progress_to(
        self,
        alloc: Heap,
        goal: &Goal<'_>,
    ) -> Result<Progress<'p>, AllocError>
        requires rows { length goal.now.outcome.now.rows ≡ self.ranks }
        requires sorted { IsSorted self.ranks goal.now.outcome.now.lines goal.now.lines.now }
        requires counted { AreCounted goal.now.outcome.now.rows goal.now.counts.now }
        ensures ahead { IfOk result (IsAhead self.entry) }
        ensures within { IfOk result (λ progress. IsWithin goal.now.outcome.now progress.sim) }
    {
        let Ahead {
            program,
            ranks,
            steps,
            progress,
        } = self;
        if let Some(progress) = progress {
            if progress.is_within(goal) {
                return Ok(progress);
            }
        }
        Progress::new(alloc, program, ranks, steps)
    }
}
