//! How far a run has come that is made ahead of its outcome.
ghost use Rattle.std.specs.Prelude.{◌≡◌, ◌<◌, ◌≤◌, ℕ, List, [], length, map, replicate, slice_get, Some, true, false, IfOk};
ghost use Rattle.limits.specs.Limits.{most_ranks};
ghost use Rattle.event_logger.specs.Sequential.Event.{EventValue};
ghost use Rattle.crash_free.specs.Parts.{IsBeginning};
ghost use Rattle.crash_free.specs.Runs.{printed};
ghost use Rattle.audit.specs.Ahead.{AheadValue, IsAhead, IsProgress};
ghost use Rattle.audit.specs.Counts.{AreCounted};
ghost use Rattle.audit.specs.Lines.{IsSorted};
ghost use Rattle.audit.specs.Outcome.{lines_of};
ghost use Rattle.audit.specs.Playing.{IsWithin};
ghost use Rattle.audit.specs.Rows.{expand, row};

use crate::auditor::{Auditor, Goal};
use crate::lines;
use event_logger::Event;
use limits::Heap;
use rank_language::Program;
use std::alloc::AllocError;
use std::marker::Model;

/// The run so far, and of each rank how many steps are left, and which events it has made.
#[derive(Drop)]
pub struct Progress<'p> {
    pub auditor: Auditor<'p>,
    pub left: Vec<u32, Heap>,
    taken: Vec<Vec<Event, Heap>, Heap>,
}

impl<'p> Model for Progress<'p> {
    ghost use Rattle.std.specs.Prelude.{map};
    ghost use Rattle.std.specs.Coded.{codes};
    ghost use Rattle.rank_language.specs.Coding.{placed_code};
    ghost use Rattle.audit.specs.Ahead.{ProgressValue};

    ghost Value = { ProgressValue };

    ghost coded = { Prim.hlevel (codes, placed_code) };

    ghost view = { λ p. record { sim = p.auditor.sim; traces = p.auditor.traces.items; left = p.left.items; taken = map (λ row. row.items) p.taken.items } };
}

impl<'p> Progress<'p> {
    /// None yet: each rank may make so many steps.
    pub fn new(
        alloc: Heap,
        program: &'p Program,
        ranks: u8,
        steps: u32,
    ) -> Result<Progress<'p>, AllocError>
        requires some { 1 ≤ ranks }
        requires few { ranks ≤ most_ranks }
        ensures run { IfOk result (λ progress. progress.sim.run ≡ []) }
        ensures ahead { IfOk result (IsAhead (record { program = program.entry.now; ranks = ranks; steps = steps })) }
    {
        let auditor = Auditor::new(alloc, program, ranks)?;
        let left = vec![in alloc; steps; usize::from(ranks)]?;
        let taken = no_events(alloc, ranks)?;
        Ok(Progress {
            auditor,
            left,
            taken,
        })
    }

    /// Makes steps of a rank as long as its events are among these, and at most so many.
    pub fn go_ahead(self, rank: u8, events: &[Event], most: u32) -> Result<Progress<'p>, AllocError>
        requires rank { rank < length self.sim.machines }
        requires progress { IsProgress self }
        ensures ahead { IfOk result (λ progress. (a : AheadValue) → IsAhead a self.entry → IsAhead a progress) }
    {
        let Progress {
            mut auditor,
            mut left,
            mut taken,
        } = self;
        let place = usize::from(rank);
        let now = auditor.go_ahead(rank, events, &mut taken[place], left[place], most)?;
        left[place] = now;
        Ok(Progress {
            auditor,
            left,
            taken,
        })
    }

    /// Whether the outcome's rows and lines begin with those of the run.
    pub fn is_within(&self, goal: &Goal<'_>) -> bool
        requires progress { IsProgress self.now }
        requires rows { length goal.now.outcome.now.rows ≡ length self.now.sim.machines }
        requires sorted { IsSorted (length self.now.sim.machines) goal.now.outcome.now.lines goal.now.lines.now }
        requires counted { AreCounted goal.now.outcome.now.rows goal.now.counts.now }
        ensures yes { result ≡ true → IsWithin goal.now.outcome.now self.now.sim }
        ensures no { result ≡ false → IsWithin goal.now.outcome.now self.now.sim → ⊥ }
    {
        for place in 0..goal.outcome.rows_count() {
            if !self.begins_row(place, goal) {
                return false;
            }
        }
        for rank in 0..self.auditor.ranks() {
            if !self.auditor.begins_lines(rank, goal) {
                return false;
            }
        }
        true
    }

    // Whether the row of this rank begins with the events that it has made.
    fn begins_row(&self, place: usize, goal: &Goal<'_>) -> bool
        requires progress { IsProgress self.now }
        requires rank { place < length self.now.sim.machines }
        requires place { place < length goal.now.outcome.now.rows }
        requires counted { AreCounted goal.now.outcome.now.rows goal.now.counts.now }
        ensures yes { result ≡ true → (events : List EventValue) → slice_get goal.now.outcome.now.rows place ≡ Some events
            → IsBeginning (row self.now.sim.run place) (expand events) }
        ensures no { result ≡ false → (events : List EventValue) → slice_get goal.now.outcome.now.rows place ≡ Some events
            → IsBeginning (row self.now.sim.run place) (expand events) → ⊥ }
    {
        let taken = self.taken[place].as_slice();
        let outcome = goal.outcome;
        let row = outcome.rows[place].as_slice();
        goal.counts[place].begin_with(row, taken)
    }
}

fn no_events(alloc: Heap, ranks: u8) -> Result<Vec<Vec<Event, Heap>, Heap>, AllocError>
    ensures { IfOk result (λ rows. map (λ row. row.items) rows.items ≡ replicate ranks []) }
{
    let mut rows = Vec::new(alloc);
    for _ in 0..ranks {
        rows.push(Vec::new(alloc))?;
    }
    Ok(rows)
}
