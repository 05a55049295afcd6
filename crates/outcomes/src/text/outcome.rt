//! The outcome that a text tells.
ghost use Rattle.std.specs.Prelude.{◌≡◌, IfOk};
ghost use Rattle.outcomes.specs.Text.Outcomes.{end_for, event_for, is_act, line_in, line_of};

use crate::text::form::Entry;
use crate::text::text::OutcomeText;
use audit::{End, Line, Outcome};
use event_logger::Event;
use limits::Heap;
use std::alloc::AllocError;

impl OutcomeText {
    ghost use Rattle.outcomes.specs.Text.Outcomes.{act_line, end_line, end_of, ends_to, lines_in, outcome_of, row_of, rows_to};
    ghost use Rattle.std.specs.Prelude.{map};

    /// The outcome that the lines tell. An `Err` means out of memory.
    pub fn outcome(&self, alloc: Heap) -> Result<Outcome, AllocError>
        ensures { IfOk result (λ outcome. outcome ≡ outcome_of self.now) }
    {
        let ends = self.ends(alloc)?;
        let lines = self.lines(alloc)?;
        let rows = self.rows(alloc)?;
        Ok(Outcome { rows, lines, ends })
    }

    /// The number of the line that tells the rank's act of this clock.
    pub fn line_of_act(&self, rank: u8, clock: u32) -> Option<usize>
        ensures { result ≡ act_line rank clock self.now.entries }
    {
        let mut rest = self.entries.as_slice();
        while let [entry, more @ ..] = rest {
            if is_act(entry, rank, clock) {
                return Some(line_of(entry));
            }
            rest = more;
        }
        None
    }

    /// The number of the line that tells how the rank ended.
    pub fn line_of_end(&self, rank: u8) -> Option<usize>
        ensures { result ≡ end_line rank self.now.entries }
    {
        let mut rest = self.entries.as_slice();
        while let [entry, more @ ..] = rest {
            if end_for(entry, rank).is_some() {
                return Some(line_of(entry));
            }
            rest = more;
        }
        None
    }

    fn rows(&self, alloc: Heap) -> Result<Vec<Vec<Event, Heap>, Heap>, AllocError>
        ensures { IfOk result (λ rows. map (λ row. row.items) rows.items ≡ rows_to self.now.ranks self.now.entries) }
    {
        let mut rows = Vec::new(alloc);
        for rank in 0..self.ranks {
            rows.push(self.row(alloc, rank)?)?;
        }
        Ok(rows)
    }

    fn row(&self, alloc: Heap, rank: u8) -> Result<Vec<Event, Heap>, AllocError>
        ensures { IfOk result (λ row. row.items ≡ row_of rank self.now.entries) }
    {
        let mut row = Vec::new(alloc);
        let mut rest = self.entries.as_slice();
        while let [entry, more @ ..] = rest {
            if let Some(event) = event_for(entry, rank) {
                row.push(event)?;
            }
            rest = more;
        }
        Ok(row)
    }

    fn lines(&self, alloc: Heap) -> Result<Vec<Line, Heap>, AllocError>
        ensures { IfOk result (λ lines. lines.items ≡ lines_in self.now.entries) }
    {
        let mut lines = Vec::new(alloc);
        let mut rest = self.entries.as_slice();
        while let [entry, more @ ..] = rest {
            if let Some(line) = line_in(entry) {
                lines.push(line)?;
            }
            rest = more;
        }
        Ok(lines)
    }

    fn ends(&self, alloc: Heap) -> Result<Vec<End, Heap>, AllocError>
        ensures { IfOk result (λ ends. ends.items ≡ ends_to self.now.ranks self.now.entries) }
    {
        let mut ends = Vec::new(alloc);
        for rank in 0..self.ranks {
            ends.push(self.end(rank))?;
        }
        Ok(ends)
    }

    // A text without fault tells the end of each rank.
    fn end(&self, rank: u8) -> End
        ensures { result ≡ end_of rank self.now.entries }
    {
        let mut rest = self.entries.as_slice();
        while let [entry, more @ ..] = rest {
            if let Some(end) = end_for(entry, rank) {
                return end;
            }
            rest = more;
        }
        End::Unfinished
    }
}

fn event_for(entry: &Entry, rank: u8) -> Option<Event>
    ensures { result ≡ event_for rank entry.now }
{
    match entry {
        Entry::Event {
            rank: own,
            event,
            ..
        } if *own == rank => Some(*event),
        Entry::Event { .. } | Entry::Print { .. } | Entry::End { .. } => None,
    }
}

fn line_in(entry: &Entry) -> Option<Line>
    ensures { result ≡ line_in entry.now }
{
    match entry {
        Entry::Print {
            rank,
            clock,
            value,
            ..
        } => Some(Line {
            rank: *rank,
            clock: *clock,
            value: *value,
        }),
        Entry::Event { .. } | Entry::End { .. } => None,
    }
}

fn end_for(entry: &Entry, rank: u8) -> Option<End>
    ensures { result ≡ end_for rank entry.now }
{
    match entry {
        Entry::End { rank: own, end, .. } if *own == rank => Some(*end),
        Entry::End { .. } | Entry::Event { .. } | Entry::Print { .. } => None,
    }
}

// Whether the line tells the rank's act of this clock.
fn is_act(entry: &Entry, rank: u8, clock: u32) -> bool
    ensures { result ≡ is_act rank clock entry.now }
{
    match entry {
        Entry::Event {
            rank: own,
            event,
            ..
        } => *own == rank && event.receiver_clock() == clock,
        Entry::Print {
            rank: own,
            clock: at,
            ..
        } => *own == rank && *at == clock,
        Entry::End { .. } => false,
    }
}

fn line_of(entry: &Entry) -> usize
    ensures { result ≡ line_of entry.now }
{
    match entry {
        Entry::Event { line, .. } | Entry::Print { line, .. } | Entry::End { line, .. } => *line,
    }
}
