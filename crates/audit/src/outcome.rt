//! What is known of a run afterwards.
ghost use Rattle.std.specs.Prelude.{◌≡◌, length};

use event_logger::Event;
use limits::Heap;
use matching::Line;
use rank_machine::MachineFault;
use std::marker::Model;

/// How a rank ended.
#[derive(Clone, Copy, PartialEq, Eq)]
pub enum End {
    /// After the program's last statement.
    Halted,
    Faulted(MachineFault),
    /// At a receive, or a probe that waits, that nothing was there for.
    Stalled,
    /// A limit of the run or of the rank was reached.
    Unfinished,
}

/// What is known of a run afterwards.
#[derive(Drop)]
pub struct Outcome {
    /// The events of each rank.
    pub rows: Vec<Vec<Event, Heap>, Heap>,
    /// The lines of all ranks, those of one rank by their clocks.
    pub lines: Vec<Line, Heap>,
    /// How each rank ended.
    pub ends: Vec<End, Heap>,
}

impl Model for Outcome {
    ghost use Rattle.std.specs.Prelude.{map};
    ghost use Rattle.audit.specs.Outcome.{OutcomeValue};

    ghost Value = { OutcomeValue };

    ghost view = { λ o. record { rows = map (λ row. row.items) o.rows.items; lines = o.lines.items; ends = o.ends.items } };
}

impl Outcome {
    pub(crate) fn rows_count(&self) -> usize
        ensures { result ≡ length self.now.rows }
    {
        self.rows.len()
    }

    pub(crate) fn ends_count(&self) -> usize
        ensures { result ≡ length self.now.ends }
    {
        self.ends.len()
    }
}
