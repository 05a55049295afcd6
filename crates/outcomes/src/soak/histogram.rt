//! Which outcomes the runs had, each once, and how often.
ghost use Rattle.std.specs.Prelude.{◌≡◌, ℕ, [], true, false, OnErr, OnOk, IfSome, IsNone};
ghost use Rattle.outcomes.specs.Soak.Histogram.{AreOthers, HasAt, Notes};

use crate::soak::bar::Bar;
use audit::final_runs::RankEnd;
use limits::Heap;
use std::alloc::AllocError;
use std::marker::Model;

/// The outcomes of runs, in the order in which they came.
#[derive(Drop)]
pub struct Histogram {
    bars: Vec<Bar, Heap>,
}

impl Model for Histogram {
    ghost use Rattle.std.specs.Prelude.{List};
    ghost use Rattle.outcomes.specs.Soak.Histogram.{BarValue};

    ghost Value = { List BarValue };

    ghost view = { λ h. h.bars.items };
}

impl Histogram {
    /// Of no runs.
    pub fn new(alloc: Heap) -> Histogram
        ensures { result ≡ [] }
    {
        Histogram {
            bars: Vec::new(alloc),
        }
    }

    /// A run more had this outcome, and a rank crashed in it or none did. An
    /// `Err` means out of memory.
    pub fn note(&mut self, ranks: Vec<RankEnd, Heap>, has_crashed: bool) -> Result<(), AllocError>
        ensures counted { OnOk result (Notes self.old ranks.items has_crashed self.new) }
        ensures err { OnErr result (self.new ≡ self.old) }
    {
        match place_of(self.bars.as_slice(), ranks.as_slice()) {
            Some(at) => {
                self.bars[at].count(has_crashed);
                Ok(())
            }
            None => {
                self.bars.push(Bar::new(ranks, has_crashed))?;
                Ok(())
            }
        }
    }

    /// Whether a run had this outcome.
    pub fn has(&self, ranks: &[RankEnd]) -> bool
        ensures yes { result ≡ true → (at : ℕ) × HasAt self.now ranks.now at }
        ensures no { result ≡ false → AreOthers self.now ranks.now }
    {
        place_of(self.bars.as_slice(), ranks).is_some()
    }

    /// What was counted of each outcome.
    pub fn bars(&self) -> &[Bar]
        ensures { result.now ≡ self.now }
    {
        self.bars.as_slice()
    }
}

// Where the outcome stands, if it was noted.
fn place_of(bars: &[Bar], ranks: &[RankEnd]) -> Option<usize>
    ensures there { IfSome result (HasAt bars.now ranks.now) }
    ensures none { IsNone result → AreOthers bars.now ranks.now }
{
    for at in 0..bars.len() {
        if bars[at].is_of(ranks) {
            return Some(at);
        }
    }
    None
}
