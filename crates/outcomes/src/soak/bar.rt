//! How often one outcome came.
ghost use Rattle.std.specs.Prelude.{◌≡◌, ◌≢◌, true, false};
ghost use Rattle.outcomes.specs.Soak.Histogram.{BarValue, first_bar, with_one};

use audit::final_runs::RankEnd;
use limits::Heap;
use std::marker::Model;

/// An outcome, and how many runs had it.
#[derive(Drop)]
pub struct Bar {
    /// What was seen of each rank.
    pub ranks: Vec<RankEnd, Heap>,
    /// How many runs had the outcome, up to 2^64 - 1.
    pub runs: u64,
    /// In how many of these a rank crashed.
    pub crashed: u64,
}

impl Model for Bar {
    ghost Value = { BarValue };

    ghost view = { λ b. record { outcome = b.ranks.items; runs = b.runs; crashed = b.crashed } };
}

impl Bar {
    /// Of the first run that had the outcome.
    pub(crate) fn new(ranks: Vec<RankEnd, Heap>, has_crashed: bool) -> Bar
        ensures { result ≡ first_bar ranks.items has_crashed }
    {
        Bar {
            ranks,
            runs: 1,
            crashed: u64::from(has_crashed),
        }
    }

    /// One run more had it.
    pub(crate) fn count(&mut self, has_crashed: bool)
        ensures { self.new ≡ with_one self.old has_crashed }
    {
        self.runs = self.runs.saturating_add(1);
        self.crashed = self.crashed.saturating_add(u64::from(has_crashed));
    }

    /// Whether this is its outcome.
    pub fn is_of(&self, ranks: &[RankEnd]) -> bool
        ensures yes { result ≡ true → self.now.outcome ≡ ranks.now }
        ensures no { result ≡ false → self.now.outcome ≢ ranks.now }
    {
        are_same(self.ranks.as_slice(), ranks)
    }
}

// Whether the ranks printed the same and ended alike.
fn are_same(ranks: &[RankEnd], others: &[RankEnd]) -> bool
    ensures yes { result ≡ true → ranks.now ≡ others.now }
    ensures no { result ≡ false → ranks.now ≢ others.now }
{
    let (mut rest, mut more) = (ranks, others);
    while let ([rank, ranks @ ..], [other, others @ ..]) = (rest, more) {
        if !rank.is_same(other) {
            return false;
        }
        (rest, more) = (ranks, others);
    }
    rest.is_empty() && more.is_empty()
}
