//! What is wrong with the text of an outcome.
ghost use Rattle.std.specs.Prelude.{◌≡◌, Some};
ghost use Rattle.outcomes.specs.Text.Faults.{name_of, fault_number};

use std::fmt;

/// What is wrong with a line. The lowest number that holds of a line is answered.
#[derive(Clone, Copy, Debug)]
pub enum OutcomeFaultKind {
    /// The line has no form, or a clock in it is none of a rank.
    BadLine,
    /// It names no rank of the run.
    BadRank,
    /// The end of its rank stands on a line before.
    AfterEnd,
    /// An act on a line before, of the same rank, has a clock that isn't lower.
    NotRising,
    /// The text is over, and a rank has no end.
    NoEnd,
    /// There are too many lines.
    Limit,
}

/// The first line that is at fault; of a rank without an end the one after the last.
#[derive(Clone, Copy, Debug)]
pub struct OutcomeFault {
    /// From 1.
    pub line: usize,
    pub kind: OutcomeFaultKind,
}

/// Why a text gives no outcome.
#[derive(Clone, Copy)]
pub enum OutcomeParseFault {
    Fault(OutcomeFault),
    Memory,
}

impl OutcomeFaultKind {
    /// The number that the program's messages name, 1 to 6.
    pub fn number(self) -> u8
        ensures { result ≡ fault_number self }
    {
        match self {
            OutcomeFaultKind::BadLine => 1,
            OutcomeFaultKind::BadRank => 2,
            OutcomeFaultKind::AfterEnd => 3,
            OutcomeFaultKind::NotRising => 4,
            OutcomeFaultKind::NoEnd => 5,
            OutcomeFaultKind::Limit => 6,
        }
    }

    fn name(self) -> &'static str
        ensures { result.now ≡ name_of self }
    {
        match self {
            OutcomeFaultKind::BadLine => "BadLine",
            OutcomeFaultKind::BadRank => "BadRank",
            OutcomeFaultKind::AfterEnd => "AfterEnd",
            OutcomeFaultKind::NotRising => "NotRising",
            OutcomeFaultKind::NoEnd => "NoEnd",
            OutcomeFaultKind::Limit => "Limit",
        }
    }
}

impl fmt::Display for OutcomeFaultKind {
    ghost output = { λ kind. Some (name_of kind) };

    fn fmt<W: fmt::Write>(&self, f: &mut fmt::Formatter<W>) -> fmt::Result {
        f.write_str(self.name())
    }
}
