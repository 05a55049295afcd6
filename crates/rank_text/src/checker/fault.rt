//! What is wrong with a text.
ghost use Rattle.std.specs.Prelude.{◌≡◌, Some};
ghost use Rattle.rank_text.specs.Checker.Faults.{name_of, fault_number};

use std::fmt;

/// What is wrong with a line. The lowest number that holds of a line is answered.
#[derive(Clone, Copy, Debug)]
pub enum FaultKind {
    /// A byte isn't 0x20 to 0x7E.
    NotText,
    /// The first token isn't a statement word.
    NotAStatement,
    /// The tokens aren't of the form of the statement word.
    BadForm,
    /// A name isn't declared on an earlier line in the sort that is used.
    Undeclared,
    /// The name declared is already declared.
    DeclaredTwice,
    /// The text ends in an open block.
    BlockOpen,
    /// An `end` or `else` without its block, or a declaration in a block.
    BlockStray,
    /// A limit is passed.
    Limit,
    /// A number is above 9223372036854775807.
    NumberRange,
}

/// A fault and the line that it stands on.
#[derive(Clone, Copy, Debug)]
pub struct ProgramFault {
    /// From 1; for `BlockOpen` one more than the text has.
    pub line: usize,
    pub kind: FaultKind,
}

/// Why a text gives no program.
#[derive(Clone, Copy, Debug)]
pub enum ParseFault {
    Fault(ProgramFault),
    Memory,
}

impl FaultKind {
    /// From 1 to 9.
    pub fn number(self) -> u8
        ensures { result ≡ fault_number self }
    {
        match self {
            FaultKind::NotText => 1,
            FaultKind::NotAStatement => 2,
            FaultKind::BadForm => 3,
            FaultKind::Undeclared => 4,
            FaultKind::DeclaredTwice => 5,
            FaultKind::BlockOpen => 6,
            FaultKind::BlockStray => 7,
            FaultKind::Limit => 8,
            FaultKind::NumberRange => 9,
        }
    }

    fn name(self) -> &'static str
        ensures { result.now ≡ name_of self }
    {
        match self {
            FaultKind::NotText => "NotText",
            FaultKind::NotAStatement => "NotAStatement",
            FaultKind::BadForm => "BadForm",
            FaultKind::Undeclared => "Undeclared",
            FaultKind::DeclaredTwice => "DeclaredTwice",
            FaultKind::BlockOpen => "BlockOpen",
            FaultKind::BlockStray => "BlockStray",
            FaultKind::Limit => "Limit",
            FaultKind::NumberRange => "NumberRange",
        }
    }
}

impl fmt::Display for FaultKind {
    ghost output = { λ kind. Some (name_of kind) };

    fn fmt<W: fmt::Write>(&self, f: &mut fmt::Formatter<W>) -> fmt::Result {
        f.write_str(self.name())
    }
}

impl fmt::Display for ProgramFault {
    fn fmt<W: fmt::Write>(&self, f: &mut fmt::Formatter<W>) -> fmt::Result {
        write!(
            f,
            "line {}: fault {} {}",
            self.line,
            self.kind.number(),
            self.kind
        )
    }
}

impl fmt::Display for ParseFault {
    fn fmt<W: fmt::Write>(&self, f: &mut fmt::Formatter<W>) -> fmt::Result {
        match self {
            ParseFault::Fault(fault) => write!(f, "{fault}"),
            ParseFault::Memory => write!(f, "out of memory"),
        }
    }
}

impl std::error::Error for ParseFault {}
