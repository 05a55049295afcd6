//! What is wrong with the text of a script.
ghost use Rattle.std.specs.Prelude.{◌≡◌, Some};
ghost use Rattle.rank_text.specs.Scripts.Faults.{name_of, fault_number};

use std::fmt;

/// What is wrong with a line. The lowest number that holds of a line is answered.
#[derive(Clone, Copy, Debug)]
pub enum ScriptFaultKind {
    /// The line has no form, or its clock is none of a rank.
    BadLine,
    /// It names no rank of the run.
    BadRank,
    /// There are too many lines.
    Limit,
}

/// The first line that is at fault.
#[derive(Clone, Copy, Debug)]
pub struct ScriptFault {
    /// From 1.
    pub line: usize,
    pub kind: ScriptFaultKind,
}

/// Why a text gives no script.
#[derive(Clone, Copy)]
pub enum ScriptParseFault {
    Fault(ScriptFault),
    Memory,
}

impl ScriptFaultKind {
    /// The number that the program's messages name, 1 to 3.
    pub fn number(self) -> u8
        ensures { result ≡ fault_number self }
    {
        match self {
            ScriptFaultKind::BadLine => 1,
            ScriptFaultKind::BadRank => 2,
            ScriptFaultKind::Limit => 3,
        }
    }
}

impl fmt::Display for ScriptFaultKind {
    ghost output = { λ kind. Some (name_of kind) };

    fn fmt<W: fmt::Write>(&self, f: &mut fmt::Formatter<W>) -> fmt::Result {
        match self {
            ScriptFaultKind::BadLine => write!(f, "BadLine"),
            ScriptFaultKind::BadRank => write!(f, "BadRank"),
            ScriptFaultKind::Limit => write!(f, "Limit"),
        }
    }
}
