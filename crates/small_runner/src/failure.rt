//! Why there is no report.

use rank_language::ParseFault;
use rank_node::NodeFault;
use std::io;

/// Why there is no report.
#[derive(Clone, Copy, Debug)]
pub enum Failure {
    /// The program's text has a fault.
    Text,
    /// A rank can't go on.
    Rank,
    /// There is no memory.
    Memory,
    /// Standard output can't be written.
    Output,
}

impl Failure {
    /// The exit status, and what is said on standard error.
    pub fn told(self) -> (u8, &'static str) {
        match self {
            Failure::Rank => (1, "a rank can't go on"),
            Failure::Text => (2, "the program's text has a fault"),
            Failure::Memory => (4, "out of memory"),
            Failure::Output => (5, "standard output can't be written"),
        }
    }
}

impl From<ParseFault> for Failure {
    fn from(fault: ParseFault) -> Failure {
        match fault {
            ParseFault::Fault(_) => Failure::Text,
            ParseFault::Memory => Failure::Memory,
        }
    }
}

impl From<NodeFault> for Failure {
    fn from(fault: NodeFault) -> Failure {
        match fault {
            NodeFault::Memory => Failure::Memory,
            NodeFault::NotSettled
            | NodeFault::Shelf
            | NodeFault::Image
            | NodeFault::Replay
            | NodeFault::ClockSpent
            | NodeFault::Log => Failure::Rank,
        }
    }
}

impl From<io::Error> for Failure {
    fn from(_error: io::Error) -> Failure {
        Failure::Output
    }
}
