//! Outcomes of runs without crashes in which no rank can go on: which reports
//! are final, validated after the fact.
mod confirming;
mod fault;
mod outcome;
mod stalled;

pub use confirming::{Final, confirm, confirmed_run, confirmed_run_behind};
pub use fault::FinalFault;
pub use outcome::{RankEnd, has_lines, rank_end};
