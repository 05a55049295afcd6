//! Outcomes that users give, ask about and count: read from a text, judged against the
//! crash-free runs of a program, and counted over many runs.
#![tactic(auto)]

pub mod judge;
pub mod soak;
pub mod text;
