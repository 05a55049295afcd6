//! Programs made of a rank program, which print what its ranks send or receive.
#![tactic(auto)]

pub mod added;
mod free;
mod lined_forms;
pub mod program;
mod statements;

pub use program::{Telling, TellingFault, telling_program};
