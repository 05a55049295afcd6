//! A rank program as one C file with calls of MPI.
//!
//! [`c_text`] writes a head, the program's own part and a runtime. Head and runtime are the same
//! for every program (`runtime`); the program's own part has a C statement for each statement.
#![tactic(auto)]

mod expression;
pub mod laws;
mod names;
mod program;
mod runtime;
mod statement;
mod text;

pub use laws::law_names_differ;
pub use text::c_text;
