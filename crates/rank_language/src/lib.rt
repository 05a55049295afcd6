//! Programs of ranks: from a text to statements in order, each with where it leads.
#![tactic(auto)]

mod build;
pub mod compact;
pub mod expression;
pub mod laws;
mod line_numbers;
mod lined;
mod name_form;
pub mod program;
mod resolve;
mod resolve_form;
pub mod statement;
mod text_line;

pub use compact::{Compact, Nested};
pub use expression::{Expression, Operand};
pub use line_numbers::statement_lines;
pub use lined::LinedProgram;
pub use program::Program;
pub use rank_text::checker::{
    Array, FaultKind, ParseFault, ProgramFault, law_one_reading, law_program_or_fault,
};
pub use rank_text::grammar::{Name, Operator, Reading, Reduction};
pub use statement::{Buffer, Collective, Pattern, Payload, Statement};
pub use text_line::line_of_text;
