//! The lines of a rank program's text: its statements by name, or its first fault.
mod bytes;
mod depth;
pub mod draft;
mod expression;
pub mod fault;
mod judge;
pub mod laws;
mod place;
pub mod scope;
mod survey;

pub use bytes::is_skipped;
pub use draft::{Draft, read};
pub use fault::{FaultKind, ParseFault, ProgramFault};
pub use laws::{law_one_reading, law_program_or_fault};
pub use scope::Array;
