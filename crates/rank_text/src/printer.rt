//! The canonical text of a rank program.
//!
//! [`print`] writes statements as text: one on each line, indented by the blocks that are
//! open, with a space where the canonical text has one and with no parentheses but those
//! around an operand that is itself an operation. What it writes of a whole program is a
//! text of the same statements ([`law_reads_back`]).
//!
//! How far a statement is indented ([`depth_of`], [`depth_after`]), how a number is written
//! ([`put_number`]) and what word a reading has ([`reading_word`]) is there for printers of other
//! texts.
mod expression;
pub mod laws;
mod layout;
mod program;
mod statement;

pub use expression::{put_number, reading_word};
pub use laws::{law_reads_back, law_settles};
pub use layout::{depth_after, depth_of};
pub use program::print;
