//! A text's lines, a line's words and the numbers that words spell: what
//! programs, scripts and the texts of events share.
mod number;
mod pieces;
mod skipped;

pub use number::{decimal, wide_decimal};
pub use pieces::{next_line, next_word, without_front};
pub use skipped::is_skipped;
