//! The text of a run's outcome, read: what each rank received, found, missed and printed, and how
//! it ended, one thing a line.
mod fault;
mod form;
mod line;
mod number;
mod outcome;
mod progress;
mod reading;
mod text;

pub use fault::{OutcomeFault, OutcomeFaultKind, OutcomeParseFault};
pub use form::Entry;
pub use text::OutcomeText;
