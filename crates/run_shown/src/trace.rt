//! A run in words: each act with the line of the program that made it, how each
//! rank ended and why, and what nobody received.
//!
//! The run is one without crashes, as `audit::find_run` finds it.
mod acts;
mod circles;
mod columns;
mod deliveries;
mod due;
mod ends;
mod fates;
mod given;
mod json;
mod left;
mod message;
mod orders;
mod place;
mod places;
mod trace;
mod why;
mod words;

pub use due::last_due;
pub use given::Given;
pub use message::kind_name;
pub use place::Place;
pub use places::places_of;
pub use trace::{trace_json, trace_text};
pub use why::WhyUnfinished;
