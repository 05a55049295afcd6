//! Explains what is wrong with a text to the person who wrote it: the line, the
//! place in it, what was expected there, and a near word if there is one.
//!
//! The faults themselves are those of `rank_language`, `rank_text::script` and
//! `world_model::events_text`; here they are only explained.
#![tactic(auto)]

mod declared;
mod events;
mod fitting;
mod foreign;
mod near;
mod passed_limits;
mod piece;
mod program;
mod script;
mod shown;
mod unmet;
mod wordless;

pub use events::explain_events;
pub use program::explain_program;
pub use script::explain_script;
pub use unmet::{Unmet, first_unmet};
