//! What a user is shown of a run and of a world: traces as text and JSON, and the steps
//! of a world as JSON.
#![tactic(auto)]

mod json;
pub mod trace;
pub mod world;
