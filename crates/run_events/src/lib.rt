//! A crash-free run as events of a world: the same acts, in an order in which
//! each rank finds what the run gives it.
#![tactic(auto)]

mod asked;
mod before;
mod course;
mod fault;
pub mod laws;
mod lives;
mod looks;
mod messages;
mod order;
mod plan;
mod planned;
mod playing;
pub mod recovery_laws;
mod reviving;
mod scripted;
mod text;
mod times;
mod used;
mod writing;

pub use fault::PlayFault;
pub use scripted::play_script_text;
pub use text::play_text;
