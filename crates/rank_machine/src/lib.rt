//! One rank's machine: what a rank program means, an act at a time. It is
//! piecewise deterministic: between two acts it has one way to go, and an act
//! with its message leads to one state (`law_determined`).
#![tactic(auto)]

mod call;
mod fault;
mod gathered;
mod items;
pub mod laws;
mod machine;
mod operate;
mod parts;
mod reduction;
mod status;
mod store;
mod want;
mod wanted;

pub use fault::MachineFault;
pub use gathered::Gathered;
pub use items::Items;
pub use machine::Machine;
pub use parts::Parts;
pub use status::Status;
pub use want::{Want, Wanted};
