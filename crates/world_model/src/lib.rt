//! A world: the ranks of a program under events in any order, crashes among
//! them (an adversarial execution), and the crash-free run that it refines.
#![tactic(auto)]

pub mod events_text;
mod world;

pub use audit::{AuditFault, Audited, End, Outcome, audit};
pub use bare_world::{Finish, FinishEnd, Reply, View, WorldEvent};
pub use crash_free::{Act, Choice, NotAllowed, Passed, Sim};
pub use world::{Stopped, World};
