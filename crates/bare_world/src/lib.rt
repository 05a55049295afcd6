//! Worlds before it is said what they stand for: the ranks of a program under
//! events in any order, crashes among them, and what each event does.
#![tactic(auto)]

mod bare_world;
mod event;
mod finish;
mod occupant;
mod reply;
mod run;
mod seat;
mod seats;
mod view;
mod wire;
mod wires;

pub use bare_world::BareWorld;
pub use event::WorldEvent;
pub use finish::{Finish, FinishEnd};
pub use reply::Reply;
pub use view::View;
