//! A rank at work: pessimistic, sender-based message logging (MPICH-V2) around
//! a piecewise deterministic machine. Its gate commits output: no send and no
//! print passes before the determinants on which it may rest are stored and
//! acknowledged. That this leaves no orphans is the theorem of `world_model`.
#![tactic(auto)]

mod both;
mod copying;
mod desk_calls;
mod down;
mod due;
mod events;
mod fault;
mod frame;
mod frames;
mod imaging;
mod outlook;
mod pending;
mod phase;
mod probing;
mod reading;
mod releasing;
mod replay;
mod replaying;
mod restarting;
mod running;
mod screen;
mod stable;
mod stepping;
mod storing;
mod striding;
mod turn;
mod waiting;

pub use down::Down;
pub use fault::NodeFault;
pub use frame::{AskFrom, Frame, KeptUpto};
pub use phase::Phase;
pub use replaying::Replaying;
pub use running::Running;
pub use screen::{Screen, Shown};
pub use stable::Stable;
pub use turn::{Arrived, Turn};
pub use waiting::Waiting;
