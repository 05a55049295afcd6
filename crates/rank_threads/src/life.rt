//! A rank from life to life: from incarnation to incarnation, each on a thread
//! of its own.
//!
//! All ranks get their stations in `seating`, and a keeper each in `crew`. A
//! keeper (`keeper`) sends its rank's `station`, with the rank's `kit`, in a
//! `parcel` into the thread of each life. There the rank makes its turns
//! (`living`, `waiting`), until it is killed or leaves (`ending`, `stood`). After
//! a crash the frames in its lanes are dropped (`dropping`), and it fetches its
//! `row` for the next life.
mod crew;
mod dropping;
mod ending;
mod keeper;
mod kit;
mod living;
mod parcel;
mod rounds;
mod row;
mod seat;
mod seating;
mod station;
mod stood;
mod waiting;

use crate::node::Node;
pub use crew::keep_all;
pub use ending::{KillToken, Why, kill_of};
use kit::Kit;
pub use parcel::Parcel;
pub use rounds::keep_by_turns;
pub use row::Row;
pub use seat::Seat;
pub use seating::{Account, Remains, Unseated, seat_all, unseat_all};

/// A rank in one life. It never leaves its thread, and must be spent.
pub struct Life<'p, 'l> {
    pub node: Node<'p, 'l>,
    pub kit: Kit,
}
