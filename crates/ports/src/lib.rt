//! What lies between ranks: lanes, which are channels of one producer and one
//! consumer, and the console, on which each line is shown once.
#![tactic(auto)]

mod all_lanes;
mod console;
mod console_state;
mod lanes;

pub use all_lanes::{Ends, close_all, open_all};
pub use console::Console;
pub use console_state::ConsoleState;
pub use lanes::{Carried, Rx, Tx, close, lane};
pub use matching::Line;
