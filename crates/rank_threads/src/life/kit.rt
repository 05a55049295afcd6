//! What a rank takes along from life to life (from incarnation to incarnation).
use crate::meter::Meter;
use crate::plan::Plan;
use crate::tally::Tally;
use limits::Heap;
use ports::{Rx, Tx};

/// What a rank takes along from life to life, whether it lives or is down: its
/// number, its lanes, its lines of the script, and what is counted of it.
pub struct Kit {
    pub rank: u8,
    /// The lanes to each rank.
    pub to: Vec<Tx, Heap>,
    /// The lanes from each rank.
    pub from: Vec<Rx, Heap>,
    pub plan: Plan,
    pub tally: Tally,
    pub meter: Meter,
}
