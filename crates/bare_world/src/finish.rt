//! What a world that was played to the end comes to.

use crate::event::WorldEvent;
use limits::Heap;
use rank_node::NodeFault;

/// Why no more events were played.
#[derive(Clone, Copy)]
pub enum FinishEnd {
    /// The world has ended: no rank can make an act any more.
    Ended,
    /// After as many rounds as were allowed this rank isn't found at rest.
    OutOfRounds { rank: u8 },
    /// The next act of this rank is refused by name: its clock or its events
    /// are used up.
    Spent { rank: u8, fault: NodeFault },
    /// Memory was refused.
    OutOfMemory,
}

/// The events that were played, none of which is a crash, and why they end.
#[derive(Drop)]
pub struct Finish {
    pub events: Vec<WorldEvent, Heap>,
    pub end: FinishEnd,
}
