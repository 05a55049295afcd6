//! What a machine holds besides its program, rank and number of ranks.

use crate::fault::MachineFault;
use crate::gathered::Gathered;
use crate::items::Items;
use crate::status::Status;
use limits::Heap;

/// Where a machine stands and what it has stored, to build it of.
#[derive(Drop)]
pub struct Parts {
    /// Which statement stands, from 0; after the last it is their number.
    pub position: usize,
    /// The fault that an act left, if one did.
    pub fault: Option<MachineFault>,
    pub status: Status,
    /// How many collectives it has finished, up to `GREATEST_CLOCK` of `limits`.
    pub finished: u32,
    /// How many parts of the collective that stands are done, 0 if none stands.
    pub done: u16,
    /// What it has gathered of the reduce that stands, with room for as many values as ranks.
    pub gathered: Gathered,
    /// In the order of declaration, as the arrays are.
    pub variables: Vec<i64, Heap>,
    pub arrays: Vec<Items, Heap>,
}
