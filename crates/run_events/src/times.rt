//! Events in a row.

use world_model::WorldEvent;

/// The same event, so many times in a row.
#[derive(Clone, Copy)]
pub struct Times {
    pub event: WorldEvent,
    pub count: u32,
}
