//! No screen: what shows nothing goes without one.
use rank_node::{Screen, Shown};
use std::alloc::AllocError;

/// No screen, for a step that isn't a print, and for an effect that isn't a line:
/// nothing can be shown on it.
#[derive(Drop)]
pub struct NoScreen;

impl Screen for NoScreen {
    ghost shows = { λ _ _ _ _ _. ⊥ };

    fn show(&mut self, _: u8, _: u32, _: i64) -> Result<Shown, AllocError> {
        Err(AllocError)
    }
}
