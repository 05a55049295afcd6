//! Who hears how far a search is.

/// Hears from a search how far it has come.
pub trait Watch {
    /// So many runs were looked at, from 1 on. It is called after each of them.
    fn looked(&mut self, runs: u32);
}

/// Takes no note of it.
#[derive(Drop)]
pub struct Unwatched;

impl Watch for Unwatched {
    fn looked(&mut self, _runs: u32) {}
}
