//! How far a search may go.

/// How far a search may go.
#[derive(Clone, Copy)]
pub struct Limits {
    /// How many runs are looked at.
    pub runs: u32,
    /// How many steps each rank makes in each of them: its acts, and the steps
    /// of its own between them.
    pub steps: u32,
    /// How many states are kept, so that runs are merged that stand alike. Behind
    /// that a search goes on without merging more.
    pub states: u32,
}
