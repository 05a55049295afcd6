//! Where an act was made.

/// Where a rank stood when it made an act.
#[derive(Clone, Copy)]
pub struct Place {
    /// The number of acts of the rank up to this one.
    pub clock: u32,
    /// The position of the statement, from 0.
    pub position: usize,
    /// Whether it was a probe that doesn't wait.
    pub tries: bool,
}
