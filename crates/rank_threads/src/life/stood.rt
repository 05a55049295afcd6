//! How a rank stood when its last life (its incarnation) ended.

/// How a rank stood when its last life ended.
#[derive(Clone, Copy)]
pub struct Stood {
    /// How many acts it had made.
    pub clock: u32,
    /// Whether it still replayed.
    pub is_replaying: bool,
    /// Whether it left because all ranks were at rest.
    pub is_at_rest: bool,
}
