//! A line of a script.

/// What a rank is to do once it has made the act of a clock.
#[derive(Clone, Copy, PartialEq, Eq)]
pub enum Order {
    /// It crashes.
    Kill,
    /// It takes an image of itself.
    Image,
}

/// An order to a rank at one of its clocks.
#[derive(Clone, Copy, PartialEq, Eq)]
pub struct ScriptLine {
    /// Below the number of ranks of the run.
    pub rank: u8,
    /// From 1 to the greatest clock of a rank.
    pub clock: u32,
    pub order: Order,
}
