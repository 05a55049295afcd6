//! What is chosen for a rank.

/// What a rank is to do next.
#[derive(Clone, Copy, Debug, PartialEq, Eq)]
pub enum Choice {
    /// The step of its own, the send or the print that it wants.
    Next,
    /// The receive or the collective takes, or the probe finds, the message at
    /// place `index`, from 1, of what `source` sent to the rank. `source` may be
    /// any number: one that is no rank names no message, and is `NotEligible`.
    Take { source: u32, index: u64 },
    /// The probe that doesn't wait finds no message.
    Miss,
}
