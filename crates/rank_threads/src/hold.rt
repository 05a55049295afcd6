//! Who is told of each act before it is made.

/// Is called by a run before each act of a rank, on the rank's own thread.
pub trait Hold {
    /// `rank` is about to make the act of clock `clock`, a receive or a probe
    /// that turns out to be blocked too: of that one it is told again in every
    /// turn. It isn't called for internal steps.
    fn before(&self, rank: u8, clock: u32);
}
