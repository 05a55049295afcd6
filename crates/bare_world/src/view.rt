//! What a world shows of one rank.

/// Whether a rank is live, how many events it has left to replay, its clock
/// (both are 0 where it is down), and how many acts of the run are its own.
#[derive(Clone, Copy, Debug, PartialEq, Eq)]
pub struct View {
    pub live: bool,
    pub left: u32,
    pub clock: u32,
    pub acts: usize,
}
