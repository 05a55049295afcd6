//! What is left of a search.

use crate::moves::Move;

/// A run that is left to be searched, with all that may follow it: a beginning of
/// the run that was played last, and a move that is to be made there. So it
/// shares what is behind it with that run, and with all branches that go off it.
#[derive(Clone, Copy)]
pub struct Branch {
    /// How many acts of that run it begins with.
    pub shared: usize,
    /// The move that it makes there. The empty run, which a search begins with,
    /// makes none.
    pub chosen: Option<Move>,
    /// How many moves were made before it where there were others too.
    pub choices: usize,
}
