//! A rank at its logger.
ghost use Rattle.std.specs.Prelude.{◌≡◌};
ghost use Rattle.rank_node.specs.Phases.{stable_in};

mod calls;
mod frames;
mod lives;
mod no_screen;
mod releasing;
mod sizes;
mod steps;

use checkpoint::MemoryShelf;
use event_logger::{Desk, Logger};
pub use frames::PutResult;
use rank_node::Phase;

/// A rank in its phase, with the logger that its desk is of. It must be spent.
///
/// What it keeps apart from the rank is that pair: whoever holds a node calls no
/// other logger, and names no rank that there isn't.
pub struct Node<'p, 'l> {
    phase: Phase<'p, MemoryShelf, Desk>,
    logger: &'l Logger,
    /// How many ranks there are.
    pub size: u8,
    ghost own: { (stable_in phase).desk.table ≡ logger.now.table },
    ghost ranks: { logger.now.ranks ≡ size },
    ghost sized: { (stable_in phase).size ≡ size },
}
