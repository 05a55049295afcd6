//! What of a rank outlives its lives: its station, or process slot.
ghost use Rattle.std.specs.Prelude.{◌≡◌};

mod lives;

use super::kit::Kit;
use super::row::Row;
use super::stood::Stood;
use audit::End;
use checkpoint::MemoryShelf;
use event_logger::{Desk, Logger};
use rank_node::Down;

/// What of a rank outlives its lives. It goes into each life's thread, and comes
/// back. It must be spent.
pub struct Station<'l> {
    pub kit: Kit,
    /// Desk and shelf.
    pub down: Down<MemoryShelf, Desk>,
    logger: &'l Logger,
    /// How many ranks there are.
    pub size: u8,
    /// What the rank replays in its next life; none before its first one.
    pub row: Option<Row>,
    /// How the rank left; none where it is to live on.
    pub end: Option<End>,
    /// How it stood when its last life ended.
    pub stood: Stood,
    ghost own: { down.desk.table ≡ logger.now.table },
    ghost ranks: { logger.now.ranks ≡ size },
    ghost sized: { down.size ≡ size },
}
