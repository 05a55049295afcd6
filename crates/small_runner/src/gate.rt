//! What waits at the gate of a rank, as it passes.
ghost use Rattle.std.specs.Prelude.{◌≡◌, ◌<◌, [], drop, false, length, OnOk, IsSome};
ghost use Rattle.rank_node.specs.Waiting.{is_settled};
ghost use Rattle.small_runner.specs.Gate.{first_event};

use checkpoint::MemoryShelf;
use event_logger::LoggerState;
use ports::ConsoleState;
use rank_node::{NodeFault, Running};

/// Stores and acknowledges each event that waits, and releases each send and line, in their order.
#[tactic(auto, using(rank_node::proofs::Again::settled_nil, crate::proofs::Gates::less))]
pub fn clear(
    rank: &mut Running<'_, MemoryShelf, ()>,
    logger: &mut LoggerState,
    console: &mut ConsoleState,
) -> Result<(), NodeFault>
    requires { rank.old.stable.rank < length logger.old.rows }
    ensures clear { OnOk result (rank.new.pending ≡ []) }
    ensures stable { rank.new.stable ≡ rank.old.stable }
    ensures rows { length logger.new.rows ≡ length logger.old.rows }
{
    while !rank.is_settled() {
        pass_one(rank, logger, console)?;
    }
    Ok(())
}

// The oldest of what waits passes.
#[tactic(auto, using(crate::proofs::Gates::event_first, crate::proofs::Gates::effect_passes, crate::proofs::Gates::no_effect))]
fn pass_one(
    rank: &mut Running<'_, MemoryShelf, ()>,
    logger: &mut LoggerState,
    console: &mut ConsoleState,
) -> Result<(), NodeFault>
    requires row { rank.old.stable.rank < length logger.old.rows }
    requires waits { is_settled rank.old.pending ≡ false }
    ensures passed { OnOk result (rank.new.pending ≡ drop 1 rank.old.pending) }
    ensures stable { rank.new.stable ≡ rank.old.stable }
    ensures rows { length logger.new.rows ≡ length logger.old.rows }
{
    match rank.release(console)? {
        Some(_) => Ok(()),
        None => pass_event(rank, logger),
    }
}

// The event that stands first is stored, if it isn't yet, and acknowledged.
#[tactic(auto, using(crate::proofs::Gates::some_stored, crate::proofs::Gates::same_rows))]
fn pass_event(
    rank: &mut Running<'_, MemoryShelf, ()>,
    logger: &mut LoggerState,
) -> Result<(), NodeFault>
    requires row { rank.old.stable.rank < length logger.old.rows }
    requires first { IsSome (first_event rank.old.pending) }
    ensures passed { OnOk result (rank.new.pending ≡ drop 1 rank.old.pending) }
    ensures stable { rank.new.stable ≡ rank.old.stable }
    ensures rows { length logger.new.rows ≡ length logger.old.rows }
{
    rank.store_state(logger)?;
    rank.ack();
    Ok(())
}
