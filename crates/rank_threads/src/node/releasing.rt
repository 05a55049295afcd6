//! What waits at the gate of a rank that runs, and leaves it (output commit).
ghost use Rattle.std.specs.Prelude.{◌≡◌, [], true, false, is_some, option_and_then, IfOk, OnOk, OnErr};
ghost use Rattle.rank_node.specs.Releasing.{next_effect, released};
ghost use Rattle.rank_node.specs.Waiting.{effect_clock};
ghost use Rattle.rank_threads.specs.Phases.{SameStable};
ghost use Rattle.rank_threads.specs.Releasing.{is_line};

use super::no_screen::NoScreen;
use crate::early_audit::Feed;
use checkpoint::MemoryShelf;
use event_logger::{Desk, Event, Logger};
use ports::Console;
use rank_node::{NodeFault, Running, Waiting};
use std::alloc::AllocError;
use std::sync::Wait;

/// Stores and acknowledges every event of the rank, and releases every send and
/// line that waits, in their order. Answers whether the logger took all events. Those that
/// it took are put into the feed.
#[tactic(auto, using(crate::proofs::ReleasingLemmas::nothing_waits, rank_node::proofs::Again::settled_nil))]
pub fn release_all<W: Wait>(
    rt: &W,
    logger: &Logger,
    console: &Console,
    feed: Option<&Feed>,
    rank: &mut Running<'_, MemoryShelf, Desk>,
) -> Result<bool, AllocError>
    requires { rank.old.stable.desk.table ≡ logger.now.table }
    ensures settled { IfOk result (λ all. all ≡ true → rank.new.pending ≡ []) }
    ensures shelf { rank.new.stable.shelf ≡ rank.old.stable.shelf }
    ensures clock { rank.new.clock ≡ rank.old.clock }
    ensures same { SameStable rank.old.stable rank.new.stable }
{
    while rank.ack() {}
    loop {
        if rank.is_settled() {
            return Ok(true);
        }
        if release(rt, console, rank)? {
            continue;
        }
        let event = rank.oldest_unstored();
        match rank.store(logger) {
            Ok(Some(_)) => {
                tell(rt, feed, event);
                rank.ack();
            }
            Ok(None) => return Ok(true),
            Err(NodeFault::Memory) => return Err(AllocError),
            Err(
                NodeFault::NotSettled
                | NodeFault::Shelf
                | NodeFault::Image
                | NodeFault::Replay
                | NodeFault::ClockSpent
                | NodeFault::Log,
            ) => return Ok(false),
        }
    }
}

// The rank has stored an event, which goes to the audit, too.
fn tell<W: Wait>(rt: &W, feed: Option<&Feed>, event: Option<Event>) {
    if let (Some(feed), Some(event)) = (feed, event) {
        feed.put(rt, event);
    }
}

// The oldest of what waits passes, if it is a send or a line. Answers whether
// it did. The console's lock is taken for a line alone.
#[tactic(auto, using(crate::proofs::ReleasingLemmas::has_clock, crate::proofs::ReleasingLemmas::released_clock))]
fn release<W: Wait>(
    rt: &W,
    console: &Console,
    rank: &mut Running<'_, MemoryShelf, Desk>,
) -> Result<bool, AllocError>
    ensures passed { IfOk result (λ passed. passed ≡ is_some (next_effect rank.old)) }
    ensures ok { OnOk result (rank.new ≡ released rank.old (next_effect rank.old)) }
    ensures clock { rank.new.clock ≡ rank.old.clock }
    ensures stable { rank.new.stable ≡ rank.old.stable }
{
    let clock = match rank.oldest_effect() {
        Some(Waiting::Line { .. }) => {
            let mut console = console.lock(rt);
            rank.release(&mut *console)
        }
        Some(Waiting::Send { .. } | Waiting::Event(_)) => release_silently(rank),
        None => return Ok(false),
    };
    match clock {
        Ok(clock) => Ok(clock.is_some()),
        Err(_) => Err(AllocError),
    }
}

// The oldest of what waits passes, if it is a send: no line needs a screen here.
fn release_silently(rank: &mut Running<'_, MemoryShelf, Desk>) -> Result<Option<u32>, NodeFault>
    requires silent { is_line (next_effect rank.old) ≡ false }
    ensures clock { IfOk result (λ clock. clock ≡ option_and_then effect_clock (next_effect rank.old)) }
    ensures ok { OnOk result (rank.new ≡ released rank.old (next_effect rank.old)) }
    ensures err { OnErr result (rank.new ≡ rank.old) }
    ensures stable { rank.new.stable ≡ rank.old.stable }
{
    rank.release(&mut NoScreen)
}
