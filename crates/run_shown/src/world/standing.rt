//! What a rank at work has, one that runs or replays, read by its own calls.
ghost use Rattle.std.specs.Prelude.{◌≡◌, IfOk};

use checkpoint::MemoryShelf;
use limits::Heap;
use matching::Inbox;
use payload_log::PayloadLog;
use rank_machine::Machine;
use rank_node::{Phase, Running, Waiting};
use std::alloc::AllocError;

/// What a rank at work has.
#[derive(Drop)]
pub struct RankAtWork<'a, 'p> {
    pub machine: &'a Machine<'p>,
    /// How many acts it has made.
    pub clock: u32,
    pub inbox: &'a Inbox,
    pub log: &'a PayloadLog,
    /// What waits at its gate, the oldest first.
    pub waiting: Vec<Waiting, Heap>,
    /// So many of the first that wait are events that are stored.
    pub stored: usize,
}

impl<'a, 'p> RankAtWork<'a, 'p> {
    ghost use Rattle.run_shown.specs.World.Standing.{IsReadOf};

    /// What a rank has, whatever it does. One that is down has nothing, and at
    /// one that replays nothing waits. An `Err` means out of memory.
    pub fn of(
        alloc: Heap,
        phase: &'a Phase<'p, MemoryShelf, ()>,
    ) -> Result<Option<RankAtWork<'a, 'p>>, AllocError>
        ensures { IfOk result (λ standing. IsReadOf phase.now standing) }
    {
        match phase {
            Phase::Running(running) => Ok(Some(RankAtWork {
                machine: running.machine(),
                clock: running.clock(),
                inbox: running.inbox(),
                log: running.log(),
                waiting: waiting_at(alloc, running)?,
                stored: running.stored(),
            })),
            Phase::Replaying(replaying) => Ok(Some(RankAtWork {
                machine: replaying.machine(),
                clock: replaying.clock(),
                inbox: replaying.inbox(),
                log: replaying.log(),
                waiting: Vec::new(alloc),
                stored: 0,
            })),
            Phase::Down(_) => Ok(None),
        }
    }
}

// What waits at the gate of a rank that runs, the oldest first.
#[tactic(auto, using(crate::proofs::WorldLaws::Reading::none_read, crate::proofs::WorldLaws::Reading::one_more_read, crate::proofs::WorldLaws::Reading::all_read, crate::proofs::WorldLaws::Reading::less_left))]
fn waiting_at(
    alloc: Heap,
    rank: &Running<'_, MemoryShelf, ()>,
) -> Result<Vec<Waiting, Heap>, AllocError>
    ensures { IfOk result (λ waiting. waiting.items ≡ rank.now.pending) }
{
    let mut list = Vec::new(alloc);
    while let Some(waiting) = rank.waiting(list.len()) {
        list.push(waiting)?;
    }
    Ok(list)
}
