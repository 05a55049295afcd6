//! Ranks that have nothing left to do by themselves.
ghost use Rattle.std.specs.Prelude.{◌≡◌, ◌<◌, length, IfSome, IfNone};
ghost use Rattle.std.specs.Bool.{OnTrue, OnFalse};
ghost use Rattle.matching.specs.Inbox.{accepted_from};
ghost use Rattle.rank_node.specs.Steps.{turn_of};
ghost use Rattle.rank_node.specs.declared.fault.NodeFault.{NodeFault};
ghost use Rattle.bare_world.specs.World.{size};
ghost use Rattle.bare_world.specs.Finished.{is_idle};

use crate::bare_world::BareWorld;
use checkpoint::MemoryShelf;
use matching::Inbox;
use rank_node::{NodeFault, Running, Turn};

impl<'p> BareWorld<'p> {
    ghost use Rattle.bare_world.specs.Finished.{IsQuietAs, IsSpent, RestsAt, HearsAll};

    /// Whether a rank is at rest. This takes no memory.
    #[tactic(auto, using(crate::proofs::Ending::QuietRanks::rests_is, crate::proofs::Ending::QuietRanks::busy_restless, crate::proofs::Ending::QuietRanks::deaf_restless, crate::proofs::Ending::QuietRanks::idle_restless))]
    pub fn rests(&self, rank: u8) -> bool
        requires { rank < size self.now }
        ensures yes { OnTrue result (RestsAt self.now rank) }
        ensures no { OnFalse result (RestsAt self.now rank → ⊥) }
    {
        let Some(running) = self.seats.running(rank) else {
            return false;
        };
        self.is_quiet(rank, running) && self.has_heard_all(rank, running.inbox())
    }

    /// Whether nothing of a rank at work waits, it has made its acts of the run,
    /// and it is idle.
    #[tactic(auto, using(crate::proofs::Ending::QuietRanks::quiet_is))]
    fn is_quiet(&self, rank: u8, running: &Running<'p, MemoryShelf, ()>) -> bool
        requires { rank < size self.now }
        ensures yes { OnTrue result (IsQuietAs self.now.run rank running.now) }
        ensures no { OnFalse result (IsQuietAs self.now.run rank running.now → ⊥) }
    {
        running.is_settled() && running.clock() as usize == self.run.count(rank) && is_idle(running)
    }

    /// Whether all that was sent to a rank in the run was accepted in this inbox.
    fn has_heard_all(&self, rank: u8, inbox: &Inbox) -> bool
        requires { rank < size self.now }
        ensures yes { OnTrue result (HearsAll self.now rank inbox.now) }
        ensures no { OnFalse result (HearsAll self.now rank inbox.now → ⊥) }
    {
        for source in 0..self.ranks() {
            if self.run.sent(source, rank) > accepted_from(inbox, source) {
                return false;
            }
        }
        true
    }

    /// By which name the next act of a rank is refused, if it is.
    #[tactic(auto, using(crate::proofs::Ending::QuietRanks::spent_is, crate::proofs::Ending::QuietRanks::at_rest_unspent, crate::proofs::Ending::QuietRanks::allowed_unspent))]
    pub fn refusal(&self, rank: u8) -> Option<NodeFault>
        requires { rank < size self.now }
        ensures some { IfSome result (λ fault. IsSpent self.now rank fault) }
        ensures none { IfNone result ((fault : NodeFault) → IsSpent self.now rank fault → ⊥) }
    {
        let Some(running) = self.seats.running(rank) else {
            return None;
        };
        running.forecast(running.wants()).err()
    }
}

/// How many packets of a rank were accepted.
fn accepted_from(inbox: &Inbox, source: u8) -> usize
    ensures { result ≡ accepted_from inbox.now source }
{
    match inbox.counts().get(usize::from(source)) {
        Some(count) => *count as usize,
        None => 0,
    }
}

/// Whether a rank at work has no step to make, nor one that its gate holds up.
fn is_idle(running: &Running<'_, MemoryShelf, ()>) -> bool
    ensures { result ≡ is_idle (turn_of running.now) }
{
    match running.forecast(running.wants()) {
        Ok(Turn::Blocked | Turn::Ended) => true,
        Ok(Turn::Moved | Turn::Held) | Err(_) => false,
    }
}
