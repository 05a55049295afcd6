//! Sends and lines that are released (output commit).
ghost use Rattle.std.specs.Prelude.{◌≡◌, Some, IfOk, IsSome, OnErr};
ghost use Rattle.crash_free.specs.Seen.{act_of};
ghost use Rattle.rank_node.specs.Releasing.{IsHeld};
ghost use Rattle.rank_node.specs.Waiting.{effect_clock};
ghost use Rattle.bare_world.specs.Follows.{released_act};

use crate::bare_world::BareWorld;
use crate::reply::Reply;
use checkpoint::MemoryShelf;
use crash_free::Act;
use limits::Heap;
use matching::PacketItems;
use rank_node::{Running, Waiting};
use std::alloc::AllocError;

impl<'p> BareWorld<'p> {
    ghost use Rattle.bare_world.specs.declared.event.WorldEvent.TheVariants.{Release};
    ghost use Rattle.bare_world.specs.Follows.{CanNot, Follows};
    ghost use Rattle.bare_world.specs.Stands.{Stands};

    /// The oldest effect of a rank at work is released. Its act goes on the
    /// run first, and is taken back where memory ends after that.
    #[tactic(auto, using(crate::proofs::Calls::Releases::release_laws, crate::proofs::Calls::RankOfEvent::works_at))]
    pub(crate) fn release(&mut self, rank: u32) -> Result<Reply, AllocError>
        requires { Stands self.old }
        ensures follows { IfOk result (λ reply. Follows self.old (Release rank) reply self.new) }
        ensures err { OnErr result (self.new ≡ self.old) }
        ensures possible { OnErr result (CanNot self.old (Release rank) → ⊥) }
    {
        let Some(rank) = self.rank_of(rank) else {
            return Ok(Reply::Refused);
        };
        let alloc = self.alloc;
        let Some(running) = self.seats.running(rank) else {
            return Ok(Reply::Refused);
        };
        let Some(effect) = running.oldest_effect() else {
            return Ok(Reply::Refused);
        };
        let (clock, act) = released_act(alloc, running, effect)?;
        let passed = self.pass(rank, clock, Some(act))?;
        let Ok(clock) = self.seats.release(rank, &mut self.console) else {
            self.take_back(passed);
            return Err(AllocError);
        };
        Ok(Reply::Released(clock))
    }
}

/// The clock of an effect that waits first, and its act.
fn released_act(
    alloc: Heap,
    running: &Running<'_, MemoryShelf, ()>,
    effect: Waiting,
) -> Result<(usize, Act), AllocError>
    requires held { IsHeld running.now effect }
    requires effect { IsSome (effect_clock effect) }
    ensures clock { IfOk result (λ passing. effect_clock effect ≡ Some passing.0) }
    ensures act { IfOk result (λ passing. released_act running.now effect ≡ Some (act_of passing.1)) }
{
    match effect {
        Waiting::Event(_) => unreachable!(),
        Waiting::Send { dest, clock } => match running.oldest_held(dest) {
            Some(packet) => {
                let items = PacketItems::from_slice(alloc, packet.payload.as_slice())?;
                let act = Act::Sends {
                    dest,
                    context: packet.context,
                    tag: packet.tag,
                    items,
                };
                Ok((clock as usize, act))
            }
            None => unreachable!(),
        },
        Waiting::Line { clock, value } => Ok((clock as usize, Act::Prints(value))),
    }
}
