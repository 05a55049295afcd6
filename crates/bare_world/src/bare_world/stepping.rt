//! Steps of the ranks at work.
ghost use Rattle.std.specs.Prelude.{◌≡◌, ◌<◌, true, length, option_map, slice_get, IsSomeAnd, IfOk, OnErr};
ghost use Rattle.crash_free.specs.Seen.{act_of};
ghost use Rattle.rank_machine.specs.Machine.{machine_want, IsWantedBy};
ghost use Rattle.rank_node.specs.Steps.{turn_of, takes_memory};
ghost use Rattle.bare_world.specs.Follows.{effect_at, stepped};

use crate::bare_world::BareWorld;
use crate::reply::Reply;
use checkpoint::MemoryShelf;
use crash_free::Act;
use limits::Heap;
use rank_machine::{Want, Wanted};
use rank_node::{Running, Turn};
use std::alloc::AllocError;

impl<'p> BareWorld<'p> {
    ghost use Rattle.bare_world.specs.declared.event.WorldEvent.TheVariants.{Step};
    ghost use Rattle.bare_world.specs.Follows.{CanNot, Follows};
    ghost use Rattle.bare_world.specs.Memory.{TakesNoMemory};
    ghost use Rattle.bare_world.specs.Seats.{IsNotInReplay};
    ghost use Rattle.bare_world.specs.Stands.{Stands};

    /// The rank makes one step.
    #[tactic(auto, using(crate::proofs::Calls::Steps::step_nowhere))]
    pub(crate) fn step(&mut self, rank: u32) -> Result<Reply, AllocError>
        requires { Stands self.old }
        ensures follows { IfOk result (λ reply. Follows self.old (Step rank) reply self.new) }
        ensures err { OnErr result (self.new ≡ self.old) }
        ensures possible { OnErr result (CanNot self.old (Step rank) → ⊥) }
        ensures frugal { OnErr result (TakesNoMemory self.old (Step rank) → ⊥) }
    {
        let Some(rank) = self.rank_of(rank) else {
            return Ok(Reply::Refused);
        };
        if self.seats.is_replaying(rank) {
            return self.replay(rank);
        }
        self.advance(rank)
    }

    /// A rank that doesn't replay makes one step. What the step lets others
    /// see at once goes on the run first, and is taken back where memory ends
    /// after that.
    #[tactic(auto, using(crate::proofs::Calls::Steps::step_laws, crate::proofs::Calls::RankOfEvent::works_at))]
    fn advance(&mut self, rank: u8) -> Result<Reply, AllocError>
        requires stands { Stands self.old }
        requires rank { rank < length self.old.ranks }
        requires runs { IsSomeAnd (slice_get self.old.ranks rank) IsNotInReplay }
        ensures follows { IfOk result (λ reply. Follows self.old (Step rank) reply self.new) }
        ensures err { OnErr result (self.new ≡ self.old) }
        ensures possible { OnErr result (CanNot self.old (Step rank) → ⊥) }
        ensures frugal { OnErr result (TakesNoMemory self.old (Step rank) → ⊥) }
    {
        let Some(running) = self.seats.running(rank) else {
            return Ok(Reply::Refused);
        };
        let wanted = running.wanted();
        let Ok(foreseen) = running.forecast(wanted.want) else {
            return Ok(Reply::Refused);
        };
        let clock = running.clock() as usize + 1;
        let act = effect_of(self.alloc, running, wanted, foreseen)?;
        let passed = self.pass(rank, clock, act)?;
        let Ok(turn) = self.seats.step(rank, &mut self.console, wanted) else {
            self.take_back(passed);
            return Err(AllocError);
        };
        Ok(stepped(turn))
    }
}

/// The act of a rank's next step, of which this was found, where others can see
/// it at once: a send or a print.
#[tactic(auto, using(crate::proofs::Calls::Steps::unmoved, crate::proofs::Calls::Steps::waits_behind, crate::proofs::Calls::Steps::send_takes))]
fn effect_of(
    alloc: Heap,
    running: &Running<'_, MemoryShelf, ()>,
    wanted: Wanted,
    turn: Turn,
) -> Result<Option<Act>, AllocError>
    requires wanted { IsWantedBy running.now.machine wanted }
    requires turn { turn ≡ turn_of running.now }
    ensures effect { IfOk result (λ act. option_map act_of act ≡ effect_at running.now (machine_want running.now.machine) (turn_of running.now)) }
    ensures memory { OnErr result (takes_memory running.now ≡ true) }
{
    let Turn::Moved = turn else {
        return Ok(None);
    };
    if !running.is_settled() {
        return Ok(None);
    }
    match wanted.want {
        Want::Send { dest, context, tag } => Ok(Some(Act::Sends {
            dest,
            context,
            tag,
            items: running.machine().payload_with(alloc, wanted.item)?,
        })),
        Want::Print(value) => Ok(Some(Act::Prints(value))),
        Want::Internal => Ok(None),
        Want::Receive(_) => Ok(None),
        Want::Probe(_) => Ok(None),
        Want::TryProbe(_) => Ok(None),
        Want::Halted => Ok(None),
        Want::Faulted(_) => Ok(None),
    }
}

/// The reply to a step.
pub(crate) fn stepped(turn: Turn) -> Reply
    ensures { result ≡ stepped turn }
{
    match turn {
        Turn::Moved => Reply::Moved,
        Turn::Blocked => Reply::Blocked,
        Turn::Held => Reply::Held,
        Turn::Ended => Reply::Ended,
    }
}
