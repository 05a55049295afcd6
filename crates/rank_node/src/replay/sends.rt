//! The sends of a rank that replays.
ghost use Rattle.std.specs.Prelude.{◌≡◌, []};
ghost use Rattle.rank_machine.specs.Wants.{payload, IsItemOf, IsLegal};
ghost use Rattle.rank_machine.specs.Machine.{state_of, machine_want};

use crate::fault::NodeFault;
use crate::running::Running;
use crate::turn::Turn;
use checkpoint::Shelf;
use event_logger::Event;
use matching::Context;
use rank_machine::Want;

impl<'p, S: Shelf, D> Running<'p, S, D> {
    ghost use Rattle.rank_node.specs.Stepping.{IsReplayAt};

    // The send that stands, made again: its receiver drops what it has.
    pub(crate) fn send_again(
        &mut self,
        dest: u8,
        context: Context,
        tag: u16,
        item: Option<i64>,
        event: Event,
    ) -> Result<Turn, NodeFault>
        requires settled { self.old.pending ≡ [] }
        requires stands { machine_want self.old.machine ≡ Want.Send dest context tag }
        requires legal { IsLegal self.old.machine.store.size (Want.Send dest context tag) }
        requires item { IsItemOf item (Want.Send dest context tag) (payload (state_of self.old.machine)) }
        ensures { IsReplayAt self.old event (Want.Send dest context tag) result self.new }
    {
        if !self.is_before(event) {
            return Err(NodeFault::Replay);
        }
        let packet = self.message(dest, context, tag, item)?;
        self.pass_send(dest, packet)?;
        Ok(Turn::Moved)
    }
}
