//! The receptions of a rank that replays.
ghost use Rattle.std.specs.Prelude.{◌≡◌, ◌<◌, true, is_some, IfSome};
ghost use Rattle.limits.specs.Limits.{greatest_clock};
ghost use Rattle.rank_machine.specs.Machine.{machine_want, IsReceiving};

use crate::fault::NodeFault;
use crate::running::Running;
use crate::turn::Turn;
use checkpoint::Shelf;
use event_logger::{Event, Kind};
use matching::Selector;
use rank_machine::Want;

impl<'p, S: Shelf, D> Running<'p, S, D> {
    ghost use Rattle.rank_node.specs.Replay.{named, taken_named};
    ghost use Rattle.rank_node.specs.Stepping.{IsReplayAt};
    ghost use Rattle.rank_node.specs.Steps.{TakesFound};

    // The receive that stands takes the packet that the event names.
    pub(crate) fn receive_named(
        &mut self,
        selector: &Selector,
        event: Event,
    ) -> Result<Turn, NodeFault>
        requires { machine_want self.old.machine ≡ Want.Receive selector.now }
        ensures { IsReplayAt self.old event (Want.Receive selector.now) result self.new }
    {
        if !self.is_now(event) || event.kind() != Kind::Reception {
            return Err(NodeFault::Replay);
        }
        let Some(_fitting) = self.find_fitting(selector, event)? else {
            return Ok(Turn::Blocked);
        };
        self.take_again(event);
        Ok(Turn::Moved)
    }

    // The packet that the event names is taken, as it was before.
    fn take_again(&mut self, event: Event)
        requires clock { self.old.clock < greatest_clock }
        requires there { is_some (named self.old event) ≡ true }
        requires fits { IfSome (named self.old event) (λ f. IsReceiving (machine_want self.old.machine) f.1) }
        ensures taken { self.new ≡ taken_named self.old self.new.machine (named self.old event) }
        ensures machine { TakesFound (named self.old event) self.old.machine self.new.machine }
    {
        self.inbox.law_numbers_rise();
        let Some(packet) = self.inbox.take_named(event.sender(), event.sender_clock()) else {
            unreachable!()
        };
        self.machine.give(packet);
        self.clock += 1;
    }
}
