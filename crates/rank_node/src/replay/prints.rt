//! The prints of a rank that replays.
ghost use Rattle.std.specs.Prelude.{◌≡◌, OnOk, OnErr};
ghost use Rattle.rank_machine.specs.Machine.{machine_want};

use crate::fault::NodeFault;
use crate::running::Running;
use crate::screen::Screen;
use crate::turn::Turn;
use checkpoint::Shelf;
use event_logger::Event;
use rank_machine::Want;

impl<'p, S: Shelf, D> Running<'p, S, D> {
    ghost use Rattle.rank_node.specs.Replay.{ShowsReplayAt};
    ghost use Rattle.rank_node.specs.Stepping.{IsReplayAt};

    // The print that stands, made again: what shows lines drops one that it has shown.
    pub(crate) fn print_again<C: Screen>(
        &mut self,
        screen: &mut C,
        value: i64,
        event: Event,
    ) -> Result<Turn, NodeFault>
        requires { machine_want self.old.machine ≡ Want.Print value }
        ensures step { IsReplayAt self.old event (Want.Print value) result self.new }
        ensures shown { OnOk result (ShowsReplayAt C.shows self.old (Want.Print value) screen.old screen.new) }
        ensures err_screen { OnErr result (screen.new ≡ screen.old) }
    {
        if !self.is_before(event) {
            return Err(NodeFault::Replay);
        }
        screen.show(self.stable.rank(), self.clock + 1, value)?;
        self.machine.did_print();
        self.clock += 1;
        Ok(Turn::Moved)
    }
}
