//! Steps of its own that a rank that replays makes in succession.
ghost use Rattle.std.specs.Prelude.{◌≡◌, ◌≢◌, ◌<◌, ◌≤◌};
ghost use Rattle.rank_machine.specs.declared.want.Want.TheVariants.{Internal};
ghost use Rattle.rank_machine.specs.Machine.{machine_want, Strides};
ghost use Rattle.rank_node.specs.Steps.{with_machine};

use crate::replaying::Replaying;
use checkpoint::Shelf;

impl<'p, S: Shelf, D> Replaying<'p, S, D> {
    /// Steps of its machine that no other rank sees, until it wants something else, but no more
    /// than `most`. Answers how many it made: as many calls of `step` would each have answered
    /// `Moved`, and no event is used up.
    pub fn stride(&mut self, most: u32) -> u32
        ensures ok { self.new ≡ record { node = with_machine self.old.node self.new.node.machine; left = self.old.left } }
        ensures machine { Strides result self.old.node.machine self.new.node.machine }
        ensures most { result ≤ most }
        ensures stands { result < most → machine_want self.new.node.machine ≢ Internal }
    {
        self.running.stride(most)
    }
}
