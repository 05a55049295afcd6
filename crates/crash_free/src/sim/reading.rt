//! What a simulation shows of itself: its acts, and where each rank stands.
ghost use Rattle.std.specs.Prelude.{◌≡◌, ◌<◌, Some, length, reverse, slice_get};

use crate::act::Passed;
use crate::sim::Sim;
use rank_machine::Machine;

impl<'p> Sim<'p> {
    /// The acts of the run, the oldest first, so that each message is sent before it is taken.
    pub fn acts(&self) -> &[Passed]
        ensures { result.now ≡ reverse self.now.run }
    {
        self.passed.as_slice()
    }

    /// The machine of a rank, which stands where the rank does.
    pub fn machine(&self, rank: u8) -> &Machine<'p>
        requires { rank < length self.now.machines }
        ensures { slice_get self.now.machines rank ≡ Some result.now }
    {
        &self.machines[usize::from(rank)]
    }
}
