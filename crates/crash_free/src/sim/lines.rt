//! What ranks printed.
ghost use Rattle.std.specs.Prelude.{◌≡◌, ◌<◌, length, map};
ghost use Rattle.crash_free.specs.Runs.{printed};

use crate::sim::Sim;

impl Sim<'_> {
    /// The values that the rank printed, in order.
    #[tactic(auto, using(crate::proofs::Printing::lines_there))]
    pub fn lines(&self, rank: u8) -> &[i64]
        requires { rank < length self.now.machines }
        ensures { result.now ≡ map (λ line. line.1) (printed self.now.run rank) }
    {
        self.lines.of(rank)
    }
}
