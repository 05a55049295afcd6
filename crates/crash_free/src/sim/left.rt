//! What is left in a run for its ranks to receive.
ghost use Rattle.std.specs.Prelude.{◌≡◌, ◌<◌, ◌++◌, IfOk, OnOk, length};
ghost use Rattle.crash_free.specs.Leftovers.{left_for, left_in, left_of};

use crate::leftover::Leftover;
use crate::sim::Sim;
use limits::Heap;
use std::alloc::AllocError;

impl Sim<'_> {
    /// What was never received in the run, rank by rank, and of each source in
    /// the order in which it was sent. An `Err` means out of memory.
    pub fn left(&self) -> Result<Vec<Leftover, Heap>, AllocError>
        ensures { IfOk result (λ left. left.items ≡ left_in (length self.now.machines) self.now.run) }
    {
        let ranks = self.ranks();
        let mut left = Vec::new(self.alloc);
        let mut rank = 0;
        while rank < ranks {
            self.add_left_for(rank, &mut left)?;
            rank += 1;
        }
        Ok(left)
    }

    // What the rank never received, source by source.
    fn add_left_for(&self, rank: u8, out: &mut Vec<Leftover, Heap>) -> Result<(), AllocError>
        requires { rank < length self.now.machines }
        ensures { OnOk result (out.new.items ≡ out.old.items ++ left_for (length self.now.machines) self.now.run rank) }
    {
        let ranks = self.ranks();
        let mut source = 0;
        while source < ranks {
            self.add_left_of(source, rank, out)?;
            source += 1;
        }
        Ok(())
    }

    // What the source sent to the rank and the rank never received.
    fn add_left_of(
        &self,
        source: u8,
        rank: u8,
        out: &mut Vec<Leftover, Heap>,
    ) -> Result<(), AllocError>
        requires source { source < length self.now.machines }
        requires rank { rank < length self.now.machines }
        ensures { OnOk result (out.new.items ≡ out.old.items ++ left_of self.now.run rank source) }
    {
        self.mail.add_left(source, rank, out)
    }
}
