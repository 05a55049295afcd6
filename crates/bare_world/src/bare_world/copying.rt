//! Copies of a bare world.
ghost use Rattle.std.specs.Prelude.{IfOk};
ghost use Rattle.bare_world.specs.Driven.{Alike};

use crate::bare_world::BareWorld;
use std::alloc::AllocError;

impl<'p> BareWorld<'p> {
    /// The same world except for the shelves themselves, whose images are the
    /// same. An `Err` means out of memory.
    #[tactic(auto, using(crate::proofs::Alike::ListLeadsToo::alike_length))]
    pub fn copy(&self) -> Result<BareWorld<'p>, AllocError>
        ensures { IfOk result (λ copy. Alike self.now copy) }
    {
        let logger = self.logger.copy(self.alloc)?;
        let wires = self.wires.copy(self.alloc)?;
        let console = self.console.copy(self.alloc)?;
        let run = self.run.copy(self.alloc)?;
        // last, since seats must be spent
        let seats = self.seats.copy(self.alloc)?;
        Ok(BareWorld {
            alloc: self.alloc,
            ranks: self.ranks,
            seats,
            logger,
            wires,
            console,
            run,
        })
    }
}
