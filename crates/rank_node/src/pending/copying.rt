//! Copies of what waits.
ghost use Rattle.std.specs.Prelude.{◌≡◌, IfOk};

use crate::pending::Pending;
use limits::Heap;
use std::alloc::AllocError;
use std::collections::VecDeque;

impl Pending {
    /// The same waits, in memory of its own. An `Err` means out of memory.
    pub fn copy(&self, alloc: Heap) -> Result<Pending, AllocError>
        ensures { IfOk result (λ copy. copy ≡ self.now) }
    {
        let (first, rest) = self.waiting.as_slices();
        let mut waiting = first.to_vec(alloc)?;
        waiting.extend_from_slice(rest)?;
        Ok(Pending {
            waiting: VecDeque::from_vec(waiting),
            stored: self.stored,
            effect_count: self.effect_count,
        })
    }
}
