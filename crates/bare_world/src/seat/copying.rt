//! Copies of a seat.
ghost use Rattle.std.specs.Prelude.{IfOk};
ghost use Rattle.bare_world.specs.Copied.{IsPhaseCopy, IsSeatCopy};

use crate::seat::Seat;
use checkpoint::MemoryShelf;
use limits::Heap;
use rank_node::Phase;
use std::alloc::AllocError;

impl<'p> Seat<'p> {
    /// The same rank in the same phase, on a shelf of its own that holds the
    /// same image. An `Err` means out of memory.
    #[tactic(auto, using(crate::proofs::Alike::Copies::seat_copy))]
    pub fn copy(&self, alloc: Heap) -> Result<Seat<'p>, AllocError>
        ensures { IfOk result (λ copy. IsSeatCopy self.now copy) }
    {
        let Some(rank) = &self.occupant else {
            unreachable!();
        };
        Ok(Seat {
            program: self.program,
            rank: self.rank,
            size: self.size,
            occupant: Some(copied(rank, alloc)?),
        })
    }
}

// The same rank on a shelf of its own, with the image that its shelf holds.
#[tactic(auto, using(crate::proofs::Alike::Copies::phase_copy))]
fn copied<'p>(
    rank: &Phase<'p, MemoryShelf, ()>,
    alloc: Heap,
) -> Result<Phase<'p, MemoryShelf, ()>, AllocError>
    ensures { IfOk result (λ copy. IsPhaseCopy rank.now copy) }
{
    let shelf = rank.shelf().copy(alloc)?;
    match rank.copy(alloc, (), shelf) {
        Ok(copy) => Ok(copy),
        Err(_) => Err(AllocError),
    }
}
