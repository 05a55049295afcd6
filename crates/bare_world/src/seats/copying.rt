//! Copies of all seats.
ghost use Rattle.std.specs.Prelude.{◌≡◌, IfOk};
ghost use Rattle.std.specs.List.{AllZip};
ghost use Rattle.bare_world.specs.Copied.{IsSeatCopy};
ghost use Rattle.bare_world.specs.Driven.{AreAlike};

use crate::seat::Seat;
use crate::seats::{Seats, end_all};
use limits::Heap;
use std::alloc::AllocError;

impl<'p> Seats<'p> {
    /// The same ranks, on shelves of their own that hold the same images. An
    /// `Err` means out of memory.
    #[tactic(auto, using(crate::proofs::Alike::Copies::are_seats, crate::proofs::Alike::Copies::are_alike, crate::proofs::Alike::Copies::same_images))]
    pub fn copy(&self, alloc: Heap) -> Result<Seats<'p>, AllocError>
        ensures program { IfOk result (λ copy. copy.program ≡ self.now.program) }
        ensures ranks { IfOk result (λ copy. AreAlike self.now.ranks copy.ranks) }
        ensures images { IfOk result (λ copy. copy.images ≡ self.now.images) }
    {
        let seats = copied(alloc, &self.seats)?;
        Ok(Seats {
            program: self.program,
            seats,
        })
    }
}

// A copy of each seat.
fn copied<'p>(alloc: Heap, seats: &[Seat<'p>]) -> Result<Vec<Seat<'p>, Heap>, AllocError>
    ensures { IfOk result (λ copies. AllZip IsSeatCopy seats.now copies.items) }
{
    let mut copies = Vec::new(alloc);
    for seat in seats {
        match seat.copy(alloc) {
            Ok(copy) => {
                if let Err(refused) = copies.push(copy) {
                    refused.value.end();
                    end_all(copies);
                    return Err(AllocError);
                }
            }
            Err(_) => {
                end_all(copies);
                return Err(AllocError);
            }
        }
    }
    Ok(copies)
}
