//! The indices of one pair's sends.
ghost use Rattle.std.specs.Prelude.{◌≡◌, [], ◌∷◌, ◌++◌, OnOk};
ghost use Rattle.crash_free.specs.Runs.{at_place};

use limits::Heap;
use std::alloc::AllocError;
use std::marker::Model;

/// The indices of what one rank sent to another, oldest first.
#[derive(Drop)]
pub struct Indices {
    items: Vec<usize, Heap>,
}

impl Model for Indices {
    ghost use Rattle.std.specs.Prelude.{ℕ, List};

    ghost Value = { List ℕ };

    ghost view = { λ i. i.items.items };
}

impl Indices {
    pub fn new(alloc: Heap) -> Indices
        ensures { result ≡ [] }
    {
        Indices {
            items: Vec::new(alloc),
        }
    }

    pub fn push(&mut self, index: usize) -> Result<(), AllocError>
        ensures { OnOk result (self.new ≡ self.old ++ index ∷ []) }
    {
        self.items.push(index)?;
        Ok(())
    }

    /// The one at this place, from 1.
    pub fn at(&self, place: u64) -> Option<usize>
        ensures { result ≡ at_place self.now place }
    {
        let index = usize::try_from(place.checked_sub(1)?).ok()?;
        self.items.get(index).copied()
    }
}
