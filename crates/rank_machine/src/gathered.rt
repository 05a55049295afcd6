//! The values that the root of a reduce has gathered.
ghost use Rattle.std.specs.Prelude.{◌≡◌, ◌<◌, ◌≤◌, ◌∷◌, ◌++◌, [], IfOk, length};

use limits::Heap;
use std::alloc::AllocError;
use std::marker::Model;

/// Values gathered one after the other, with room for a number of them, so that gathering takes no
/// memory.
#[derive(Drop)]
pub struct Gathered {
    slots: Vec<i64, Heap>,
    // How many of the slots hold a value.
    count: usize,
}

impl Model for Gathered {
    ghost use Rattle.std.specs.Prelude.{◌≤◌, length, take};
    ghost use Rattle.rank_machine.specs.Gathering.{GatheredValue};

    ghost Value = { GatheredValue };

    ghost view = { λ g. record { room = length g.slots.items; values = take g.count g.slots.items } };

    ghost invariant = { λ g. g.count ≤ length g.slots.items };
}

impl Gathered {
    /// No values, with room for so many.
    pub fn new(alloc: Heap, room: usize) -> Result<Gathered, AllocError>
        ensures { IfOk result (λ gathered. gathered ≡ record { room = room; values = [] }) }
    {
        Ok(Gathered {
            slots: vec![in alloc; 0i64; room]?,
            count: 0,
        })
    }

    /// The same values with the same room, in memory of their own.
    pub fn copy(&self, alloc: Heap) -> Result<Gathered, AllocError>
        ensures { IfOk result (λ copy. copy ≡ self.now) }
    {
        Ok(Gathered {
            slots: self.slots.as_slice().to_vec(alloc)?,
            count: self.count,
        })
    }

    /// A value goes last.
    pub fn push(&mut self, value: i64)
        requires { length self.old.values < self.old.room }
        ensures { self.new ≡ record { room = self.old.room; values = self.old.values ++ value ∷ [] } }
    {
        self.slots[self.count] = value;
        self.count += 1;
    }

    /// No value is left, and the room stays.
    pub fn clear(&mut self)
        ensures { self.new ≡ record { room = self.old.room; values = [] } }
    {
        self.count = 0;
    }

    /// The values in order.
    pub fn as_slice(&self) -> &[i64]
        ensures values { result.now ≡ self.now.values }
        ensures room { length self.now.values ≤ self.now.room }
    {
        &self.slots[..self.count]
    }
}
