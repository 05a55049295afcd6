//! The places of messages of one kind.
ghost use Rattle.std.specs.Prelude.{◌≡◌, [], ◌∷◌, ◌++◌, true, OnOk, OnErr, position, option_and_then, slice_get};
ghost use Rattle.crash_free.specs.Index.{passes_at, LosesEmpty, IsFrontEmpty};

use crate::mail::walk::{is_empty_at, passes_at};
use limits::Heap;
use matching::{Packet, Selector};
use std::alloc::AllocError;
use std::collections::VecDeque;
use std::marker::Model;

/// The places of messages of one kind, oldest first, and perhaps some at which
/// the slot is empty or holds another.
#[derive(Drop)]
pub struct Queue {
    places: VecDeque<usize, Heap>,
}

impl Model for Queue {
    ghost use Rattle.std.specs.Prelude.{ℕ, List};

    ghost Value = { List ℕ };

    ghost view = { λ q. q.places.items };
}

impl Clone for Queue {
    ghost is_clone = { λ queue clone. clone ≡ queue };

    fn clone(&self) -> Result<Queue, AllocError> {
        let (first, rest) = self.places.as_slices();
        let mut places = first.to_vec(*self.places.allocator())?;
        places.extend_from_slice(rest)?;
        Ok(Queue {
            places: VecDeque::from_vec(places),
        })
    }
}

impl Queue {
    pub fn new(alloc: Heap) -> Queue
        ensures { result ≡ [] }
    {
        Queue {
            places: VecDeque::new(alloc),
        }
    }

    /// The first place at which the selector names the message.
    pub fn first(&self, slots: &[Option<Packet>], selector: &Selector) -> Option<usize>
        ensures { result ≡ option_and_then (slice_get self.now) (position (passes_at selector.now slots.now) self.now) }
    {
        let index = self.search(slots, selector)?;
        self.places.get(index).copied()
    }

    fn search(&self, slots: &[Option<Packet>], selector: &Selector) -> Option<usize>
        ensures { result ≡ position (passes_at selector.now slots.now) self.now }
    {
        self.places
            .iter()
            .position(|place| passes_at(slots, *place, selector))
    }

    /// The place goes last.
    pub fn push(&mut self, place: usize) -> Result<(), AllocError>
        ensures ok { OnOk result (self.new ≡ self.old ++ place ∷ []) }
        ensures err { OnErr result (self.new ≡ self.old) }
    {
        self.places.push_back(place)?;
        Ok(())
    }

    /// Drops the places in front at which the slot is empty.
    #[tactic(auto, using(crate::proofs::Tidying::loses_none, crate::proofs::Tidying::loses_one_more, crate::proofs::Tidying::front_there))]
    pub fn tidy(&mut self, slots: &[Option<Packet>])
        ensures { LosesEmpty slots.now self.old self.new }
    {
        while self.is_front_empty(slots) {
            self.places.pop_front();
        }
    }

    fn is_front_empty(&self, slots: &[Option<Packet>]) -> bool
        ensures { result ≡ true → IsFrontEmpty slots.now self.now }
    {
        let Some(place) = self.places.front() else {
            return false;
        };
        is_empty_at(slots, *place)
    }
}
