//! Claims for the positions of a program, such as that a name is unread there.
ghost use Rattle.std.specs.Prelude.{◌≡◌, []};
ghost use Rattle.crash_free.specs.LiveVariables.Live.{claimed};

use limits::Heap;
use std::alloc::AllocError;
use std::marker::Model;

/// For each position a claim, such as that a name is unread there, or none.
#[derive(Drop)]
pub struct Claims {
    claims: Vec<bool, Heap>,
}

impl Model for Claims {
    ghost use Rattle.std.specs.Prelude.{List, Bool};

    ghost Value = { List Bool };

    ghost view = { λ r. r.claims.items };
}

impl Claims {
    /// A claim for each of so many positions. An `Err` means out of memory.
    pub fn full(alloc: Heap, positions: usize) -> Result<Claims, AllocError> {
        Ok(Claims {
            claims: vec![in alloc; true; positions]?,
        })
    }

    /// No claim.
    pub fn empty(alloc: Heap) -> Claims
        ensures { result ≡ [] }
    {
        Claims {
            claims: Vec::new(alloc),
        }
    }

    /// What it says of a position; past its end it claims nothing.
    pub fn claims(&self, position: usize) -> bool
        ensures { result ≡ claimed self.now position }
    {
        if position >= self.claims.len() {
            return false;
        }
        self.claims[position]
    }

    /// For how many positions it has an answer.
    pub fn len(&self) -> usize {
        self.claims.len()
    }

    /// Drops the claim for a position.
    pub fn deny(&mut self, position: usize) {
        if position < self.claims.len() {
            self.claims[position] = false;
        }
    }
}
