//! The states that a search met, each by its parts.
ghost use Rattle.std.specs.Prelude.{◌≡◌, ◌⊎◌, ◌∷◌, ◌++◌, true, [], Ok, OnOk, OnErr};
ghost use Rattle.explore.specs.Outcomes.{IsAmong};

use crate::parts::StandingParts;
use crate::state::State;
use limits::Heap;
use std::alloc::AllocError;
use std::collections::HashMap;
use std::hash::{BuildHasherDefault, FoldHasher};
use std::marker::Model;

/// States, of which no more are kept than so many and than there is room for.
#[derive(Drop)]
pub struct States {
    // oldest first
    kept: Vec<State, Heap>,
    // where the last one of each hash is among them, so that no search walks them
    by_hash: HashMap<u64, usize, BuildHasherDefault<FoldHasher>, Heap>,
    most: u32,
    kept_all: bool,
}

impl Model for States {
    ghost use Rattle.std.specs.Prelude.{ℕ, List};

    ghost Value = { List (List ℕ) };

    ghost view = { λ s. s.kept.items };
}

impl States {
    /// None yet, and at most so many.
    pub fn new(alloc: Heap, most: u32) -> States
        ensures { result ≡ [] }
    {
        States {
            kept: Vec::new(alloc),
            by_hash: HashMap::new(alloc),
            most,
            kept_all: true,
        }
    }

    /// Whether the state is among them; if not, it is kept, if there is room for
    /// it beside the parts. An `Err` means out of memory.
    pub fn meets(&mut self, state: State, parts: &mut StandingParts) -> Result<bool, AllocError>
        ensures yes { result ≡ Ok true → IsAmong self.old state }
        ensures same { result ≡ Ok true → self.new ≡ self.old }
        ensures adds { (self.new ≡ self.old) ⊎ (self.new ≡ self.old ++ state ∷ []) }
        ensures parts { parts.new ≡ parts.old }
    {
        let hash = state.hash();
        if self.has(hash, &state) {
            return Ok(true);
        }
        if self.len() < self.most && parts.take_room(state.size()) {
            self.keep(hash, state)?;
        } else {
            self.leave_out();
            parts.close();
        }
        Ok(false)
    }

    /// Whether the state is among them. A yes is exact; a no may be wrong.
    pub fn contains(&self, state: &State) -> bool
        ensures { result ≡ true → IsAmong self.now state.now }
    {
        self.has(state.hash(), state)
    }

    // A yes is exact; a no may be wrong, if two have one hash.
    fn has(&self, hash: u64, state: &State) -> bool
        ensures { result ≡ true → IsAmong self.now state.now }
    {
        let Some(place) = self.by_hash.get(&hash) else {
            return false;
        };
        has_at(&self.kept, *place, state)
    }

    fn keep(&mut self, hash: u64, state: State) -> Result<(), AllocError>
        ensures ok { OnOk result (self.new ≡ self.old ++ state ∷ []) }
        ensures err { OnErr result (self.new ≡ self.old) }
    {
        self.by_hash.insert(hash, self.kept.len())?;
        self.kept.push(state)?;
        Ok(())
    }

    /// A state for which there is no room is left out.
    pub fn leave_out(&mut self)
        ensures { self.new ≡ self.old }
    {
        self.kept_all = false;
    }

    /// How many are kept.
    pub fn len(&self) -> u32 {
        u32::try_from(self.kept.len()).unwrap_or(u32::MAX)
    }

    /// Whether none was left out for which there was no room.
    pub fn kept_all(&self) -> bool {
        self.kept_all
    }
}

// Whether this stands at the place.
fn has_at(kept: &[State], place: usize, state: &State) -> bool
    ensures { result ≡ true → IsAmong kept.now state.now }
{
    if place >= kept.len() {
        return false;
    }
    kept[place].is_same(state)
}
