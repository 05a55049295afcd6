//! A state of a search, by its parts.
ghost use Rattle.std.specs.Prelude.{◌≡◌, ◌∷◌, true, IfOk};

use crash_free::Mix;
use limits::Heap;
use std::alloc::AllocError;
use std::marker::Model;

/// What a state takes beside its places, in numbers of 8 bytes: a vector and its
/// entry in the map.
const NUMBERS_BESIDE: usize = 8;

/// Where all ranks stand: the places of its parts among those that are kept.
#[derive(Drop)]
pub struct State {
    places: Vec<u32, Heap>,
}

impl Model for State {
    ghost use Rattle.std.specs.Prelude.{ℕ, List};

    ghost Value = { List ℕ };

    ghost view = { λ s. s.places.items };
}

impl State {
    /// The part at the first place, and those at the others behind it. An `Err` means out of memory.
    pub fn new(alloc: Heap, first: u32, others: &[u32]) -> Result<State, AllocError>
        ensures { IfOk result (λ state. state ≡ first ∷ others.now) }
    {
        let mut places = Vec::with_capacity(alloc, others.len() + 1)?;
        places.push(first)?;
        places.extend_from_slice(others)?;
        Ok(State { places })
    }

    /// Whether both have the same parts.
    pub fn is_same(&self, other: &State) -> bool
        ensures { result ≡ true → self.now ≡ other.now }
    {
        are_same_places(&self.places, &other.places)
    }

    /// A number that is the same of those that are the same.
    pub fn hash(&self) -> u64 {
        let mut mix = Mix::new();
        for place in self.places.as_slice() {
            mix.add(u64::from(*place));
        }
        mix.finish()
    }

    /// How many numbers, of 8 bytes each, it takes.
    pub fn size(&self) -> usize {
        NUMBERS_BESIDE.saturating_add(self.places.len().div_ceil(2))
    }
}

fn are_same_places(places: &[u32], others: &[u32]) -> bool
    ensures { result ≡ true → places.now ≡ others.now }
{
    places == others
}
