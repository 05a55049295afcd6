//! Parts of states, each kept once.
ghost use Rattle.std.specs.Prelude.{◌≡◌, ◌∷◌, ◌++◌, [], true, Some, IfOk, IfSome, slice_get};
ghost use Rattle.explore.specs.Parts.{KeepsParts};

use crash_free::Standing;
use limits::Heap;
use std::alloc::AllocError;
use std::collections::HashMap;
use std::hash::{BuildHasherDefault, FoldHasher};
use std::marker::Model;

/// What a part takes beside its own numbers, in numbers of 8 bytes: two vectors
/// and its entry in the map.
const NUMBERS_BESIDE: usize = 12;

/// Parts of where all ranks stand, each kept once. In the states of a search few
/// parts are distinct, as an act leaves what most ranks have as it was.
#[derive(Drop)]
pub struct StandingParts {
    alloc: Heap,
    // oldest first
    kept: Vec<Standing, Heap>,
    // where the last one of each hash is among them
    by_hash: HashMap<u64, u32, BuildHasherDefault<FoldHasher>, Heap>,
    // how many numbers, of 8 bytes each, may still be kept
    room: usize,
    // whether new parts are kept
    keeps_new: bool,
}

impl Model for StandingParts {
    ghost use Rattle.std.specs.Prelude.{List};
    ghost use Rattle.crash_free.specs.Standing as standing;

    ghost Value = { List standing.Rows };

    ghost view = { λ p. p.kept.items };
}

impl StandingParts {
    /// None yet, and room for so many numbers.
    pub fn new(alloc: Heap, room: usize) -> StandingParts
        ensures { result ≡ [] }
    {
        StandingParts {
            alloc,
            kept: Vec::new(alloc),
            by_hash: HashMap::new(alloc),
            room,
            keeps_new: true,
        }
    }

    /// From now on new parts are kept, or are not.
    pub fn keep_new(&mut self, keeps_new: bool)
        ensures { self.new ≡ self.old }
    {
        self.keeps_new = keeps_new;
    }

    /// The place of this part, from 0, which is kept from now on if it wasn't
    /// before. `None` if there is no room for it, or new parts aren't kept. An `Err` means out of
    /// memory.
    pub fn place_of(&mut self, part: &Standing) -> Result<Option<u32>, AllocError>
        ensures keeps { KeepsParts self.old self.new }
        ensures there { IfOk result (λ found. IfSome found (λ place. slice_get self.new place ≡ Some part.now)) }
    {
        let hash = part.hash();
        match self.find(hash, part) {
            Some(place) => Ok(Some(place)),
            None => self.keep(hash, part),
        }
    }

    /// The part at this place, if there is one.
    pub fn at(&self, place: u32) -> Option<&Standing>
        ensures { IfSome result (λ part. slice_get self.now place ≡ Some part.now) }
    {
        self.kept.get(place as usize)
    }

    /// Whether this part stands at the place.
    pub fn has_at(&self, place: u32, part: &Standing) -> bool
        ensures { result ≡ true → slice_get self.now place ≡ Some part.now }
    {
        is_at(&self.kept, place as usize, part)
    }

    // A place is exact. A part may have none here though it is kept, if another
    // one has its hash, and is then kept twice.
    fn find(&self, hash: u64, part: &Standing) -> Option<u32>
        ensures { IfSome result (λ place. slice_get self.now place ≡ Some part.now) }
    {
        let place = *self.by_hash.get(&hash)?;
        if is_at(&self.kept, place as usize, part) {
            Some(place)
        } else {
            None
        }
    }

    fn keep(&mut self, hash: u64, part: &Standing) -> Result<Option<u32>, AllocError>
        ensures keeps { KeepsParts self.old self.new }
        ensures there { IfOk result (λ found. IfSome found (λ place. slice_get self.new place ≡ Some part.now)) }
    {
        if !self.keeps_new {
            return Ok(None);
        }
        let Ok(place) = u32::try_from(self.kept.len()) else {
            return Ok(None);
        };
        if !self.take_room(part.size().saturating_add(NUMBERS_BESIDE)) {
            return Ok(None);
        }
        self.by_hash.insert(hash, place)?;
        self.kept.push(part.copy(self.alloc)?)?;
        Ok(Some(place))
    }

    /// Takes room for so many numbers, if there is so much.
    pub fn take_room(&mut self, numbers: usize) -> bool
        ensures { self.new ≡ self.old }
    {
        let Some(left) = self.room.checked_sub(numbers) else {
            return false;
        };
        self.room = left;
        true
    }

    /// Keeps no part more: once no state is kept more, new parts are of no use.
    pub fn close(&mut self)
        ensures { self.new ≡ self.old }
    {
        self.room = 0;
    }
}

// Whether this part stands at the place.
fn is_at(kept: &[Standing], place: usize, part: &Standing) -> bool
    ensures { result ≡ true → slice_get kept.now place ≡ Some part.now }
{
    match kept.get(place) {
        Some(other) => other.is_same(part),
        None => false,
    }
}
