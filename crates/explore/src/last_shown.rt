//! What ranks were shown of messages.
ghost use Rattle.std.specs.Prelude.{◌≡◌, List, [], ◌∷◌, OnOk};
ghost use Rattle.crash_free.specs.Runs as runs;
ghost use Rattle.explore.specs.LastShown.{last_of, KnowsShown, Raises};
ghost use Rattle.explore.specs.Shown.{was_shown};

use crash_free::{Act, Passed};
use limits::Heap;
use std::alloc::AllocError;
use std::collections::BTreeMap;

/// What each rank was shown of each source's messages, so that nobody walks the
/// run for it.
#[derive(Drop)]
pub struct LastShown {
    // for a rank and a source the place of the last message that the rank was shown of it
    last: BTreeMap<(u8, u8), u64, Heap>,
}

impl LastShown {
    /// Nothing was shown yet.
    pub fn new(alloc: Heap) -> LastShown
        ensures { KnowsShown [] result.last }
    {
        LastShown {
            last: BTreeMap::new(alloc),
        }
    }

    /// Notes what the next act shows. An `Err` means out of memory.
    #[tactic(auto, using(crate::proofs::LastShown::shown_more, crate::proofs::LastShown::shown_as_before))]
    pub fn note(&mut self, passed: &Passed) -> Result<(), AllocError>
        ensures { OnOk result ((acts : List runs.Passed) → KnowsShown acts self.old.last → KnowsShown (passed.now ∷ acts) self.new.last) }
    {
        match &passed.act {
            Act::Takes { source, place } | Act::Hits { source, place } => {
                self.raise(passed.rank, *source, *place)
            }
            Act::Sends { .. } | Act::Misses | Act::Prints(_) => Ok(()),
        }
    }

    // The rank was shown the message of the source at this place.
    #[tactic(auto, using(crate::proofs::LastShown::raised_before))]
    fn raise(&mut self, rank: u8, source: u8, place: u64) -> Result<(), AllocError>
        ensures { OnOk result (Raises self.old.last rank source place self.new.last) }
    {
        if self.last_of(rank, source) < place {
            self.last.insert((rank, source), place)?;
        }
        Ok(())
    }

    /// Whether the rank was shown the message of this source with this index,
    /// from 0, or a later one of it.
    pub fn has(&self, rank: u8, source: u8, index: usize) -> bool
        ensures { (acts : List runs.Passed) → KnowsShown acts self.now.last → result ≡ was_shown acts rank source index }
    {
        (index as u64) < self.last_of(rank, source)
    }

    fn last_of(&self, rank: u8, source: u8) -> u64
        ensures { result ≡ last_of self.now.last rank source }
    {
        match self.last.get(&(rank, source)) {
            Some(place) => *place,
            None => 0,
        }
    }
}
