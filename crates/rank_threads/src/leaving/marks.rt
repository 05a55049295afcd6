//! When a rank may leave: every rank is at rest, and as many frames were taken
//! as were put (termination detection by counting: Mattern 1987).
//!
//! A rank at rest has nothing to put and waits or has ended, so that only a
//! frame can wake it. Its mark says so, with how many frames it has put and
//! taken in all its lives. It takes the mark back before it does anything with
//! a frame that comes.
mod agreeing;

use crate::turn::EmptyLanes;
use agreeing::agreed;
pub use agreeing::{AllAtRest, Look};
use crossbeam_utils::CachePadded;
use limits::MOST_RANKS;
use std::sync::atomic::{AtomicU64, Ordering};

/// The mark of one rank.
#[derive(Drop)]
pub struct Mark {
    // 0 where the rank is at work, else one more than the frames it has taken; so no value comes twice
    taken: AtomicU64,
    // how many frames it had put when it set its mark
    put: AtomicU64,
}

impl Mark {
    pub fn new() -> Mark {
        Mark {
            taken: AtomicU64::new(0),
            put: AtomicU64::new(0),
        }
    }

    /// The rank has come to rest. What it has put is there before the mark is.
    pub fn set(&self, put: u64, taken: u64) {
        self.put.store(put, Ordering::SeqCst);
        self.taken.store(taken.saturating_add(1), Ordering::SeqCst);
    }

    fn is_set(&self) -> bool {
        self.taken.load(Ordering::SeqCst) > 0
    }

    /// The rank is at work.
    pub fn take_back(&self) {
        self.taken.store(0, Ordering::SeqCst);
    }
}

/// The marks of all ranks, where all are set. Ranks begin in their order, so the mark that is set
/// last is mostly that of the last rank: while it isn't, none but that one is looked at.
pub fn first_look(marks: &[CachePadded<Mark>]) -> Option<Look> {
    if let Some(last) = marks.last() {
        if !last.is_set() {
            return None;
        }
    }
    let mut seen = [0u64; MOST_RANKS];
    let mut taken = 0u64;
    for (mark, slot) in marks.iter().zip(seen.iter_mut()) {
        let one = mark.taken.load(Ordering::SeqCst);
        if one == 0 {
            return None;
        }
        *slot = one;
        taken = taken.wrapping_add(one - 1);
    }
    Some(Look { marks: seen, taken })
}

/// Every rank is at rest, if all marks are still those of the first look and as
/// many frames were taken as were put. Between both looks no lane brought
/// anything.
pub fn second_look(marks: &[CachePadded<Mark>], first: &Look, _: EmptyLanes) -> Option<AllAtRest> {
    let mut seen = [0u64; MOST_RANKS];
    let mut put = 0u64;
    for (mark, slot) in marks.iter().zip(seen.iter_mut()) {
        put = put.wrapping_add(mark.put.load(Ordering::SeqCst));
        *slot = mark.taken.load(Ordering::SeqCst);
    }
    agreed(first, &seen, put)
}
