//! What all ranks of a run share.
ghost use Rattle.std.specs.Prelude.{◌≡◌};

use crate::early_audit::Feed;
use crate::leaving::Mark;
use crate::running::RunLimits;
use crossbeam_utils::CachePadded;
use limits::Heap;
use ports::Console;
use rank_language::Program;
use std::sync::OnceLock;
use std::sync::atomic::{AtomicBool, Ordering};

/// Among as many ranks or fewer, each looks into its lanes in every turn, and no bell is
/// rung: a bell's word goes up to four times from core to core with a message, which takes
/// longer than looks into a few lanes. A rank alone has a bell, whose word stays.
const FEW_RANKS: usize = 8;

/// What the mark of a rank says. Only `Shared::set_mark` makes one.
#[derive(Clone, Copy)]
pub struct SetMark {
    put: u64,
    taken: u64,
}

/// The mark of a rank was taken back. Only `Shared::take_mark_back` makes one.
#[derive(Clone, Copy)]
pub struct ClearedMark(());

/// The bell of a rank hasn't been rung since it was last looked at. Only
/// `Shared::take_ring` makes one.
#[derive(Clone, Copy)]
pub struct NoRing(());

/// What all ranks share. The program never changes. Of each rank there is a mark and a bell.
pub struct Shared<'a, H> {
    pub alloc: Heap,
    pub program: &'a Program,
    pub hold: &'a H,
    pub limits: RunLimits,
    pub console: &'a Console,
    pub marks: &'a [CachePadded<Mark>],
    /// A bell is rung after each put into a lane to its rank, unless there are few ranks.
    pub bells: &'a [CachePadded<AtomicBool>],
    /// That of each rank, unless the audit begins behind the run.
    pub feeds: &'a [Feed],
    /// Once it is set all ranks leave at their next turn.
    pub stop: &'a OnceLock<()>,
}

// Written by hand, since a derived one would ask that `H` be `Drop`.
impl<H> Drop for Shared<'_, H> {
    fn drop(self) {
        let Shared {
            alloc: _,
            program: _,
            hold: _,
            limits: _,
            console: _,
            marks: _,
            bells: _,
            feeds: _,
            stop: _,
        } = self;
    }
}

impl<H> Shared<'_, H> {
    // Whether bells are rung and heard.
    fn has_bells(&self) -> bool {
        self.bells.len() < 2 || self.bells.len() > FEW_RANKS
    }

    /// A frame was put into a lane to this rank.
    pub fn ring(&self, rank: u8) {
        if !self.has_bells() {
            return;
        }
        if let Some(bell) = self.bells.get(usize::from(rank)) {
            if !bell.load(Ordering::SeqCst) {
                bell.store(true, Ordering::SeqCst);
            }
        }
    }

    /// Takes back the ring of this rank's bell. Where there was none, no frame has
    /// come to the rank since the last call. Without bells a frame may always have come.
    pub fn take_ring(&self, rank: u8) -> Option<NoRing> {
        if !self.has_bells() {
            return None;
        }
        let was_rung = match self.bells.get(usize::from(rank)) {
            Some(bell) => bell.load(Ordering::SeqCst) && bell.swap(false, Ordering::SeqCst),
            None => true,
        };
        if was_rung {
            return None;
        }
        Some(NoRing(()))
    }

    /// The feed of this rank, unless the audit begins behind the run.
    pub fn feed(&self, rank: u8) -> Option<&Feed> {
        self.feeds.get(usize::from(rank))
    }

    /// The mark of this rank is set.
    pub fn set_mark(&self, rank: u8, put: u64, taken: u64) -> SetMark
        ensures put { result.put ≡ put }
        ensures taken { result.taken ≡ taken }
    {
        if let Some(mark) = self.marks.get(usize::from(rank)) {
            mark.set(put, taken);
        }
        SetMark { put, taken }
    }

    /// The mark of this rank is taken back.
    pub fn take_mark_back(&self, rank: u8) -> ClearedMark {
        if let Some(mark) = self.marks.get(usize::from(rank)) {
            mark.take_back();
        }
        ClearedMark(())
    }
}
