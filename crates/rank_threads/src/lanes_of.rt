//! One of a rank's lanes (channels between two ranks' threads) among all of
//! them.
ghost use Rattle.std.specs.Prelude.{◌≡◌, ◌≢◌, ◌+◌, ◌<◌, [], true, is_some, IfOk};
ghost use Rattle.rank_node.specs.Phases.{outgoing_in};
ghost use Rattle.rank_threads.specs.Lanes.{SameTxs, SameRxs};
ghost use Rattle.rank_threads.specs.Lives.{KeepsOutput};
ghost use Rattle.rank_threads.specs.Putting.{KeepsOthers, PutsInto};
ghost use Rattle.rank_threads.specs.Taking.{Takes, those_of};

use crate::node::{Node, PutResult};
use limits::Heap;
use ports::{Rx, Tx};
use rank_node::Frame;
use std::alloc::AllocError;

/// The lanes from all ranks below a number were looked at, from rank 0 on. Only
/// `sees_frame` raises it.
#[derive(Clone, Copy)]
pub struct LanesSeen {
    below: u16,
}

impl LanesSeen {
    /// No lane was looked at yet.
    pub fn none() -> LanesSeen
        ensures { result.below ≡ 0 }
    {
        LanesSeen { below: 0 }
    }

    fn note(&mut self, source: u8)
        ensures next { self.old.below ≡ source → self.new.below ≡ source + 1 }
        ensures others { self.old.below ≢ source → self.new.below ≡ self.old.below }
    {
        if self.below == u16::from(source) {
            self.below += 1;
        }
    }
}

/// Whether a frame is seen in the lane from this rank, which is looked at.
#[tactic(auto, using(crate::proofs::LaneLists::map_set_same, crate::proofs::TakingLemmas::takes_nothing, crate::proofs::TakingLemmas::takes_none))]
pub fn sees_frame(lanes: &mut Vec<Rx, Heap>, source: u8, looked: &mut LanesSeen) -> bool
    ensures takes { Takes source [] lanes.old.items lanes.new.items }
    ensures next { looked.old.below ≡ source → looked.new.below ≡ source + 1 }
    ensures others { looked.old.below ≢ source → looked.new.below ≡ looked.old.below }
    ensures same { SameRxs lanes.old.items lanes.new.items }
{
    looked.note(source);
    let source = usize::from(source);
    source < lanes.len() && lanes[source].sees_frame()
}

/// The next frame of the lane from this rank, where there is one.
#[inline(always)]
#[tactic(auto, using(crate::proofs::LaneLists::map_set_same, crate::proofs::TakingLemmas::takes_looked, crate::proofs::TakingLemmas::takes_none))]
pub fn take_from(lanes: &mut Vec<Rx, Heap>, source: u8) -> Option<Frame>
    ensures takes { Takes source (those_of result) lanes.old.items lanes.new.items }
    ensures same { SameRxs lanes.old.items lanes.new.items }
{
    let source = usize::from(source);
    if source >= lanes.len() {
        return None;
    }
    lanes[source].take()
}

/// Puts what is outgoing to this rank next into the lane to it. Each rank has
/// a lane to each; were one missing, it would be as one that is full.
#[tactic(auto, using(crate::proofs::LaneLists::map_set_same, crate::proofs::PuttingLemmas::puts_into, crate::proofs::PuttingLemmas::no_lane, crate::proofs::PuttingLemmas::none_other))]
pub fn put_to(
    lanes: &mut Vec<Tx, Heap>,
    dest: u8,
    node: &mut Node<'_, '_>,
) -> Result<PutResult, AllocError>
    requires there { dest < node.old.size }
    requires outgoing { is_some (outgoing_in node.old.phase dest) ≡ true }
    ensures puts { IfOk result (λ went. PutsInto went node.old.phase dest lanes.old.items node.new.phase lanes.new.items) }
    ensures others { KeepsOthers dest node.old.phase node.new.phase }
    ensures lanes { SameTxs lanes.old.items lanes.new.items }
    ensures kept { KeepsOutput node.old node.new }
{
    let lane = usize::from(dest);
    if lane >= lanes.len() {
        return Ok(PutResult::Full);
    }
    node.put_one(dest, &mut lanes[lane])
}
