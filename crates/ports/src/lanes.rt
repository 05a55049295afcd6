//! A lane, a channel of one producer and one consumer: one end puts frames, the
//! other takes them, in their order.
//!
//! Each end can move to a thread of its own, and neither waits for the other.
mod ends;

pub use ends::{close, lane};
use limits::Heap;
use rank_node::Frame;
use rtrb::{Consumer, Producer, PushError};
use std::marker::Model;

/// The end of a lane that puts.
#[derive(Drop)]
pub struct Tx {
    ring: Producer<Frame, Heap>,
    // how many frames were put
    count: u64,
}

/// The end of a lane that takes.
#[derive(Drop)]
pub struct Rx {
    ring: Consumer<Frame, Heap>,
    // how many frames were taken
    count: u64,
}

/// How many frames a lane carried. The numbers stop at the greatest `u64`.
#[derive(Clone, Copy, Debug, PartialEq, Eq)]
pub struct Carried {
    pub put: u64,
    pub taken: u64,
}

impl Model for Tx {
    ghost use Rattle.std.specs.Prelude.{◌≡◌};
    ghost use Rattle.rtrb.specs.Ring.{sent};
    ghost use Rattle.ports.specs.Lanes.{TxValue, lane_of, counted};

    ghost Value = { TxValue };

    ghost view = { λ t. record { lane = lane_of t.ring.end; put = sent t.ring } };

    ghost invariant = { λ t. t.count ≡ counted (sent t.ring) };
}

impl Model for Rx {
    ghost use Rattle.std.specs.Prelude.{◌≡◌};
    ghost use Rattle.rtrb.specs.Ring.{received, known_items};
    ghost use Rattle.ports.specs.Lanes.{RxValue, lane_of, counted};

    ghost Value = { RxValue };

    ghost view = { λ r. record { lane = lane_of r.ring.end; taken = received r.ring; seen = known_items r.ring } };

    ghost invariant = { λ r. r.count ≡ counted (received r.ring) };
}

impl Tx {
    ghost use Rattle.std.specs.Prelude.{◌≡◌, ◌<◌, [], ◌∷◌, ◌++◌, length, IsOk, OnOk, OnErr, IfErr};
    ghost use Rattle.ports.specs.Lanes.{lane_to, put_of, room_of};

    /// Puts a frame behind all others, or hands it back; but as many frames as the lane
    /// holds are taken in, whether or not any was taken.
    pub fn put(&mut self, frame: Frame) -> Result<(), Frame>
        ensures lane { lane_to self.new ≡ lane_to self.old }
        ensures put { OnOk result (put_of self.new ≡ put_of self.old ++ frame ∷ []) }
        ensures back { IfErr result (λ refused. refused ≡ frame) }
        ensures stays { OnErr result (put_of self.new ≡ put_of self.old) }
        ensures room { length (put_of self.old) < room_of (lane_to self.old) → IsOk result }
    {
        match self.ring.push(frame) {
            Ok(()) => {
                self.count = self.count.saturating_add(1);
                Ok(())
            }
            Err(PushError::Full(frame)) => Err(frame),
        }
    }
}

impl Rx {
    ghost use Rattle.std.specs.Prelude.{◌≡◌, ◌<◌, ◌↔◌, [], ◌∷◌, ◌++◌, length, IfSome, IsSome, IsTrue, None};
    ghost use Rattle.ports.specs.Lanes.{lane_from, seen_of, taken_of};

    /// Whether this end sees a frame. The next take then takes one.
    pub fn sees_frame(&mut self) -> bool
        ensures lane { lane_from self.new ≡ lane_from self.old }
        ensures taken { taken_of self.new ≡ taken_of self.old }
        ensures seen { IsTrue result ↔ (0 < length (seen_of self.new)) }
    {
        !self.ring.is_empty()
    }

    /// Takes the oldest frame, if this end sees one.
    pub fn take(&mut self) -> Option<Frame>
        ensures lane { lane_from self.new ≡ lane_from self.old }
        ensures taken { IfSome result (λ frame. taken_of self.new ≡ taken_of self.old ++ frame ∷ []) }
        ensures none { result ≡ None → taken_of self.new ≡ taken_of self.old }
        ensures seen { 0 < length (seen_of self.old) → IsSome result }
    {
        if self.ring.is_empty() {
            return None;
        }
        self.count = self.count.saturating_add(1);
        Some(self.ring.pop_known())
    }
}
