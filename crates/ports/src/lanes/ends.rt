//! The beginning and the end of a lane.
ghost use Rattle.std.specs.Prelude.{◌≡◌, ◌≤◌, [], IfOk};
ghost use Rattle.ports.specs.Lanes.{IsLane, IsCarried, lane_to, put_of, room_of, taken_of, counted};

use super::{Carried, Rx, Tx};
use limits::Heap;
use rtrb::RingBuffer;
use std::alloc::AllocError;

/// A new lane with room for `capacity` frames.
pub fn lane(alloc: Heap, capacity: usize) -> Result<(Tx, Rx), AllocError>
    requires { 1 ≤ capacity }
    ensures lane { IfOk result (λ ends. IsLane ends.0 ends.1) }
    ensures put { IfOk result (λ ends. put_of ends.0 ≡ []) }
    ensures taken { IfOk result (λ ends. taken_of ends.1 ≡ []) }
    ensures room { IfOk result (λ ends. room_of (lane_to ends.0) ≡ capacity) }
{
    let (producer, consumer) = RingBuffer::new(alloc, capacity)?;
    let tx = Tx {
        ring: producer,
        count: 0,
    };
    let rx = Rx {
        ring: consumer,
        count: 0,
    };
    Ok((tx, rx))
}

/// Ends a lane, and answers how many frames were put and taken. Frames that
/// weren't taken are dropped.
pub fn close(tx: Tx, rx: Rx) -> Carried
    requires { IsLane tx rx }
    ensures put { result.put ≡ counted (put_of tx) }
    ensures taken { result.taken ≡ counted (taken_of rx) }
    ensures prefix { IsCarried (put_of tx) (taken_of rx) }
{
    let Tx { ring, count: put } = tx;
    let mut producer = ring;
    let Rx { ring, count: taken } = rx;
    let mut consumer = ring;
    consumer.slots_beside(&mut producer);
    Carried { put, taken }
}
