//! A lane between two threads: what no clause of it says, for a `put` that hands back whatever comes
//! behind as many frames as the lane holds, and a `take` that never finds a frame, meet every clause.
ghost use Rattle.std.specs.Prelude.{◌≡◌, ◌≤◌};
ghost use Rattle.ports.specs.Lanes.{lane_to, lane_from};

use crate::same::same;
use ports::{Carried, Rx, Tx, close, lane};
use rank_node::{AskFrom, Frame};
use std::process::Abort;
use std::sync::Wait;
use std::test::*;
use std::thread;

/// How many frames go from thread to thread.
const FRAMES: u32 = 100_000;

/// The ask of this number.
fn ask(rt: &impl Abort, number: u32) -> Frame {
    assert!(rt; 1 <= number && number <= FRAMES);
    Frame::Ask {
        from: AskFrom::new(number),
    }
}

/// The number of an ask; 0 for any other frame.
fn number_of(frame: Frame) -> u64 {
    match frame {
        Frame::Ask { from } => u64::from(from.number()),
        Frame::Data(_) => 0,
        Frame::Kept { upto: _ } => 0,
    }
}

/// Puts a frame, again and again while it comes back.
fn puts(rt: &impl Wait, tx: &mut Tx, frame: Frame)
    ensures { lane_to tx.new ≡ lane_to tx.old }
{
    let mut frame = frame;
    for _ in rt.forever() {
        match tx.put(frame) {
            Ok(()) => return,
            Err(back) => frame = back,
        }
        thread::yield_now();
    }
    unreachable!()
}

/// Takes a frame, once there is one.
fn takes(rt: &impl Wait, rx: &mut Rx) -> Frame
    ensures { lane_from rx.new ≡ lane_from rx.old }
{
    for _ in rt.forever() {
        if let Some(frame) = rx.take() {
            return frame;
        }
        thread::yield_now();
    }
    unreachable!()
}

/// Puts the asks of all numbers, the least first.
fn puts_all(rt: &(impl Wait + Abort), tx: Tx) -> Tx
    ensures { lane_to result ≡ lane_to tx }
{
    let mut tx = tx;
    for number in 1..=FRAMES {
        puts(rt, &mut tx, ask(rt, number));
    }
    tx
}

/// Takes as many frames, each of which is the ask of the next number.
fn takes_all(rt: &(impl Wait + Abort), rx: Rx) -> Rx
    ensures { lane_from result ≡ lane_from rx }
{
    let mut rx = rx;
    for number in 1..=FRAMES {
        let found = number_of(takes(rt, &mut rx));
        same(rt, "in order", found, u64::from(number));
    }
    rx
}

#[test]
fn frames_go_from_thread_to_thread_in_order(rt: HostRuntime) -> Result<(), Fail> {
    for room in [1usize, 64] {
        assert!(rt; 1 <= room);
        let (tx, rx) = lane(rt.alloc(), room)?;
        let (tx, rx) = thread::join(
            &rt,
            move || -> Tx
                ensures { lane_to result ≡ lane_to tx }
            { puts_all(&rt, tx) },
            move || -> Rx
                ensures { lane_from result ≡ lane_from rx }
            { takes_all(&rt, rx) },
        );
        let Carried { put, taken } = close(tx, rx);
        same(&rt, "frames put", put, 100_000);
        same(&rt, "frames taken", taken, 100_000);
    }
    Ok(())
}
