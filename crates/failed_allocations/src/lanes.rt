//! Frames that go through a lane.
ghost use Rattle.std.specs.Prelude.{◌≡◌, IfOk};
ghost use Rattle.ports.specs.Lanes.{lane_from, lane_to};

use crate::out::Out;
use limits::Heap;
use ports::{Rx, Tx, close, lane};
use rank_node::{AskFrom, Frame};
use std::alloc::AllocError;

/// Puts of the ask of a number, and takes.
#[derive(Clone, Copy)]
enum Call {
    Put(u32),
    Take,
}

/// The lane has room for two.
static CALLS: [(&str, Call); 9] = [
    ("Take: ", Call::Take),
    ("Put(1): ", Call::Put(1)),
    ("Put(2): ", Call::Put(2)),
    ("Put(3): ", Call::Put(3)),
    ("Take: ", Call::Take),
    ("Put(3): ", Call::Put(3)),
    ("Take: ", Call::Take),
    ("Take: ", Call::Take),
    ("Take: ", Call::Take),
];

/// The number of an ask; any other frame has none.
fn number_of(frame: Frame) -> Option<u64> {
    match frame {
        Frame::Ask { from } => Some(u64::from(from.number())),
        Frame::Data(_) => None,
        Frame::Kept { upto: _ } => None,
    }
}

/// The number of the frame that came back or was taken, if one was.
fn make(tx: &mut Tx, rx: &mut Rx, call: Call) -> Option<u64>
    ensures to { lane_to tx.new ≡ lane_to tx.old }
    ensures from { lane_from rx.new ≡ lane_from rx.old }
{
    let frame = match call {
        Call::Put(number) => {
            let frame = Frame::Ask {
                from: AskFrom::new(number.max(1).min(9)),
            };
            match tx.put(frame) {
                Ok(()) => None,
                Err(back) => Some(back),
            }
        }
        Call::Take => rx.take(),
    };
    number_of(frame?)
}

fn make_all(out: &mut Out, tx: &mut Tx, rx: &mut Rx)
    ensures to { lane_to tx.new ≡ lane_to tx.old }
    ensures from { lane_from rx.new ≡ lane_from rx.old }
{
    for one in &CALLS {
        let (name, call) = *one;
        let number = make(tx, rx, call);
        out.text(name);
        out.maybe(number);
        out.text("\n");
    }
}

/// The two ends of one lane, once more where there was no memory.
fn lane_of(alloc: Heap) -> Result<(Tx, Rx), AllocError>
    ensures { IfOk result (λ ends. lane_to ends.0 ≡ lane_from ends.1) }
{
    match lane(alloc, 2) {
        Ok(ends) => Ok(ends),
        Err(_) => lane(alloc, 2),
    }
}

/// Puts and takes on one thread.
pub fn play(out: &mut Out) {
    let Ok((mut tx, mut rx)) = lane_of(out.alloc) else {
        out.lack();
        return;
    };
    out.follow("a lane of two frames, what came back and what was taken");
    make_all(out, &mut tx, &mut rx);
    let carried = close(tx, rx);
    out.form(
        "Carried { put: #, taken: # }\n",
        &[carried.put, carried.taken],
    );
}
