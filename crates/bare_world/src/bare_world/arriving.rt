//! Frames that arrive.
ghost use Rattle.std.specs.Prelude.{◌≡◌, ◌≢◌, Some, IfOk, OnErr};
ghost use Rattle.bare_world.specs.Follows.{arrived_as};

use crate::bare_world::BareWorld;
use crate::reply::Reply;
use limits::Heap;
use rank_node::{Arrived, Frame};
use std::alloc::AllocError;

impl<'p> BareWorld<'p> {
    ghost use Rattle.bare_world.specs.declared.event.WorldEvent.TheVariants.{Arrive};
    ghost use Rattle.bare_world.specs.Follows.{CanNot, Follows};
    ghost use Rattle.bare_world.specs.Stands.{Stands};

    /// The frame of this index on the wire from the source arrives at the
    /// destination.
    #[tactic(auto, using(crate::proofs::Calls::Frames::arrive_laws))]
    pub(crate) fn arrive(&mut self, source: u32, dest: u32, index: u64) -> Result<Reply, AllocError>
        requires { Stands self.old }
        ensures follows { IfOk result (λ reply. Follows self.old (Arrive source dest index) reply self.new) }
        ensures err { OnErr result (self.new ≡ self.old) }
        ensures possible { OnErr result (CanNot self.old (Arrive source dest index) → ⊥) }
    {
        let Some(source) = self.rank_of(source) else {
            return Ok(Reply::Refused);
        };
        let Some(dest) = self.rank_of(dest) else {
            return Ok(Reply::Refused);
        };
        if self.seats.is_down(dest) {
            return Ok(Reply::Refused);
        }
        let Some(frame) = self.wires.wire(source, dest).get(index as usize) else {
            return Ok(Reply::Refused);
        };
        let frame = copy(self.alloc, frame)?;
        let arrived = self.seats.arrive(dest, source, frame)?;
        Ok(arrived_as(arrived))
    }
}

/// The reply to a frame that arrived; a frame of a wire isn't foreign.
fn arrived_as(arrived: Arrived) -> Reply
    requires { arrived ≢ Arrived.Foreign }
    ensures { arrived_as arrived ≡ Some result }
{
    match arrived {
        Arrived::Accepted => Reply::Accepted,
        Arrived::Repeated => Reply::Repeated,
        Arrived::Gap => Reply::Gap,
        Arrived::Noted => Reply::Noted,
        Arrived::Foreign => unreachable!(),
    }
}

/// The same frame, in memory of its own.
fn copy(alloc: Heap, frame: &Frame) -> Result<Frame, AllocError>
    ensures { IfOk result (λ copy. copy ≡ frame.now) }
{
    Ok(match frame {
        Frame::Data(packet) => Frame::Data(packet.copy(alloc)?),
        Frame::Ask { from } => Frame::Ask { from: *from },
        Frame::Kept { upto } => Frame::Kept { upto: *upto },
    })
}
