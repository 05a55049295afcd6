//! Frames that are put on their wires.
ghost use Rattle.std.specs.Prelude.{◌≡◌, IfOk, OnErr};
ghost use Rattle.bare_world.specs.Follows.{put_as};

use crate::bare_world::BareWorld;
use crate::reply::Reply;
use rank_node::Frame;
use std::alloc::AllocError;

impl<'p> BareWorld<'p> {
    ghost use Rattle.bare_world.specs.declared.event.WorldEvent.TheVariants.{Put};
    ghost use Rattle.bare_world.specs.Follows.{CanNot, Follows};
    ghost use Rattle.bare_world.specs.Stands.{Stands};

    /// What goes next from the source is put on the wire to the destination.
    #[tactic(auto, using(crate::proofs::Calls::Frames::put_laws))]
    pub(crate) fn put(&mut self, source: u32, dest: u32) -> Result<Reply, AllocError>
        requires { Stands self.old }
        ensures follows { IfOk result (λ reply. Follows self.old (Put source dest) reply self.new) }
        ensures err { OnErr result (self.new ≡ self.old) }
        ensures possible { OnErr result (CanNot self.old (Put source dest) → ⊥) }
    {
        let Some(source) = self.rank_of(source) else {
            return Ok(Reply::Refused);
        };
        let Some(dest) = self.rank_of(dest) else {
            return Ok(Reply::Refused);
        };
        if self.seats.is_down(source) {
            return Ok(Reply::Refused);
        }
        let Some(frame) = self.seats.outgoing(source, dest)? else {
            return Ok(Reply::Refused);
        };
        let reply = put_as(self.wires.wire(source, dest).len(), &frame);
        self.wires.put(source, dest, frame)?;
        self.seats.passed(source, dest);
        Ok(reply)
    }
}

/// The reply to a frame that is put with this index.
fn put_as(index: usize, frame: &Frame) -> Reply
    ensures { result ≡ put_as index frame.now }
{
    let index = index as u64;
    match frame {
        Frame::Data(packet) => Reply::PutData {
            index,
            number: packet.number,
        },
        Frame::Ask { from } => Reply::PutAsk {
            index,
            from: from.number(),
        },
        Frame::Kept { upto } => Reply::PutKept {
            index,
            upto: upto.number(),
        },
    }
}
