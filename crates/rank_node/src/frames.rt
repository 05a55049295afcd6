//! The frames of a rank: those that arrive, and those that go out. They follow
//! MPICH-V2's rules of retransmission, duplicate suppression and garbage
//! collection.
ghost use Rattle.std.specs.Prelude.{◌≡◌, ◌<◌, None, Ok, is_some, IsSome, IfOk, IfErr, OnOk, OnErr};
ghost use Rattle.rank_node.specs.Frames.{arrived_as};

use crate::due::Due;
use crate::fault::NodeFault;
use crate::frame::Frame;
use crate::running::Running;
use crate::turn::Arrived;
use checkpoint::Shelf;
use matching::Accept;

impl<'p, S: Shelf, D> Running<'p, S, D> {
    ghost use Rattle.rank_node.specs.Frames.{arrival_of, after_frame, outgoing_of, after_passed, IsPacket};

    /// Takes in a frame that came from this rank. A packet is accepted only by
    /// its number, which suppresses duplicates; a retransmission request
    /// (`Ask`) and a garbage-collection notice (`Kept`, which prunes) go to the
    /// payload log. An `Err` means out of memory, and gives the frame back.
    #[inline(always)]
    pub fn arrive(&mut self, from: u8, frame: Frame) -> Result<Arrived, (Frame, NodeFault)>
        requires { from < self.old.stable.size }
        ensures answer { IfOk result (λ answer. answer ≡ arrival_of self.old from frame) }
        ensures ok { OnOk result (self.new ≡ after_frame self.old from frame) }

        ensures accepted_only { OnErr result (arrival_of self.old from frame ≡ Arrived.Accepted) }
        ensures back { IfErr result (λ refused. refused ≡ (frame, NodeFault.Memory)) }
        ensures err { OnErr result (self.new ≡ self.old) }
        ensures stable { self.new.stable ≡ self.old.stable }
    {
        match frame {
            Frame::Data(packet) => {
                if packet.source != from {
                    return Ok(Arrived::Foreign);
                }
                match self.inbox.accept(packet) {
                    Ok(accept) => Ok(arrived_as(accept)),
                    Err(packet) => Err((Frame::Data(packet), NodeFault::Memory)),
                }
            }
            Frame::Ask { from: number } => {
                self.log.ask(usize::from(from), number.number());
                Ok(Arrived::Noted)
            }
            Frame::Kept { upto } => {
                self.log.prune(usize::from(from), upto.number());
                Ok(Arrived::Noted)
            }
        }
    }

    /// Whether anything goes to this rank.
    pub fn has_outgoing(&self, dest: u8) -> bool
        requires { dest < self.now.stable.size }
        ensures { result ≡ is_some (outgoing_of self.now dest) }
    {
        let due = self.dues[usize::from(dest)];
        due.ask.is_some() || due.kept.is_some() || self.log.next(usize::from(dest)).is_some()
    }

    /// What goes to this rank next: a due `Ask`, else a due `Kept`, else the
    /// payload log's next packet. An `Err` means out of memory.
    #[inline(always)]
    pub fn outgoing(&self, dest: u8) -> Result<Option<Frame>, NodeFault>
        requires { dest < self.now.stable.size }
        ensures ok { IfOk result (λ frame. frame ≡ outgoing_of self.now dest) }
        ensures packet_only { OnErr result (IsPacket (outgoing_of self.now dest)) }
        ensures memory { IfErr result (λ e. e ≡ NodeFault.Memory) }
    {
        let due = self.dues[usize::from(dest)];
        if let Some(from) = due.ask {
            return Ok(Some(Frame::Ask { from }));
        }
        if let Some(upto) = due.kept {
            return Ok(Some(Frame::Kept { upto }));
        }
        match self.log.next(usize::from(dest)) {
            None => Ok(None),
            Some(packet) => Ok(Some(Frame::Data(packet.copy(self.alloc)?))),
        }
    }

    /// What was outgoing to this rank has gone.
    pub fn passed(&mut self, dest: u8)
        requires rank { dest < self.old.stable.size }
        requires due { IsSome (outgoing_of self.old dest) }
        ensures passed { self.new ≡ after_passed self.old dest }
        ensures stable { self.new.stable ≡ self.old.stable }
    {
        let due = self.dues[usize::from(dest)];
        if due.ask.is_some() {
            self.dues[usize::from(dest)] = Due {
                ask: None,
                kept: due.kept,
            };
        } else if due.kept.is_some() {
            self.dues[usize::from(dest)] = Due {
                ask: None,
                kept: None,
            };
        } else {
            self.log.passed(usize::from(dest));
        }
    }
}

// What became of a packet, by the inbox's answer.
fn arrived_as(accept: Accept) -> Arrived
    ensures { result ≡ arrived_as accept }
{
    match accept {
        Accept::Accepted => Arrived::Accepted,
        Accept::Repeated => Arrived::Repeated,
        Accept::Gap => Arrived::Gap,
    }
}
