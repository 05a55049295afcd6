//! How a rank starts again: rollback to its last checkpoint, and replay of the
//! determinants above it.
ghost use Rattle.std.specs.Prelude.{◌≡◌, ◌<◌, ◌≤◌, ◌⊎◌, length, map, true, false, IfOk, IfErr, OnOk, IsErrOf};
ghost use Rattle.limits.specs.Limits.{most_events, most_ranks};
ghost use Rattle.event_logger.specs.Sequential.History.{above};
ghost use Rattle.checkpoint.specs.Shelf.{Grew, image_bytes};
ghost use Rattle.rank_node.specs.Fault.{MayRefuseRestart};
ghost use Rattle.rank_node.specs.Image.{BeginsAgain, IsBeginning, IsImageOf, KeepsImage, Reads, begins_at, image_on, with_shelf};
ghost use Rattle.rank_node.specs.Replay.{ask_after, cuts};

use crate::down::Down;
use crate::due::Due;
use crate::fault::NodeFault;
use crate::frame::AskFrom;
use crate::replaying::Replaying;
use crate::running::{Running, first_image};
use checkpoint::{Image, Shelf, decode};
use event_logger::Event;
use limits::Heap;
use matching::Inbox;
use rank_language::Program;
use std::alloc::AllocError;

impl<S: Shelf, D> Down<S, D> {
    /// The rank starts again at the image on its shelf, its last checkpoint, or
    /// at the beginning of its program if there is none. It replays what is
    /// above that of this row, which is the whole of its own at the logger. It
    /// asks every rank, itself too, for what it hasn't accepted: MPICH-V2's
    /// retransmission request.
    ///
    /// An `Err` gives the rank back: the shelf's device failed, its bytes are
    /// no image of this rank of the program, the image cuts an event of the
    /// row, or there was no memory.
    pub fn restart<'p>(
        mut self,
        alloc: Heap,
        program: &'p Program,
        row: Vec<Event, Heap>,
    ) -> Result<Replaying<'p, S, D>, (Down<S, D>, NodeFault)>
        requires { length row.items ≤ most_events }
        ensures ok { IfOk result (λ rank. BeginsAgain S.last program.entry.now row.items self rank) }
        ensures reads { OnOk result (Reads program.entry.now self.rank self.size (S.last self.shelf)) }

        ensures back { IfErr result (λ refused. KeepsImage S.last self refused.0) }
        ensures refused { IfErr result (λ refused. MayRefuseRestart refused.1) }
        ensures device { IfErr result (λ refused. refused.1 ≡ NodeFault.Shelf → Grew (S.failures self.shelf) (S.failures refused.0.shelf)) }
        ensures unreadable { IfErr result (λ refused. refused.1 ≡ NodeFault.Image → Reads program.entry.now self.rank self.size (S.last self.shelf) → ⊥) }
        ensures cut { IfErr result (λ refused. refused.1 ≡ NodeFault.Replay → let begins = begins_at program.entry.now self.rank self.size
            (image_on program.entry.now self.rank self.size (S.last self.shelf)) in cuts begins.clock row.items ≡ true) }
    {
        match self.beginning(alloc, program, &row) {
            Ok((image, dues)) => {
                let Down { stable } = self;
                let made = row.len();
                let events = later(row, image.clock);
                Ok(Replaying {
                    running: Running::at(stable, alloc, image, made, dues),
                    events,
                    next: 0,
                })
            }
            Err(fault) => Err((self, fault)),
        }
    }

    // Where the rank begins again with this row, with an ask due to each rank: at the image on its
    // shelf, or at the beginning of its program if there is none.
    fn beginning<'p>(
        &mut self,
        alloc: Heap,
        program: &'p Program,
        row: &[Event],
    ) -> Result<(Image<'p>, Vec<Due, Heap>), NodeFault>
        ensures ok { IfOk result (λ parts. IsBeginning program.entry.now self.old.rank self.old.size (S.last self.old.shelf) row.now parts.0 parts.1.items) }
        ensures same { self.new ≡ with_shelf self.old self.new.shelf }
        ensures kept { S.last self.new.shelf ≡ S.last self.old.shelf }

        ensures refused { IfErr result MayRefuseRestart }
        ensures device { IsErrOf result NodeFault.Shelf → Grew (S.failures self.old.shelf) (S.failures self.new.shelf) }
        ensures unreadable { IsErrOf result NodeFault.Image → Reads program.entry.now self.old.rank self.old.size (S.last self.old.shelf) → ⊥ }
        ensures cut { IsErrOf result NodeFault.Replay → let begins = begins_at program.entry.now self.old.rank self.old.size
            (image_on program.entry.now self.old.rank self.old.size (S.last self.old.shelf)) in cuts begins.clock row.now ≡ true }
    {
        let rank = self.stable.rank();
        let size = self.stable.size();
        let bytes = self.stable.get()?;
        beginning(alloc, program, rank, size, bytes, row)
    }
}

// The same, where these bytes are on the shelf.
fn beginning<'p>(
    alloc: Heap,
    program: &'p Program,
    rank: u8,
    size: u8,
    bytes: Option<Vec<u8, Heap>>,
    row: &[Event],
) -> Result<(Image<'p>, Vec<Due, Heap>), NodeFault>
    requires rank { rank < size }
    requires size { size ≤ most_ranks }
    ensures ok { IfOk result (λ parts. IsBeginning program.entry.now rank size (image_bytes bytes) row.now parts.0 parts.1.items) }

    ensures refused { IfErr result (λ e. (e ≡ NodeFault.Image) ⊎ (e ≡ NodeFault.Replay) ⊎ (e ≡ NodeFault.Memory)) }
    ensures unreadable { IsErrOf result NodeFault.Image → Reads program.entry.now rank size (image_bytes bytes) → ⊥ }
    ensures cut { IsErrOf result NodeFault.Replay → let begins = begins_at program.entry.now rank size
        (image_on program.entry.now rank size (image_bytes bytes)) in cuts begins.clock row.now ≡ true }
{
    let image = image_of_bytes(alloc, program, rank, size, bytes)?;
    match asks_above(alloc, &image, size, row) {
        Ok(dues) => Ok((image, dues)),
        Err(fault) => {
            drop(image);
            Err(fault)
        }
    }
}

// The image that these bytes are, or the beginning of the program if there are none.
fn image_of_bytes<'p>(
    alloc: Heap,
    program: &'p Program,
    rank: u8,
    size: u8,
    bytes: Option<Vec<u8, Heap>>,
) -> Result<Image<'p>, NodeFault>
    requires rank { rank < size }
    requires size { size ≤ most_ranks }
    ensures ok { IfOk result (λ image. IsImageOf program.entry.now rank size (image_bytes bytes) image) }

    ensures refused { IfErr result (λ e. (e ≡ NodeFault.Image) ⊎ (e ≡ NodeFault.Memory)) }
    ensures unreadable { IsErrOf result NodeFault.Image → Reads program.entry.now rank size (image_bytes bytes) → ⊥ }
{
    match bytes {
        None => Ok(first_image(alloc, program, rank, size)?),
        Some(bytes) => Ok(decode(alloc, program, rank, size, &bytes)?),
    }
}

// An ask to each rank, where the image cuts no event of the row.
fn asks_above(
    alloc: Heap,
    image: &Image<'_>,
    size: u8,
    row: &[Event],
) -> Result<Vec<Due, Heap>, NodeFault>
    requires { length image.now.inbox.accepted ≡ size }
    ensures dues { IfOk result (λ dues. dues.items ≡ map ask_after image.now.inbox.accepted) }
    ensures uncut { OnOk result (cuts image.now.clock row.now ≡ false) }
    ensures refused { IfErr result (λ e. (e ≡ NodeFault.Replay) ⊎ (e ≡ NodeFault.Memory)) }
    ensures cut { IsErrOf result NodeFault.Replay → cuts image.now.clock row.now ≡ true }
{
    if cuts(image.clock, row) {
        return Err(NodeFault::Replay);
    }
    Ok(asks(alloc, &image.inbox, size)?)
}

// An ask to each rank for what comes after the last that was accepted.
fn asks(alloc: Heap, inbox: &Inbox, size: u8) -> Result<Vec<Due, Heap>, AllocError>
    requires { length inbox.now.accepted ≡ size }
    ensures { IfOk result (λ dues. dues.items ≡ map ask_after inbox.now.accepted) }
{
    let mut dues = Vec::new(alloc);
    for source in 0..size {
        dues.push(Due {
            ask: Some(AskFrom::new(inbox.accepted(source) + 1)),
            kept: None,
        })?;
    }
    Ok(dues)
}

// Whether some event of the row is cut by this clock.
fn cuts(clock: u32, row: &[Event]) -> bool
    ensures { result ≡ cuts clock row.now }
{
    row.iter().any(|event| event.first_clock() <= clock && clock < event.receiver_clock())
}

// The events of a row that come after this clock.
fn later(mut row: Vec<Event, Heap>, clock: u32) -> Vec<Event, Heap>
    ensures events { result.items ≡ above clock row.items }
    ensures most { length result.items ≤ length row.items }
{
    row.retain(|event| clock < event.receiver_clock());
    row
}
