//! Copies of a rank, each with a desk and a shelf of its own.
ghost use Rattle.std.specs.Prelude.{◌≡◌, IfErr, IfOk};
ghost use Rattle.rank_node.specs.Copied.{IsCopied, node_with, stored_with};

use crate::both::both;
use crate::down::Down;
use crate::due::Due;
use crate::pending::Pending;
use crate::replaying::Replaying;
use crate::running::Running;
use checkpoint::{Image, Shelf};
use limits::Heap;
use std::alloc::AllocError;

impl<'p, S: Shelf, D> Running<'p, S, D> {
    /// The same rank, in memory of its own, with this desk and this shelf. An
    /// `Err` means out of memory, and gives back what was given.
    pub fn copy(&self, alloc: Heap, desk: D, shelf: S) -> Result<Running<'p, S, D>, (D, S)>
        ensures ok { IfOk result (λ copy. copy ≡ node_with self.now desk shelf) }
        ensures err { IfErr result (λ back. back ≡ (desk, shelf)) }
    {
        let Ok((image, pending, dues)) = self.copied(alloc) else {
            return Err((desk, shelf));
        };
        let Image {
            machine,
            clock,
            inbox,
            log,
        } = image;
        Ok(Running {
            stable: self.stable.with(desk, shelf),
            alloc,
            machine,
            clock,
            made: self.made,
            inbox,
            log,
            pending,
            dues,
        })
    }

    // What a crash would drop, in memory of its own.
    fn copied(&self, alloc: Heap) -> Result<(Image<'p>, Pending, Vec<Due, Heap>), AllocError>
        ensures { IfOk result (λ parts. IsCopied self.now parts.0 parts.1 parts.2.items) }
    {
        let packets = both(self.inbox.copy(alloc), self.log.copy(alloc));
        let waits = both(self.pending.copy(alloc), self.dues.as_slice().to_vec(alloc));
        let parts = both(self.machine.copy(alloc), both(packets, waits));
        let (machine, ((inbox, log), (pending, dues))) = parts?;
        let image = Image {
            machine,
            clock: self.clock,
            inbox,
            log,
        };
        Ok((image, pending, dues))
    }
}

impl<'p, S: Shelf, D> Replaying<'p, S, D> {
    /// The same rank, in memory of its own, with this desk and this shelf. An
    /// `Err` means out of memory, and gives back what was given.
    pub fn copy(&self, alloc: Heap, desk: D, shelf: S) -> Result<Replaying<'p, S, D>, (D, S)>
        ensures ok { IfOk result (λ copy. copy ≡ record { node = node_with self.now.node desk shelf; left = self.now.left }) }
        ensures err { IfErr result (λ back. back ≡ (desk, shelf)) }
    {
        let Ok(events) = self.events.as_slice().to_vec(alloc) else {
            return Err((desk, shelf));
        };
        let running = self.running.copy(alloc, desk, shelf)?;
        Ok(Replaying {
            running,
            events,
            next: self.next,
        })
    }
}

impl<S: Shelf, D> Down<S, D> {
    /// The same rank, with this desk and this shelf.
    pub fn copy(&self, desk: D, shelf: S) -> Down<S, D>
        ensures { result ≡ stored_with self.now desk shelf }
    {
        Down::of(self.stable.with(desk, shelf))
    }
}
