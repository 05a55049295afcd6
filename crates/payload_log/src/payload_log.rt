//! The payload log of a sender: what it keeps for each destination.
ghost use Rattle.std.specs.Prelude.{◌≡◌, ◌+◌, ◌<◌, ◌≤◌, ◌↔◌, IfSome, IsSome, IfErr, IfOk, OnOk, OnErr, length};
ghost use Rattle.std.specs.Prelude.{replicate, slice_set, slice_get, option_copied, []};
ghost use Rattle.limits.specs.Limits.{greatest_clock};

use crate::backlog::Backlog;
use limits::Heap;
use matching::Packet;
use std::alloc::AllocError;
use std::marker::Model;

/// The packets that a sender keeps for each destination, with the number of
/// the next one to transmit, and those that it holds back.
#[derive(Drop)]
pub struct PayloadLog {
    kept: Vec<Backlog, Heap>,
}

impl Model for PayloadLog {
    ghost use Rattle.std.specs.Prelude.{List};
    ghost use Rattle.payload_log.specs.Backlog.{BacklogValue};

    ghost Value = { List BacklogValue };

    ghost view = { λ l. l.kept.items };
}

impl PayloadLog {
    ghost use Rattle.payload_log.specs.Backlog.{new_backlog, next_number, saved, hold, freed, next_of, passed, asked, pruned, backlog, IsBacklog};

    /// The log of a sender among `size` ranks that sent nothing.
    pub fn new(alloc: Heap, size: usize) -> Result<PayloadLog, AllocError>
        ensures { IfOk result (λ l. l ≡ replicate size new_backlog) }
    {
        let mut kept = Vec::with_capacity(alloc, size)?;
        for _ in 0..size {
            kept.push(Backlog::new(alloc))?;
        }
        Ok(PayloadLog { kept })
    }

    /// The log of what is kept for each destination.
    pub fn of(kept: Vec<Backlog, Heap>) -> PayloadLog
        ensures { result ≡ kept.items }
    {
        PayloadLog { kept }
    }

    /// The same log, in memory of its own. An `Err` means out of memory.
    pub fn copy(&self, alloc: Heap) -> Result<PayloadLog, AllocError>
        ensures { IfOk result (λ copy. copy ≡ self.now) }
    {
        Ok(PayloadLog {
            kept: self.kept.as_slice().to_vec(alloc)?,
        })
    }

    /// What is kept for each destination.
    pub fn destinations(&self) -> &[Backlog]
        ensures { result.now ≡ self.now }
    {
        &self.kept
    }

    /// Counts the packet, and keeps it where its number is above the base. An
    /// `Err` means out of memory.
    #[inline(always)]
    pub fn save(&mut self, dest: usize, packet: Packet) -> Result<(), Packet>
        requires there { dest < length self.old }
        requires next { packet.number ≡ (backlog self.old dest).sent + 1 }
        requires none_held { (backlog self.old dest).held ≡ [] }
        ensures ok { OnOk result (self.new ≡ slice_set self.old dest (saved (backlog self.old dest) packet)) }

        ensures kept_only { OnErr result ((backlog self.old dest).base < packet.number) }
        ensures back { IfErr result (λ back. back ≡ packet) }
        ensures err { OnErr result (self.new ≡ self.old) }
    {
        let kept = &mut self.kept[dest];
        kept.save(packet)
    }

    /// Holds the packet back behind those held already: it isn't transmitted
    /// before it is freed. An `Err` means out of memory.
    pub fn hold(&mut self, dest: usize, packet: Packet) -> Result<(), Packet>
        requires there { dest < length self.old }
        requires next { packet.number ≡ next_number (backlog self.old dest) }
        ensures ok { OnOk result (self.new ≡ slice_set self.old dest (hold (backlog self.old dest) packet)) }
        ensures back { IfErr result (λ back. back ≡ packet) }
        ensures err { OnErr result (self.new ≡ self.old) }
    {
        let kept = &mut self.kept[dest];
        kept.hold(packet)
    }

    /// How many packets are held for this destination.
    pub fn held(&self, dest: usize) -> u32
        requires { dest < length self.now }
        ensures { result ≡ length (backlog self.now dest).held }
    {
        let kept = &self.kept[dest];
        kept.held()
    }

    /// The packet that was held first of those held.
    pub fn oldest_held(&self, dest: usize) -> Option<&Packet>
        requires { dest < length self.now }
        ensures { option_copied result ≡ slice_get (backlog self.now dest).held 0 }
    {
        let kept = &self.kept[dest];
        kept.oldest_held()
    }

    /// Saves the packet that was held first, so that it may be transmitted.
    /// This takes no memory.
    pub fn free(&mut self, dest: usize)
        requires there { dest < length self.old }
        requires some { 0 < length (backlog self.old dest).held }
        ensures { self.new ≡ slice_set self.old dest (freed (backlog self.old dest)) }
    {
        let kept = &mut self.kept[dest];
        kept.free();
    }

    /// The packet at the cursor, which is the next to transmit.
    pub fn next(&self, dest: usize) -> Option<&Packet>
        requires { dest < length self.now }
        ensures value { option_copied result ≡ next_of (backlog self.now dest) }
        ensures some { IsSome result ↔ ((backlog self.now dest).cursor ≤ (backlog self.now dest).sent) }
        ensures number { IfSome result (λ p. p.now.number ≡ (backlog self.now dest).cursor) }
    {
        let kept = &self.kept[dest];
        kept.next()
    }

    /// The packet at the cursor was transmitted.
    pub fn passed(&mut self, dest: usize)
        requires there { dest < length self.old }
        requires next { IsSome (next_of (backlog self.old dest)) }
        ensures { self.new ≡ slice_set self.old dest (passed (backlog self.old dest)) }
    {
        let kept = &mut self.kept[dest];
        kept.pass();
    }

    /// A receiver asks for the packets from this number on: the cursor goes
    /// back to it, or as far as packets are kept.
    pub fn ask(&mut self, dest: usize, from: u32)
        requires there { dest < length self.old }
        requires known { (1 ≤ from) × (from ≤ greatest_clock + 1) }
        ensures { self.new ≡ slice_set self.old dest (asked (backlog self.old dest) from) }
    {
        let kept = &mut self.kept[dest];
        kept.ask(from);
    }

    /// A receiver no longer needs the packets up to this number, which are
    /// dropped.
    pub fn prune(&mut self, dest: usize, upto: u32)
        requires there { dest < length self.old }
        requires known { upto ≤ greatest_clock }
        ensures { self.new ≡ slice_set self.old dest (pruned (backlog self.old dest) upto) }
    {
        let kept = &mut self.kept[dest];
        kept.prune(upto);
    }

    /// How many packets were ever saved for this destination.
    pub fn sent(&self, dest: usize) -> u32
        requires { dest < length self.now }
        ensures { result ≡ (backlog self.now dest).sent }
    {
        let kept = &self.kept[dest];
        kept.sent()
    }

    /// The number up to which packets for this destination were let go.
    pub fn base(&self, dest: usize) -> u32
        requires { dest < length self.now }
        ensures { result ≡ (backlog self.now dest).base }
    {
        let kept = &self.kept[dest];
        kept.base()
    }

    /// A law, for proofs alone: what is kept for a destination is by number,
    /// from the one after the base to the last one sent, the cursor stands among
    /// them or just behind, and what is held goes on from the last one sent.
    pub fn law_in_order(&self, dest: usize)
        requires { dest < length self.now }
        ensures { IsBacklog (backlog self.now dest) }
    {
        let kept = &self.kept[dest];
        kept.law_in_order();
    }
}
