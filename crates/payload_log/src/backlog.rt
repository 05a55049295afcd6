//! The payload log of one destination: the packets that are kept for it, and those held back.
ghost use Rattle.std.specs.Prelude.{◌≡◌, ◌+◌, ◌-◌, ◌<◌, ◌≤◌, ◌↔◌, IfSome, IsSome, IfErr, OnOk, OnErr, option_copied, slice_get, drop, max, length, []};
ghost use Rattle.limits.specs.Limits.{greatest_clock};

use limits::Heap;
use matching::Packet;
use std::alloc::AllocError;
use std::collections::VecDeque;
use std::marker::Model;

/// The packets kept for one destination, from the one after the base on, and
/// behind them those held, from the one after the last one sent on.
#[derive(Drop)]
pub struct Backlog {
    base: u32,
    sent: u32,
    // the number of the next packet to transmit
    cursor: u32,
    packets: VecDeque<Packet, Heap>,
}

impl Model for Backlog {
    ghost use Rattle.payload_log.specs.Backlog.{BacklogValue, IsBacklog, backlog_of};

    ghost Value = { BacklogValue };

    ghost view = { λ k. backlog_of k.base k.sent k.cursor k.packets.items };

    ghost invariant = { λ k. IsBacklog (backlog_of k.base k.sent k.cursor k.packets.items) };
}

// Lists of backlogs are copied by the calls of `std`.
impl Clone for Backlog {
    ghost is_clone = { λ backlog clone. clone ≡ backlog };

    #[tactic(auto, using(std::proofs::lemmas::List::Elements::same_from_all_zip))]
    fn clone(&self) -> Result<Backlog, AllocError> {
        Ok(Backlog {
            base: self.base,
            sent: self.sent,
            cursor: self.cursor,
            packets: self.packets.clone()?,
        })
    }
}

impl Backlog {
    ghost use Rattle.payload_log.specs.Backlog.{IsBacklog, from_beginning, new_backlog, next_number, saved, hold, freed, next_of, passed, asked, pruned};

    pub fn new(alloc: Heap) -> Self
        ensures { result ≡ new_backlog }
    {
        Backlog {
            base: 0,
            sent: 0,
            cursor: 1,
            packets: VecDeque::new(alloc),
        }
    }

    /// These packets of those that were sent, to be transmitted from the first
    /// on; none is held.
    pub fn of(base: u32, sent: u32, packets: VecDeque<Packet, Heap>) -> Self
        requires { IsBacklog (from_beginning base sent packets.items) }
        ensures { result ≡ from_beginning base sent packets.items }
    {
        Backlog {
            base,
            sent,
            cursor: base + 1,
            packets,
        }
    }

    /// Counts the packet, and keeps it where its number is above the base. An
    /// `Err` means out of memory.
    #[inline(always)]
    pub fn save(&mut self, packet: Packet) -> Result<(), Packet>
        requires next { packet.number ≡ self.old.sent + 1 }
        requires none_held { self.old.held ≡ [] }
        ensures ok { OnOk result (self.new ≡ saved self.old packet) }
        ensures kept_only { OnErr result (self.old.base < packet.number) }
        ensures back { IfErr result (λ back. back ≡ packet) }
        ensures err { OnErr result (self.new ≡ self.old) }
    {
        let number = packet.number;
        // what is at most the base was let go before it was sent
        if self.base < number {
            // (a push that can't hand the packet back moves it once less)
            if self.packets.reserve(1).is_err() {
                return Err(packet);
            }
            self.packets.push_back_reserved(packet);
        }
        self.sent = number;
        Ok(())
    }

    /// Holds the packet back, behind those held already. An `Err` is want of
    /// memory.
    pub fn hold(&mut self, packet: Packet) -> Result<(), Packet>
        requires { packet.number ≡ next_number self.old }
        ensures ok { OnOk result (self.new ≡ hold self.old packet) }
        ensures back { IfErr result (λ back. back ≡ packet) }
        ensures err { OnErr result (self.new ≡ self.old) }
    {
        // a packet's number is at most the greatest clock
        let _number = packet.number;
        match self.packets.push_back(packet) {
            Ok(()) => Ok(()),
            Err(refused) => Err(refused.value),
        }
    }

    /// How many packets are held.
    pub fn held(&self) -> u32
        ensures { result ≡ length self.now.held }
    {
        (self.packets.len() - self.kept() as usize) as u32
    }

    /// The packet that was held first.
    pub fn oldest_held(&self) -> Option<&Packet>
        ensures { option_copied result ≡ slice_get self.now.held 0 }
    {
        self.packets.get(self.kept() as usize)
    }

    /// Saves the packet that was held first, which takes no memory.
    pub fn free(&mut self)
        requires { 0 < length self.old.held }
        ensures value { self.new ≡ freed self.old }
        ensures counted { self.new.sent ≡ self.old.sent + 1 }
        ensures fewer { length self.new.held + 1 ≡ length self.old.held }
    {
        // what is at most the base was let go while it was held
        if self.base > self.sent {
            drop_front(&mut self.packets, 1);
        }
        self.sent += 1;
    }

    /// How many packets are kept.
    pub fn len(&self) -> usize
        ensures { result ≡ length self.now.kept }
    {
        self.sent.saturating_sub(self.base) as usize
    }

    /// The packet at this place among those that are kept.
    pub fn get(&self, place: usize) -> Option<&Packet>
        ensures { option_copied result ≡ slice_get self.now.kept place }
    {
        if place < self.len() {
            self.packets.get(place)
        } else {
            None
        }
    }

    /// How many packets are kept: they stand before those held.
    fn kept(&self) -> u32
        ensures { result ≡ self.now.sent - self.now.base }
    {
        self.sent.saturating_sub(self.base)
    }

    /// The packet at the cursor, which isn't one of those held.
    pub fn next(&self) -> Option<&Packet>
        ensures value { option_copied result ≡ next_of self.now }
        ensures some { IsSome result ↔ (self.now.cursor ≤ self.now.sent) }
        ensures number { IfSome result (λ p. p.now.number ≡ self.now.cursor) }
    {
        if self.cursor > self.sent {
            return None;
        }
        self.packets.get((self.cursor - self.base - 1) as usize)
    }

    /// The packet at the cursor was transmitted.
    pub fn pass(&mut self)
        requires { IsSome (next_of self.old) }
        ensures { self.new ≡ passed self.old }
    {
        self.cursor += 1;
    }

    /// Brings the cursor back to a number, or as far as packets are kept.
    pub fn ask(&mut self, from: u32)
        ensures { self.new ≡ asked self.old from }
    {
        self.cursor = self.cursor.min(from).max(self.base + 1);
    }

    /// Lets the packets up to a number go.
    pub fn prune(&mut self, upto: u32)
        requires { upto ≤ greatest_clock }
        ensures value { self.new ≡ pruned self.old upto }
        ensures raised { self.new.base ≡ max self.old.base upto }
    {
        // an old notice may come late, so the base never falls
        if self.base < upto {
            let count = self.kept().min(upto - self.base);
            drop_front(&mut self.packets, count as usize);
            self.base = upto;
            self.cursor = self.cursor.max(upto + 1);
        }
    }

    pub fn sent(&self) -> u32
        ensures { result ≡ self.now.sent }
    {
        self.sent
    }

    pub fn base(&self) -> u32
        ensures { result ≡ self.now.base }
    {
        self.base
    }

    /// A law, for proofs alone: what is kept is by number, from the base to the
    /// last one sent, and what is held goes on from there.
    pub fn law_in_order(&self)
        ensures { IsBacklog self.now }
    {
        let _base = self.base;
    }
}

/// Drops this many packets at the front, or all where there are fewer.
fn drop_front(packets: &mut VecDeque<Packet, Heap>, count: usize)
    ensures { packets.new.items ≡ drop count packets.old.items }
{
    for _i in 0..count {
        if packets.pop_front().is_none() {
            break;
        }
    }
}
