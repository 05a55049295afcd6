//! The messages of one rank to another, once there is one.
ghost use Rattle.std.specs.Prelude.{◌≡◌, [], ◌∷◌, ◌++◌, Some, None, IfOk, OnOk, OnErr, IsSomeAnd, IsSome, map, position, slice_get, slice_set};
ghost use Rattle.crash_free.specs.Slots.{passes};
ghost use Rattle.crash_free.specs.Alike.{packets_in};
ghost use Rattle.crash_free.specs.Leftovers.{left_by};
ghost use Rattle.crash_free.specs.Standing.{and_all, and_packet};

use crate::leftover::{Leftover, add_left};
use crate::mail::index::Index;
use crate::mail::walk::{first_from, moved};
use crate::standing::{RowSink, write_packets};
use limits::Heap;
use matching::{Context, Packet, Selector};
use std::alloc::AllocError;
use std::marker::Model;
use std::mem;

/// So many slots from the front on are walked; for more there is an index.
const FEW: usize = 8;

/// What one rank sent to another: a slot for each message, empty once it is taken.
#[derive(Drop)]
pub struct Slots {
    slots: Vec<Option<Packet>, Heap>,
    // those before this one are empty
    front: usize,
    // where there are many from the front on, so that no search walks slots that are empty or hold
    // messages of another tag
    index: Option<Index>,
}

impl Model for Slots {
    ghost use Rattle.std.specs.Prelude.{List};
    ghost use Rattle.crash_free.specs.Slots.{Slot};
    ghost use Rattle.crash_free.specs.Index.{AreFoundBy};

    ghost Value = { List Slot };

    ghost view = { λ l. l.slots.items };

    ghost invariant = { λ c. AreFoundBy c.front c.index c.slots.items };
}

impl Clone for Slots {
    ghost is_clone = { λ slots clone. clone ≡ slots };

    fn clone(&self) -> Result<Slots, AllocError> {
        Ok(Slots {
            slots: copied(*self.slots.allocator(), &self.slots)?,
            front: self.front,
            index: copied_index(&self.index)?,
        })
    }
}

fn copied_index(index: &Option<Index>) -> Result<Option<Index>, AllocError>
    ensures { IfOk result (λ copy. copy ≡ index.now) }
{
    match index {
        Some(index) => Ok(Some(index.clone()?)),
        None => Ok(None),
    }
}

// The same slots, in memory of their own.
fn copied(alloc: Heap, slots: &[Option<Packet>]) -> Result<Vec<Option<Packet>, Heap>, AllocError>
    ensures { IfOk result (λ copies. copies.items ≡ slots.now) }
{
    let mut copies = Vec::with_capacity(alloc, slots.len())?;
    for slot in slots {
        let copy = match slot {
            Some(packet) => Some(packet.clone()?),
            None => None,
        };
        copies.push(copy)?;
    }
    Ok(copies)
}

impl Slots {
    pub fn new(alloc: Heap) -> Slots
        ensures { result ≡ [] }
    {
        Slots {
            slots: Vec::new(alloc),
            front: 0,
            index: None,
        }
    }

    /// The first message that isn't taken and that the selector names.
    pub fn first(&self, selector: &Selector) -> Option<usize>
        ensures { result ≡ position (passes selector.now) self.now }
    {
        match &self.index {
            Some(index) => index.first(&self.slots, selector),
            None => first_from(self.front, &self.slots, selector),
        }
    }

    /// Writes the messages that aren't taken.
    pub fn write<O: RowSink>(&self, out: &mut O) -> Result<(), O::Stop>
        ensures { OnOk result (O.rows out.new ≡ and_all and_packet (O.rows out.old) (packets_in self.now)) }
    {
        write_packets(out, self.from_front())
    }

    // Those from the front on, which have all messages that aren't taken.
    #[tactic(auto, using(crate::proofs::Walking::packets_behind))]
    fn from_front(&self) -> &[Option<Packet>]
        ensures { packets_in result.now ≡ packets_in self.now }
    {
        &self.slots[self.front..]
    }

    /// Adds the messages that aren't taken, which the source sent to the rank.
    pub fn add_left(
        &self,
        source: u8,
        rank: u8,
        out: &mut Vec<Leftover, Heap>,
    ) -> Result<(), AllocError>
        ensures { OnOk result (out.new.items ≡ out.old.items ++ map (left_by rank source) (packets_in self.now)) }
    {
        add_left(&self.slots, source, rank, out)
    }

    /// The packet is one message more.
    #[tactic(auto, using(crate::proofs::Walking::still_empty))]
    pub fn push(&mut self, packet: Packet) -> Result<(), AllocError>
        ensures ok { OnOk result (self.new ≡ self.old ++ Some packet ∷ []) }
        ensures err { OnErr result (self.new ≡ self.old) }
    {
        self.make_index()?;
        self.slots.reserve(1)?;
        let slot = Some(packet);
        if let Some(index) = &mut self.index {
            index.list_slot(&slot, self.slots.len())?;
        }
        self.slots.push_reserved(slot);
        Ok(())
    }

    // Makes an index where there are many slots from the front on.
    fn make_index(&mut self) -> Result<(), AllocError>
        ensures { self.new ≡ self.old }
    {
        if self.index.is_none() && self.slots.len().saturating_sub(self.front) >= FEW {
            let index = Index::of(*self.slots.allocator(), &self.slots)?;
            self.index = Some(index);
        }
        Ok(())
    }

    /// The message of this index, from 0, which stays.
    pub fn look(&self, index: usize) -> &Packet
        requires { IsSomeAnd (slice_get self.now index) IsSome }
        ensures { slice_get self.now index ≡ Some (Some result.now) }
    {
        let Some(packet) = &self.slots[index] else {
            unreachable!()
        };
        packet
    }

    /// Takes the message of this index, from 0.
    #[tactic(auto, using(crate::proofs::Indexing::index_emptied, crate::proofs::Walking::emptied))]
    pub fn take(&mut self, index: usize) -> Packet
        requires { IsSomeAnd (slice_get self.old index) IsSome }
        ensures packet { slice_get self.old index ≡ Some (Some result) }
        ensures left { self.new ≡ slice_set self.old index None }
    {
        let Some(packet) = mem::replace(&mut self.slots[index], None) else {
            unreachable!()
        };
        self.tidy(packet.context, packet.tag);
        packet
    }

    // Moves the front, and tidies the index.
    fn tidy(&mut self, context: Context, tag: u16)
        ensures { self.new ≡ self.old }
    {
        self.front = moved(self.front, &self.slots);
        if let Some(index) = &mut self.index {
            index.tidy(context, tag, &self.slots);
        }
    }
}
