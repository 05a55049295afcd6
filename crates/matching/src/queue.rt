//! The packets that wait: the first few in a row, the others with an index.
ghost use Rattle.std.specs.Prelude.{◌≡◌, ◌<◌, [], ◌∷◌, ◌++◌, length, remove, slice_get, position, Some, IfOk, IfErr, OnOk, OnErr};
ghost use Rattle.std.specs.Option.{option_copied};
ghost use Rattle.matching.specs.Label.{names};
ghost use Rattle.matching.specs.Packets.{left};
ghost use Rattle.matching.specs.Queue.{first_by, without_first, last_number};

use crate::indexed::Indexed;
use crate::label::Label;
use crate::packet::Packet;
use crate::packets::Packets;
use limits::Heap;
use std::alloc::AllocError;
use std::marker::Model;

/// How many packets stand in a row. So few are walked, and moved up where one
/// is taken, faster than an index is kept: it has five labels of each packet.
const MOST_WALKED: usize = 512;

/// The packets that wait, in the order of acceptance.
#[derive(Drop)]
pub(crate) struct Queue {
    front: Vec<Packet, Heap>,
    // behind all of `front`
    behind: Indexed,
}

impl Model for Queue {
    ghost use Rattle.std.specs.Prelude.{◌≤◌, ◌++◌, List, length};
    ghost use Rattle.matching.specs.PacketValue.{PacketValue};
    ghost use Rattle.matching.specs.Queue.{most_walked};

    ghost Value = { List PacketValue };

    ghost view = { λ q. q.front.items ++ q.behind };

    ghost invariant = { λ q. length q.front.items ≤ most_walked };
}

impl Queue {
    pub(crate) fn new(alloc: Heap) -> Queue
        ensures { result ≡ [] }
    {
        Queue {
            front: Vec::new(alloc),
            behind: Indexed::new(alloc),
        }
    }

    /// The same packets, in memory of their own. An `Err` means out of memory.
    pub(crate) fn copy(&self, alloc: Heap) -> Result<Queue, AllocError>
        ensures { IfOk result (λ copy. copy ≡ self.now) }
    {
        Ok(Queue {
            front: self.front.as_slice().to_vec(alloc)?,
            behind: self.behind.copy(alloc)?,
        })
    }

    /// Puts the packet behind the others; it comes back where there is no
    /// memory for it.
    #[inline(always)]
    pub(crate) fn push(&mut self, packet: Packet) -> Result<(), Packet>
        ensures ok { OnOk result (self.new ≡ self.old ++ packet ∷ []) }
        ensures back { IfErr result (λ back. back ≡ packet) }
        ensures err { OnErr result (self.new ≡ self.old) }
    {
        if self.front.len() >= MOST_WALKED || self.behind.len() > 0 {
            return self.behind.push(packet);
        }
        if let Err(refused) = self.front.push(packet) {
            return Err(refused.value);
        }
        Ok(())
    }

    pub(crate) fn len(&self) -> usize
        ensures { result ≡ length self.now }
    {
        count(&self.front) + self.behind.len()
    }

    /// Where the first packet stands that the label names.
    pub(crate) fn position(&self, label: Label) -> Option<usize>
        ensures { result ≡ position (names label) self.now }
    {
        match walk(&self.front, label) {
            Some(index) => Some(index),
            None => match self.behind.position(label) {
                Some(index) => Some(count(&self.front) + index),
                None => None,
            },
        }
    }

    /// The first packet that the label names.
    #[inline(always)]
    pub(crate) fn first(&self, label: Label) -> Option<&Packet>
        ensures { option_copied result ≡ first_by (names label) self.now }
    {
        match walk(&self.front, label) {
            Some(index) => Some(at(&self.front, index)),
            None => self.behind.first(label),
        }
    }

    /// Takes the first packet that the label names.
    #[inline(always)]
    pub(crate) fn take_first(&mut self, label: Label) -> Option<Packet>
        ensures taken { result ≡ first_by (names label) self.old }
        ensures left { self.new ≡ without_first (names label) self.old }
    {
        match walk(&self.front, label) {
            Some(index) => Some(take_at(&mut self.front, index)),
            None => self.behind.take_first(label),
        }
    }

    /// The packet at this index.
    pub(crate) fn get(&self, index: usize) -> &Packet
        requires { index < length self.now }
        ensures { slice_get self.now index ≡ Some result.now }
    {
        let walked = count(&self.front);
        if index < walked {
            return at(&self.front, index);
        }
        self.behind.get(index - walked)
    }

    /// Takes the packet at this index.
    pub(crate) fn take(&mut self, index: usize) -> Packet
        requires { index < length self.old }
        ensures taken { slice_get self.old index ≡ Some result }
        ensures left { self.new ≡ remove self.old index }
    {
        let walked = count(&self.front);
        if index < walked {
            return take_at(&mut self.front, index);
        }
        self.behind.take(index - walked)
    }

    /// The packets, one after another.
    pub(crate) fn iter(&self) -> Packets<'_>
        ensures { left result ≡ self.now }
    {
        Packets {
            front: self.front.iter(),
            behind: self.behind.values(),
        }
    }

    /// The number of the last packet of this source.
    pub(crate) fn last_number(&self, source: u8) -> Option<u32>
        ensures { result ≡ last_number source self.now }
    {
        match self.behind.last_number(source) {
            Some(number) => Some(number),
            None => last_walked(&self.front, source),
        }
    }
}

fn count(front: &Vec<Packet, Heap>) -> usize
    ensures { result ≡ length front.now.items }
{
    front.len()
}

fn at(front: &Vec<Packet, Heap>, index: usize) -> &Packet
    requires { index < length front.now.items }
    ensures { slice_get front.now.items index ≡ Some result.now }
{
    &front[index]
}

// Those behind the packet move up.
#[inline(always)]
#[tactic(auto, using(std::proofs::lemmas::Option::slice_get_read))]
fn take_at(front: &mut Vec<Packet, Heap>, index: usize) -> Packet
    requires { index < length front.old.items }
    ensures taken { slice_get front.old.items index ≡ Some result }
    ensures left { front.new.items ≡ remove front.old.items index }
{
    front.remove(index)
}

// Where the first packet stands that the label names.
#[inline(always)]
fn walk(front: &Vec<Packet, Heap>, label: Label) -> Option<usize>
    ensures { result ≡ position (names label) front.now.items }
{
    front.iter().position(|packet| label.names(packet))
}

// The number of the last packet of this source.
fn last_walked(front: &Vec<Packet, Heap>, source: u8) -> Option<u32>
    ensures { result ≡ last_number source front.now.items }
{
    let mut left = front.iter();
    while let Some(packet) = left.next_back() {
        if packet.source == source {
            return Some(packet.number);
        }
    }
    None
}
