//! Packets in the order of acceptance, found by what names them.
ghost use Rattle.std.specs.Prelude.{◌≡◌, ◌<◌, ◌^◌, [], ◌∷◌, ◌++◌, List, length, remove, slice_get, position, Some, IfOk, IfErr, IfSome, OnOk, OnErr, All};
ghost use Rattle.std.specs.Option.{option_copied};
ghost use Rattle.std.specs.BTreeMap.{keys, values};
ghost use Rattle.matching.specs.PacketValue.{PacketValue};
ghost use Rattle.matching.specs.Label.{names};
ghost use Rattle.matching.specs.Queue.{first_by, without_first, last_number};

use crate::index::Index;
use crate::label::Label;
use crate::packet::Packet;
use limits::Heap;
use std::alloc::AllocError;
use std::collections::BTreeMap;
use std::collections::btree_map::Values;
use std::marker::Model;

/// Packets by their places, which rise in the order of acceptance.
#[derive(Drop)]
pub(crate) struct Indexed {
    packets: BTreeMap<u64, Packet, Heap>,
    index: Index,
}

impl Model for Indexed {
    ghost use Rattle.std.specs.Prelude.{List};
    ghost use Rattle.std.specs.BTreeMap.{values};
    ghost use Rattle.matching.specs.PacketValue.{PacketValue};
    ghost use Rattle.matching.specs.Indexed.{IsIndexed};

    ghost Value = { List PacketValue };

    ghost view = { λ q. values q.packets };

    ghost invariant = { λ q. IsIndexed q.packets q.index.places };
}

impl Indexed {
    pub(crate) fn new(alloc: Heap) -> Indexed
        ensures { result ≡ [] }
    {
        Indexed {
            packets: BTreeMap::new(alloc),
            index: Index::new(alloc),
        }
    }

    /// The same packets, in memory of their own. An `Err` means out of memory.
    pub(crate) fn copy(&self, alloc: Heap) -> Result<Indexed, AllocError>
        ensures { IfOk result (λ copy. copy ≡ self.now) }
    {
        let mut copy = Indexed::new(alloc);
        for packet in self.values() {
            if let Err(_refused) = copy.push(packet.copy(alloc)?) {
                return Err(AllocError);
            }
        }
        Ok(copy)
    }

    pub(crate) fn len(&self) -> usize
        ensures len { result ≡ length self.now }
        ensures small { result < 2 ^ 63 }
    {
        self.packets.len()
    }

    /// Puts the packet behind the others; it comes back where there is no
    /// memory for it.
    pub(crate) fn push(&mut self, packet: Packet) -> Result<(), Packet>
        ensures ok { OnOk result (self.new ≡ self.old ++ packet ∷ []) }
        ensures back { IfErr result (λ back. back ≡ packet) }
        ensures err { OnErr result (self.new ≡ self.old) }
    {
        let Some(place) = place_behind(&self.packets) else {
            return Err(packet);
        };
        if let Err(AllocError) = self.index.add(&packet, place) {
            return Err(packet);
        }
        match self.packets.insert(place, packet) {
            Ok(None) => Ok(()),
            Ok(Some(_)) => unreachable!(),
            Err(refused) => {
                let (_place, back) = refused.value;
                self.index.remove(&back, place);
                Err(back)
            }
        }
    }

    /// The first packet that the label names.
    pub(crate) fn first(&self, label: Label) -> Option<&Packet>
        ensures { option_copied result ≡ first_by (names label) self.now }
    {
        let Some(place) = self.index.first(label) else {
            return None;
        };
        self.packets.get(&place)
    }

    /// Takes the first packet that the label names.
    pub(crate) fn take_first(&mut self, label: Label) -> Option<Packet>
        ensures taken { result ≡ first_by (names label) self.old }
        ensures left { self.new ≡ without_first (names label) self.old }
    {
        let Some(place) = self.index.first(label) else {
            return None;
        };
        let Some(packet) = self.packets.remove(&place) else {
            unreachable!()
        };
        self.index.remove(&packet, place);
        Some(packet)
    }

    /// Where the first packet stands that the label names.
    pub(crate) fn position(&self, label: Label) -> Option<usize>
        ensures first { result ≡ position (names label) self.now }
        ensures small { IfSome result (λ i. i < 2 ^ 63) }
    {
        self.packets.values().position(|packet| label.names(packet))
    }

    /// The packet at this index.
    pub(crate) fn get(&self, index: usize) -> &Packet
        requires { index < length self.now }
        ensures { slice_get self.now index ≡ Some result.now }
    {
        let Some(packet) = self.packets.values().nth(index) else {
            unreachable!()
        };
        packet
    }

    /// Takes the packet at this index.
    pub(crate) fn take(&mut self, index: usize) -> Packet
        requires { index < length self.old }
        ensures taken { slice_get self.old index ≡ Some result }
        ensures left { self.new ≡ remove self.old index }
    {
        let taken = place_at(&self.packets, index);
        let Some(packet) = self.packets.remove(&taken) else {
            unreachable!()
        };
        self.index.remove(&packet, taken);
        packet
    }

    /// The packets, one after another.
    pub(crate) fn values(&self) -> Values<'_, u64, Packet>
        ensures { result ≡ self.now }
    {
        self.packets.values()
    }

    /// The number of the last packet of this source.
    pub(crate) fn last_number(&self, source: u8) -> Option<u32>
        ensures { result ≡ last_number source self.now }
    {
        let mut left = self.packets.values();
        while let Some(packet) = left.next_back() {
            if packet.source == source {
                return Some(packet.number);
            }
        }
        None
    }
}

// The place of the packet at this index.
fn place_at(packets: &BTreeMap<u64, Packet, Heap>, index: usize) -> u64
    requires { index < length (keys packets.now) }
    ensures { slice_get (keys packets.now) index ≡ Some result }
{
    let Some(place) = packets.keys().nth(index) else {
        unreachable!()
    };
    *place
}

// A place behind those of all packets. There is none behind the greatest
// number, which no run comes to.
fn place_behind(packets: &BTreeMap<u64, Packet, Heap>) -> Option<u64>
    ensures { IfSome result (λ place. All (λ q. q < place) (keys packets.now)) }
{
    match packets.last_key_value() {
        None => Some(0),
        Some((last, _)) => last.checked_add(1),
    }
}
