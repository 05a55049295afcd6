//! What a message is given of a store, and what it leaves there.
ghost use Rattle.std.specs.Prelude.{◌≡◌, ◌<◌, ◌≤◌, ◌-◌, IfOk, Ok, Some, length, map};
ghost use Rattle.limits.specs.Limits.{most_items};
ghost use Rattle.matching.specs.PacketValue.{IsPacketValue};
ghost use Rattle.rank_language.specs.Seen.{payload_of, buffer_of};
ghost use Rattle.rank_language.specs.Program.{IsPayloadWithin, IsBufferWithin};
ghost use Rattle.rank_machine.specs.Values.{value};
ghost use Rattle.rank_machine.specs.Wants.{items_of, or_nothing};
ghost use Rattle.rank_machine.specs.Acts.{room, written, with_variable, with_status, carried};

use crate::status::Status;
use crate::store::Store;
use limits::Heap;
use matching::{Packet, PacketItems};
use rank_language::{Buffer, Payload};
use std::alloc::AllocError;

impl Store {
    /// The items that a send gives; none if their evaluation faults.
    pub fn items_of(&self, alloc: Heap, payload: &Payload) -> Result<PacketItems, AllocError>
        requires { IsPayloadWithin (length self.now.variables) (length self.now.arrays) (payload_of payload.now) }
        ensures items { IfOk result (λ items. items.items ≡ or_nothing (items_of self.now (payload_of payload.now))) }
        ensures least { IfOk result (λ items. IfOk (items_of self.now (payload_of payload.now)) (λ _. 1 ≤ length items.items)) }
        ensures most { IfOk result (λ items. length items.items ≤ most_items) }
    {
        match payload {
            Payload::One(item) => {
                let mut items = PacketItems::new(alloc);
                if let Ok(value) = self.value_of(item) {
                    items.push(value)?;
                }
                Ok(items)
            }
            Payload::All(place) => self.arrays[*place].copy(alloc),
        }
    }

    /// How many items the buffer holds.
    pub fn room(&self, buffer: &Buffer) -> usize
        requires { IsBufferWithin (length self.now.variables) (length self.now.arrays) (buffer_of buffer.now) }
        ensures { result ≡ room self.now (buffer_of buffer.now) }
    {
        match buffer {
            Buffer::Variable(_) => 1,
            Buffer::Array(place) => self.arrays[*place].len(),
        }
    }

    /// The items of a message go to the buffer, and source, tag and count are the message's.
    pub fn take(&mut self, buffer: &Buffer, packet: &Packet)
        requires place { IsBufferWithin (length self.old.variables) (length self.old.arrays) (buffer_of buffer.now) }
        requires room { length packet.now.items ≤ room self.old (buffer_of buffer.now) }
        ensures stored { self.new ≡ with_status packet.now.source (carried packet.now) (written (buffer_of buffer.now) packet.now.items self.old) }
        ensures lengths { map length self.new.arrays ≡ map length self.old.arrays }
    {
        self.write(buffer, &packet.payload);
        self.show(packet);
    }

    /// Source, tag and count are the message's.
    pub fn show(&mut self, packet: &Packet)
        ensures status { self.new ≡ with_status packet.now.source (carried packet.now) self.old }
        ensures message { IsPacketValue packet.now }
    {
        self.status = Status {
            source: packet.source,
            tag: packet.tag,
            count: packet.payload.len() as u16,
        };
    }

    /// A variable gets a value.
    pub fn set(&mut self, place: usize, value: i64)
        requires { place < length self.old.variables }
        ensures { self.new ≡ with_variable place value self.old }
    {
        self.variables[place] = value;
    }

    // The items go to the beginning of the buffer, and the rest of it is left.
    #[tactic(auto, using(crate::proofs::Lengths::same_lengths))]
    pub(super) fn write(&mut self, buffer: &Buffer, items: &[i64])
        requires place { IsBufferWithin (length self.old.variables) (length self.old.arrays) (buffer_of buffer.now) }
        requires room { length items.now ≤ room self.old (buffer_of buffer.now) }
        ensures stored { self.new ≡ written (buffer_of buffer.now) items.now self.old }
        ensures lengths { map length self.new.arrays ≡ map length self.old.arrays }
        ensures variables { length self.new.variables ≡ length self.old.variables }
        ensures rank { self.new.rank ≡ self.old.rank }
        ensures size { self.new.size ≡ self.old.size }
        ensures finished { self.new.finished ≡ self.old.finished }
        ensures done { self.new.done ≡ self.old.done }
    {
        match buffer {
            Buffer::Variable(place) => {
                if let Some(item) = items.first() {
                    self.variables[*place] = *item;
                }
            }
            Buffer::Array(place) => self.arrays[*place].write(items),
        }
    }
}
