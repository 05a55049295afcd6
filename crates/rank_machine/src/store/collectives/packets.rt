//! Packets of collectives: what a rank gives in them, and what it takes of one that comes.
ghost use Rattle.std.specs.Prelude.{◌≡◌, ◌<◌, ◌≤◌, ◌+◌, ◌++◌, List, ℤ, pos, ◌&&◌, if◌then◌else◌, Ok, Err, Some, IfOk, length, map};
ghost use Rattle.std.specs.Ordering.{int_eq};
ghost use Rattle.limits.specs.Limits.{most_collective_items, most_items};
ghost use Rattle.rank_language.specs.Seen.{buffer_of, collective_of};
ghost use Rattle.rank_language.specs.Program.{IsBufferWithin, IsCollectiveWithin};
ghost use Rattle.rank_machine.specs.declared.fault.MachineFault.{MachineFault};
ghost use Rattle.rank_machine.specs.declared.fault.MachineFault.TheVariants.{TooLong};
ghost use Rattle.rank_machine.specs.Collectives.{contents, called, part_done, kind_number, is_counted, given_by};
ghost use Rattle.rank_machine.specs.Calling.{kind_of, head_of, call_of, HasRoom};
ghost use Rattle.rank_machine.specs.Wants.{packet_items};
ghost use Rattle.rank_machine.specs.Acts.{kept, fitting, items_taken};
ghost use Rattle.rank_machine.specs.Machine.{HasStage};

use crate::call::{CollectiveCall, CollectiveKind};
use crate::fault::MachineFault;
use crate::store::Store;
use limits::Heap;
use matching::PacketItems;
use rank_language::{Buffer, Collective};
use std::alloc::AllocError;

impl Store {
    /// The items of a packet of the collective: its header, and what the rank gives.
    pub fn packet_items(
        &self,
        alloc: Heap,
        collective: &Collective,
    ) -> Result<PacketItems, AllocError>
        requires { IsCollectiveWithin (length self.now.variables) (length self.now.arrays) (collective_of collective.now) }
        ensures items { IfOk result (λ items. items.items ≡ packet_items self.now (collective_of collective.now)) }
        ensures least { IfOk result (λ items. IfOk (called self.now (collective_of collective.now)) (λ _. 3 ≤ length items.items)) }
        ensures most { IfOk result (λ items. length items.items ≤ most_collective_items) }
    {
        let mut items = PacketItems::new(alloc);
        let Ok(call) = self.called(collective) else {
            return Ok(items);
        };
        items.push(call.kind.number())?;
        items.push(i64::from(call.root))?;
        items.push(i64::from(call.ordinal))?;
        match collective {
            Collective::Barrier => {}
            Collective::Broadcast { buffer, .. } => {
                if call.root == self.rank {
                    self.append(buffer, &mut items)?;
                }
            }
            Collective::Reduce { .. } => items.push(call.value)?,
        }
        Ok(items)
    }

    // The items of the buffer go behind others.
    fn append(&self, buffer: &Buffer, items: &mut PacketItems) -> Result<(), AllocError>
        requires { IsBufferWithin (length self.now.variables) (length self.now.arrays) (buffer_of buffer.now) }
        ensures items { IfOk result (λ _. items.new.items ≡ items.old.items ++ contents self.now (buffer_of buffer.now)) }
        ensures most { length (contents self.now (buffer_of buffer.now)) ≤ most_items }
    {
        match buffer {
            Buffer::Variable(place) => items.push(self.variables[*place])?,
            Buffer::Array(place) => self.arrays[*place].append_to(items)?,
        }
        Ok(())
    }

    /// The part of the call that stands, a reception, takes the items of a packet. One that isn't
    /// of this call is the fault `CollectiveMismatch`, and only then is one longer than the buffer
    /// `TooLong`; both leave everything.
    pub fn collect(
        &mut self,
        collective: &Collective,
        call: CollectiveCall,
        packet: &[i64],
    ) -> Result<(), MachineFault>
        requires within { IsCollectiveWithin (length self.old.variables) (length self.old.arrays) (collective_of collective.now) }
        requires called { called self.old (collective_of collective.now) ≡ Ok (call_of self.old (collective_of collective.now) call) }
        requires stage { HasStage self.old (Some (head_of call)) }
        ensures taken { IfOk result (λ _. (items : List ℤ)
            × (items_taken self.old (collective_of collective.now) (head_of call) packet.now ≡ Ok items)
            × (self.new ≡ part_done (kept (collective_of collective.now) items self.old) (head_of call))) }
        ensures fault { (k : MachineFault) → result ≡ Err k
            → (items_taken self.old (collective_of collective.now) (head_of call) packet.now ≡ Err k) × (self.new ≡ self.old) }
        ensures lengths { map length self.new.arrays ≡ map length self.old.arrays }
        ensures variables { length self.new.variables ≡ length self.old.variables }
        ensures rank { self.new.rank < self.new.size }
    {
        // There is room for a reduce's value by the invariant.
        let _ = &self.rank;
        let items = given_by(call, packet)?;
        if !self.fits(collective, items) {
            return Err(MachineFault::TooLong);
        }
        self.keep(collective, items);
        self.pass(call);
        Ok(())
    }

    // Whether items fit in the collective's buffer.
    fn fits(&self, collective: &Collective, items: &[i64]) -> bool
        requires { IsCollectiveWithin (length self.now.variables) (length self.now.arrays) (collective_of collective.now) }
        ensures { fitting self.now (collective_of collective.now) items.now ≡ (if result then Ok items.now else Err TooLong) }
    {
        match collective {
            Collective::Broadcast { buffer, .. } => items.len() <= self.room(buffer),
            Collective::Barrier | Collective::Reduce { .. } => true,
        }
    }

    // The collective takes these items; a reduce has room for one value.
    fn keep(&mut self, collective: &Collective, items: &[i64])
        requires within { IsCollectiveWithin (length self.old.variables) (length self.old.arrays) (collective_of collective.now) }
        requires fits { fitting self.old (collective_of collective.now) items.now ≡ Ok items.now }
        requires room { HasRoom self.old (collective_of collective.now) items.now }
        ensures stored { self.new ≡ kept (collective_of collective.now) items.now self.old }
        ensures lengths { map length self.new.arrays ≡ map length self.old.arrays }
        ensures variables { length self.new.variables ≡ length self.old.variables }
        ensures rank { self.new.rank ≡ self.old.rank }
        ensures size { self.new.size ≡ self.old.size }
        ensures finished { self.new.finished ≡ self.old.finished }
        ensures done { self.new.done ≡ self.old.done }
    {
        match collective {
            Collective::Barrier => {}
            Collective::Broadcast { buffer, .. } => self.write(buffer, items),
            Collective::Reduce { .. } => self.gathered.push(items[0]),
        }
    }
}

// What a packet gives behind its header, if it is one of this call.
fn given_by(call: CollectiveCall, packet: &[i64]) -> Result<&[i64], MachineFault>
    ensures given { IfOk result (λ items. given_by (head_of call) packet.now ≡ Ok items.now) }
    ensures mismatch { (k : MachineFault) → result ≡ Err k → given_by (head_of call) packet.now ≡ Err k }
{
    let [kind, root, ordinal, items @ ..] = packet else {
        return Err(MachineFault::CollectiveMismatch);
    };
    if is_same(call, *kind, *root) && is_next(call, *ordinal, items) {
        Ok(items)
    } else {
        Err(MachineFault::CollectiveMismatch)
    }
}

// Whether the numbers are those of the call's kind and root.
fn is_same(call: CollectiveCall, kind: i64, root: i64) -> bool
    ensures { result ≡ (int_eq kind (pos (kind_number (kind_of call.kind))) && int_eq root (pos call.root)) }
{
    kind == call.kind.number() && root == i64::from(call.root)
}

// Whether the number is the call's ordinal, and the items are as many as packets of its kind give.
fn is_next(call: CollectiveCall, ordinal: i64, items: &[i64]) -> bool
    ensures { result ≡ (int_eq ordinal (pos call.ordinal) && is_counted (kind_of call.kind) items.now) }
{
    ordinal == i64::from(call.ordinal) && is_counted(call.kind, items)
}

// Whether packets of the kind give so many items.
fn is_counted(kind: CollectiveKind, items: &[i64]) -> bool
    ensures { result ≡ is_counted (kind_of kind) items.now }
{
    match kind {
        CollectiveKind::Barrier => items.is_empty(),
        CollectiveKind::Broadcast => true,
        CollectiveKind::Reduce(_) => items.len() == 1,
    }
}
