//! Where messages of each kind stand.
ghost use Rattle.std.specs.Prelude.{◌≡◌, [], Some, IfOk, OnOk, OnErr, position};
ghost use Rattle.std.specs.Prelude.{option_copied};
ghost use Rattle.crash_free.specs.Slots.{passes};
ghost use Rattle.crash_free.specs.Index.{kind_of, queue_number, queue_of, IsListed, IsListedTwice, IsIndex, HasQueues, ListsMore, ListsSlot, StaysIndex};

use crate::mail::queue::Queue;
use limits::Heap;
use matching::{Context, Packet, Selector};
use std::alloc::AllocError;
use std::collections::BTreeMap;
use std::marker::Model;

/// For each kind of messages of one rank to another a queue of their places.
///
/// A message is of two kinds: its context with its tag, and its context with
/// any tag. So what a selector names is of one kind.
#[derive(Drop)]
pub struct Index {
    alloc: Heap,
    // which queue is that of a kind, by the number of the kind
    kinds: BTreeMap<u32, usize, Heap>,
    queues: Vec<Queue, Heap>,
}

impl Model for Index {
    ghost use Rattle.crash_free.specs.Index.{IndexValue, AreThere};

    ghost Value = { IndexValue };

    ghost view = { λ i. record { kinds = i.kinds.entries; queues = i.queues.items } };

    ghost invariant = { λ i. AreThere (record { kinds = i.kinds.entries; queues = i.queues.items }) };
}

impl Clone for Index {
    ghost is_clone = { λ index clone. clone ≡ index };

    #[tactic(auto, using(crate::proofs::Copying::same_entries))]
    fn clone(&self) -> Result<Index, AllocError> {
        Ok(Index {
            alloc: self.alloc,
            kinds: self.kinds.clone()?,
            queues: self.queues.as_slice().to_vec(self.alloc)?,
        })
    }
}

impl Index {
    pub fn new(alloc: Heap) -> Index
        ensures { result ≡ record { kinds = []; queues = [] } }
    {
        Index {
            alloc,
            kinds: BTreeMap::new(alloc),
            queues: Vec::new(alloc),
        }
    }

    /// The index of these slots.
    #[tactic(auto, using(crate::proofs::Indexing::no_slots, crate::proofs::Indexing::slot_more, crate::proofs::Indexing::all_slots))]
    pub fn of(alloc: Heap, slots: &[Option<Packet>]) -> Result<Index, AllocError>
        ensures { IfOk result (λ index. IsIndex index slots.now) }
    {
        let mut index = Index::new(alloc);
        let mut place = 0;
        while place < slots.len() {
            index.list_slot(&slots[place], place)?;
            place += 1;
        }
        Ok(index)
    }

    /// The first of these slots that the selector names.
    #[tactic(auto, using(crate::proofs::Searching::first_nowhere, crate::proofs::Searching::first_in_queue))]
    pub fn first(&self, slots: &[Option<Packet>], selector: &Selector) -> Option<usize>
        requires { IsIndex self.now slots.now }
        ensures { result ≡ position (passes selector.now) slots.now }
    {
        let queue = self.queue(selector.context, selector.tag)?;
        queue.first(slots, selector)
    }

    // The queue of what a selector with this context and tag names, if a
    // message of it was met.
    fn queue(&self, context: Context, tag: Option<u16>) -> Option<&Queue>
        ensures { option_copied result ≡ queue_of self.now (kind_of context tag) }
    {
        let queue = self.kinds.get(&kind_of(context, tag))?;
        Some(&self.queues[*queue])
    }

    /// Lists the message of this slot, behind all others.
    #[tactic(auto, using(crate::proofs::Indexing::empty_listed, crate::proofs::Indexing::slot_listed))]
    pub fn list_slot(&mut self, slot: &Option<Packet>, place: usize) -> Result<(), AllocError>
        ensures ok { OnOk result (ListsSlot self.old place slot.now self.new) }
        ensures err { OnErr result (StaysIndex self.old place self.new) }
    {
        match slot {
            Some(packet) => self.list(packet.context, packet.tag, place),
            None => Ok(()),
        }
    }

    // Lists a message, behind all others. An `Err` may leave its place in a
    // queue, where it does no harm.
    #[tactic(auto, using(crate::proofs::Putting::more_and_more))]
    fn list(&mut self, context: Context, tag: u16, place: usize) -> Result<(), AllocError>
        ensures more { ListsMore self.old place self.new }
        ensures ok { OnOk result (IsListedTwice self.new context tag place) }
    {
        self.put(kind_of(context, None), place)?;
        self.put(kind_of(context, Some(tag)), place)
    }

    /// Drops what is empty from the fronts of a message's queues.
    pub fn tidy(&mut self, context: Context, tag: u16, slots: &[Option<Packet>])
        requires { IsIndex self.old slots.now }
        ensures { IsIndex self.new slots.now }
    {
        self.tidy_kind(kind_of(context, None), slots);
        self.tidy_kind(kind_of(context, Some(tag)), slots);
    }

    #[tactic(auto, using(crate::proofs::Tidying::tidied_at))]
    fn tidy_kind(&mut self, kind: u32, slots: &[Option<Packet>])
        requires { IsIndex self.old slots.now }
        ensures { IsIndex self.new slots.now }
    {
        if let Some(queue) = self.kinds.get(&kind).copied() {
            let queue = &mut self.queues[queue];
            queue.tidy(slots);
        }
    }

    // The place goes last in the queue of the kind.
    fn put(&mut self, kind: u32, place: usize) -> Result<(), AllocError>
        ensures more { ListsMore self.old place self.new }
        ensures ok { OnOk result (IsListed self.new kind place) }
    {
        let queue = self.number(kind)?;
        let queue = &mut self.queues[queue];
        queue.push(place)
    }

    // The number of the kind's queue, which is made if there is none.
    #[tactic(auto, using(crate::proofs::Putting::same_queues, crate::proofs::Putting::queue_more, crate::proofs::Putting::queue_more_there))]
    fn number(&mut self, kind: u32) -> Result<usize, AllocError>
        ensures ok { IfOk result (λ queue. queue_number self.new kind ≡ Some queue) }
        ensures queues { HasQueues self.old self.new }
        ensures err { OnErr result (self.new ≡ self.old) }
    {
        if let Some(queue) = self.kinds.get(&kind) {
            return Ok(*queue);
        }
        let queue = self.queues.len();
        self.queues.reserve(1)?;
        self.kinds.insert(kind, queue)?;
        self.queues.push_reserved(Queue::new(self.alloc));
        Ok(queue)
    }
}

fn kind_of(context: Context, tag: Option<u16>) -> u32
    ensures { result ≡ kind_of context tag }
{
    match (context, tag) {
        (Context::PointToPoint, None) => 0,
        (Context::Collective, None) => 1,
        (Context::PointToPoint, Some(tag)) => 2 * u32::from(tag) + 2,
        (Context::Collective, Some(tag)) => 2 * u32::from(tag) + 3,
    }
}
