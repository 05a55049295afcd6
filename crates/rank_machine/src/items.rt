//! The items of one array.
ghost use Rattle.std.specs.Prelude.{◌≡◌, ◌<◌, ◌≤◌, ◌++◌, IfOk, length, map, pos, replicate, slice_set};
ghost use Rattle.limits.specs.Limits.{most_items};
ghost use Rattle.rank_text.specs.Checker.SeenLines.{arrays_seen};
ghost use Rattle.rank_language.specs.Program.{AllSized};
ghost use Rattle.rank_machine.specs.Values.{item_at, index_in};
ghost use Rattle.rank_machine.specs.Acts.{overwritten};

use crate::fault::MachineFault;
use limits::Heap;
use matching::PacketItems;
use rank_language::Array;
use std::alloc::AllocError;
use std::marker::Model;

/// The items of one array, 1 to 256; their number never changes.
#[derive(Drop)]
pub struct Items {
    items: Vec<i64, Heap>,
}

impl Model for Items {
    ghost use Rattle.std.specs.Prelude.{◌≤◌, List, ℤ, length};
    ghost use Rattle.limits.specs.Limits.{most_items};

    ghost Value = { List ℤ };

    ghost view = { λ a. a.items.items };

    ghost invariant = { λ a. (1 ≤ length a.items.items) × (length a.items.items ≤ most_items) };
}

// Lists of arrays are copied by the calls of `std`.
impl Clone for Items {
    ghost is_clone = { λ items clone. clone ≡ items };

    fn clone(&self) -> Result<Items, AllocError> {
        let alloc = *self.items.allocator();
        Ok(Items {
            items: self.items.as_slice().to_vec(alloc)?,
        })
    }
}

impl Items {
    /// So many items, each of them 0.
    pub fn new(alloc: Heap, length: usize) -> Result<Items, AllocError>
        requires least { 1 ≤ length }
        requires most { length ≤ most_items }
        ensures { IfOk result (λ items. items ≡ replicate length (pos 0)) }
    {
        Ok(Items {
            items: vec![in alloc; 0i64; length]?,
        })
    }

    /// These items, 1 to `MOST_ITEMS` of `limits`.
    pub fn of(items: Vec<i64, Heap>) -> Items
        requires least { 1 ≤ length items.items }
        requires most { length items.items ≤ most_items }
        ensures { result ≡ items.items }
    {
        Items { items }
    }

    /// The items in order.
    pub fn as_slice(&self) -> &[i64]
        ensures { result.now ≡ self.now }
    {
        &self.items
    }

    pub fn len(&self) -> usize
        ensures count { result ≡ length self.now }
        ensures least { 1 ≤ result }
        ensures most { result ≤ most_items }
    {
        self.items.len()
    }

    /// The index of an item; one outside is a fault.
    pub fn index_of(&self, value: i64) -> Result<usize, MachineFault>
        ensures index { result ≡ index_in self.now value }
        ensures within { IfOk result (λ index. index < length self.now) }
    {
        if value < 0 {
            return Err(MachineFault::Index);
        }
        let index = value as usize;
        if index < self.items.len() {
            Ok(index)
        } else {
            Err(MachineFault::Index)
        }
    }

    /// The item at an index; one outside is a fault.
    pub fn item_at(&self, value: i64) -> Result<i64, MachineFault>
        ensures { result ≡ item_at self.now value }
    {
        let index = self.index_of(value)?;
        Ok(self.items[index])
    }

    /// The item at an index gets a value.
    pub fn set(&mut self, index: usize, value: i64)
        requires { index < length self.old }
        ensures item { self.new ≡ slice_set self.old index value }
        ensures length { length self.new ≡ length self.old }
    {
        self.items[index] = value;
    }

    /// Items go over the first ones, and the rest stays.
    pub fn write(&mut self, items: &[i64])
        requires { length items.now ≤ length self.old }
        ensures items { self.new ≡ overwritten items.now self.old }
        ensures length { length self.new ≡ length self.old }
    {
        lay(items, &mut self.items);
    }

    /// All items go behind others.
    pub fn append_to(&self, others: &mut PacketItems) -> Result<(), AllocError>
        ensures items { IfOk result (λ _. others.new.items ≡ others.old.items ++ self.now) }
        ensures most { length self.now ≤ most_items }
    {
        others.extend_from_slice(self.items.as_slice())
    }

    /// All items, as those of a packet.
    pub fn copy(&self, alloc: Heap) -> Result<PacketItems, AllocError>
        ensures items { IfOk result (λ items. items.items ≡ self.now) }
        ensures least { IfOk result (λ items. 1 ≤ length items.items) }
        ensures most { IfOk result (λ items. length items.items ≤ most_items) }
    {
        PacketItems::from_slice(alloc, self.items.as_slice())
    }
}

// Items go over the first ones of others.
fn lay(items: &[i64], over: &mut [i64])
    requires { length items.now ≤ length over.old }
    ensures { over.new ≡ overwritten items.now over.old }
{
    over[..items.len()].copy_from_slice(items);
}

/// The items of some arrays at a rank's beginning: all are 0.
pub fn zeros(alloc: Heap, arrays: &[Array]) -> Result<Vec<Items, Heap>, AllocError>
    requires { AllSized (arrays_seen arrays.now) }
    ensures { IfOk result (λ zeros. zeros.items ≡ map (λ a. replicate a.1 (pos 0)) (arrays_seen arrays.now)) }
{
    let mut zeros = Vec::with_capacity(alloc, arrays.len())?;
    for array in arrays {
        zeros.push(Items::new(alloc, array.length)?)?;
    }
    Ok(zeros)
}
