//! Walks over slots.
ghost use Rattle.std.specs.Prelude.{◌≡◌, ◌≤◌, true, None, length, position, slice_index_or};
ghost use Rattle.crash_free.specs.Slots.{passes};
ghost use Rattle.crash_free.specs.Index.{passes_at, AreEmptyBefore};

use matching::{Packet, Selector};

/// The first slot that holds what the selector names. Those before the front are empty.
#[tactic(auto, using(crate::proofs::Walking::none_before, crate::proofs::Walking::no_more, crate::proofs::Walking::first_is, crate::proofs::Walking::none_is))]
pub fn first_from(front: usize, slots: &[Option<Packet>], selector: &Selector) -> Option<usize>
    requires { AreEmptyBefore front slots.now }
    ensures { result ≡ position (passes selector.now) slots.now }
{
    let mut place = front;
    while place < slots.len() {
        if passes_at(slots, place, selector) {
            return Some(place);
        }
        place += 1;
    }
    None
}

/// The front, moved past the slots there that are empty.
#[tactic(auto, using(crate::proofs::Walking::one_more_empty))]
pub fn moved(front: usize, slots: &[Option<Packet>]) -> usize
    requires within { front ≤ length slots.now }
    requires empty { AreEmptyBefore front slots.now }
    ensures within { result ≤ length slots.now }
    ensures empty { AreEmptyBefore result slots.now }
{
    let mut place = front;
    while place < slots.len() && is_empty_at(slots, place) {
        place += 1;
    }
    place
}

/// Whether the selector names what the slot at the place holds.
pub fn passes_at(slots: &[Option<Packet>], place: usize, selector: &Selector) -> bool
    ensures { result ≡ passes_at selector.now slots.now place }
{
    let Some(slot) = slots.get(place) else {
        return false;
    };
    passes(slot, selector)
}

/// Whether the slot at the place is empty, or there is none.
pub fn is_empty_at(slots: &[Option<Packet>], place: usize) -> bool
    ensures { result ≡ true → slice_index_or slots.now place None ≡ None }
{
    match slots.get(place) {
        Some(slot) => slot.is_none(),
        None => true,
    }
}

fn passes(slot: &Option<Packet>, selector: &Selector) -> bool
    ensures { result ≡ passes selector.now slot.now }
{
    match slot {
        Some(packet) => selector.matches(packet),
        None => false,
    }
}
