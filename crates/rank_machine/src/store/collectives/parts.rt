//! The parts of a call: from which other rank a rank gets, and to which it gives, one after
//! another.
ghost use Rattle.std.specs.Prelude.{◌≡◌, ◌<◌, ◌+◌, ◌^◌, Some, length, slice_get, slice_index_or};
ghost use Rattle.rank_text.specs.declared.grammar.token.Reduction.TheVariants.{Sum};
ghost use Rattle.rank_machine.specs.Collectives.{barriers, broadcasts, folds, others, ends, parts_among, part_of, is_last, parts_of};
ghost use Rattle.rank_machine.specs.Calling.{part_seen, IsPartBelow, head_of};

use crate::call::{CollectiveCall, CollectiveKind, Part};
use crate::store::Store;

impl Store {
    // The part of the call that stands.
    pub(super) fn part(&self, call: CollectiveCall) -> Part
        requires stage { self.now.done < length (parts_of self.now (head_of call)) }
        requires root { call.root < self.now.size }
        ensures part { part_seen result ≡ part_of self.now (head_of call) }
        ensures below { IsPartBelow self.now.size result }
    {
        if self.size == 1 {
            return Part::Ends;
        }
        match call.kind {
            CollectiveKind::Barrier => self.part_of_barrier(),
            CollectiveKind::Broadcast => self.part_of_broadcast(call.root),
            CollectiveKind::Reduce(_) => self.part_of_reduce(call.root),
        }
    }

    // Rank 0 hears of all others and then tells them.
    fn part_of_barrier(&self) -> Part
        requires many { ¬ (self.now.size ≡ 1) }
        requires stage { self.now.done < length (parts_among barriers 0 self.now.size self.now.rank) }
        ensures part { part_seen result ≡ slice_index_or (parts_among barriers 0 self.now.size self.now.rank) self.now.done ends }
        ensures below { IsPartBelow self.now.size result }
    {
        if self.rank != 0 {
            return if self.done == 0 {
                Part::Gives(0)
            } else {
                Part::Gets(0)
            };
        }
        let others = self.others();
        if self.done < others {
            Part::Gets(self.other(self.done))
        } else {
            Part::Gives(self.other(self.done - others))
        }
    }

    // The root tells all others.
    fn part_of_broadcast(&self, root: u8) -> Part
        requires many { ¬ (self.now.size ≡ 1) }
        requires root { root < self.now.size }
        requires stage { self.now.done < length (parts_among broadcasts root self.now.size self.now.rank) }
        ensures part { part_seen result ≡ slice_index_or (parts_among broadcasts root self.now.size self.now.rank) self.now.done ends }
        ensures below { IsPartBelow self.now.size result }
    {
        if self.rank == root {
            Part::Gives(self.other(self.done))
        } else {
            Part::Gets(root)
        }
    }

    // The root hears of all others and then folds, whatever the reduction.
    fn part_of_reduce(&self, root: u8) -> Part
        requires many { ¬ (self.now.size ≡ 1) }
        requires root { root < self.now.size }
        requires stage { self.now.done < length (parts_among (folds Sum) root self.now.size self.now.rank) }
        ensures part { part_seen result ≡ slice_index_or (parts_among (folds Sum) root self.now.size self.now.rank) self.now.done ends }
        ensures below { IsPartBelow self.now.size result }
    {
        if self.rank != root {
            return Part::Gives(root);
        }
        if self.done < self.others() {
            Part::Gets(self.other(self.done))
        } else {
            Part::Ends
        }
    }

    // How many other ranks there are.
    #[tactic(auto, using(crate::proofs::Others::others_less))]
    fn others(&self) -> u16
        ensures count { result ≡ length (others self.now.rank 0 self.now.size) }
        ensures all { result + 1 ≡ self.now.size }
    {
        u16::from(self.size) - 1
    }

    // The rank at this place among all other ranks, rising.
    #[tactic(auto, using(crate::proofs::Others::others_less, crate::proofs::Others::other_below, crate::proofs::Others::other_above))]
    fn other(&self, place: u16) -> u8
        requires { place < length (others self.now.rank 0 self.now.size) }
        ensures there { slice_get (others self.now.rank 0 self.now.size) place ≡ Some result }
        ensures below { result < self.now.size }
    {
        let rank = self.rank;
        let place = place as u8;
        if place < rank { place } else { place + 1 }
    }

    // How many parts the call has.
    pub(super) fn parts(&self, call: CollectiveCall) -> u16
        ensures { result ≡ length (parts_of self.now (head_of call)) }
    {
        if self.size == 1 {
            return 1;
        }
        match call.kind {
            CollectiveKind::Barrier => { if self.rank == 0 { 2 * self.others() } else { 2 } }
            CollectiveKind::Broadcast => {
                if self.rank == call.root {
                    self.others()
                } else {
                    1
                }
            }
            CollectiveKind::Reduce(_) => {
                if self.rank == call.root {
                    self.others() + 1
                } else {
                    1
                }
            }
        }
    }

    /// Whether the part of the call that stands is its last.
    pub fn is_last(&self, call: CollectiveCall) -> bool
        ensures last { result ≡ is_last self.now (head_of call) }
        ensures parts { length (parts_of self.now (head_of call)) < 2 ^ 16 }
    {
        u32::from(self.done) + 1 == u32::from(self.parts(call))
    }
}
