//! The sends of all pairs of ranks.
ghost use Rattle.std.specs.Prelude.{◌≡◌, ◌*◌, List, [], ◌∷◌, IfOk, OnOk, length, replicate};
ghost use Rattle.limits.specs.Limits.{most_ranks};
ghost use Rattle.crash_free.specs.Runs as runs;
ghost use Rattle.crash_free.specs.SendIndex.Sends.{matching_send};
ghost use Rattle.crash_free.specs.SendIndex.Tables.{HasSends, found_at, found_by, noted, noted_by, pair};

use crate::send_index::indices::Indices;
use crate::{Act, Passed};
use limits::{Heap, MOST_RANKS};
use std::alloc::AllocError;
use std::marker::Model;

/// The sends of each ordered pair of ranks, by the indices of their acts in the
/// run, oldest first.
#[derive(Drop)]
pub struct Sends {
    of_pairs: Vec<Indices, Heap>,
}

impl Model for Sends {
    ghost use Rattle.std.specs.Prelude.{◌≡◌, ◌*◌, ℕ, List, length};
    ghost use Rattle.limits.specs.Limits.{most_ranks};

    ghost Value = { List (List ℕ) };

    ghost view = { λ s. s.of_pairs.items };

    ghost invariant = { λ s. length s.of_pairs.items ≡ most_ranks * most_ranks };
}

impl Sends {
    /// Of no acts. An `Err` means out of memory.
    #[tactic(auto, using(crate::proofs::SendIndexLaws::SendLemmas::no_sends))]
    pub fn new(alloc: Heap) -> Result<Sends, AllocError>
        ensures empty { IfOk result (λ sends. sends ≡ replicate (most_ranks * most_ranks) []) }
        ensures kept { IfOk result (λ sends. HasSends [] sends) }
    {
        let mut of_pairs = Vec::new(alloc);
        for _ in 0..MOST_RANKS * MOST_RANKS {
            of_pairs.push(Indices::new(alloc))?;
        }
        Ok(Sends { of_pairs })
    }

    /// Notes the act of this index, from 0, if it is a send between ranks that
    /// there can be. An `Err` means out of memory.
    #[tactic(auto, using(crate::proofs::SendIndexLaws::SendLemmas::notes_act))]
    pub fn note(&mut self, passed: &Passed, index: usize) -> Result<(), AllocError>
        ensures noted { OnOk result (self.new ≡ noted_by passed.now.rank passed.now.act index self.old) }
        ensures kept { OnOk result ((run : List runs.Passed) → index ≡ length run → HasSends run self.old → HasSends (passed.now ∷ run) self.new) }
    {
        match &passed.act {
            Act::Sends { dest, .. } => self.push(passed.rank, *dest, index),
            Act::Takes { .. } | Act::Hits { .. } | Act::Misses | Act::Prints(_) => Ok(()),
        }
    }

    /// The index of the act that sent the message which this one takes or finds,
    /// among those that are noted.
    #[tactic(auto, using(crate::proofs::SendIndexLaws::SendLemmas::found_is))]
    pub fn send_for(&self, passed: &Passed) -> Option<usize>
        ensures found { result ≡ found_by self.now passed.now.rank passed.now.act }
        ensures sent { (run : List runs.Passed) → HasSends run self.now → result ≡ matching_send run passed.now }
    {
        match &passed.act {
            Act::Takes { source, place } | Act::Hits { source, place } => {
                self.at(*source, passed.rank, *place)
            }
            Act::Sends { .. } | Act::Misses | Act::Prints(_) => None,
        }
    }

    fn push(&mut self, source: u8, dest: u8, index: usize) -> Result<(), AllocError>
        ensures { OnOk result (self.new ≡ noted source dest index self.old) }
    {
        if usize::from(source) < MOST_RANKS && usize::from(dest) < MOST_RANKS {
            self.of_pairs[pair(source, dest)].push(index)?;
        }
        Ok(())
    }

    // The send of the message at this place, from 1, of what one rank sent to the other.
    fn at(&self, source: u8, dest: u8, place: u64) -> Option<usize>
        ensures { result ≡ found_at self.now source dest place }
    {
        if usize::from(source) < MOST_RANKS && usize::from(dest) < MOST_RANKS {
            self.of_pairs[pair(source, dest)].at(place)
        } else {
            None
        }
    }
}

fn pair(source: u8, dest: u8) -> usize
    ensures { result ≡ pair source dest }
{
    usize::from(source) * MOST_RANKS + usize::from(dest)
}
