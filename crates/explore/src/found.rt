//! The outcomes that a search has found, each once.
ghost use Rattle.std.specs.Prelude.{◌≡◌, ◌≢◌, ◌<◌, [], true, false, List, Some, IfSome, IsNone, OnErr, OnOk, length, slice_get};
ghost use Rattle.crash_free.specs.declared.leftover.Leftover.{Leftover};
ghost use Rattle.explore.specs.Explored.{listed_left, rank_outcomes};
ghost use Rattle.explore.specs.Found.{AddsLeft, AreGrouped, hash_of};
ghost use Rattle.explore.specs.Outcomes.{IsAmong};
ghost use Rattle.explore.specs.Searching.{Notes};

mod hashing;

use crate::explored::{FoundOutcome, are_same};
use crate::found::hashing::hash_of;
use crate::moves::Noted;
use audit::final_runs::RankEnd;
use crash_free::Leftover;
use limits::Heap;
use std::alloc::AllocError;
use std::collections::BTreeMap;
use std::marker::Model;

/// Outcomes, in the order in which they were found, each with what was never
/// received in runs that have it.
#[derive(Drop)]
pub struct Found {
    outcomes: Vec<FoundOutcome, Heap>,
    // where the last one of each hash is among them, so that a new one is compared with one alone
    by_hash: BTreeMap<u64, usize, Heap>,
}

impl Model for Found {
    ghost use Rattle.std.specs.Prelude.{List};
    ghost use Rattle.explore.specs.Endings.{Ending};
    ghost use Rattle.explore.specs.Found.{AreFound, endings_of};

    ghost Value = { List Ending };

    ghost view = { λ f. endings_of f.outcomes.items };

    ghost invariant = { λ f. AreFound f.outcomes.items f.by_hash };
}

impl Found {
    #[tactic(auto, using(crate::proofs::Finds::found_none))]
    pub fn new(alloc: Heap) -> Found
        ensures { result ≡ [] }
    {
        Found {
            outcomes: Vec::new(alloc),
            by_hash: BTreeMap::new(alloc),
        }
    }

    /// Notes an outcome with what was never received, and with the choices that
    /// lead to it if one of both is new. An `Err` means out of memory.
    pub fn note(
        &mut self,
        ranks: Vec<RankEnd, Heap>,
        left: Vec<Leftover, Heap>,
        choices: &[Noted],
    ) -> Result<(), AllocError>
        ensures { OnOk result (Notes self.old (record { ranks = ranks.items; left = left.items }) self.new) }
    {
        let hash = hash_of(&ranks);
        let likely = self.by_hash.get(&hash).copied();
        match place_of(&self.outcomes, likely, &ranks) {
            Some(place) => add_left(&mut self.outcomes, place, left, choices),
            None => self.add(hash, ranks, left, choices),
        }
    }

    // Notes an outcome that is new.
    fn add(
        &mut self,
        hash: u64,
        ranks: Vec<RankEnd, Heap>,
        left: Vec<Leftover, Heap>,
        choices: &[Noted],
    ) -> Result<(), AllocError>
        requires hash { hash ≡ hash_of ranks.items }
        requires new { (l : List Leftover) → IsAmong self.old (record { ranks = ranks.items; left = l }) → ⊥ }
        ensures { OnOk result (Notes self.old (record { ranks = ranks.items; left = left.items }) self.new) }
    {
        let outcome = FoundOutcome::new(ranks, choices, left)?;
        self.by_hash.insert(hash, self.outcomes.len())?;
        self.outcomes.push(outcome)?;
        Ok(())
    }

    /// The outcomes.
    #[tactic(auto, using(crate::proofs::Grouping::are_grouped))]
    pub fn into_outcomes(self) -> Vec<FoundOutcome, Heap>
        ensures { AreGrouped self (rank_outcomes result.items) (listed_left result.items) }
    {
        let Found {
            outcomes,
            by_hash: _,
        } = self;
        outcomes
    }
}

// Notes these leftovers with the outcome at this place, unless they are already.
fn add_left(
    outcomes: &mut Vec<FoundOutcome, Heap>,
    place: usize,
    left: Vec<Leftover, Heap>,
    choices: &[Noted],
) -> Result<(), AllocError>
    requires { place < length outcomes.old.items }
    ensures ok { OnOk result (AddsLeft place left.items outcomes.old.items outcomes.new.items) }
    ensures err { OnErr result (outcomes.new.items ≡ outcomes.old.items) }
{
    let outcome = &outcomes[place];
    if outcome.has_left(&left) {
        return Ok(());
    }
    let outcome = &mut outcomes[place];
    outcome.add_left(left, choices)
}

// Where the outcome stands among these, if there is a likely place. Two may have one hash, so a no
// of that isn't enough.
fn place_of(outcomes: &[FoundOutcome], likely: Option<usize>, ranks: &[RankEnd]) -> Option<usize>
    requires { IsNone likely → IsAmong (rank_outcomes outcomes.now) ranks.now → ⊥ }
    ensures some { IfSome result (λ place. slice_get (rank_outcomes outcomes.now) place ≡ Some ranks.now) }
    ensures none { IsNone result → IsAmong (rank_outcomes outcomes.now) ranks.now → ⊥ }
{
    let likely = likely?;
    if is_at(outcomes, likely, ranks) {
        return Some(likely);
    }
    find(outcomes, ranks)
}

// Whether it stands at the place.
fn is_at(outcomes: &[FoundOutcome], place: usize, ranks: &[RankEnd]) -> bool
    ensures yes { result ≡ true → slice_get (rank_outcomes outcomes.now) place ≡ Some ranks.now }
    ensures no { result ≡ false → slice_get (rank_outcomes outcomes.now) place ≢ Some ranks.now }
{
    if place >= outcomes.len() {
        return false;
    }
    let other = &outcomes[place];
    are_same(&other.ranks, ranks)
}

// Where it stands, the first place first.
fn find(outcomes: &[FoundOutcome], ranks: &[RankEnd]) -> Option<usize>
    ensures some { IfSome result (λ place. slice_get (rank_outcomes outcomes.now) place ≡ Some ranks.now) }
    ensures none { IsNone result → IsAmong (rank_outcomes outcomes.now) ranks.now → ⊥ }
{
    let mut place = 0usize;
    while place < outcomes.len() {
        if is_at(outcomes, place, ranks) {
            return Some(place);
        }
        place += 1;
    }
    None
}
