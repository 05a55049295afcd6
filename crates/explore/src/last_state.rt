//! What is known of the last state that was written.
ghost use Rattle.std.specs.Prelude.{◌≡◌, ◌≢◌, ◌+◌, ◌*◌, ◌<◌, ◌≤◌, ℕ, false, List, Some, length, reverse, slice_get, take};
ghost use Rattle.limits.specs.Limits.{most_ranks};

use crash_free::{Act, Passed};
use limits::MOST_RANKS;

/// Each rank has two parts.
const MOST_PLACES: usize = 2 * MOST_RANKS;

/// Where the parts of each rank stand among those that are kept, by the last state that was written,
/// and which ranks may stand otherwise by now. A mark too many costs time, and nothing else.
#[derive(Clone, Copy)]
pub struct LastState {
    /// Rank by rank, what it had of its own, and what it had left to receive.
    pub places: [u32; MOST_PLACES],
    /// Where the length of its run stood, which is most often that of the next one too.
    pub length_place: u32,
    /// The ranks that acted since, or to which something was sent.
    pub changed: [bool; MOST_RANKS],
    /// The rest stands as it did after so many first acts of the run.
    pub shared: usize,
}

impl LastState {
    ghost use Rattle.rank_language.specs.Program.{ProgramValue};
    ghost use Rattle.crash_free.specs.LiveVariables.Live.{Table};
    ghost use Rattle.crash_free.specs.Runs as runs;
    ghost use Rattle.crash_free.specs.Standing as standing;
    ghost use Rattle.explore.specs.LastState.{Knows, KnowsTheSameBut, Marks};

    /// Nothing is known of any rank.
    pub fn new() -> LastState
        ensures { (t : Table) (program : ProgramValue) (n : ℕ) (C : List runs.Passed) (parts : List standing.Rows) → Knows t program n C parts result }
    {
        LastState {
            places: [0; MOST_PLACES],
            length_place: 0,
            changed: [true; MOST_RANKS],
            shared: 0,
        }
    }

    /// The run has come to the end of these acts of it, the oldest first.
    pub fn catch_up(&mut self, acts: &[Passed])
        ensures knows { (t : Table) (program : ProgramValue) (n : ℕ) (C : List runs.Passed) (parts : List standing.Rows) → acts.now ≡ reverse C
            → Knows t program n C parts self.old → Knows t program n C parts self.new }
        ensures all { self.old.shared ≤ length acts.now → self.new.shared ≡ length acts.now }
    {
        while self.shared < acts.len() {
            self.mark(&acts[self.shared]);
            self.shared += 1;
        }
    }

    /// Another run shares so many first acts with the run of these.
    pub fn go_back(&mut self, acts: &[Passed], shared: usize)
        requires { self.old.shared ≤ length acts.now }
        ensures knows { (t : Table) (program : ProgramValue) (n : ℕ) (C : List runs.Passed) (parts : List standing.Rows) → acts.now ≡ reverse C
            → Knows t program n C parts self.old → Knows t program n C parts self.new }
        ensures within { self.new.shared ≤ shared }
    {
        while self.shared > shared {
            self.shared -= 1;
            self.mark(&acts[self.shared]);
        }
    }

    /// Whether the rank may stand otherwise by now.
    pub fn is_changed(&self, rank: u8) -> bool
        requires { rank < most_ranks }
        ensures { slice_get self.now.changed rank ≡ Some result }
    {
        self.changed[usize::from(rank)]
    }

    /// Where what the rank had of its own stands.
    pub fn own(&self, rank: u8) -> u32
        requires { rank < most_ranks }
    {
        self.places[2 * usize::from(rank)]
    }

    /// Where what it had left to receive stands.
    pub fn mail(&self, rank: u8) -> u32
        requires { rank < most_ranks }
    {
        self.places[2 * usize::from(rank) + 1]
    }

    /// What the rank has of its own stands at this place.
    pub fn set_own(&mut self, rank: u8, place: u32)
        requires { rank < most_ranks }
        ensures there { slice_get self.new.places (2 * rank) ≡ Some place }
        ensures others { KnowsTheSameBut rank self.old self.new }
    {
        self.places[2 * usize::from(rank)] = place;
    }

    /// What it has left to receive stands at this place.
    pub fn set_mail(&mut self, rank: u8, place: u32)
        requires { rank < most_ranks }
        ensures there { slice_get self.new.places (2 * rank + 1) ≡ Some place }
        ensures own { slice_get self.new.places (2 * rank) ≡ slice_get self.old.places (2 * rank) }
        ensures others { KnowsTheSameBut rank self.old self.new }
    {
        self.places[2 * usize::from(rank) + 1] = place;
    }

    /// The places of the parts of the first ranks, so many.
    pub fn first(&self, ranks: u8) -> &[u32]
        requires { ranks ≤ most_ranks }
        ensures { result.now ≡ take (2 * ranks) self.now.places }
    {
        &self.places[..2 * usize::from(ranks)]
    }

    // Marks the ranks whose parts the act changes.
    fn mark(&mut self, passed: &Passed)
        ensures { Marks self.old passed.now self.new }
    {
        self.mark_rank(passed.rank);
        if let Act::Sends { dest, .. } = &passed.act {
            self.mark_rank(*dest);
        }
    }

    // Marks this rank.
    fn mark_rank(&mut self, rank: u8)
        ensures places { self.new.places ≡ self.old.places }
        ensures shared { self.new.shared ≡ self.old.shared }
        ensures rest { (r : ℕ) → slice_get self.new.changed r ≡ Some false → (slice_get self.old.changed r ≡ Some false) × (rank ≢ r) }
    {
        let place = usize::from(rank);
        if place < MOST_RANKS {
            self.changed[place] = true;
        }
    }

    /// All is known: the last state was written where a run of so many acts ends.
    pub fn renew(&mut self, acts: usize)
        ensures places { self.new.places ≡ self.old.places }
        ensures shared { self.new.shared ≡ acts }
        ensures all { (r : ℕ) → r < most_ranks → slice_get self.new.changed r ≡ Some false }
    {
        self.changed = [false; MOST_RANKS];
        self.shared = acts;
    }
}
