//! What a run counts of a rank over all its lives.
ghost use Rattle.std.specs.Prelude.{◌≡◌, true, false, slice_index_or, slice_set};
ghost use Rattle.rank_threads.specs.Tally.{new_tally, one_more, begun_again, after_steps, is_last_idle, after_idle, after_wait};

use crate::life::KillToken;
use crate::shared::{ClearedMark, SetMark};
use limits::MOST_RANKS;
use rank_node::NodeFault;

/// A wait in which others had the rank's core counts as so many idle turns:
/// about as many as would have gone by meanwhile.
const TURNS_OF_WAIT: u32 = 8;

/// What a run counts of a rank over all its lives.
#[derive(Clone, Copy)]
pub struct Tally {
    /// Frames put into lanes.
    pub put: u64,
    /// Frames taken out of lanes, or dropped there at a crash.
    pub taken: u64,
    pub steps: u32,
    pub crashes: u64,
    /// Idle turns in succession.
    pub idle: u32,
    /// Whether the rank's mark is set.
    pub is_marked: bool,
    /// Whether something may be outgoing.
    pub may_owe: bool,
    /// Whether the last step was blocked, and no frame has come since.
    pub is_blocked: bool,
    /// Whether a limit was reached, so that the rank steps no more.
    pub is_spent: bool,
    /// Whether the logger refused an event of the rank, which is spent then.
    pub is_refused: bool,
    /// Of each row, the clock of the last event that the rank read there.
    pub seen: [u32; MOST_RANKS],
    /// Why the rank can't go on.
    pub fault: Option<NodeFault>,
}

impl Tally {
    /// Nothing is counted yet.
    pub fn new() -> Tally
        ensures { result ≡ new_tally }
    {
        Tally {
            put: 0,
            taken: 0,
            steps: 0,
            crashes: 0,
            idle: 0,
            is_marked: false,
            may_owe: true,
            is_blocked: false,
            is_spent: false,
            is_refused: false,
            seen: [0; MOST_RANKS],
            fault: None,
        }
    }

    /// The rank was refused by a limit.
    pub fn spend(&mut self)
        ensures { self.new ≡ record self.old { is_spent = true } }
    {
        self.is_spent = true;
    }

    /// The logger refused an event of the rank, which steps no more.
    pub fn refuse_event(&mut self)
        ensures { self.new ≡ record self.old { is_spent = true; is_refused = true } }
    {
        self.is_spent = true;
        self.is_refused = true;
    }

    /// The rank made so many steps, of which `most` are allowed. Only an act
    /// can leave something to put.
    pub fn count_steps(&mut self, made: u32, most: u32, is_act: bool)
        ensures { self.new ≡ after_steps self.old made most is_act }
    {
        self.may_owe = self.may_owe || is_act;
        self.steps = self.steps.saturating_add(made);
        if self.steps >= most {
            self.is_spent = true;
        }
    }

    /// A frame was put into a lane.
    pub fn count_put(&mut self)
        ensures { self.new ≡ record self.old { put = one_more self.old.put } }
    {
        self.put = self.put.saturating_add(1);
    }

    /// A frame was taken out of a lane, which may be answered.
    pub fn count_taken(&mut self)
        ensures { self.new ≡ record self.old { taken = one_more self.old.taken; may_owe = true; is_blocked = false } }
    {
        self.taken = self.taken.saturating_add(1);
        self.may_owe = true;
        self.is_blocked = false;
    }

    /// The script kills the rank.
    pub fn count_crash(&mut self, _: &KillToken)
        ensures { self.new ≡ record self.old { crashes = one_more self.old.crashes } }
    {
        self.crashes = self.crashes.saturating_add(1);
    }

    /// A new life begins: it asks every rank.
    pub fn begin_again(&mut self)
        ensures { self.new ≡ begun_again self.old }
    {
        self.may_owe = true;
        self.is_blocked = false;
        self.idle = 0;
    }

    /// The step was blocked: only a frame can change that.
    pub fn block(&mut self)
        ensures { self.new ≡ record self.old { is_blocked = true } }
    {
        self.is_blocked = true;
    }

    /// The rank's mark was set, with what it has put and taken, where it owes no
    /// other a frame.
    pub fn mark(&mut self, _marked: SetMark)
        requires owes { self.old.may_owe ≡ false }
        requires put { _marked.put ≡ self.old.put }
        requires taken { _marked.taken ≡ self.old.taken }
        ensures { self.new ≡ record self.old { is_marked = true } }
    {
        self.is_marked = true;
    }

    /// The rank's mark was taken back.
    pub fn unmark(&mut self, _: ClearedMark)
        ensures { self.new ≡ record self.old { is_marked = false } }
    {
        self.is_marked = false;
    }

    pub fn set_owing(&mut self, may_owe: bool)
        ensures { self.new ≡ record self.old { may_owe = may_owe } }
    {
        self.may_owe = may_owe;
    }

    /// A turn wasn't idle: idle turns are counted anew.
    pub fn end_idleness(&mut self)
        ensures { self.new ≡ record self.old { idle = 0 } }
    {
        self.idle = 0;
    }

    /// Others had the rank's core after an idle turn, which counts as some
    /// idle turns more.
    pub fn count_wait(&mut self)
        ensures { self.new ≡ after_wait self.old }
    {
        self.idle = self.idle.saturating_add(TURNS_OF_WAIT);
    }

    /// An idle turn is counted. Answers whether it is the last of `most` in
    /// succession; if so, they are counted anew.
    pub fn count_idle(&mut self, most: u32) -> bool
        ensures last { result ≡ is_last_idle self.old most }
        ensures counted { self.new ≡ after_idle self.old most }
    {
        self.idle = self.idle.saturating_add(1);
        if self.idle < most {
            return false;
        }
        self.idle = 0;
        true
    }

    /// The clock of the last event that was read in this row.
    pub fn seen_in(&self, of: u8) -> u32
        ensures { result ≡ slice_index_or self.now.seen of 0 }
    {
        self.seen.get(usize::from(of)).copied().unwrap_or(0)
    }

    /// The last event that was read in this row has this clock.
    #[tactic(auto, using(crate::proofs::LaneLists::set_past))]
    pub fn note_seen(&mut self, of: u8, clock: u32)
        ensures { self.new ≡ record self.old { seen = slice_set self.old.seen of clock } }
    {
        let of = usize::from(of);
        if of < self.seen.len() {
            self.seen[of] = clock;
        }
    }
}
