//! The run that keeps to an outcome as far as its ranks can.
ghost use Rattle.std.specs.Prelude.{◌≤◌};
ghost use Rattle.limits.specs.Limits.{most_ranks};

use audit::{Line, Outcome};
use crash_free::send_index::Sends;
use crash_free::{Act, Choice, NotAllowed, Passed, Sim};
use event_logger::{Event, Kind};
use limits::{Heap, MOST_RANKS};
use matching::Selector;
use rank_language::Program;
use rank_machine::Want;
use std::alloc::AllocError;

/// How far a rank has come.
#[derive(Clone, Copy)]
struct FollowedRank {
    /// Of its last act.
    clock: u32,
    /// Steps that it may still make.
    left: u32,
    /// How many events of its row it has made.
    events: usize,
    /// Where its next line stands in the outcome, behind all lines where it has none.
    line: usize,
}

/// A run without crashes that keeps to an outcome. Ranks go on in turn, each as
/// far as its row and its lines let it, until none can.
#[derive(Drop)]
pub(crate) struct Follower<'a, 'p> {
    pub(crate) run: Sim<'p>,
    outcome: &'a Outcome,
    seats: [FollowedRank; MOST_RANKS],
    /// Each send, by the clock of its act.
    sends: Sends,
    /// Whether there was memory for all of it. If not, no rank goes on.
    pub(crate) room: Result<(), AllocError>,
}

// Of a rank that isn't there.
const EMPTY: FollowedRank = FollowedRank {
    clock: 0,
    left: 0,
    events: 0,
    line: usize::MAX,
};

// Where the rank's first line from there on stands, behind all lines where it has none.
fn line_from(lines: &[Line], rank: u8, first: usize) -> usize {
    for index in first..lines.len() {
        if lines[index].rank == rank {
            return index;
        }
    }
    lines.len()
}

// No rank has made an act, and each may make so many steps.
fn seats_of(outcome: &Outcome, ranks: u8, steps: u32) -> [FollowedRank; MOST_RANKS] {
    let mut seats = [EMPTY; MOST_RANKS];
    for rank in 0..ranks {
        if let Some(seat) = seats.get_mut(usize::from(rank)) {
            seat.left = steps;
            seat.line = line_from(outcome.lines.as_slice(), rank, 0);
        }
    }
    seats
}

impl<'a, 'p> Follower<'a, 'p> {
    /// The run in which nobody can go on any more.
    pub(crate) fn new(
        alloc: Heap,
        program: &'p Program,
        ranks: u8,
        outcome: &'a Outcome,
        steps: u32,
    ) -> Result<Follower<'a, 'p>, AllocError>
        requires some { 1 ≤ ranks }
        requires few { ranks ≤ most_ranks }
    {
        let sends = Sends::new(alloc)?;
        let mut follower = Follower {
            run: Sim::new(alloc, program, ranks)?,
            outcome,
            seats: seats_of(outcome, ranks, steps),
            sends,
            room: Ok(()),
        };
        follower.play();
        Ok(follower)
    }

    fn play(&mut self) {
        for _ in 0..u64::MAX {
            if !self.round() {
                return;
            }
        }
    }

    // Whether some rank could go on.
    fn round(&mut self) -> bool {
        let mut moved = false;
        for rank in 0..self.run.ranks() {
            moved |= self.go_on(rank);
        }
        moved
    }

    // Whether the rank could go on.
    fn go_on(&mut self, rank: u8) -> bool {
        let mut moved = false;
        for _ in 0..u64::MAX {
            if !self.step(rank) {
                break;
            }
            moved = true;
        }
        moved
    }

    // Makes steps of the rank's own and one act, and answers whether the act was made.
    fn step(&mut self, rank: u8) -> bool {
        let left = self.left(rank);
        if left == 0 || rank >= self.run.ranks() {
            return false;
        }
        let made = self.run.stride(rank, left);
        if let Some(seat) = self.seats.get_mut(usize::from(rank)) {
            seat.left = left.saturating_sub(made);
        }
        made < left && self.act(rank)
    }

    fn act(&mut self, rank: u8) -> bool {
        match self.wants(rank) {
            Want::Send { .. } => self.make(rank, Choice::Next),
            Want::Print(value) => self.print(rank, value),
            Want::Receive(selector) => self.choose(rank, &selector, Kind::Reception),
            Want::Probe(selector) => self.choose(rank, &selector, Kind::Hit),
            Want::TryProbe(selector) => {
                self.choose(rank, &selector, Kind::Hit) || self.miss(rank)
            }
            Want::Internal | Want::Halted | Want::Faulted(_) => false,
        }
    }

    fn print(&mut self, rank: u8, value: i64) -> bool {
        match self.next_line(rank) {
            Some(line) if line.clock == self.next_clock(rank) && line.value == value => {
                self.make(rank, Choice::Next)
            }
            Some(_) | None => false,
        }
    }

    // Takes or finds the message of the rank's next event, if it is of this kind.
    fn choose(&mut self, rank: u8, selector: &Selector, kind: Kind) -> bool {
        let Some(event) = self.next_event(rank) else {
            return false;
        };
        if event.kind() != kind || event.receiver_clock() != self.next_clock(rank) {
            return false;
        }
        let source = event.sender();
        let Some(place) = self.place(rank, selector, source) else {
            return false;
        };
        if self.sent_at(rank, source, place) != Some(event.sender_clock() as usize) {
            return false;
        }
        let choice = Choice::Take {
            source: u32::from(source),
            index: place,
        };
        self.make(rank, choice)
    }

    fn miss(&mut self, rank: u8) -> bool {
        match self.next_event(rank) {
            Some(event)
                if event.kind() == Kind::Miss && event.receiver_clock() == self.next_clock(rank) =>
                { self.make(rank, Choice::Miss) }
            Some(_) | None => false,
        }
    }

    // Whether the choice was allowed.
    fn make(&mut self, rank: u8, choice: Choice) -> bool {
        if self.room.is_err() || rank >= self.run.ranks() {
            return false;
        }
        match self.run.act(rank, choice) {
            Ok(()) => {
                self.note(rank);
                true
            }
            Err(NotAllowed::Memory) => {
                self.room = Err(AllocError);
                false
            }
            Err(NotAllowed::WantsOther | NotAllowed::NotEligible | NotAllowed::Ended) => false,
        }
    }

    // Notes the act that the rank made last.
    fn note(&mut self, rank: u8) {
        let outcome = self.outcome;
        let Some(passed) = self.run.acts().last() else {
            return;
        };
        let Some(seat) = self.seats.get_mut(usize::from(rank)) else {
            return;
        };
        seat.clock = seat.clock.saturating_add(1);
        seat.left = seat.left.saturating_sub(1);
        match &passed.act {
            Act::Sends { .. } => self.room = self.sends.note(passed, seat.clock as usize),
            Act::Prints(_) => {
                let behind = seat.line.saturating_add(1);
                seat.line = line_from(outcome.lines.as_slice(), rank, behind);
            }
            Act::Takes { .. } | Act::Hits { .. } | Act::Misses => {
                seat.events = seat.events.saturating_add(1);
            }
        }
    }

    // The place, from 1, of the source's message that the rank would take or find.
    fn place(&self, rank: u8, selector: &Selector, source: u8) -> Option<u64> {
        let ranks = self.run.ranks();
        if rank >= ranks || source >= ranks {
            return None;
        }
        match self.run.eligible(rank, selector, source) {
            Some(index) => (index as u64).checked_add(1),
            None => None,
        }
    }

    // The clock of the source's message of this place, from 1, to the rank.
    fn sent_at(&self, rank: u8, source: u8, place: u64) -> Option<usize> {
        let act = Act::Takes { source, place };
        self.sends.send_for(&Passed { rank, act })
    }
}

/// Where a rank stands.
impl Follower<'_, '_> {
    /// What the rank wants; `Halted` of one that isn't there.
    pub(crate) fn wants(&self, rank: u8) -> Want {
        if rank >= self.run.ranks() {
            return Want::Halted;
        }
        self.run.wants(rank)
    }

    /// The position in the program at which the rank stands.
    pub(crate) fn position(&self, rank: u8) -> Option<usize> {
        if rank >= self.run.ranks() {
            return None;
        }
        Some(self.run.machine(rank).position())
    }

    /// The clock of the message of this source that the rank would take or find.
    pub(crate) fn eligible(&self, rank: u8, selector: &Selector, source: u8) -> Option<usize> {
        match self.place(rank, selector, source) {
            Some(place) => self.sent_at(rank, source, place),
            None => None,
        }
    }

    // How far the rank has come.
    fn seat(&self, rank: u8) -> FollowedRank {
        match self.seats.get(usize::from(rank)) {
            Some(seat) => *seat,
            None => EMPTY,
        }
    }

    /// How many steps the rank may still make.
    pub(crate) fn left(&self, rank: u8) -> u32 {
        self.seat(rank).left
    }

    /// The clock of the rank's next act.
    pub(crate) fn next_clock(&self, rank: u8) -> u32 {
        self.seat(rank).clock.saturating_add(1)
    }

    /// The rank's next event in the outcome.
    pub(crate) fn next_event(&self, rank: u8) -> Option<Event> {
        let outcome = self.outcome;
        match outcome.rows.get(usize::from(rank)) {
            Some(row) => row.get(self.seat(rank).events).copied(),
            None => None,
        }
    }

    /// The rank's next line in the outcome.
    pub(crate) fn next_line(&self, rank: u8) -> Option<Line> {
        let outcome = self.outcome;
        outcome.lines.get(self.seat(rank).line).copied()
    }
}
