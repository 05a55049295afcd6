//! Which rank takes its turn next, where all take their turns on one thread.
ghost use Rattle.std.specs.Prelude.{◌≡◌, ◌<◌, ◌≤◌, ℕ, false, true, IfSome, IsNone, length, slice_index_or};
ghost use Rattle.rank_threads.specs.Seats.{AreGone, is_gone};
ghost use Rattle.rank_threads.specs.declared.life.seat.Seat.{Seat};

use crate::life::Seat;
use rand::RngExt;
use rand_pcg::Pcg32;

/// In which order ranks take their turns. Only those are chosen that are still
/// there, and each of them is again and again.
#[derive(Clone, Copy)]
pub enum Policy {
    /// One after another, in their order.
    RoundRobin,
    /// Any of them, each as likely as another.
    Uniform,
    /// One of them is held for long, as the others go on; and then another.
    Starve,
    /// A rank goes on until it finds nothing to do, and then another.
    RunOn,
    /// A rank that has crashed goes on alone until it is back, as long as it finds
    /// something to do.
    RecoveryFirst,
}

/// The order of all turns of a run: it follows from this, and from the run,
/// whatever the machine.
#[derive(Clone, Copy)]
pub struct Schedule {
    pub policy: Policy,
    pub seed: u64,
    /// How many turns there are at most, of all ranks together.
    pub turns: u64,
}

/// A rank is held for at most so many turns of others.
const LONGEST_HOLD: u32 = 4096;

/// Chooses whose turn it is.
#[derive(Drop)]
pub struct Chooser {
    policy: Policy,
    rng: Pcg32,
    /// Whose turn was last.
    last: usize,
    /// Whether it found nothing to do.
    was_idle: bool,
    /// Who is held, and for how many turns yet.
    held: usize,
    hold: u32,
}

impl Chooser {
    /// One that has chosen nobody yet.
    pub fn new(policy: Policy, seed: u64) -> Chooser {
        Chooser {
            policy,
            rng: Pcg32::new(seed, 0),
            last: usize::MAX,
            was_idle: true,
            held: 0,
            hold: 0,
        }
    }

    /// Whose turn it is: somebody who is still there, as long as there is one.
    pub fn next(&mut self, seats: &[Seat<'_, '_>]) -> Option<usize>
        ensures there { IfSome result (λ at. at < length seats.now) }
        ensures left { IfSome result (λ at. (other : Seat) → is_gone (slice_index_or seats.now at other) ≡ false) }
        ensures none { IsNone result → AreGone seats.now }
    {
        let wish = self.wish(seats);
        match next_from(seats, wish) {
            Some(at) => Some(at),
            None => next_from(seats, 0),
        }
    }

    /// It took its turn, and found something to do or nothing.
    pub fn note(&mut self, at: usize, is_idle: bool) {
        self.last = at;
        self.was_idle = is_idle;
    }

    // Whom the policy would have: that one or, if it has left, the next one that hasn't.
    fn wish(&mut self, seats: &[Seat<'_, '_>]) -> usize {
        match self.policy {
            Policy::RoundRobin => self.last.wrapping_add(1),
            Policy::Uniform => self.any(seats, usize::MAX),
            Policy::Starve => self.any_but_held(seats),
            Policy::RunOn => self.last_or_any(seats),
            Policy::RecoveryFirst => self.recovering_or_any(seats),
        }
    }

    // Any of those that are there, but this one.
    fn any(&mut self, seats: &[Seat<'_, '_>], but: usize) -> usize {
        let many = others(seats, but);
        if many == 0 {
            return but;
        }
        let draw = self.rng.random_range(0..many);
        other_at(seats, but, draw)
    }

    fn any_but_held(&mut self, seats: &[Seat<'_, '_>]) -> usize {
        if self.hold == 0 {
            self.held = self.any(seats, usize::MAX);
            self.hold = self.rng.random_range(1..=LONGEST_HOLD);
        }
        self.hold = self.hold.saturating_sub(1);
        self.any(seats, self.held)
    }

    fn last_or_any(&mut self, seats: &[Seat<'_, '_>]) -> usize {
        if self.was_idle {
            return self.any(seats, self.last);
        }
        self.last
    }

    fn recovering_or_any(&mut self, seats: &[Seat<'_, '_>]) -> usize {
        if self.was_idle {
            return self.any(seats, usize::MAX);
        }
        match recovering(seats) {
            Some(at) => at,
            None => self.any(seats, usize::MAX),
        }
    }
}

// The first from this place on that hasn't left.
fn next_from(seats: &[Seat<'_, '_>], first: usize) -> Option<usize>
    ensures there { IfSome result (λ at. at < length seats.now) }
    ensures left { IfSome result (λ at. (other : Seat) → is_gone (slice_index_or seats.now at other) ≡ false) }
    ensures none { IsNone result → (at : ℕ) (other : Seat) → first ≤ at → at < length seats.now → is_gone (slice_index_or seats.now at other) ≡ true }
{
    for at in first..seats.len() {
        if !seats[at].is_gone() {
            return Some(at);
        }
    }
    None
}

// The first that has crashed and isn't back.
fn recovering(seats: &[Seat<'_, '_>]) -> Option<usize> {
    for at in 0..seats.len() {
        if seats[at].is_recovering() {
            return Some(at);
        }
    }
    None
}

// How many but this one are there.
fn others(seats: &[Seat<'_, '_>], but: usize) -> usize {
    let mut many = 0usize;
    for at in 0..seats.len() {
        if at != but && !seats[at].is_gone() {
            many = many.saturating_add(1);
        }
    }
    many
}

// Which one of them this is, counted from 0.
fn other_at(seats: &[Seat<'_, '_>], but: usize, place: usize) -> usize {
    let mut left = place;
    for at in 0..seats.len() {
        if at != but && !seats[at].is_gone() {
            if left == 0 {
                return at;
            }
            left = left.saturating_sub(1);
        }
    }
    but
}
