//! How many acts the stored events of a rank stand for.
ghost use Rattle.std.specs.Prelude.{◌≡◌, ◌≢◌, ◌<◌, ◌-◌, List, length, slice_get, true, false, IfSome, IfNone, IfOk};
ghost use Rattle.limits.specs.Limits.{greatest_clock};
ghost use Rattle.event_logger.specs.Sequential.Event.{EventValue, count_of};
ghost use Rattle.event_logger.specs.Sequential.Misses.{parts_of};
ghost use Rattle.crash_free.specs.Parts.{IsBeginning};
ghost use Rattle.audit.specs.Rows.{expand};
ghost use Rattle.audit.specs.Counts.{ends_from, AreCounted, AreTooMany, IsPlace};

use crate::outcome::Outcome;
use event_logger::{Event, Kind};
use limits::{GREATEST_CLOCK, Heap};
use std::alloc::AllocError;
use std::marker::Model;

/// After each event of a rank, how many acts it and those before it stand for.
#[derive(Drop)]
pub struct ActCounts {
    ends: Vec<u32, Heap>,
}

impl Model for ActCounts {
    ghost use Rattle.std.specs.Prelude.{ℕ, List};

    ghost Value = { List ℕ };

    ghost view = { λ c. c.ends.items };
}

impl ActCounts {
    /// Of these events, or `None` if they stand for more acts than a rank may
    /// make.
    fn of(alloc: Heap, events: &[Event]) -> Result<Option<ActCounts>, AllocError>
        ensures some { IfOk result (λ counts. IfSome counts (λ counts. counts ≡ ends_from 0 events.now)) }
        ensures none { IfOk result (λ counts. IfNone counts (greatest_clock < length (expand events.now))) }
    {
        let mut ends = Vec::new(alloc);
        let mut total = 0;
        for event in events {
            let count = event.count();
            if count > GREATEST_CLOCK - total {
                return Ok(None);
            }
            total += count;
            ends.push(total)?;
        }
        Ok(Some(ActCounts { ends }))
    }

    /// The event of the act that comes after so many, of these events.
    pub fn event_after(&self, events: &[Event], done: u32) -> Option<Event>
        requires { self.now ≡ ends_from 0 events.now }
        ensures { result ≡ slice_get (expand events.now) done }
    {
        let place = self.place_after(events, done);
        if place >= events.len() {
            return None;
        }
        let event = events[place];
        part(event, event.count(), self.ends[place] - done - 1)
    }

    /// Whether the events of the first acts, one for each, are these.
    pub fn begin_with(&self, events: &[Event], others: &[Event]) -> bool
        requires { self.now ≡ ends_from 0 events.now }
        ensures yes { result ≡ true → IsBeginning others.now (expand events.now) }
        ensures no { result ≡ false → IsBeginning others.now (expand events.now) → ⊥ }
    {
        if others.len() > self.total() as usize {
            return false;
        }
        let mut done = 0;
        while (done as usize) < others.len() {
            let Some(event) = self.event_after(events, done) else {
                return false;
            };
            if !is_same(event, others[done as usize]) {
                return false;
            }
            done += 1;
        }
        true
    }

    /// How many acts all events stand for.
    fn total(&self) -> u32
        ensures { (events : List EventValue) → self.now ≡ ends_from 0 events → result ≡ length (expand events) }
    {
        match self.ends.as_slice().last() {
            Some(end) => *end,
            None => 0,
        }
    }

    /// The place of the event that stands for the act after so many.
    fn place_after(&self, events: &[Event], done: u32) -> usize
        requires { self.now ≡ ends_from 0 events.now }
        ensures { IsPlace events.now done result }
    {
        let ends = self.ends.as_slice();
        // mostly no event before stands for several acts
        if done > 0 {
            let last = done as usize - 1;
            if last < ends.len() {
                if ends[last] == done {
                    return last + 1;
                }
            }
        }
        match ends.binary_search(&done) {
            Ok(last) => last + 1,
            Err(next) => next,
        }
    }
}

/// The event of one of so many acts that an event stands for: of that after
/// which so many come.
fn part(event: Event, count: u32, later: u32) -> Option<Event>
    requires count { count ≡ count_of event }
    requires later { later < count }
    ensures { result ≡ slice_get (parts_of event) (count - 1 - later) }
{
    match event.kind() {
        Kind::Reception | Kind::Hit | Kind::Miss => Some(event),
        Kind::Misses => Event::new(Kind::Miss, 0, 0, event.receiver_clock() - later),
    }
}

/// Of each rank's row, or `None` if one stands for more acts than a rank may
/// make.
pub fn count(alloc: Heap, outcome: &Outcome) -> Result<Option<Vec<ActCounts, Heap>>, AllocError>
    ensures some { IfOk result (λ all. IfSome all (λ all. AreCounted outcome.now.rows all.items)) }
    ensures none { IfOk result (λ all. IfNone all (AreTooMany outcome.now.rows)) }
{
    let mut all = Vec::new(alloc);
    for row in outcome.rows.as_slice() {
        let Some(counts) = ActCounts::of(alloc, row.as_slice())? else {
            return Ok(None);
        };
        all.push(counts)?;
    }
    Ok(Some(all))
}

fn is_same(event: Event, other: Event) -> bool
    ensures yes { result ≡ true → event ≡ other }
    ensures no { result ≡ false → event ≢ other }
{
    event == other
}
