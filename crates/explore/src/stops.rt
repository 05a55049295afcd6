//! Stops of a run, at which a search can take it up again.
ghost use Rattle.std.specs.Prelude.{◌≡◌, ◌<◌, ◌≤◌, ℕ, [], IfOk, OnOk, length};

use crate::path::Path;
use crash_free::Point;
use limits::{Heap, MOST_RANKS};
use std::alloc::AllocError;

/// How many acts are made between two stops, or more. A stop takes a copy of all
/// machines, which costs as much as several acts, so there isn't one at each branch.
const APART: usize = 2;

/// How many stops are kept at most, besides the first.
const MOST_STOPS: usize = 32;

/// A point of a run, how many steps each rank had left there, and which were known to rest.
#[derive(Drop)]
pub struct Stop<'p> {
    pub point: Point<'p>,
    pub left: [u32; MOST_RANKS],
    pub marks: [bool; MOST_RANKS],
}

/// Stops of the run that was played last, so that a branch which goes off it is
/// taken up from near where it does.
#[derive(Drop)]
pub struct Stops<'p> {
    /// Where no act was made yet.
    first: Stop<'p>,
    /// The others, in the order of the run.
    later: Vec<Stop<'p>, Heap>,
}

impl<'p> Stops<'p> {
    ghost use Rattle.explore.specs.Counts.{Counts};
    ghost use Rattle.explore.specs.Outcomes.{IsAmong};
    ghost use Rattle.explore.specs.Stops.{AreSomeOf, CanGoBack, IsClosest, KeepsStops};

    /// One stop, at the beginning of the program. An `Err` means out of memory.
    pub fn new(alloc: Heap, path: &Path<'p>) -> Result<Stops<'p>, AllocError>
        requires { path.now.sim.run ≡ [] }
        ensures { IfOk result (λ stops. (steps : ℕ) → Counts steps path.now.sim path.now.left → CanGoBack steps path.now.sim path.now.left stops) }
    {
        Ok(Stops {
            first: stop_at(path)?,
            later: Vec::new(alloc),
        })
    }

    /// The stop behind the most acts.
    pub fn closest(&self) -> &Stop<'p>
        ensures { IsClosest self.now result.now }
    {
        let mut closest = &self.first;
        for stop in self.later.as_slice() {
            if closest.point.made() < stop.point.made() {
                closest = stop;
            }
        }
        closest
    }

    /// Drops the stops behind more than so many acts.
    pub fn drop_behind(&mut self, shared: usize)
        ensures some { AreSomeOf self.new self.old }
        ensures within { (stop : Stop) → IsAmong self.new.later.items stop → stop.point.made ≤ shared }
    {
        self.later.retain(|stop| stop.point.made() <= shared);
    }

    /// Adds a stop where the path stands, if enough acts were made since the
    /// closest. An `Err` means out of memory.
    pub fn note(&mut self, path: &Path<'p>) -> Result<(), AllocError>
        ensures { OnOk result (KeepsStops path.now.sim path.now.left self.old path.now.sim path.now.left self.new) }
    {
        let made = path.sim.as_sim().acts().len();
        if made.saturating_sub(self.closest().point.made()) < APART {
            return Ok(());
        }
        self.make_room();
        self.later.push(stop_at(path)?)?;
        Ok(())
    }

    // Drops a stop if there are as many as are kept.
    fn make_room(&mut self)
        ensures { AreSomeOf self.new self.old }
    {
        if self.later.len() >= MOST_STOPS {
            let least = self.least_needed();
            drop(self.later.remove(least));
        }
    }

    // Which of the later stops is needed least. The next branches go off near the end of the run, so
    // the stops are to be the denser the nearer they are to it. Of those whose neighbors are closer to
    // each other than half the way from there to the end this is the last one.
    fn least_needed(&self) -> usize
        requires { 0 < length self.now.later.items }
        ensures { result < length self.now.later.items }
    {
        let count = self.later.len();
        let end = self.made_by(count);
        let mut at = count - 1;
        while at > 0 {
            at -= 1;
            let next = self.made_by(at + 2);
            if next.saturating_sub(self.made_by(at)) <= end.saturating_sub(next) / 2 {
                return at;
            }
        }
        count / 2
    }

    // How many acts were made before the last of the first `count` later stops, and 0 before none.
    fn made_by(&self, count: usize) -> usize
        requires { count ≤ length self.now.later.items }
    {
        if count == 0 {
            return 0;
        }
        self.later[count - 1].point.made()
    }
}

ghost use Rattle.explore.specs.Counts.{Counts};
ghost use Rattle.explore.specs.Stops.{IsStop};

// Where the path stands.
fn stop_at<'p>(path: &Path<'p>) -> Result<Stop<'p>, AllocError>
    ensures { IfOk result (λ stop. (steps : ℕ) → Counts steps path.now.sim path.now.left
        → IsStop path.now.sim.program (length path.now.sim.machines) steps path.now.sim.run stop) }
{
    Ok(Stop {
        point: path.sim.point()?,
        left: path.left,
        marks: path.sim.marks(),
    })
}
