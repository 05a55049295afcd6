//! Steps of one rank whose events come while it still runs.
ghost use Rattle.std.specs.Prelude.{◌≡◌, ◌≢◌, ℕ, ◌+◌, ◌<◌, ◌≤◌, true, false, length, IfOk, OnOk};
ghost use Rattle.audit.specs.Ahead.{KeepsRows, Spends};
ghost use Rattle.audit.specs.Audits.{GoesTo, Keeps};
ghost use Rattle.audit.specs.Lines.{IsSorted};
ghost use Rattle.audit.specs.Outcome.{lines_of};
ghost use Rattle.audit.specs.Rows.{row};
ghost use Rattle.crash_free.specs.Parts.{IsBeginning};
ghost use Rattle.crash_free.specs.Runs.{printed};
ghost use Rattle.crash_free.specs.Wanted.{WantsAt};

use crate::auditor::{Auditor, Goal};
use crate::lines;
use event_logger::Event;
use limits::Heap;
use rank_machine::Want;
use std::alloc::AllocError;

impl Auditor<'_> {
    /// Makes steps of a rank as long as its events are among these, and at most so many. Answers how
    /// many of those that it may make are left.
    pub fn go_ahead(
        &mut self,
        rank: u8,
        events: &[Event],
        taken: &mut Vec<Event, Heap>,
        left: u32,
        most: u32,
    ) -> Result<u32, AllocError>
        requires rank { rank < length self.old.sim.machines }
        requires keeps { Keeps self.old.sim self.old.traces.items }
        requires taken { taken.old.items ≡ row self.old.sim.run rank }
        ensures goes { OnOk result (GoesTo self.old.sim self.new.sim self.new.traces.items) }
        ensures spends { IfOk result (λ now. Spends rank left now self.old.sim self.new.sim) }
        ensures taken { OnOk result (taken.new.items ≡ row self.new.sim.run rank) }
        ensures others { OnOk result ((q : ℕ) → q ≢ rank → row self.new.sim.run q ≡ row self.old.sim.run q) }
    {
        let least = left.saturating_sub(most);
        let mut now = left;
        while now > least {
            let made = self.stride(rank, now - least);
            now -= made;
            if now == least {
                return Ok(now);
            }
            if !self.repeat(rank, events, taken)? {
                return Ok(now);
            }
            now -= 1;
        }
        Ok(now)
    }

    // Makes the next act of a rank, unless it is an event that isn't among these.
    fn repeat(
        &mut self,
        rank: u8,
        events: &[Event],
        taken: &mut Vec<Event, Heap>,
    ) -> Result<bool, AllocError>
        requires rank { rank < length self.old.sim.machines }
        requires keeps { Keeps self.old.sim self.old.traces.items }
        requires taken { taken.old.items ≡ row self.old.sim.run rank }
        ensures goes { OnOk result (GoesTo self.old.sim self.new.sim self.new.traces.items) }
        ensures spends { IfOk result (λ made. made ≡ true → (k : ℕ) → Spends rank (k + 1) k self.old.sim self.new.sim) }
        ensures same { IfOk result (λ made. made ≡ false → self.new.sim ≡ self.old.sim) }
        ensures taken { OnOk result (taken.new.items ≡ row self.new.sim.run rank) }
        ensures others { OnOk result ((q : ℕ) → q ≢ rank → row self.new.sim.run q ≡ row self.old.sim.run q) }
    {
        let want = self.sim.wants(rank);
        match want {
            Want::Send { dest, .. } => self.send(rank, want, dest),
            Want::Print(value) => self.print(rank, value),
            Want::Receive(_) | Want::Probe(_) | Want::TryProbe(_) => {
                match events.get(taken.len()) {
                    Some(event) => self.take(rank, want, *event, taken),
                    None => Ok(false),
                }
            }
            Want::Internal | Want::Halted | Want::Faulted(_) => Ok(false),
        }
    }

    // The reception, hit or miss that the event keeps, which is taken then.
    fn take(
        &mut self,
        rank: u8,
        want: Want,
        event: Event,
        taken: &mut Vec<Event, Heap>,
    ) -> Result<bool, AllocError>
        requires rank { rank < length self.old.sim.machines }
        requires keeps { Keeps self.old.sim self.old.traces.items }
        requires wanted { WantsAt self.old.sim.machines rank want }
        requires taken { taken.old.items ≡ row self.old.sim.run rank }
        ensures goes { OnOk result (GoesTo self.old.sim self.new.sim self.new.traces.items) }
        ensures spends { IfOk result (λ made. made ≡ true → (k : ℕ) → Spends rank (k + 1) k self.old.sim self.new.sim) }
        ensures same { IfOk result (λ made. made ≡ false → self.new.sim ≡ self.old.sim) }
        ensures taken { OnOk result (taken.new.items ≡ row self.new.sim.run rank) }
        ensures others { OnOk result ((q : ℕ) → q ≢ rank → row self.new.sim.run q ≡ row self.old.sim.run q) }
    {
        if !self.choose(rank, want, event)? {
            return Ok(false);
        }
        taken.push(event)?;
        Ok(true)
    }

    /// Whether the outcome's lines of a rank begin with those that it has printed.
    pub fn begins_lines(&self, rank: u8, goal: &Goal<'_>) -> bool
        requires rank { rank < length self.now.sim.machines }
        requires keeps { Keeps self.now.sim self.now.traces.items }
        requires sorted { IsSorted (length self.now.sim.machines) goal.now.outcome.now.lines goal.now.lines.now }
        ensures yes { result ≡ true → IsBeginning (printed self.now.sim.run rank) (lines_of rank goal.now.outcome.now.lines) }
        ensures no { result ≡ false → IsBeginning (printed self.now.sim.run rank) (lines_of rank goal.now.outcome.now.lines) → ⊥ }
    {
        let place = usize::from(rank);
        lines::begin_with(goal.lines[place].as_slice(), self.traces[place].lines())
    }
}
