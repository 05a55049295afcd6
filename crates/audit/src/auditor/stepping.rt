//! Steps of one rank that the outcome has.
ghost use Rattle.std.specs.Prelude.{◌≡◌, ◌≢◌, ℕ, ◌+◌, ◌<◌, ◌≤◌, true, false, length, IfSome, IfNone, IfOk, IfErr, OnOk, IsTrue, is_ok};
ghost use Rattle.limits.specs.Limits.{greatest_clock};
ghost use Rattle.event_logger.specs.Sequential.Event.{EventValue};
ghost use Rattle.crash_free.specs.Runs.{history};
ghost use Rattle.crash_free.specs.Wanted.{WantsAt, StandsAtAct};
ghost use Rattle.audit.specs.Outcome.{OutcomeValue};
ghost use Rattle.audit.specs.Lines.{IsSorted};
ghost use Rattle.audit.specs.Counts.{AreCounted};
ghost use Rattle.audit.specs.Audits.{Keeps, GoesTo, IsSendTo, Suits, Repeats};
ghost use Rattle.audit.specs.Ahead.{AddsEvent, KeepsRows, Spends};
ghost use Rattle.audit.specs.Playing.{Plays, NoneIsOffered, IsNextEvent, IsNextLine, IsOfMessage};

use crate::auditor::{Auditor, Goal};
use crash_free::{Choice, NotAllowed};
use event_logger::{Event, Kind};
use rank_machine::Want;
use std::alloc::AllocError;

impl Auditor<'_> {
    /// Makes steps of the rank's own, at most so many, and answers how many.
    #[tactic(auto, using(crate::proofs::Steps::goes_inside))]
    pub(super) fn stride(&mut self, rank: u8, most: u32) -> u32
        requires rank { rank < length self.old.sim.machines }
        requires keeps { Keeps self.old.sim self.old.traces.items }
        ensures few { result ≤ most }
        ensures goes { GoesTo self.old.sim self.new.sim self.new.traces.items }
        ensures plays { (o : OutcomeValue) (k : ℕ) → Plays o rank (k + result) k self.old.sim self.new.sim }
        ensures stops { result < most → StandsAtAct self.new.sim.machines rank }
        ensures same { result ≡ 0 → self.new.sim ≡ self.old.sim }
        ensures rows { KeepsRows self.old.sim self.new.sim }
    {
        self.sim.stride(rank, most)
    }

    /// Makes the next act of a rank, unless the outcome doesn't have it.
    #[tactic(auto, using(crate::proofs::Steps::goes_nowhere))]
    pub(super) fn act(&mut self, rank: u8, goal: &Goal<'_>) -> Result<bool, AllocError>
        requires rank { rank < length self.old.sim.machines }
        requires keeps { Keeps self.old.sim self.old.traces.items }
        requires sorted { IsSorted (length self.old.sim.machines) goal.now.outcome.now.lines goal.now.lines.now }
        requires counted { AreCounted goal.now.outcome.now.rows goal.now.counts.now }
        ensures goes { OnOk result (GoesTo self.old.sim self.new.sim self.new.traces.items) }
        ensures made { IfOk result (λ made. made ≡ true → (k : ℕ) → Plays goal.now.outcome.now rank (k + 1) k self.old.sim self.new.sim) }
        ensures none { IfOk result (λ made. made ≡ false → StandsAtAct self.old.sim.machines rank → NoneIsOffered goal.now.outcome.now self.old.sim rank) }
        ensures same { IfOk result (λ made. made ≡ false → self.new.sim ≡ self.old.sim) }
    {
        let want = self.sim.wants(rank);
        match want {
            Want::Send { dest, .. } => self.send(rank, want, dest),
            Want::Print(value) => {
                if self.is_next_line(rank, goal, value) {
                    self.print(rank, value)
                } else {
                    Ok(false)
                }
            }
            Want::Receive(_) | Want::Probe(_) | Want::TryProbe(_) => {
                match self.next_event(rank, goal) {
                    Some(event) => self.choose(rank, want, event),
                    None => Ok(false),
                }
            }
            Want::Internal | Want::Halted | Want::Faulted(_) => Ok(false),
        }
    }

    /// The send that the rank wants.
    pub(super) fn send(&mut self, rank: u8, want: Want, dest: u8) -> Result<bool, AllocError>
        requires rank { rank < length self.old.sim.machines }
        requires dest { dest < length self.old.sim.machines }
        requires keeps { Keeps self.old.sim self.old.traces.items }
        requires wanted { WantsAt self.old.sim.machines rank want }
        requires sends { IsSendTo dest want }
        ensures goes { OnOk result (GoesTo self.old.sim self.new.sim self.new.traces.items) }
        ensures made { IfOk result (λ made. made ≡ true → (o : OutcomeValue) (k : ℕ) → Plays o rank (k + 1) k self.old.sim self.new.sim) }
        ensures rows { IfOk result (λ made. made ≡ true → KeepsRows self.old.sim self.new.sim) }
        ensures spends { IfOk result (λ made. made ≡ true → (k : ℕ) → Spends rank (k + 1) k self.old.sim self.new.sim) }
        ensures none { IfOk result (λ made. made ≡ false → (o : OutcomeValue) → NoneIsOffered o self.old.sim rank) }
        ensures same { IfOk result (λ made. made ≡ false → self.new.sim ≡ self.old.sim) }
    {
        let place = usize::from(rank);
        let Some(clock) = self.traces[place].next_clock() else {
            return Ok(false);
        };
        if !was_allowed(self.sim.act(rank, Choice::Next))? {
            return Ok(false);
        }
        self.traces[place].note_send(clock, dest)?;
        Ok(true)
    }

    /// The print that the rank wants.
    pub(super) fn print(&mut self, rank: u8, value: i64) -> Result<bool, AllocError>
        requires rank { rank < length self.old.sim.machines }
        requires keeps { Keeps self.old.sim self.old.traces.items }
        requires wanted { WantsAt self.old.sim.machines rank (Want.Print value) }
        ensures goes { OnOk result (GoesTo self.old.sim self.new.sim self.new.traces.items) }
        ensures made { IfOk result (λ made. made ≡ true → (o : OutcomeValue) → IsNextLine o self.old.sim rank value
            → (k : ℕ) → Plays o rank (k + 1) k self.old.sim self.new.sim) }
        ensures rows { IfOk result (λ made. made ≡ true → KeepsRows self.old.sim self.new.sim) }
        ensures spends { IfOk result (λ made. made ≡ true → (k : ℕ) → Spends rank (k + 1) k self.old.sim self.new.sim) }
        ensures none { IfOk result (λ made. made ≡ false → (o : OutcomeValue) → NoneIsOffered o self.old.sim rank) }
        ensures same { IfOk result (λ made. made ≡ false → self.new.sim ≡ self.old.sim) }
    {
        let place = usize::from(rank);
        let Some(clock) = self.traces[place].next_clock() else {
            return Ok(false);
        };
        if !was_allowed(self.sim.act(rank, Choice::Next))? {
            return Ok(false);
        }
        self.traces[place].note_line(clock, value)?;
        Ok(true)
    }

    /// The reception, hit or miss that the event keeps.
    pub(super) fn choose(&mut self, rank: u8, want: Want, event: Event) -> Result<bool, AllocError>
        requires rank { rank < length self.old.sim.machines }
        requires keeps { Keeps self.old.sim self.old.traces.items }
        requires wanted { WantsAt self.old.sim.machines rank want }
        ensures goes { OnOk result (GoesTo self.old.sim self.new.sim self.new.traces.items) }
        ensures made { IfOk result (λ made. made ≡ true → (o : OutcomeValue) → IsNextEvent o self.old.sim rank event
            → (k : ℕ) → Plays o rank (k + 1) k self.old.sim self.new.sim) }
        ensures rows { IfOk result (λ made. made ≡ true → AddsEvent rank event self.old.sim self.new.sim) }
        ensures spends { IfOk result (λ made. made ≡ true → (k : ℕ) → Spends rank (k + 1) k self.old.sim self.new.sim) }
        ensures none { IfOk result (λ made. made ≡ false → IsOfMessage want → (o : OutcomeValue) → IsNextEvent o self.old.sim rank event
            → NoneIsOffered o self.old.sim rank) }
        ensures same { IfOk result (λ made. made ≡ false → self.new.sim ≡ self.old.sim) }
    {
        if !suits(&want, event.kind()) {
            return Ok(false);
        }
        let Some(choice) = self.choice_of(rank, &event) else {
            return Ok(false);
        };
        let place = usize::from(rank);
        let Some(clock) = self.traces[place].next_clock() else {
            return Ok(false);
        };
        if event.receiver_clock() != clock {
            return Ok(false);
        }
        if !was_allowed(self.sim.act(rank, choice))? {
            return Ok(false);
        }
        self.traces[place].note_event(event);
        Ok(true)
    }

    /// The choice by which the rank repeats an event, if its message was sent.
    fn choice_of(&self, rank: u8, event: &Event) -> Option<Choice>
        requires rank { rank < length self.now.sim.machines }
        requires keeps { Keeps self.now.sim self.now.traces.items }
        ensures some { IfSome result (Repeats self.now.sim.run rank event.now) }
        ensures none { IfNone result ((choice : Choice) → Repeats self.now.sim.run rank event.now choice → ⊥) }
    {
        if event.kind() == Kind::Miss {
            return Some(Choice::Miss);
        }
        let source = event.sender();
        if source >= self.sim.ranks() {
            return None;
        }
        let trace = &self.traces[usize::from(source)];
        let index = trace.place_of(rank, event.sender_clock())?;
        Some(Choice::Take {
            source: u32::from(source),
            index,
        })
    }

    /// The event that the outcome has next for the rank.
    pub(super) fn next_event(&self, rank: u8, goal: &Goal<'_>) -> Option<Event>
        requires rank { rank < length self.now.sim.machines }
        requires keeps { Keeps self.now.sim self.now.traces.items }
        requires counted { AreCounted goal.now.outcome.now.rows goal.now.counts.now }
        ensures some { IfSome result (IsNextEvent goal.now.outcome.now self.now.sim rank) }
        ensures none { IfNone result ((event : EventValue) → IsNextEvent goal.now.outcome.now self.now.sim rank event → ⊥) }
    {
        let place = usize::from(rank);
        let done = self.traces[place].events();
        let outcome = goal.outcome;
        if place >= outcome.rows.len() {
            return None;
        }
        goal.counts[place].event_after(outcome.rows[place].as_slice(), done)
    }

    /// Whether the outcome's next line of the rank has its next clock and this value.
    pub(super) fn is_next_line(&self, rank: u8, goal: &Goal<'_>, value: i64) -> bool
        requires rank { rank < length self.now.sim.machines }
        requires keeps { Keeps self.now.sim self.now.traces.items }
        requires sorted { IsSorted (length self.now.sim.machines) goal.now.outcome.now.lines goal.now.lines.now }
        ensures yes { IsTrue result → IsNextLine goal.now.outcome.now self.now.sim rank value }
        ensures no { result ≡ false → IsNextLine goal.now.outcome.now self.now.sim rank value → greatest_clock ≤ length (history self.now.sim.run rank) }
    {
        let place = usize::from(rank);
        let trace = &self.traces[place];
        let Some(next) = trace.next_clock() else {
            return false;
        };
        let done = trace.lines().len();
        match goal.lines[place].as_slice().get(done) {
            Some(line) => is_line(*line, next, value),
            None => false,
        }
    }
}

/// Whether a line has this clock and this value.
fn is_line(line: (u32, i64), clock: u32, value: i64) -> bool
    ensures yes { IsTrue result → line ≡ (clock, value) }
    ensures no { result ≡ false → line ≢ (clock, value) }
{
    line.0 == clock && line.1 == value
}

/// Whether an event of this kind may come from what is wanted.
fn suits(want: &Want, kind: Kind) -> bool
    ensures yes { IsTrue result → Suits want.now kind }
    ensures no { result ≡ false → Suits want.now kind → ⊥ }
{
    match (want, kind) {
        (Want::Receive(_), Kind::Reception)
        | (Want::Probe(_), Kind::Hit)
        | (Want::TryProbe(_), Kind::Hit | Kind::Miss) => true,
        (Want::Receive(_), Kind::Hit | Kind::Miss | Kind::Misses)
        | (Want::Probe(_), Kind::Reception | Kind::Miss | Kind::Misses)
        | (Want::TryProbe(_), Kind::Reception | Kind::Misses)
        | (Want::Internal | Want::Send { .. } | Want::Print(_), _)
        | (Want::Halted | Want::Faulted(_), _) => false,
    }
}

/// Whether a choice was allowed; an `Err` means out of memory.
fn was_allowed(answer: Result<(), NotAllowed>) -> Result<bool, AllocError>
    ensures ok { IfOk result (λ allowed. allowed ≡ is_ok answer) }
    ensures refused { IfOk result (λ _. IfErr answer (λ why. why ≢ NotAllowed.Memory)) }
{
    match answer {
        Ok(()) => Ok(true),
        Err(NotAllowed::Memory) => Err(AllocError),
        Err(NotAllowed::WantsOther | NotAllowed::NotEligible | NotAllowed::Ended) => Ok(false),
    }
}
