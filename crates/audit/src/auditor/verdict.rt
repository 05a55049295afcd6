//! What a run that can't go on has come to.
ghost use Rattle.std.specs.Prelude.{◌≡◌, ◌<◌, false, length, IfOk, IfErr, IfNone, IfSome, IsTrue};
ghost use Rattle.audit.specs.Outcome.{MayWant, IsWaiting};
ghost use Rattle.audit.specs.Lines.{IsSorted};
ghost use Rattle.audit.specs.Counts.{AreCounted};
ghost use Rattle.audit.specs.Audits.{Keeps, HasRow, HasLines, HasEnd, IsReached, AreReached};
ghost use Rattle.audit.specs.Playing.{IsWithin};

use crate::auditor::{Auditor, Goal};
use crate::fault::AuditFault;
use crate::outcome::End;
use rank_machine::Want;

impl Auditor<'_> {
    /// Whether each rank came to the outcome. Of several faults one that others
    /// may wait for goes before `NotEligible`, and then the lowest rank's.
    pub fn verdict(&self, goal: &Goal<'_>, left: &[u32]) -> Result<(), AuditFault>
        requires keeps { Keeps self.now.sim self.now.traces.items }
        requires sorted { IsSorted (length self.now.sim.machines) goal.now.outcome.now.lines goal.now.lines.now }
        requires counted { AreCounted goal.now.outcome.now.rows goal.now.counts.now }
        requires within { IsWithin goal.now.outcome.now self.now.sim }
        ensures ok { IfOk result (λ _. AreReached self.now.sim goal.now.outcome.now) }
        ensures err { IfErr result (λ _. length goal.now.outcome.now.rows ≡ length self.now.sim.machines
            → length goal.now.outcome.now.ends ≡ length self.now.sim.machines → AreReached self.now.sim goal.now.outcome.now → ⊥) }
    {
        let mut waits = false;
        for rank in 0..self.sim.ranks() {
            let no_steps = left.get(usize::from(rank)) == Some(&0);
            match self.fault_of(rank, goal, no_steps) {
                None => {}
                Some(AuditFault::NotEligible) => waits = true,
                Some(fault) => return Err(fault),
            }
        }
        if waits {
            Err(AuditFault::NotEligible)
        } else {
            Ok(())
        }
    }

    /// Why a rank didn't come to the outcome, if it didn't.
    fn fault_of(&self, rank: u8, goal: &Goal<'_>, no_steps: bool) -> Option<AuditFault>
        requires rank { rank < length self.now.sim.machines }
        requires keeps { Keeps self.now.sim self.now.traces.items }
        requires sorted { IsSorted (length self.now.sim.machines) goal.now.outcome.now.lines goal.now.lines.now }
        requires counted { AreCounted goal.now.outcome.now.rows goal.now.counts.now }
        requires within { IsWithin goal.now.outcome.now self.now.sim }
        ensures none { IfNone result (IsReached self.now.sim goal.now.outcome.now rank) }
        ensures some { IfSome result (λ _. rank < length goal.now.outcome.now.rows
            → rank < length goal.now.outcome.now.ends → IsReached self.now.sim goal.now.outcome.now rank → ⊥) }
    {
        if self.is_reached(rank, goal) {
            return None;
        }
        if no_steps {
            return Some(AuditFault::Budget);
        }
        Some(self.fault_at(rank, goal))
    }

    /// What keeps a rank with steps left from the outcome.
    fn fault_at(&self, rank: u8, goal: &Goal<'_>) -> AuditFault
        requires rank { rank < length self.now.sim.machines }
        requires keeps { Keeps self.now.sim self.now.traces.items }
        requires counted { AreCounted goal.now.outcome.now.rows goal.now.counts.now }
    {
        let event_left = self.next_event(rank, goal).is_some();
        match self.sim.wants(rank) {
            Want::Print(_) => AuditFault::Output,
            Want::Receive(_) | Want::Probe(_) | Want::TryProbe(_) if event_left => {
                AuditFault::NotEligible
            }
            Want::Internal
            | Want::Send { .. }
            | Want::Receive(_)
            | Want::Probe(_)
            | Want::TryProbe(_)
            | Want::Halted
            | Want::Faulted(_) => {
                if event_left {
                    AuditFault::RowLeft
                } else if self.has_line(rank, goal) {
                    AuditFault::Output
                } else {
                    AuditFault::EndState
                }
            }
        }
    }

    /// Whether its row, its lines and its end are those of the outcome.
    fn is_reached(&self, rank: u8, goal: &Goal<'_>) -> bool
        requires rank { rank < length self.now.sim.machines }
        requires keeps { Keeps self.now.sim self.now.traces.items }
        requires sorted { IsSorted (length self.now.sim.machines) goal.now.outcome.now.lines goal.now.lines.now }
        requires counted { AreCounted goal.now.outcome.now.rows goal.now.counts.now }
        requires within { IsWithin goal.now.outcome.now self.now.sim }
        ensures yes { IsTrue result → IsReached self.now.sim goal.now.outcome.now rank }
        ensures no { result ≡ false → rank < length goal.now.outcome.now.rows → rank < length goal.now.outcome.now.ends
            → IsReached self.now.sim goal.now.outcome.now rank → ⊥ }
    {
        self.has_row(rank, goal) && self.has_lines(rank, goal) && self.has_end(rank, goal)
    }

    /// Whether it has made as many events as the outcome's row stands for.
    fn has_row(&self, rank: u8, goal: &Goal<'_>) -> bool
        requires rank { rank < length self.now.sim.machines }
        requires keeps { Keeps self.now.sim self.now.traces.items }
        requires counted { AreCounted goal.now.outcome.now.rows goal.now.counts.now }
        requires within { IsWithin goal.now.outcome.now self.now.sim }
        ensures yes { IsTrue result → HasRow self.now.sim goal.now.outcome.now rank }
        ensures no { result ≡ false → rank < length goal.now.outcome.now.rows → HasRow self.now.sim goal.now.outcome.now rank → ⊥ }
    {
        let outcome = goal.outcome;
        usize::from(rank) < outcome.rows.len() && self.next_event(rank, goal).is_none()
    }

    fn has_lines(&self, rank: u8, goal: &Goal<'_>) -> bool
        requires rank { rank < length self.now.sim.machines }
        requires keeps { Keeps self.now.sim self.now.traces.items }
        requires sorted { IsSorted (length self.now.sim.machines) goal.now.outcome.now.lines goal.now.lines.now }
        ensures yes { IsTrue result → HasLines self.now.sim goal.now.outcome.now rank }
        ensures no { result ≡ false → HasLines self.now.sim goal.now.outcome.now rank → ⊥ }
    {
        let place = usize::from(rank);
        self.traces[place].lines() == goal.lines[place].as_slice()
    }

    fn has_end(&self, rank: u8, goal: &Goal<'_>) -> bool
        requires rank { rank < length self.now.sim.machines }
        ensures yes { IsTrue result → HasEnd self.now.sim goal.now.outcome.now rank }
        ensures no { result ≡ false → rank < length goal.now.outcome.now.ends → HasEnd self.now.sim goal.now.outcome.now rank → ⊥ }
    {
        let outcome = goal.outcome;
        match outcome.ends.get(usize::from(rank)) {
            Some(end) => may_want(*end, &self.sim.wants(rank)),
            None => false,
        }
    }

    /// Whether the outcome has a further line of the rank.
    fn has_line(&self, rank: u8, goal: &Goal<'_>) -> bool {
        let rank = usize::from(rank);
        let (Some(trace), Some(lines)) = (self.traces.get(rank), goal.lines.get(rank)) else {
            return false;
        };
        trace.lines().len() < lines.as_slice().len()
    }
}

/// Whether a rank that ended so may want this.
fn may_want(end: End, want: &Want) -> bool
    ensures yes { IsTrue result → MayWant end want.now }
    ensures no { result ≡ false → MayWant end want.now → ⊥ }
{
    match end {
        End::Halted => *want == Want::Halted,
        End::Faulted(fault) => *want == Want::Faulted(fault),
        End::Stalled => is_waiting(want),
        End::Unfinished => true,
    }
}

/// Whether this is a receive, or a probe that waits.
fn is_waiting(want: &Want) -> bool
    ensures yes { IsTrue result → IsWaiting want.now }
    ensures no { result ≡ false → IsWaiting want.now → ⊥ }
{
    match want {
        Want::Receive(_) | Want::Probe(_) => true,
        Want::Internal
        | Want::Send { .. }
        | Want::TryProbe(_)
        | Want::Print(_)
        | Want::Halted
        | Want::Faulted(_) => false,
    }
}
