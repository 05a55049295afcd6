//! The outcome of a run in which no rank can go on.
ghost use Rattle.std.specs.Prelude.{◌≡◌, ◌≢◌, ◌<◌, true, false, Some, IfOk, IsSome, length};
ghost use Rattle.audit.specs.FinalRuns.Maximal.{end_of};
ghost use Rattle.audit.specs.FinalRuns.Stills.{StandsStill, EndsAt};

use crate::End;
use crash_free::Sim;
use limits::Heap;
use rank_machine::Want;
use std::alloc::AllocError;
use std::marker::Model;

/// What is seen of a rank once it can't go on.
#[derive(Drop)]
pub struct RankEnd {
    /// What it printed, in order.
    pub lines: Vec<i64, Heap>,
    /// Never `Unfinished`.
    pub end: End,
}

impl Model for RankEnd {
    ghost use Rattle.audit.specs.FinalRuns.Maximal.{RankOutcome};

    ghost Value = { RankOutcome };

    ghost view = { λ r. record { lines = r.lines.items; end = r.end } };
}

impl RankEnd {
    /// Whether both ranks printed the same and ended alike.
    pub fn is_same(&self, other: &RankEnd) -> bool
        ensures yes { result ≡ true → self.now ≡ other.now }
        ensures no { result ≡ false → self.now ≢ other.now }
    {
        has_lines(&self.lines, &other.lines) && has_end(self.end, other.end)
    }
}

/// Whether these are the same numbers in the same order.
pub fn has_lines(lines: &[i64], others: &[i64]) -> bool
    ensures yes { result ≡ true → lines.now ≡ others.now }
    ensures no { result ≡ false → lines.now ≢ others.now }
{
    lines == others
}

fn has_end(end: End, other: End) -> bool
    ensures yes { result ≡ true → end ≡ other }
    ensures no { result ≡ false → end ≢ other }
{
    end == other
}

/// What is seen of a rank that can't go on. An `Err` means out of memory.
pub fn rank_end(alloc: Heap, sim: &Sim<'_>, rank: u8) -> Result<RankEnd, AllocError>
    requires rank { rank < length sim.now.machines }
    requires still { StandsStill sim.now rank }
    ensures { IfOk result (λ ended. EndsAt sim.now rank ended) }
{
    let lines = sim.lines(rank).to_vec(alloc)?;
    let end = ending(sim.wants(rank));
    Ok(RankEnd { lines, end })
}

fn ending(want: Want) -> End
    requires { IsSome (end_of want) }
    ensures { end_of want ≡ Some result }
{
    match want {
        Want::Halted => End::Halted,
        Want::Faulted(fault) => End::Faulted(fault),
        Want::Receive(_) | Want::Probe(_) => End::Stalled,
        Want::Internal | Want::Send { .. } | Want::TryProbe(_) | Want::Print(_) => unreachable!(),
    }
}
