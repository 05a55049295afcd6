//! A rank, whatever it does: it runs, replays or is down (fail-stop crashes).
ghost use Rattle.std.specs.Prelude.{◌≡◌, ◌≤◌, length};
ghost use Rattle.limits.specs.Limits.{most_events};
ghost use Rattle.rank_node.specs.Phases.{stable_in, settled_in, settled_replay, clock_in, left_in};

mod copying;
mod frames;

use crate::down::Down;
use crate::replaying::Replaying;
use crate::running::Running;
use crate::stable::Stable;
use checkpoint::Shelf;

/// A rank that runs, replays or is down. It must be spent.
pub enum Phase<'p, S: Shelf, D> {
    Running(Running<'p, S, D>),
    Replaying(Replaying<'p, S, D>),
    Down(Down<S, D>),
}

impl<'p, S: Shelf, D> Phase<'p, S, D> {
    /// The rank is down, whatever it was: what is stable outlives the crash,
    /// and nothing else does. It takes no memory.
    pub fn crash(self) -> Down<S, D>
        ensures { result ≡ stable_in self.entry }
    {
        match self {
            Phase::Running(rank) => rank.crash(),
            Phase::Replaying(rank) => rank.crash(),
            Phase::Down(rank) => rank,
        }
    }

    /// The rank stops for good.
    pub fn retire(self) -> Stable<S, D>
        ensures { result ≡ stable_in self.entry }
    {
        self.crash().retire()
    }

    /// A rank that has nothing left to replay runs. Any other stays as it is.
    #[tactic(auto, using(crate::proofs::Phases::settled_stable))]
    pub fn settled(self) -> Phase<'p, S, D>
        ensures settled { result ≡ settled_in self.entry }
        ensures stable { stable_in result ≡ stable_in self.entry }
    {
        match self {
            Phase::Replaying(rank) => settled(rank),
            Phase::Running(rank) => Phase::Running(rank),
            Phase::Down(rank) => Phase::Down(rank),
        }
    }

    /// How many acts it has made; none if it is down.
    pub fn clock(&self) -> u32
        ensures { result ≡ clock_in self.now }
    {
        match self {
            Phase::Running(rank) => rank.clock(),
            Phase::Replaying(rank) => rank.clock(),
            Phase::Down(_) => 0,
        }
    }

    /// How many events it still has to replay; none if it runs or is down.
    pub fn left(&self) -> u32
        ensures left { result ≡ length (left_in self.now) }
        ensures most { result ≤ most_events }
    {
        match self {
            Phase::Replaying(rank) => rank.left(),
            Phase::Running(_) | Phase::Down(_) => 0,
        }
    }
}

#[tactic(auto, using(crate::proofs::Phases::goes_on, crate::proofs::Phases::is_done))]
fn settled<'p, S: Shelf, D>(rank: Replaying<'p, S, D>) -> Phase<'p, S, D>
    ensures { result ≡ settled_replay rank.entry rank.entry.left }
{
    if rank.left() > 0 {
        Phase::Replaying(rank)
    } else {
        Phase::Running(rank.end())
    }
}
