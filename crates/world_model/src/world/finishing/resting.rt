//! What a world that was played on has come to.
ghost use Rattle.std.specs.Prelude.{◌≡◌, ◌≢◌, ◌<◌, ℕ, MatchBool, List, IfSome, IfNone};
ghost use Rattle.bare_world.specs.World.{WorldValue};
ghost use Rattle.bare_world.specs.Finished.{AreRounds, ComesTo, IsSpent, AllRest, IsFirstRestless};
ghost use Rattle.bare_world.specs.Finished.{IsStill, IsNowhereSpent};
ghost use Rattle.bare_world.specs.declared.event.WorldEvent.{WorldEvent};
ghost use Rattle.bare_world.specs.ToTheEnd.{HasEnded};

use crate::world::World;
use bare_world::FinishEnd;
use rank_node::NodeFault;

impl<'p> World<'p> {
    /// What the world has come to, after rounds of which the last had nothing to
    /// do or not.
    pub(super) fn come_to(&self, quiet: bool) -> FinishEnd
        ensures end { (start : WorldValue) (rounds : ℕ) (events : List WorldEvent)
            → MatchBool quiet (IsStill self.now) (AreRounds rounds start events self.now) → ComesTo start self.now rounds events result }
        ensures memory { result ≢ FinishEnd.OutOfMemory }
    {
        if quiet {
            return self.stopped();
        }
        match self.restless() {
            Some(rank) => FinishEnd::OutOfRounds { rank },
            None => {
                self.law_rests();
                FinishEnd::Ended
            }
        }
    }

    /// What a world has come to of which a round has nothing to do: a rank is
    /// spent, or the world has ended.
    fn stopped(&self) -> FinishEnd
        ensures end { IsStill self.now → (start : WorldValue) (rounds : ℕ) (events : List WorldEvent) → ComesTo start self.now rounds events result }
        ensures memory { result ≢ FinishEnd.OutOfMemory }
    {
        match self.spent() {
            Some((rank, fault)) => FinishEnd::Spent { rank, fault },
            None => {
                self.law_still();
                self.law_rests();
                FinishEnd::Ended
            }
        }
    }

    /// The first rank that isn't at rest.
    fn restless(&self) -> Option<u8>
        ensures some { IfSome result (λ rank. IsFirstRestless self.now rank) }
        ensures none { IfNone result (AllRest self.now) }
    {
        for rank in 0..self.ranks() {
            if !self.bare.rests(rank) {
                return Some(rank);
            }
        }
        None
    }

    /// A law, for proofs alone: a world of which every rank is at rest has ended.
    #[tactic(auto, using(bare_world::proofs::Ending::RestIsEnd::all_rest))]
    fn law_rests(&self)
        ensures { AllRest self.now → HasEnded self.now }
    {
        let _bare = &self.bare;
    }

    /// A law, for proofs alone: in a still world of which no rank is spent every
    /// rank is at rest.
    #[tactic(auto, using(bare_world::proofs::Ending::StillIsEnd::still_rests))]
    fn law_still(&self)
        ensures { IsStill self.now → IsNowhereSpent self.now → AllRest self.now }
    {
        let _bare = &self.bare;
    }

    /// The first rank whose next act is refused by name, with the name.
    fn spent(&self) -> Option<(u8, NodeFault)>
        ensures some { IfSome result (λ found. IsSpent self.now found.0 found.1) }
        ensures none { IfNone result (IsNowhereSpent self.now) }
    {
        for rank in 0..self.ranks() {
            if let Some(fault) = self.bare.refusal(rank) {
                return Some((rank, fault));
            }
        }
        None
    }
}
