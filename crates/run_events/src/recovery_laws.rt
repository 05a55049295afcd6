//! What crashes and recovery leave of every world: which ranks go back, what is
//! stored of what others see, and where a rank is that made its acts again.
//! Crates above may cite this.
ghost use Rattle.std.specs.Prelude.{ℕ, List, [], ◌∷◌};
ghost use Rattle.rank_language.specs.Program.{ProgramValue};
ghost use Rattle.bare_world.specs.declared.event.WorldEvent.{WorldEvent};
ghost use Rattle.bare_world.specs.declared.reply.Reply.{Reply};
ghost use Rattle.bare_world.specs.World.{WorldValue};
ghost use Rattle.bare_world.specs.Headline.{IsFresh, StandsFor};
ghost use Rattle.bare_world.specs.Follows.{Follows};
ghost use Rattle.bare_world.specs.Sequences.{FollowsAll};
ghost use Rattle.run_events.specs.NoDomino.{AreAboveImages, NoDomino};
ghost use Rattle.run_events.specs.NoOrphan.{NoOrphan};
ghost use Rattle.run_events.specs.Replaying.{ReplaysExactly};

use world_model::World;

/// A law, for proofs alone: what `World::apply` and `World::run` do in their
/// clauses `follows` takes back no rank but one that it crashes, takes no act
/// out of the run, and leaves each live rank at its last image or further. In a
/// new world each is.
#[tactic(auto, using(crate::proofs::NoDomino::event_has_no_domino, crate::proofs::NoDomino::events_have_no_domino, crate::proofs::NoDomino::fresh_above))]
pub fn law_no_domino()
    ensures event { (w w' : WorldValue) (event : WorldEvent) (answer : Reply) → Follows w event answer w' → NoDomino w (event ∷ []) w' }
    ensures events { (w w' : WorldValue) (events : List WorldEvent) (answers : List Reply) → FollowsAll w events answers w' → NoDomino w events w' }
    ensures fresh { (program : ProgramValue) (n : ℕ) (w : WorldValue) → IsFresh program n w → AreAboveImages w }
{}

/// A law, for proofs alone: no world has an orphan. The send of each packet
/// that was ever put on a wire, and the print of each line, has the
/// determinants of its rank up to it stored.
#[tactic(auto, using(crate::proofs::NoOrphan::no_orphan))]
pub fn law_no_orphan(world: &World<'_>)
    ensures { NoOrphan world.now }
{
    world.law_stands();
}

/// A law, for proofs alone: after what `World::run` does in its clause
/// `follows`, a rank that owed nothing before, and has made as many acts again,
/// is where it was, except for silent steps.
#[tactic(auto, using(crate::proofs::Replaying::replays_exactly))]
pub fn law_replay_is_exact()
    ensures { (w w' : WorldValue) (events : List WorldEvent) (answers : List Reply) → FollowsAll w events answers w' → StandsFor w w.run
        → StandsFor w' w'.run → ReplaysExactly w w' }
{}
