//! What a complete search says of every world and of every report of its program.
//! Crates above may cite this.
ghost use Rattle.std.specs.Prelude.{ℕ, List};
ghost use Rattle.rank_language.specs.Program.{ProgramValue};
ghost use Rattle.audit.specs.Outcome.{OutcomeValue};
ghost use Rattle.audit.specs.FinalRuns.Final.{IsFinal, NoneIsUnfinished};
ghost use Rattle.audit.specs.FinalRuns.Maximal.{RankOutcome};
ghost use Rattle.explore.specs.Outcomes.{AreAll};
ghost use Rattle.explore.specs.declared.send_mode.SendMode.TheVariants.{Buffered};
ghost use Rattle.run_events.specs.Finishing.{FinishesAmong};
ghost use Rattle.run_events.specs.Halting.{AllHalt, HaveHalted};
ghost use Rattle.run_events.specs.Masking.{EndsAmong, IsMasked, MasksCrashes};
ghost use Rattle.run_events.specs.Missing.{MissesNothingShown};

use world_model::World;

/// A law, for proofs alone: if a search is complete, as `explore` has it in its
/// clause `ends`, and each continuation of the world's run stays within the
/// limits, the world can finish by events of which none is a crash, with an
/// outcome that was found, whatever crashed before.
#[tactic(auto, using(crate::proofs::Finishing::finishes))]
pub fn law_can_finish(world: &World<'_>)
    ensures { (outcomes : List (List RankOutcome)) → FinishesAmong outcomes world.now }
{
    world.law_stands();
    world.law_to_the_end();
}

/// A law, for proofs alone: if a search is complete, as `explore` has it in its
/// clause `ends`, what the ranks of a world have printed is, whatever crashed, a
/// beginning of what they print in one of the outcomes that were found.
#[tactic(auto, using(crate::proofs::Masking::world_masks))]
pub fn law_masks_crashes(world: &World<'_>)
    ensures { (outcomes : List (List RankOutcome)) → MasksCrashes outcomes world.now }
{
    world.law_stands();
}

/// A law, for proofs alone: if a search is complete, so it is of the lines of
/// each outcome that `audit` confirms as final, as the outcome of each report
/// is; and if no rank is unfinished, what is seen of it is one of the outcomes
/// that were found.
pub fn law_masks_reports()
    ensures { (program : ProgramValue) (n : ℕ) (outcomes : List (List RankOutcome)) (o : OutcomeValue) → EndsAmong program n outcomes
        → IsFinal program n o → IsMasked outcomes n o }
{}

/// A law, for proofs alone: if a search is complete, as `explore` has it in its
/// clause `complete`, and in each outcome that it found all ranks halted, then
/// in each outcome that `audit` confirms as final, as the outcome of each report
/// is, and that has no unfinished rank, all ranks halted: none stalled, as in a
/// deadlock, and none faulted.
#[tactic(auto, using(crate::proofs::Halting::all_halted))]
pub fn law_all_halt()
    ensures { (program : ProgramValue) (n : ℕ) (outcomes : List (List RankOutcome)) (o : OutcomeValue) → AreAll Buffered program n outcomes
        → AllHalt outcomes → IsFinal program n o → NoneIsUnfinished o.ends → HaveHalted o.ends }
{}

/// A law, for proofs alone: in the run that a world stands for no probe misses a
/// message that its rank was shown, whatever crashed. So no execution has a run
/// that `explore` marks by that.
#[tactic(auto, using(crate::proofs::Missing::world_misses_none))]
pub fn law_misses_nothing(world: &World<'_>)
    ensures { MissesNothingShown world.now }
{
    world.law_misses_nothing();
}
