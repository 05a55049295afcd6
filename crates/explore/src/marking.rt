//! Outcomes that no execution gives, as far as their runs were found.
ghost use Rattle.std.specs.Prelude.{◌≡◌, ◌+◌, ◌<◌, ◌≤◌, ◌∷◌, ℕ, suc, true, false, IfOk, IfSome, OnOk, Ok, Some, length, reverse, slice_get};
ghost use Rattle.limits.specs.Limits.{most_ranks};
ghost use Rattle.rank_machine.specs.Acts as acts;
ghost use Rattle.crash_free.specs.Runs.{history, IsEligible, IsRun};
ghost use Rattle.crash_free.specs.Seen.{act_of};
ghost use Rattle.crash_free.specs.Sim.{Simulates, inbound_of, start_of};
ghost use Rattle.crash_free.specs.Wanted.{WantsAt, StandsAtAct};
ghost use Rattle.audit.specs.FinalRuns.Maximal.{MayFollow};
ghost use Rattle.explore.specs.Explored.{noted_choices, rank_outcomes};
ghost use Rattle.explore.specs.Exploring.{and_then};
ghost use Rattle.explore.specs.LastShown.{KnowsShown};
ghost use Rattle.explore.specs.Searching.{IsAlike};
ghost use Rattle.explore.specs.Shown.{AreMarked, IsMark, IsPast, MayMissShown, MissesShown, NeverMissesShown};

use crate::again::{act_at, make};
use crate::bounds::Limits;
use crate::explored::FoundOutcome;
use crate::last_shown::LastShown;
use crate::replay::run_of;
use crate::resting::RestingSim;
use crate::send_mode::SendMode;
use crate::tries::may_miss;
use crash_free::{Act, Passed, Sim};
use limits::Heap;
use matching::Selector;
use rank_language::Program;
use rank_machine::Want;
use std::alloc::AllocError;

/// Whether in the run of each outcome that was found, of the same program, ranks
/// and limits, a probe misses a message that its rank was shown, which no
/// execution does. `None` if `run_of` finds no such run; where no rank may miss,
/// none is made. An `Err` means out of memory.
#[tactic(auto, using(crate::proofs::Shown::marked_more))]
pub fn marks_of(
    alloc: Heap,
    mode: SendMode,
    program: &Program,
    ranks: u8,
    limits: Limits,
    outcomes: &[FoundOutcome],
) -> Result<Vec<Option<bool>, Heap>, AllocError>
    requires some { 1 ≤ ranks }
    requires few { ranks ≤ most_ranks }
    ensures { IfOk result (λ marks. AreMarked mode program.now ranks (rank_outcomes outcomes.now) (noted_choices outcomes.now) marks.items) }
{
    let misses = may_miss(program);
    let mut marks = Vec::new(alloc);
    for at in 0..outcomes.len() {
        let outcome = outcome_at(outcomes, at);
        marks.push(mark_of(alloc, mode, program, ranks, limits, misses, outcome)?)?;
    }
    Ok(marks)
}

fn outcome_at(outcomes: &[FoundOutcome], at: usize) -> &FoundOutcome
    requires { at < length outcomes.now }
    ensures { slice_get outcomes.now at ≡ Some result.now }
{
    &outcomes[at]
}

// The mark of one outcome. `misses` is whether a rank may miss.
#[tactic(auto, using(crate::proofs::Shown::run_back, crate::proofs::Shown::mark_there))]
fn mark_of(
    alloc: Heap,
    mode: SendMode,
    program: &Program,
    ranks: u8,
    limits: Limits,
    misses: bool,
    outcome: &FoundOutcome,
) -> Result<Option<bool>, AllocError>
    requires some { 1 ≤ ranks }
    requires few { ranks ≤ most_ranks }
    requires never { misses ≡ false → NeverMissesShown program.now ranks }
    ensures { IfOk result (λ mark. IfSome mark (IsMark mode program.now ranks outcome.now.ranks outcome.now.choices)) }
{
    if !misses {
        return Ok(Some(false));
    }
    let Some(run) = run_of(alloc, mode, program, ranks, limits, outcome)? else {
        return Ok(None);
    };
    misses_shown(alloc, program, ranks, limits.steps, run.acts())
}

/// Whether a probe of the run misses a message that its rank was shown. The run
/// is made once more; `None` if a rank makes so many steps of its own before an
/// act. An `Err` means out of memory.
fn misses_shown(
    alloc: Heap,
    program: &Program,
    ranks: u8,
    steps: u32,
    acts: &[Passed],
) -> Result<Option<bool>, AllocError>
    requires some { 1 ≤ ranks }
    requires few { ranks ≤ most_ranks }
    requires run { IsRun (start_of program.now ranks) ranks (reverse acts.now) }
    ensures yes { result ≡ Ok (Some true) → MissesShown (start_of program.now ranks) (reverse acts.now) }
    ensures no { result ≡ Ok (Some false) → MissesShown (start_of program.now ranks) (reverse acts.now) → ⊥ }
{
    let mut sim = RestingSim::new(alloc, program, ranks)?;
    let mut shown = LastShown::new(alloc);
    for at in 0..acts.len() {
        let Some(past) = follow(&mut sim, &mut shown, act_at(acts, at), steps)? else {
            return Ok(None);
        };
        if past {
            return Ok(Some(true));
        }
    }
    Ok(Some(false))
}

// Makes the act, and answers whether it misses a message that its rank was shown.
#[tactic(auto, using(crate::proofs::Shown::may_inside, crate::proofs::Shown::miss_before, crate::proofs::Shown::miss_behind))]
fn follow(
    sim: &mut RestingSim<'_>,
    shown: &mut LastShown,
    passed: &Passed,
    steps: u32,
) -> Result<Option<bool>, AllocError>
    requires stands { Simulates sim.old }
    requires knows { KnowsShown sim.old.run shown.old.last }
    requires may { MayFollow (start_of sim.old.program (length sim.old.machines)) (length sim.old.machines) sim.old.run passed.now.rank passed.now.act }
    ensures alike { IfOk result (λ _. IsAlike sim.old sim.new) }
    ensures stands { IfOk result (λ _. Simulates sim.new) }
    ensures run { IfOk result (λ past. IfSome past (λ _. sim.new.run ≡ passed.now ∷ sim.old.run)) }
    ensures knows { IfOk result (λ past. IfSome past (λ _. KnowsShown sim.new.run shown.new.last)) }
    ensures yes { IfOk result (λ past. past ≡ Some true → (passed.now.act ≡ acts.misses)
        × MayMissShown (start_of sim.old.program (length sim.old.machines)) sim.old.run passed.now.rank) }
    ensures no { IfOk result (λ past. past ≡ Some false → passed.now.act ≡ acts.misses
        → MayMissShown (start_of sim.old.program (length sim.old.machines)) sim.old.run passed.now.rank → ⊥) }
{
    let rank = passed.rank;
    if sim.stride(rank, steps) == steps {
        return Ok(None);
    }
    let past = misses_past(sim.as_sim(), shown, rank, &passed.act);
    make(sim, rank, &passed.act)?;
    shown.note(passed)?;
    Ok(Some(past))
}

// Whether the act, which the rank may make now, misses a message that the rank was shown.
#[tactic(auto, using(crate::proofs::Shown::miss_there, crate::proofs::Shown::probe_there))]
fn misses_past(sim: &Sim<'_>, shown: &LastShown, rank: u8, act: &Act) -> bool
    requires stands { Simulates sim.now }
    requires knows { KnowsShown sim.now.run shown.now.last }
    requires at { StandsAtAct sim.now.machines rank }
    requires may { MayFollow (start_of sim.now.program (length sim.now.machines)) (length sim.now.machines) sim.now.run rank (act_of act.now) }
    ensures yes { result ≡ true → (act_of act.now ≡ acts.misses) × MayMissShown (start_of sim.now.program (length sim.now.machines)) sim.now.run rank }
    ensures no { result ≡ false → act_of act.now ≡ acts.misses
        → MayMissShown (start_of sim.now.program (length sim.now.machines)) sim.now.run rank → ⊥ }
{
    if !is_miss(act) {
        return false;
    }
    is_past(sim, shown, rank)
}

fn is_miss(act: &Act) -> bool
    ensures yes { result ≡ true → act_of act.now ≡ acts.misses }
    ensures no { result ≡ false → act_of act.now ≡ acts.misses → ⊥ }
{
    match act {
        Act::Misses => true,
        Act::Sends { .. } | Act::Takes { .. } | Act::Hits { .. } | Act::Prints(_) => false,
    }
}

// Whether the rank stands at a probe that doesn't wait and matches a message that it was shown.
#[tactic(auto, using(crate::proofs::Shown::wants_once, crate::proofs::Shown::no_probe))]
fn is_past(sim: &Sim<'_>, shown: &LastShown, rank: u8) -> bool
    requires there { rank < length sim.now.machines }
    requires stands { Simulates sim.now }
    requires knows { KnowsShown sim.now.run shown.now.last }
    ensures yes { result ≡ true → (selector : Selector) × WantsAt sim.now.machines rank (Want.TryProbe selector) × IsPast sim.now.run rank selector }
    ensures no { result ≡ false → (selector : Selector) → WantsAt sim.now.machines rank (Want.TryProbe selector) → IsPast sim.now.run rank selector → ⊥ }
{
    match sim.wants(rank) {
        Want::TryProbe(selector) => matches_shown(sim, shown, rank, &selector),
        Want::Internal
        | Want::Send { .. }
        | Want::Receive(_)
        | Want::Probe(_)
        | Want::Print(_)
        | Want::Halted
        | Want::Faulted(_) => false,
    }
}

fn matches_shown(sim: &Sim<'_>, shown: &LastShown, rank: u8, selector: &Selector) -> bool
    requires there { rank < length sim.now.machines }
    requires stands { Simulates sim.now }
    requires knows { KnowsShown sim.now.run shown.now.last }
    ensures yes { result ≡ true → IsPast sim.now.run rank selector.now }
    ensures no { result ≡ false → IsPast sim.now.run rank selector.now → ⊥ }
{
    let ranks = sim.ranks();
    let mut source = 0;
    while source < ranks {
        if is_shown(sim, shown, rank, selector, source) {
            return true;
        }
        source += 1;
    }
    false
}

// Whether a message of this source is eligible that the rank was shown.
fn is_shown(sim: &Sim<'_>, shown: &LastShown, rank: u8, selector: &Selector, source: u8) -> bool
    requires there { rank < length sim.now.machines }
    requires source { source < length sim.now.machines }
    requires knows { KnowsShown sim.now.run shown.now.last }
    ensures yes { result ≡ true → IsPast sim.now.run rank selector.now }
    ensures no { result ≡ false → (past : IsPast sim.now.run rank selector.now) → past.source ≡ source → ⊥ }
{
    let Some(index) = sim.eligible(rank, selector, source) else {
        return false;
    };
    shown.has(rank, source, index)
}
