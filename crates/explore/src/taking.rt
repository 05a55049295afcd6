//! Branches that are taken up: their runs are made again from the closest stop.
ghost use Rattle.std.specs.Prelude.{◌≡◌, ◌<◌, ◌≤◌, ℕ, ◌∷◌, ◌++◌, true, false, List, IfOk, Ok, OnOk, Some, length, reverse, slice_index, take};
ghost use Rattle.limits.specs.Limits.{most_ranks};
ghost use Rattle.rank_machine.specs.Acts.{Act};
ghost use Rattle.crash_free.specs.Runs as runs;
ghost use Rattle.crash_free.specs.Runs.{IsRun};
ghost use Rattle.crash_free.specs.Sim.{Simulates, start_of};
ghost use Rattle.crash_free.specs.Wanted.{StandsAtAct};
ghost use Rattle.explore.specs.Counting.{GoesBeyond};
ghost use Rattle.explore.specs.Counts.{AreEqualAt, Counts, KeepsCount, NeedsAtMost};
ghost use Rattle.explore.specs.Searching.{IsAlike};
ghost use Rattle.explore.specs.Stems.{GoesBehind, IsAfter, IsRunOf, StandsFor, first_acts, stem_of};
ghost use Rattle.explore.specs.Sending.{HasRunUnder};
ghost use Rattle.explore.specs.Stops.{AreStops, AreWithin, CanGoBack, KeepsStops};
ghost use Rattle.audit.specs.FinalRuns.Maximal.{MayFollow};

use crate::again::{act_at, make};
use crate::branch::Branch;
use crate::moves::Move;
use crate::path::Path;
use crate::resting::RestingSim;
use crate::send_mode::SendMode;
use crate::stops::Stops;
use crash_free::Passed;
use limits::{Heap, MOST_RANKS};
use std::alloc::AllocError;

/// Makes the run of a branch that goes off this path, which it is then: goes back
/// to the closest stop that the two share, makes the acts that they share behind
/// it once more, and then its move. Answers whether the rank of the move has
/// steps enough. An `Err` means out of memory.
pub fn take_up<'p>(
    mode: SendMode,
    path: &mut Path<'p>,
    stops: &mut Stops<'p>,
    branch: Branch,
) -> Result<bool, AllocError>
    requires few { length path.old.sim.machines ≤ most_ranks }
    requires within { branch.shared ≤ length path.old.sim.run }
    requires is_run { HasRunUnder mode path.old.sim }
    requires some_run { (P : List runs.Passed) × IsRunOf mode path.old.sim.program (length path.old.sim.machines) (stem_of path.old.sim.run branch) P }
    requires back { (steps : ℕ) × CanGoBack steps path.old.sim path.old.left stops.old }
    ensures alike { IfOk result (λ _. IsAlike path.old.sim path.new.sim) }
    ensures stands { IfOk result (λ _. Simulates path.new.sim) }
    ensures made { result ≡ Ok true → IsRunOf mode path.old.sim.program (length path.old.sim.machines) (stem_of path.old.sim.run branch) path.new.sim.run }
    ensures is_run { IfOk result (λ _. HasRunUnder mode path.new.sim) }
    ensures only { result ≡ Ok true → (P : List runs.Passed) → IsRunOf mode path.old.sim.program (length path.old.sim.machines) (stem_of path.old.sim.run branch) P
        → P ≡ path.new.sim.run }
    ensures shares { IfOk result (λ _. (k : ℕ) → k ≤ branch.shared → first_acts k path.new.sim.run ≡ first_acts k path.old.sim.run) }
    ensures long { IfOk result (λ _. branch.shared ≤ length path.new.sim.run) }
    ensures back { IfOk result (λ _. KeepsStops path.old.sim path.old.left stops.old path.new.sim path.new.left stops.new) }
    ensures beyond { result ≡ Ok false → (steps : ℕ) → CanGoBack steps path.old.sim path.old.left stops.old
        → GoesBeyond mode path.old.sim.program (length path.old.sim.machines) steps }
{
    make_first(path, stops, branch.shared)?;
    path.choices.truncate(branch.choices);
    match branch.chosen {
        Some(chosen) => go_off(mode, path, chosen),
        None => Ok(true),
    }
}

// Cuts the run of the path to its first acts, so many: it goes back to a stop, and makes the acts
// behind that once more.
fn make_first<'p>(
    path: &mut Path<'p>,
    stops: &mut Stops<'p>,
    shared: usize,
) -> Result<(), AllocError>
    requires few { length path.old.sim.machines ≤ most_ranks }
    requires within { shared ≤ length path.old.sim.run }
    requires back { (steps : ℕ) × CanGoBack steps path.old.sim path.old.left stops.old }
    ensures alike { OnOk result (IsAlike path.old.sim path.new.sim) }
    ensures stands { OnOk result (Simulates path.new.sim) }
    ensures made { OnOk result (path.new.sim.run ≡ first_acts shared path.old.sim.run) }
    ensures back { OnOk result (KeepsStops path.old.sim path.old.left stops.old path.new.sim path.new.left stops.new) }
{
    let _ = path.sim.ranks();
    stops.drop_behind(shared);
    let since = go_back(path, stops)?;
    let count = shared - path.sim.as_sim().acts().len();
    make_again(path, stops, since.as_slice(), count)
}

// Goes back to the closest stop. Answers the acts that were made since, the oldest first.
fn go_back<'p>(path: &mut Path<'p>, stops: &Stops<'p>) -> Result<Vec<Passed, Heap>, AllocError>
    requires back { (steps : ℕ) × CanGoBack steps path.old.sim path.old.left stops.now }
    ensures alike { OnOk result (IsAlike path.old.sim path.new.sim) }
    ensures stands { OnOk result (Simulates path.new.sim) }
    ensures since { IfOk result (λ acts. reverse acts.items ++ path.new.sim.run ≡ path.old.sim.run) }
    ensures short { OnOk result ((k : ℕ) → AreWithin k stops.now → length path.new.sim.run ≤ k) }
    ensures back { OnOk result ((steps : ℕ) → AreStops path.old.sim.program (length path.old.sim.machines) steps path.old.sim.run stops.now
        → CanGoBack steps path.new.sim path.new.left stops.now) }
{
    let stop = stops.closest();
    let unmoved = have_equal(&path.left, &stop.left);
    let since = path.sim.go_back(&stop.point, stop.marks, &unmoved)?;
    path.left = stop.left;
    Ok(since)
}

// Which ranks have as many steps left as there: such a rank has made none since.
fn have_equal(left: &[u32; MOST_RANKS], there: &[u32; MOST_RANKS]) -> [bool; MOST_RANKS]
    ensures { AreEqualAt left.now there.now result }
{
    let mut equal = [false; MOST_RANKS];
    let mut rank = 0;
    while rank < MOST_RANKS {
        equal[rank] = left[rank] == there[rank];
        rank += 1;
    }
    equal
}

// Makes the first of these acts, so many, with stops on the way: the next branches go off near
// them.
fn make_again<'p>(
    path: &mut Path<'p>,
    stops: &mut Stops<'p>,
    acts: &[Passed],
    count: usize,
) -> Result<(), AllocError>
    requires few { length path.old.sim.machines ≤ most_ranks }
    requires stands { Simulates path.old.sim }
    requires within { count ≤ length acts.now }
    requires run { IsRun (start_of path.old.sim.program (length path.old.sim.machines)) (length path.old.sim.machines) (reverse acts.now ++ path.old.sim.run) }
    requires back { (steps : ℕ) × CanGoBack steps path.old.sim path.old.left stops.old
        × NeedsAtMost path.old.sim.program (length path.old.sim.machines) steps (reverse acts.now ++ path.old.sim.run) }
    ensures alike { OnOk result (IsAlike path.old.sim path.new.sim) }
    ensures stands { OnOk result (Simulates path.new.sim) }
    ensures made { OnOk result (path.new.sim.run ≡ reverse (take count acts.now) ++ path.old.sim.run) }
    ensures back { OnOk result (KeepsStops path.old.sim path.old.left stops.old path.new.sim path.new.left stops.new) }
{
    let mut at = 0;
    while at < count {
        repeat(&mut path.sim, &mut path.left, act_at(acts, at))?;
        stops.note(path)?;
        at += 1;
    }
    Ok(())
}

// Makes this act, and before it the steps of its rank's own.
fn repeat(
    sim: &mut RestingSim<'_>,
    left: &mut [u32; MOST_RANKS],
    passed: &Passed,
) -> Result<(), AllocError>
    requires few { length sim.old.machines ≤ most_ranks }
    requires stands { Simulates sim.old }
    requires may { MayFollow (start_of sim.old.program (length sim.old.machines)) (length sim.old.machines) sim.old.run passed.now.rank passed.now.act }
    requires enough { (steps : ℕ) × Counts steps sim.old left.old
        × NeedsAtMost sim.old.program (length sim.old.machines) steps (passed.now ∷ sim.old.run) }
    ensures alike { OnOk result (IsAlike sim.old sim.new) }
    ensures stands { OnOk result (Simulates sim.new) }
    ensures made { OnOk result (sim.new.run ≡ passed.now ∷ sim.old.run) }
    ensures counts { OnOk result (KeepsCount sim.old left.old sim.new left.new) }
{
    let rank = passed.rank;
    // it does: the run that was played had steps for it
    let _ = comes_to_act(sim, left, rank);
    make(sim, rank, &passed.act)?;
    left[usize::from(rank)] -= 1;
    Ok(())
}

// Makes steps of the rank's own until it asks for an act. Answers whether it has a step left for
// that.
fn comes_to_act(sim: &mut RestingSim<'_>, left: &mut [u32; MOST_RANKS], rank: u8) -> bool
    requires there { rank < length sim.old.machines }
    requires few { length sim.old.machines ≤ most_ranks }
    ensures alike { IsAlike sim.old sim.new }
    ensures stands { Simulates sim.new }
    ensures run { sim.new.run ≡ sim.old.run }
    ensures at { result ≡ true → StandsAtAct sim.new.machines rank }
    ensures left { result ≡ true → 0 < slice_index left.new rank }
    ensures none { result ≡ false → slice_index left.new rank ≡ 0 }
    ensures counts { KeepsCount sim.old left.old sim.new left.new }
{
    let most = left[usize::from(rank)];
    let inside = sim.stride(rank, most);
    left[usize::from(rank)] -= inside;
    inside < most
}

// Makes the move of a branch, and before it the steps of its rank's own. Answers whether the rank
// had as many steps left.
fn go_off(mode: SendMode, path: &mut Path<'_>, chosen: Move) -> Result<bool, AllocError>
    requires few { length path.old.sim.machines ≤ most_ranks }
    requires stands { Simulates path.old.sim }
    requires is_run { HasRunUnder mode path.old.sim }
    requires some_run { (act : Act) × StandsFor mode path.old.sim.program (length path.old.sim.machines) path.old.sim.run chosen act }
    ensures alike { OnOk result (IsAlike path.old.sim path.new.sim) }
    ensures stands { OnOk result (Simulates path.new.sim) }
    ensures is_run { IfOk result (λ _. HasRunUnder mode path.new.sim) }
    ensures behind { OnOk result (GoesBehind path.old.sim.run path.new.sim.run) }
    ensures made { result ≡ Ok true → IsAfter mode path.old.sim.program (length path.old.sim.machines) path.old.sim.run (Some chosen) path.new.sim.run }
    ensures only { result ≡ Ok true → (P : List runs.Passed) → IsAfter mode path.old.sim.program (length path.old.sim.machines) path.old.sim.run (Some chosen) P
        → P ≡ path.new.sim.run }
    ensures counts { OnOk result (KeepsCount path.old.sim path.old.left path.new.sim path.new.left) }
    ensures beyond { result ≡ Ok false → (steps : ℕ) → Counts steps path.old.sim path.old.left
        → GoesBeyond mode path.old.sim.program (length path.old.sim.machines) steps }
{
    if !comes_to_act(&mut path.sim, &mut path.left, chosen.rank) {
        return Ok(false);
    }
    path.choose(chosen, true)?;
    Ok(true)
}
