//! At which lines a rank first prints another value in one run than in another.
ghost use Rattle.std.specs.Prelude.{◌≡◌, ◌≢◌, ◌≤◌, ◌<◌, ℕ, ℤ, List, IfOk, Some, length, reverse, slice_get};
ghost use Rattle.limits.specs.Limits.{most_ranks};
ghost use Rattle.crash_free.specs.Seen.{act_of};
ghost use Rattle.run_shown.specs.declared.trace.place.Place.{Place};
ghost use Rattle.run_shown.specs.Trace.Places.{AreFound};
ghost use Rattle.runner.specs.Apart.{AreLinesApart, IsLineOfPrint, is_print, is_print_of, print_at, values_of};
ghost use Rattle.runner.specs.SentLines.{line_of};

use crate::commands::exploring::limits_of;
use crate::commands::sent_lines::{line_of, position_at};
use audit::final_runs::RankEnd;
use command_line::ExploreJob;
use crash_free::{Act, Passed, Sim};
use explore::{FoundOutcome, SendMode, run_of};
use limits::Heap;
use rank_language::LinedProgram;
use run_shown::trace::{Place, places_of};
use std::alloc::AllocError;

/// A rank that prints other values in one run than in another, and the lines at
/// which it makes the first print in them that isn't the same in both.
#[derive(Clone, Copy)]
pub struct Apart {
    pub rank: usize,
    /// The line in the one run, if the rank makes the print there, and it is known.
    pub one: Option<usize>,
    /// The line in the other.
    pub other: Option<usize>,
}

/// Where the rank parts in runs of the program that have these outcomes. An `Err`
/// means out of memory.
#[tactic(auto, using(crate::proofs::Apart::are_lines_apart))]
pub fn apart_of(
    alloc: Heap,
    job: ExploreJob<'_>,
    told: &LinedProgram,
    rank: usize,
    one: &FoundOutcome,
    other: &FoundOutcome,
) -> Result<Apart, AllocError>
    ensures rank { IfOk result (λ apart. apart.rank ≡ rank) }
    ensures lines { IfOk result (AreLinesApart told.now.program told.now.lines.items job.entry.ranks one.now.ranks other.now.ranks) }
{
    let number = first_apart_of(one.ranks.as_slice(), other.ranks.as_slice(), rank);
    let one = line_of_print(alloc, job, told, rank, number, one)?;
    let other = line_of_print(alloc, job, told, rank, number, other)?;
    Ok(Apart { rank, one, other })
}

// The number, from 0, of the rank's first value that isn't the same.
#[tactic(auto, using(crate::proofs::Apart::same_values, crate::proofs::Apart::apart_values, crate::proofs::Apart::no_value))]
fn first_apart_of(one: &[RankEnd], other: &[RankEnd], rank: usize) -> usize
    ensures same { (i : ℕ) → i < result → slice_get (values_of one.now rank) i ≡ slice_get (values_of other.now rank) i }
    ensures apart { (x y : ℤ) → slice_get (values_of one.now rank) result ≡ Some x → slice_get (values_of other.now rank) result ≡ Some y → x ≢ y }
{
    let Some(seen) = one.get(rank) else {
        return 0;
    };
    let Some(another) = other.get(rank) else {
        return 0;
    };
    first_apart(seen.lines.as_slice(), another.lines.as_slice())
}

fn first_apart(one: &[i64], other: &[i64]) -> usize
    ensures same { (i : ℕ) → i < result → slice_get one.now i ≡ slice_get other.now i }
    ensures apart { (x y : ℤ) → slice_get one.now result ≡ Some x → slice_get other.now result ≡ Some y → x ≢ y }
{
    let mut number = 0;
    while number < one.len() && number < other.len() {
        if one[number] != other[number] {
            return number;
        }
        number += 1;
    }
    number
}

// The line at which the rank makes its print of this number in a run that has the outcome.
#[tactic(auto, using(crate::proofs::Apart::unknown_line))]
fn line_of_print(
    alloc: Heap,
    job: ExploreJob<'_>,
    told: &LinedProgram,
    rank: usize,
    number: usize,
    outcome: &FoundOutcome,
) -> Result<Option<usize>, AllocError>
    ensures { IfOk result (IsLineOfPrint told.now.program told.now.lines.items job.entry.ranks outcome.now.ranks rank number) }
{
    match run_of(
        alloc,
        SendMode::Buffered,
        &told.program,
        job.ranks,
        limits_of(job),
        outcome,
    )? {
        Some(run) => Ok(line_in(alloc, told, job.ranks, rank, number, &run)?),
        None => Ok(None),
    }
}

// The line of that print in this run.
#[tactic(auto, using(crate::proofs::Apart::line_there))]
fn line_in(
    alloc: Heap,
    told: &LinedProgram,
    ranks: u8,
    rank: usize,
    number: usize,
    run: &Sim<'_>,
) -> Result<Option<usize>, AllocError>
    requires some { 1 ≤ ranks }
    requires few { ranks ≤ most_ranks }
    ensures { IfOk result (λ line. (places : List Place) × AreFound told.now.program ranks (reverse run.now.run) places
        × (line ≡ line_of told.now.lines.items (print_at rank places (reverse run.now.run) number))) }
{
    let places = places_of(alloc, &told.program, ranks, run.acts())?;
    let position = position_of_print(rank, number, run.acts(), &places);
    Ok(line_of(told.lines.as_slice(), position))
}

// The position of the rank's print of this number among these acts.
#[tactic(auto, using(crate::proofs::Apart::behind_first))]
fn position_of_print(rank: usize, number: usize, acts: &[Passed], places: &[Place]) -> Option<usize>
    ensures { result ≡ print_at rank places.now acts.now number }
{
    let mut left = number;
    let mut index = 0usize;
    let mut rest = acts;
    while let [passed, more @ ..] = rest {
        if is_print_of(passed, rank) {
            if left == 0 {
                return position_at(places, index);
            }
            left -= 1;
        }
        index += 1;
        rest = more;
    }
    None
}

fn is_print_of(passed: &Passed, rank: usize) -> bool
    ensures { result ≡ is_print_of passed.now rank }
{
    usize::from(passed.rank) == rank && is_print(&passed.act)
}

fn is_print(act: &Act) -> bool
    ensures { result ≡ is_print (act_of act.now) }
{
    match act {
        Act::Prints(_) => true,
        Act::Sends { .. } | Act::Takes { .. } | Act::Hits { .. } | Act::Misses => false,
    }
}
