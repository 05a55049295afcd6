//! Whether each rank's sends, and its receptions, are the same in all runs: searches of the
//! telling programs.
ghost use Rattle.std.specs.Prelude.{◌≡◌, ◌≤◌, ◌++◌, ℕ, false, true, IfOk, IfSome, IsNone, List, OnOk, slice_get, string_bytes};
ghost use Rattle.runner.specs.Determinism.{AreAlike, ArePartedAt, IsKnown, PrintsOther, is_summary, lines_between, needs_telling, printed};
ghost use Rattle.runner.specs.Determinism.{differ_text, first_text, known_text, past_text, same_text, stopped_text, who_differs};
ghost use Rattle.explore.specs.declared.send_mode.SendMode.TheVariants.{Buffered};
ghost use Rattle.runner.specs.Searches.{IsDeterminismText, IsFoundBy, IsKnownIn, IsKnownWithin, IsToldOf};

use crate::commands::apart::{Apart, apart_of};
use crate::commands::exploring::search;
use crate::explored::outcome_at;
use audit::final_runs::{RankEnd, has_lines};
use command_line::{ExploreForm, ExploreJob};
use explore::{Explored, FoundOutcome, SendMode, Watch};
use limits::Heap;
use rank_language::LinedProgram;
use std::alloc::AllocError;
use std::fmt::Write;
use telling::{Telling, TellingFault, telling_program};

// How many runs a search looks at that is made first. Two outcomes that differ are all that is
// looked for, and where receptions race the first two runs have such outcomes: a search goes depth
// first, so they part at their last choice. So few runs and outcomes cost next to nothing where the
// whole search has to be made too.
const BRIEF_RUNS: u32 = 64;

/// What is known of whether each rank's sends, or its receptions, are the same in all runs.
#[derive(Clone, Copy)]
pub enum Determinism {
    /// The text has no program.
    Untold,
    Same,
    /// Those of this rank aren't, and part at these lines.
    Differ(Apart),
    /// The telling program passes a limit of texts.
    PastLimits,
    /// Its search came to a limit, and found no difference.
    Stopped,
}

/// Prints what is known of the program of this text, of which a first search found this.
#[tactic(auto, using(crate::proofs::Searches::untold_text, crate::proofs::Searches::told_text))]
pub fn print_determinism<W: Watch>(
    alloc: Heap,
    job: ExploreJob<'_>,
    source: &[u8],
    found: &Explored,
    watch: &mut W,
    text: &mut String<Heap>,
) -> Result<(), AllocError>
    ensures { OnOk result ((behind : List ℕ) × IsDeterminismText source.now job.entry found.now behind × (string_bytes text.new ≡ string_bytes text.old ++ behind)) }
{
    if !needs_telling(job, found) {
        return Ok(());
    }
    let sends = known_of(alloc, job, Telling::Sends, source, watch)?;
    let receptions = known_of(alloc, job, Telling::Receptions, source, watch)?;
    print_known(text, Telling::Sends, sends)?;
    print_known(text, Telling::Receptions, receptions)
}

fn needs_telling(job: ExploreJob<'_>, found: &Explored) -> bool
    ensures { result ≡ needs_telling job.entry found.now }
{
    found.complete && is_summary(job.form) && !job.synchronous
}

fn is_summary(form: ExploreForm) -> bool
    ensures { result ≡ is_summary form }
{
    match form {
        ExploreForm::Summary => true,
        ExploreForm::Text | ExploreForm::Json | ExploreForm::Events(_) => false,
    }
}

// What is said of a telling program of the text.
#[tactic(auto, using(crate::proofs::Searches::of_telling))]
fn known_of<W: Watch>(
    alloc: Heap,
    job: ExploreJob<'_>,
    telling: Telling,
    source: &[u8],
    watch: &mut W,
) -> Result<Determinism, AllocError>
    ensures { IfOk result (λ known. IsToldOf telling source.now job.entry known) }
{
    let told = match telling_program(alloc, telling, source) {
        Ok(told) => told,
        Err(TellingFault::PastLimits) => return Ok(Determinism::PastLimits),
        // the text has a program, which was searched
        Err(TellingFault::Fault(_)) => return Ok(Determinism::Untold),
        Err(TellingFault::Memory) => return Err(AllocError),
    };
    let known = known_within(alloc, job, &told, watch)?;
    Ok(known)
}

// What is known of a telling program: often a brief search is enough. The whole one would find the
// same outcomes first, in the same order, so the first two that differ would be the same.
#[tactic(auto, using(crate::proofs::Searches::of_brief, crate::proofs::Searches::of_whole))]
fn known_within<W: Watch>(
    alloc: Heap,
    job: ExploreJob<'_>,
    told: &LinedProgram,
    watch: &mut W,
) -> Result<Determinism, AllocError>
    ensures { IfOk result (IsKnownWithin told.now.program told.now.lines.items job.entry) }
{
    if BRIEF_RUNS < job.runs {
        let known = known_in(alloc, job, BRIEF_RUNS, told, watch)?;
        if !is_stopped(known) {
            return Ok(known);
        }
    }
    Ok(known_in(alloc, job, job.runs, told, watch)?)
}

fn is_stopped(known: Determinism) -> bool
    ensures { result ≡ false → known ≡ Determinism.Stopped → ⊥ }
{
    match known {
        Determinism::Stopped => true,
        Determinism::Untold | Determinism::PastLimits => false,
        Determinism::Same | Determinism::Differ(_) => false,
    }
}

// What a search of a telling program says that looks at so many runs at most.
#[tactic(auto, using(crate::proofs::Searches::of_search))]
fn known_in<W: Watch>(
    alloc: Heap,
    job: ExploreJob<'_>,
    runs: u32,
    told: &LinedProgram,
    watch: &mut W,
) -> Result<Determinism, AllocError>
    ensures { IfOk result (IsKnownIn runs told.now.program told.now.lines.items job.entry) }
{
    let found = search(alloc, SendMode::Buffered, job, runs, &told.program, watch)?;
    let known = known_from(alloc, job, runs, told, &found)?;
    Ok(known)
}

// What was found of a telling program says what is known.
#[tactic(auto, using(crate::proofs::Determinism::is_same, crate::proofs::Determinism::is_stopped, crate::proofs::Determinism::is_differing))]
fn known_from(
    alloc: Heap,
    job: ExploreJob<'_>,
    runs: u32,
    told: &LinedProgram,
    found: &Explored,
) -> Result<Determinism, AllocError>
    requires { IsFoundBy told.now.program Buffered job runs found.now }
    ensures { IfOk result (IsKnown told.now.program told.now.lines.items job.entry.ranks found.now) }
{
    match two_that_differ(found) {
        Some(two) => {
            let apart = apart_of(alloc, job, told, two.rank, two.one, two.other)?;
            Ok(Determinism::Differ(apart))
        }
        None if found.complete => Ok(Determinism::Same),
        None => Ok(Determinism::Stopped),
    }
}

// Two outcomes in which a rank printed other lines.
#[derive(Clone, Copy)]
struct Differing<'a> {
    rank: usize,
    one: &'a FoundOutcome,
    other: &'a FoundOutcome,
}

// The first outcome, and one in which a rank printed other lines than there.
#[tactic(auto, using(crate::proofs::Determinism::alike_further, crate::proofs::Determinism::parted))]
fn two_that_differ(found: &Explored) -> Option<Differing<'_>>
    ensures some { IfSome result (λ two. ArePartedAt two.rank two.one.now.ranks two.other.now.ranks found.now.outcomes) }
    ensures none { IsNone result → AreAlike found.now.outcomes }
{
    let outcomes = found.outcomes.as_slice();
    for index in 0..outcomes.len() {
        let one = outcome_at(found, 0);
        let other = outcome_at(found, index);
        if let Some(rank) = parting_rank(one.ranks.as_slice(), other.ranks.as_slice()) {
            return Some(Differing { rank, one, other });
        }
    }
    None
}

// The first rank that printed other lines in the one than in the other.
#[tactic(auto, using(crate::proofs::Determinism::same_further, crate::proofs::Determinism::all_same))]
fn parting_rank(one: &[RankEnd], other: &[RankEnd]) -> Option<usize>
    ensures some { IfSome result (λ rank. PrintsOther rank one.now other.now) }
    ensures none { IsNone result → printed one.now ≡ printed other.now }
{
    for rank in 0..one.len() {
        if prints_other(one, other, rank) {
            return Some(rank);
        }
    }
    if prints_other(one, other, one.len()) {
        return Some(one.len());
    }
    None
}

// Whether the rank printed other lines in the one than in the other, or stands in one alone.
#[tactic(auto, using(crate::proofs::Determinism::both_same, crate::proofs::Determinism::both_other, crate::proofs::Determinism::none_there, crate::proofs::Determinism::only_here, crate::proofs::Determinism::only_there))]
fn prints_other(one: &[RankEnd], other: &[RankEnd], rank: usize) -> bool
    ensures yes { result ≡ true → PrintsOther rank one.now other.now }
    ensures no { result ≡ false → slice_get (printed one.now) rank ≡ slice_get (printed other.now) rank }
{
    let Some(seen) = one.get(rank) else {
        return other.get(rank).is_some();
    };
    let Some(another) = other.get(rank) else {
        return true;
    };
    !has_lines(&seen.lines, &another.lines)
}

fn print_known(
    text: &mut String<Heap>,
    telling: Telling,
    known: Determinism,
) -> Result<(), AllocError>
    ensures { OnOk result (string_bytes text.new ≡ string_bytes text.old ++ known_text telling known) }
{
    match known {
        Determinism::Untold => Ok(()),
        Determinism::Same => print_same(text, telling),
        Determinism::Differ(apart) => print_differ(text, telling, apart),
        Determinism::PastLimits => print_past(text, telling),
        Determinism::Stopped => print_stopped(text, telling),
    }
}

fn print_same(text: &mut String<Heap>, telling: Telling) -> Result<(), AllocError>
    ensures { OnOk result (string_bytes text.new ≡ string_bytes text.old ++ same_text telling) }
{
    match telling {
        Telling::Sends => writeln!(
            text,
            "# send-deterministic: each rank's sends are the same in all runs"
        ),
        Telling::Receptions => writeln!(text, "# each rank's receptions are the same in all runs"),
    }
}

fn print_differ(text: &mut String<Heap>, telling: Telling, apart: Apart) -> Result<(), AllocError>
    ensures { OnOk result (string_bytes text.new ≡ string_bytes text.old ++ differ_text telling apart) }
{
    print_who_differs(text, telling, apart.rank)?;
    print_first(text, lines_between(apart.one, apart.other))?;
    text.push_str("\n")
}

#[tactic(auto, unfolding(crate::specs::Determinism::who_differs))]
fn print_who_differs(
    text: &mut String<Heap>,
    telling: Telling,
    rank: usize,
) -> Result<(), AllocError>
    ensures { OnOk result (string_bytes text.new ≡ string_bytes text.old ++ who_differs telling rank) }
{
    match telling {
        Telling::Sends => write!(
            text,
            "# not send-deterministic: rank {rank} doesn't send the same in all runs"
        ),
        Telling::Receptions => {
            write!(text, "# rank {rank} doesn't receive the same in all runs")
        }
    }
}

// The lower and the higher one, if one is known.
fn lines_between(one: Option<usize>, other: Option<usize>) -> Option<(usize, usize)>
    ensures { result ≡ lines_between one other }
{
    match (one, other) {
        (None, None) => None,
        (Some(line), None) | (None, Some(line)) => Some((line, line)),
        (Some(one), Some(other)) => Some((one.min(other), one.max(other))),
    }
}

#[tactic(auto, unfolding(crate::specs::Determinism::first_text))]
fn print_first(text: &mut String<Heap>, lines: Option<(usize, usize)>) -> Result<(), AllocError>
    ensures { OnOk result (string_bytes text.new ≡ string_bytes text.old ++ first_text lines) }
{
    match lines {
        None => Ok(()),
        Some((line, other)) if line == other => write!(text, ", first at line {line}"),
        Some((line, other)) => write!(text, ", first at lines {line} and {other}"),
    }
}

fn print_past(text: &mut String<Heap>, telling: Telling) -> Result<(), AllocError>
    ensures { OnOk result (string_bytes text.new ≡ string_bytes text.old ++ past_text telling) }
{
    match telling {
        Telling::Sends => writeln!(
            text,
            "# not known whether it is send-deterministic: with prints of its sends it passes a limit of texts"
        ),
        Telling::Receptions => writeln!(
            text,
            "# not known whether receptions are the same in all runs: with prints of them it passes a limit of texts"
        ),
    }
}

fn print_stopped(text: &mut String<Heap>, telling: Telling) -> Result<(), AllocError>
    ensures { OnOk result (string_bytes text.new ≡ string_bytes text.old ++ stopped_text telling) }
{
    match telling {
        Telling::Sends => writeln!(
            text,
            "# not known whether it is send-deterministic: the search with prints of its sends came to a limit"
        ),
        Telling::Receptions => writeln!(
            text,
            "# not known whether receptions are the same in all runs: the search with prints of them came to a limit"
        ),
    }
}
