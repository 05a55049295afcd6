//! What the program prints of all outcomes of a program.
ghost use Rattle.std.specs.Prelude.{◌≡◌, ◌<◌, ◌+◌, ◌++◌, ◌↔◌, ℕ, List, IfOk, IsTrue, OnOk, Some, [], codes, length, slice_get, string_bytes};
ghost use Rattle.explore.specs.Explored.{rank_outcomes};
ghost use Rattle.runner.specs.Partings.{AreOfLast, ArePartings};
ghost use Rattle.run_events.specs.Halting.{AllHalt, Halts};
ghost use Rattle.runner.specs.OutcomesText.{AreWritten, IsExploredText, IsSafeText};
ghost use Rattle.runner.specs.OutcomesText.{endings_text, lines_text, one_text, outcome_text, values_text};

mod enumerating;
mod json;
mod leftover;
mod lined;
mod meaning;
mod parting;
mod racing;
mod safety;
mod stalling;
mod unhalted;

pub use crate::explored::json::explored_json;
pub use crate::explored::leftover::print_left;
use crate::explored::leftover::print_listed;
use crate::explored::lined::left_at;
pub use crate::explored::lined::{LinedLeftover, LinedLeftovers, LinedOutcome, is_sent_by, is_tag};
use crate::explored::meaning::print_meaning;
use crate::explored::parting::{Parted, part, print_choices};
pub use crate::explored::racing::print_summary;
pub use crate::explored::safety::{Safety, Unknown, WaitingRank, WaitingRanks, print_safety};
use crate::output::{print_end, print_line};
use audit::End;
use explore::{Explored, FoundOutcome, Limits, RankEnd};
use limits::Heap;
use std::alloc::AllocError;
use std::fmt::Write;

/// Each outcome with the choices that lead there, what is listed of it as never
/// received, and what all of it means, with the marks that `marks_of` of `explore`
/// gives, and the lines of the text at which a state came back. The statement at
/// position K of the program stands on line `lines[K]` of its text. An `Err` means
/// out of memory.
#[tactic(auto, using(crate::proofs::Written::is_explored_text))]
pub fn print_explored(
    alloc: Heap,
    found: &Explored,
    left: &[LinedOutcome],
    marks: &[Option<bool>],
    cycle: &[usize],
    limits: Limits,
    lines: &[usize],
    synchronous: bool,
) -> Result<String<Heap>, AllocError>
    ensures { IfOk result (λ text. IsExploredText synchronous found.now left.now marks.now cycle.now limits.runs lines.now (string_bytes text)) }
{
    let mut text = String::new(alloc);
    print_outcomes(alloc, &mut text, found, left, lines)?;
    print_safe(&mut text, found, synchronous)?;
    print_meaning(
        alloc,
        &mut text,
        found,
        left,
        marks,
        cycle,
        limits.runs,
        synchronous,
    )?;
    Ok(text)
}

/// That the program is safe, if the search was of synchronous runs, it is complete, and all halts.
#[tactic(auto, using(crate::proofs::Written::safe_text, crate::proofs::Written::not_safe_text))]
pub fn print_safe(
    text: &mut String<Heap>,
    found: &Explored,
    synchronous: bool,
) -> Result<(), AllocError>
    ensures { OnOk result ((safe : List ℕ) × IsSafeText synchronous found.now safe × (string_bytes text.new ≡ string_bytes text.old ++ safe)) }
{
    if synchronous && found.complete && all_halt(found) {
        return text.push_str("# safe: no send needs a buffer\n");
    }
    Ok(())
}

/// Whether each rank halts in each outcome.
pub fn all_halt(found: &Explored) -> bool
    ensures { IsTrue result ↔ AllHalt found.now.outcomes }
{
    let mut rest = found.outcomes.as_slice();
    while let [outcome, more @ ..] = rest {
        if !halts(outcome) {
            return false;
        }
        rest = more;
    }
    true
}

fn halts(outcome: &FoundOutcome) -> bool
    ensures { IsTrue result ↔ Halts outcome.now.ranks }
{
    outcome.ranks.iter().all(|seen| seen.end == End::Halted)
}

// Each outcome with its number, and where the runs part that lead there.
#[tactic(auto, using(crate::proofs::Written::none_written))]
fn print_outcomes(
    alloc: Heap,
    text: &mut String<Heap>,
    found: &Explored,
    left: &[LinedOutcome],
    lines: &[usize],
) -> Result<(), AllocError>
    requires { string_bytes text.old ≡ [] }
    ensures { OnOk result (AreWritten found.now.outcomes found.now.choices left.now lines.now (length found.now.outcomes) (string_bytes text.new)) }
{
    let mut parted = Vec::new(alloc);
    for index in 0..found.outcomes.len() {
        part_at(found, index, &mut parted)?;
        let outcome = outcome_at(found, index);
        let listed = left_at(left, index);
        print_one(text, index + 1, outcome, parted.as_slice(), listed, lines)?;
    }
    Ok(())
}

// Brings up to date where the choices of this outcome part from those before it.
#[tactic(auto, using(crate::proofs::Partings::none_parted))]
fn part_at(found: &Explored, index: usize, parted: &mut Vec<Parted, Heap>) -> Result<(), AllocError>
    requires index { index < length found.now.outcomes }
    requires last { AreOfLast found.now.choices index parted.old.items }
    ensures { OnOk result (ArePartings found.now.choices index parted.new.items) }
{
    if index == 0 {
        return Ok(());
    }
    let last = outcome_at(found, index - 1);
    let outcome = outcome_at(found, index);
    part(parted, last.choices.as_slice(), outcome.choices.as_slice())
}

/// The outcome at this place.
pub fn outcome_at(found: &Explored, index: usize) -> &FoundOutcome
    requires { index < length found.now.outcomes }
    ensures outcome { slice_get found.now.outcomes index ≡ Some result.now.ranks }
    ensures choices { slice_get found.now.choices index ≡ Some result.now.choices }
    ensures left { slice_get found.now.left index ≡ Some result.now.left }
{
    &found.outcomes[index]
}

#[tactic(auto, unfolding(crate::specs::OutcomesText::one_text))]
fn print_one(
    text: &mut String<Heap>,
    number: usize,
    outcome: &FoundOutcome,
    parted: &[Parted],
    listed: &[LinedLeftovers],
    lines: &[usize],
) -> Result<(), AllocError>
    ensures { OnOk result (string_bytes text.new ≡ string_bytes text.old ++ one_text number outcome.now.ranks lines.now parted.now listed.now) }
{
    print_outcome(text, number, outcome.ranks.as_slice())?;
    print_choices(text, parted, lines)?;
    print_listed(text, "# ", listed)?;
    writeln!(text)
}

/// The outcome of this number: what each rank printed, and how it ended.
pub fn print_outcome(
    text: &mut String<Heap>,
    number: usize,
    ranks: &[RankEnd],
) -> Result<(), AllocError>
    ensures { OnOk result (string_bytes text.new ≡ string_bytes text.old ++ outcome_text number ranks.now) }
{
    writeln!(text, "outcome {number}")?;
    print_values(text, ranks)?;
    print_rank_ends(text, ranks)
}

fn print_values(text: &mut String<Heap>, ranks: &[RankEnd]) -> Result<(), AllocError>
    ensures { OnOk result (string_bytes text.new ≡ string_bytes text.old ++ lines_text 0 ranks.now) }
{
    let mut rank = 0usize;
    let mut rest = ranks;
    while let [seen, more @ ..] = rest {
        print_values_of(text, rank, seen.lines.as_slice())?;
        rank += 1;
        rest = more;
    }
    Ok(())
}

fn print_values_of(text: &mut String<Heap>, rank: usize, values: &[i64]) -> Result<(), AllocError>
    ensures { OnOk result (string_bytes text.new ≡ string_bytes text.old ++ values_text rank values.now) }
{
    let mut rest = values;
    while let [value, more @ ..] = rest {
        print_line(text, rank, *value)?;
        rest = more;
    }
    Ok(())
}

fn print_rank_ends(text: &mut String<Heap>, ranks: &[RankEnd]) -> Result<(), AllocError>
    ensures { OnOk result (string_bytes text.new ≡ string_bytes text.old ++ endings_text 0 ranks.now) }
{
    let mut rank = 0usize;
    let mut rest = ranks;
    while let [seen, more @ ..] = rest {
        print_end(text, rank, &seen.end)?;
        rank += 1;
        rest = more;
    }
    Ok(())
}
