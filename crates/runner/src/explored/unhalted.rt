//! Which ranks of the outcomes of a program don't halt.
ghost use Rattle.std.specs.Prelude.{◌≡◌, ◌++◌, IfOk, OnOk, string_bytes};
ghost use Rattle.explore.specs.Explored.{rank_outcomes};
ghost use Rattle.runner.specs.Stalls.{stalls_text};
ghost use Rattle.runner.specs.Unhalted.{fault_line, fault_words, faults_text, is_of, ranks_of, unhalted_text};

use crate::explored::enumerating::print_ranks;
use crate::explored::lined::{LinedLeftovers, LinedOutcome, left_at};
use crate::explored::stalling::print_stalls;
use audit::End;
use explore::{FoundOutcome, RankEnd};
use limits::Heap;
use std::alloc::AllocError;
use std::fmt::Write;

/// How a rank ends that doesn't halt.
#[derive(Clone, Copy, PartialEq, Eq)]
enum NoHalt {
    Stalls,
    Faults,
}

fn is_of(ending: NoHalt, end: End) -> bool
    ensures { result ≡ is_of ending end }
{
    match end {
        End::Stalled => ending == NoHalt::Stalls,
        End::Faulted(_) => ending == NoHalt::Faults,
        End::Halted | End::Unfinished => false,
    }
}

/// Which ranks of these outcomes of synchronous runs, or of others, don't halt, and
/// for what those that stall wait, by what was never received in runs that have them.
pub fn print_unhalted(
    alloc: Heap,
    text: &mut String<Heap>,
    outcomes: &[FoundOutcome],
    left: &[LinedOutcome],
    synchronous: bool,
) -> Result<(), AllocError>
    ensures { OnOk result (string_bytes text.new ≡ string_bytes text.old ++ unhalted_text synchronous left.now 0 (rank_outcomes outcomes.now)) }
{
    let mut index = 0usize;
    let mut rest = outcomes;
    while let [outcome, more @ ..] = rest {
        let listed = left_at(left, index);
        index += 1;
        let ranks = outcome.ranks.as_slice();
        print_stalled(alloc, text, index, ranks, listed, synchronous)?;
        print_faulted(alloc, text, index, ranks)?;
        rest = more;
    }
    Ok(())
}

fn print_stalled(
    alloc: Heap,
    text: &mut String<Heap>,
    number: usize,
    ranks: &[RankEnd],
    listed: &[LinedLeftovers],
    synchronous: bool,
) -> Result<(), AllocError>
    ensures { OnOk result (string_bytes text.new ≡ string_bytes text.old ++ stalls_text synchronous number (ranks_of NoHalt.Stalls 0 ranks.now) listed.now) }
{
    let stalled = ranks_ending(alloc, ranks, NoHalt::Stalls)?;
    let told = print_stalls(alloc, text, number, stalled.as_slice(), listed, synchronous);
    drop(stalled);
    told
}

// The numbers of the ranks that end so.
fn ranks_ending(
    alloc: Heap,
    ranks: &[RankEnd],
    ending: NoHalt,
) -> Result<Vec<usize, Heap>, AllocError>
    ensures { IfOk result (λ found. found.items ≡ ranks_of ending 0 ranks.now) }
{
    let mut found = Vec::new(alloc);
    let mut rank = 0usize;
    let mut rest = ranks;
    while let [seen, more @ ..] = rest {
        if is_of(ending, seen.end) {
            found.push(rank)?;
        }
        rank += 1;
        rest = more;
    }
    Ok(found)
}

fn print_faulted(
    alloc: Heap,
    text: &mut String<Heap>,
    number: usize,
    ranks: &[RankEnd],
) -> Result<(), AllocError>
    ensures { OnOk result (string_bytes text.new ≡ string_bytes text.old ++ faults_text number (ranks_of NoHalt.Faults 0 ranks.now)) }
{
    let faulted = ranks_ending(alloc, ranks, NoHalt::Faults)?;
    let told = print_faults(text, number, faulted.as_slice());
    drop(faulted);
    told
}

fn print_faults(text: &mut String<Heap>, number: usize, ranks: &[usize]) -> Result<(), AllocError>
    ensures { OnOk result (string_bytes text.new ≡ string_bytes text.old ++ faults_text number ranks.now) }
{
    if ranks.is_empty() {
        return Ok(());
    }
    print_fault_line(text, number, ranks)
}

fn print_fault_line(
    text: &mut String<Heap>,
    number: usize,
    ranks: &[usize],
) -> Result<(), AllocError>
    ensures { OnOk result (string_bytes text.new ≡ string_bytes text.old ++ fault_line number ranks.now) }
{
    print_fault_words(text, number)?;
    print_ranks(text, ranks)?;
    text.push_str("\n")
}

#[tactic(auto, unfolding(crate::specs::Unhalted::fault_words))]
fn print_fault_words(text: &mut String<Heap>, number: usize) -> Result<(), AllocError>
    ensures { OnOk result (string_bytes text.new ≡ string_bytes text.old ++ fault_words number) }
{
    write!(text, "# outcome {number} has a fault: ")
}
