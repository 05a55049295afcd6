//! What the program prints of the runs of a soak.
ghost use Rattle.std.specs.Prelude.{◌≡◌, ◌++◌, [], IfOk, OnOk, length, string_bytes};
ghost use Rattle.std.specs.Fmt.{decimal};
ghost use Rattle.explore.specs.Explored.{rank_outcomes};
ghost use Rattle.runner.specs.SoakText.{AreUnmet, IsSearchText, IsSoakText, IsUnmetLine, bar_text, bars_text, complete_text, count_text, failed_text};

use crate::explored::{outcome_at, print_outcome};
use crate::soaked::Soaked;
use explore::{Explored, FoundOutcome};
use limits::Heap;
use outcomes::soak::{Bar, Histogram};
use std::alloc::AllocError;
use std::fmt::Write;

/// Each outcome with its counts, the runs without a report, what a search says
/// of the outcomes, and the last line. An `Err` means out of memory.
pub fn print_soaked(
    alloc: Heap,
    soaked: &Soaked,
    found: &Explored,
    runs: u32,
) -> Result<String<Heap>, AllocError>
    ensures { IfOk result (λ text. IsSoakText soaked.now found.now runs (string_bytes text)) }
{
    let search = search_text(alloc, found, &soaked.histogram)?;
    let mut text = String::new(alloc);
    print_bars(&mut text, soaked.histogram.bars())?;
    text.push_str(soaked.failed.as_str())?;
    text.push_str(search.as_str())?;
    print_count(&mut text, soaked, runs)?;
    Ok(text)
}

fn print_bars(text: &mut String<Heap>, bars: &[Bar]) -> Result<(), AllocError>
    ensures { OnOk result (string_bytes text.new ≡ string_bytes text.old ++ bars_text 1 bars.now) }
{
    let mut count = 0usize;
    let mut rest = bars;
    while let [bar, more @ ..] = rest {
        count += 1;
        print_bar(text, count, bar)?;
        rest = more;
    }
    Ok(())
}

fn print_bar(text: &mut String<Heap>, number: usize, bar: &Bar) -> Result<(), AllocError>
    ensures { OnOk result (string_bytes text.new ≡ string_bytes text.old ++ bar_text number bar.now) }
{
    let (runs, crashed) = (bar.runs, bar.crashed);
    print_outcome(text, number, bar.ranks.as_slice())?;
    writeln!(text, "runs {runs}, crashed {crashed}\n")
}

fn print_count(text: &mut String<Heap>, soaked: &Soaked, runs: u32) -> Result<(), AllocError>
    ensures { OnOk result (string_bytes text.new ≡ string_bytes text.old ++ count_text soaked.now runs) }
{
    let (crashes, images) = (soaked.crashes, soaked.images);
    let outcomes = soaked.histogram.bars().len();
    write!(text, "runs {runs}, crashes {crashes}")?;
    writeln!(text, ", images {images}, outcomes {outcomes}")
}

/// That the run of this number has no report, and why, with its script. An `Err`
/// means out of memory.
pub fn print_failed(
    text: &mut String<Heap>,
    number: u32,
    why: &str,
    script: &str,
) -> Result<(), AllocError>
    ensures { OnOk result (string_bytes text.new ≡ string_bytes text.old ++ failed_text number why.now script.now) }
{
    write!(text, "run {number} has no report: ")?;
    text.push_str(why)?;
    text.push_str("\n")?;
    text.push_str(script)?;
    Ok(())
}

// What a search says of the outcomes that were met.
#[tactic(auto, using(crate::proofs::Soaks::is_complete_text, crate::proofs::Soaks::is_stopped_text, crate::proofs::Written::as_many))]
fn search_text(
    alloc: Heap,
    found: &Explored,
    histogram: &Histogram,
) -> Result<String<Heap>, AllocError>
    ensures { IfOk result (λ text. IsSearchText found.now histogram.now (string_bytes text)) }
{
    let mut text = String::new(alloc);
    if !found.complete {
        text.push_str("# explore isn't complete: others may be possible\n")?;
        return Ok(text);
    }
    let mut unmet = String::new(alloc);
    print_unmet(&mut unmet, found, histogram)?;
    print_complete(&mut text, found.outcomes.len())?;
    text.push_str(unmet.as_str())?;
    Ok(text)
}

fn print_complete(text: &mut String<Heap>, outcomes: usize) -> Result<(), AllocError>
    ensures { OnOk result (string_bytes text.new ≡ string_bytes text.old ++ complete_text outcomes) }
{
    writeln!(text, "# explore is complete: outcomes {outcomes}")
}

// The outcomes that no run had.
#[tactic(auto, using(crate::proofs::Soaks::none_unmet))]
fn print_unmet(
    text: &mut String<Heap>,
    found: &Explored,
    histogram: &Histogram,
) -> Result<(), AllocError>
    requires { string_bytes text.old ≡ [] }
    ensures { OnOk result (AreUnmet histogram.now found.now.outcomes (length found.now.outcomes) (string_bytes text.new)) }
{
    for index in 0..found.outcomes.len() {
        print_if_unmet(text, index + 1, outcome_at(found, index), histogram)?;
    }
    Ok(())
}

// A line, if no run had the outcome of this number.
#[tactic(auto, using(crate::proofs::Soaks::met_line, crate::proofs::Soaks::unmet_line))]
fn print_if_unmet(
    text: &mut String<Heap>,
    number: usize,
    outcome: &FoundOutcome,
    histogram: &Histogram,
) -> Result<(), AllocError>
    ensures { OnOk result (IsUnmetLine histogram.now number outcome.now.ranks (string_bytes text.old) (string_bytes text.new)) }
{
    if histogram.has(outcome.ranks.as_slice()) {
        return Ok(());
    }
    writeln!(text, "# outcome {number} of explore wasn't met")
}
