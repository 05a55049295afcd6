//! What the outcomes of a program mean.
ghost use Rattle.std.specs.Prelude.{◌≡◌, ◌++◌, OnOk, string_bytes};
ghost use Rattle.runner.specs.Meanings.{count_text, crashes_text, cycle_line, cycle_text, cycle_words, limits_text, lone_lines, lone_words};
ghost use Rattle.runner.specs.Meanings.{mark_text, marks_text, meaning_text, only_text, runs_text, states_text, steps_text, stop_text};

use crate::explored::enumerating::print_lines;
use crate::explored::lined::LinedOutcome;
use crate::explored::unhalted::print_unhalted;
use explore::Explored;
use limits::Heap;
use std::alloc::AllocError;
use std::fmt::Write;

/// What the outcomes mean that a search found, which looked at no more than so
/// many runs, with what was never received; which of them have a mark, at which
/// lines a state came back, and how many they are.
pub fn print_meaning(
    alloc: Heap,
    text: &mut String<Heap>,
    found: &Explored,
    left: &[LinedOutcome],
    marks: &[Option<bool>],
    cycle: &[usize],
    runs: u32,
    synchronous: bool,
) -> Result<(), AllocError>
    ensures { OnOk result (string_bytes text.new ≡ string_bytes text.old ++ meaning_text synchronous found.now left.now marks.now cycle.now runs) }
{
    print_only(text, found, synchronous)?;
    print_unhalted(alloc, text, found.outcomes.as_slice(), left, synchronous)?;
    print_marks(text, marks)?;
    print_state_limit(text, found)?;
    print_limits(text, found, cycle, runs)?;
    print_count(text, found)
}

// That there is one outcome, if this is certain, and what crashes change then.
fn print_only(
    text: &mut String<Heap>,
    found: &Explored,
    synchronous: bool,
) -> Result<(), AllocError>
    ensures { OnOk result (string_bytes text.new ≡ string_bytes text.old ++ only_text synchronous found.now) }
{
    if found.complete && found.outcomes.len() == 1 {
        return print_lone_lines(text, synchronous);
    }
    Ok(())
}

fn print_lone_lines(text: &mut String<Heap>, synchronous: bool) -> Result<(), AllocError>
    ensures { OnOk result (string_bytes text.new ≡ string_bytes text.old ++ lone_lines synchronous) }
{
    print_lone_words(text)?;
    print_crashes(text, synchronous)
}

#[tactic(auto, unfolding(crate::specs::Meanings::lone_words))]
fn print_lone_words(text: &mut String<Heap>) -> Result<(), AllocError>
    ensures { OnOk result (string_bytes text.new ≡ string_bytes text.old ++ lone_words) }
{
    text.push_str("# one outcome: whatever the order, this program prints this\n")
}

// What crashes change then; of synchronous runs it isn't known.
fn print_crashes(text: &mut String<Heap>, synchronous: bool) -> Result<(), AllocError>
    ensures { OnOk result (string_bytes text.new ≡ string_bytes text.old ++ crashes_text synchronous) }
{
    if synchronous {
        return Ok(());
    }
    text.push_str("# whatever crashes, each rank prints this, or a beginning of it\n")
}

// Which outcomes were found by runs that no execution gives.
fn print_marks(text: &mut String<Heap>, marks: &[Option<bool>]) -> Result<(), AllocError>
    ensures { OnOk result (string_bytes text.new ≡ string_bytes text.old ++ marks_text 1 marks.now) }
{
    let mut number = 0usize;
    let mut rest = marks;
    while let [mark, more @ ..] = rest {
        number += 1;
        print_mark(text, number, *mark)?;
        rest = more;
    }
    Ok(())
}

fn print_mark(text: &mut String<Heap>, number: usize, mark: Option<bool>) -> Result<(), AllocError>
    ensures { OnOk result (string_bytes text.new ≡ string_bytes text.old ++ mark_text number mark) }
{
    match mark {
        Some(true) => writeln!(
            text,
            "# outcome {number}: in the run that was found a probe misses a message that its rank was shown; no execution does"
        ),
        Some(false) | None => Ok(()),
    }
}

// How many states were kept, if there were more.
fn print_state_limit(text: &mut String<Heap>, found: &Explored) -> Result<(), AllocError>
    ensures { OnOk result (string_bytes text.new ≡ string_bytes text.old ++ states_text found.now) }
{
    if found.kept_all {
        return Ok(());
    }
    let states = found.states;
    writeln!(
        text,
        "# states kept: {states}; behind that no runs were merged: allow more (--states)"
    )
}

// Whether a state came back, and where the search stopped, if the ranks may go on for ever or not
// all was looked at.
fn print_limits(
    text: &mut String<Heap>,
    found: &Explored,
    cycle: &[usize],
    runs: u32,
) -> Result<(), AllocError>
    ensures { OnOk result (string_bytes text.new ≡ string_bytes text.old ++ limits_text found.now cycle.now runs) }
{
    if found.complete {
        return Ok(());
    }
    print_cycle(text, cycle)?;
    print_stop(text, found, runs)
}

// That the outcomes of all runs that end were found, or which limits were reached.
fn print_stop(text: &mut String<Heap>, found: &Explored, runs: u32) -> Result<(), AllocError>
    ensures { OnOk result (string_bytes text.new ≡ string_bytes text.old ++ stop_text found.now runs) }
{
    if found.closed {
        return text.push_str("# each run that ends has one of these outcomes\n");
    }
    print_step_limit(text, found)?;
    print_run_limit(text, found, runs)
}

// That a state came back, if one did.
fn print_cycle(text: &mut String<Heap>, cycle: &[usize]) -> Result<(), AllocError>
    ensures { OnOk result (string_bytes text.new ≡ string_bytes text.old ++ cycle_text cycle.now) }
{
    if cycle.is_empty() {
        return Ok(());
    }
    print_cycle_line(text, cycle)
}

// That one did, and at which lines ranks went on meanwhile.
fn print_cycle_line(text: &mut String<Heap>, cycle: &[usize]) -> Result<(), AllocError>
    ensures { OnOk result (string_bytes text.new ≡ string_bytes text.old ++ cycle_line cycle.now) }
{
    print_cycle_words(text)?;
    print_lines(text, cycle)?;
    text.push_str("\n")
}

#[tactic(auto, unfolding(crate::specs::Meanings::cycle_words))]
fn print_cycle_words(text: &mut String<Heap>) -> Result<(), AllocError>
    ensures { OnOk result (string_bytes text.new ≡ string_bytes text.old ++ cycle_words) }
{
    text.push_str("# a state came back: the ranks may go on for ever, at ")
}

fn print_step_limit(text: &mut String<Heap>, found: &Explored) -> Result<(), AllocError>
    ensures { OnOk result (string_bytes text.new ≡ string_bytes text.old ++ steps_text found.now) }
{
    if !found.out_of_steps {
        return Ok(());
    }
    text.push_str("# not all was looked at: allow more steps (--steps)\n")
}

fn print_run_limit(text: &mut String<Heap>, found: &Explored, runs: u32) -> Result<(), AllocError>
    ensures { OnOk result (string_bytes text.new ≡ string_bytes text.old ++ runs_text found.now runs) }
{
    if found.runs != runs {
        return Ok(());
    }
    text.push_str("# not all was looked at: allow more runs (--runs)\n")
}

fn print_count(text: &mut String<Heap>, found: &Explored) -> Result<(), AllocError>
    ensures { OnOk result (string_bytes text.new ≡ string_bytes text.old ++ count_text found.now) }
{
    let outcomes = found.outcomes.len();
    let runs = found.runs;
    if found.complete {
        writeln!(text, "outcomes {outcomes}, runs {runs}, complete")
    } else if found.closed {
        writeln!(text, "outcomes {outcomes}, runs {runs}, closed")
    } else {
        writeln!(text, "outcomes {outcomes}, runs {runs}, stopped")
    }
}
