//! Where runs part that lead to different outcomes.
ghost use Rattle.std.specs.Prelude.{◌≡◌, ◌≢◌, ◌<◌, ◌++◌, ℕ, true, false, OnOk, Some, slice_get, string_bytes};
ghost use Rattle.runner.specs.Partings.{PartsOn, before_words, choice_words, choices_text, chosen_words};
ghost use Rattle.runner.specs.Partings.{instead_words, other_words, parted_text, place_words};

use crash_free::Choice;
use explore::Noted;
use limits::Heap;
use std::alloc::AllocError;
use std::fmt::Write;

/// A choice, and what was chosen in its place in a run before.
#[derive(Clone, Copy)]
pub struct Parted {
    at: usize,
    chosen: Noted,
    before: Noted,
}

/// Brings up to date where the runs before part from this one, `last` being the one before it. Runs stand in the order of a search depth
/// first: so no earlier run goes along with this one further than the last does, and up to there what parted from that one parts from this.
pub fn part(
    parted: &mut Vec<Parted, Heap>,
    last: &[Noted],
    choices: &[Noted],
) -> Result<(), AllocError>
    ensures { OnOk result (PartsOn last.now choices.now parted.old.items parted.new.items) }
{
    let at = same_from_first(last, choices);
    parted.truncate(count_before(parted.as_slice(), at));
    let Some(before) = choice_at(last, at) else {
        return Ok(());
    };
    let Some(chosen) = choice_at(choices, at) else {
        return Ok(());
    };
    parted.push(Parted { at, chosen, before })?;
    Ok(())
}

// How many choices, from the first on, are the same in both.
fn same_from_first(last: &[Noted], choices: &[Noted]) -> usize
    ensures same { (i : ℕ) → i < result → slice_get choices.now i ≡ slice_get last.now i }
    ensures apart { (chosen before : Noted) → slice_get choices.now result ≡ Some chosen → slice_get last.now result ≡ Some before → chosen ≢ before }
{
    let mut at = 0;
    while at < last.len() && at < choices.len() {
        if !is_same(choices[at], last[at]) {
            return at;
        }
        at += 1;
    }
    at
}

fn is_same(noted: Noted, other: Noted) -> bool
    ensures yes { result ≡ true → noted ≡ other }
    ensures no { result ≡ false → noted ≢ other }
{
    noted == other
}

fn choice_at(choices: &[Noted], at: usize) -> Option<Noted>
    ensures { result ≡ slice_get choices.now at }
{
    choices.get(at).copied()
}

// How many of these, from the first on, stand before this place.
fn count_before(parted: &[Parted], at: usize) -> usize
    ensures { (i : ℕ) (one : Parted) → i < result → slice_get parted.now i ≡ Some one → one.at < at }
{
    let mut count = 0;
    while count < parted.len() {
        if parted[count].at >= at {
            return count;
        }
        count += 1;
    }
    count
}

/// Each of these, a line each. The statement at position K of the program stands on line
/// `lines[K]` of its text.
pub fn print_choices(
    text: &mut String<Heap>,
    parted: &[Parted],
    lines: &[usize],
) -> Result<(), AllocError>
    ensures { OnOk result (string_bytes text.new ≡ string_bytes text.old ++ choices_text lines.now parted.now) }
{
    let mut rest = parted;
    while let [each, more @ ..] = rest {
        print_parted(text, *each, lines)?;
        rest = more;
    }
    Ok(())
}

fn print_parted(text: &mut String<Heap>, parted: Parted, lines: &[usize]) -> Result<(), AllocError>
    ensures { OnOk result (string_bytes text.new ≡ string_bytes text.old ++ parted_text lines.now parted) }
{
    text.push_str("# ")?;
    print_chosen(text, parted.chosen, lines)?;
    print_before(text, parted, lines)?;
    text.push_str("\n")
}

fn print_before(text: &mut String<Heap>, parted: Parted, lines: &[usize]) -> Result<(), AllocError>
    ensures { OnOk result (string_bytes text.new ≡ string_bytes text.old ++ before_words lines.now parted) }
{
    let before = parted.before;
    if parted.chosen.chosen.rank == before.chosen.rank {
        return print_instead(text, before.chosen.choice, before.probes);
    }
    text.push_str(" before ")?;
    print_chosen(text, before, lines)
}

fn print_chosen(text: &mut String<Heap>, noted: Noted, lines: &[usize]) -> Result<(), AllocError>
    ensures { OnOk result (string_bytes text.new ≡ string_bytes text.old ++ chosen_words lines.now noted) }
{
    print_place(text, noted.chosen.rank, line_of(lines, noted))?;
    print_choice(text, noted.chosen.choice, noted.probes)
}

fn line_of(lines: &[usize], noted: Noted) -> Option<usize>
    ensures { result ≡ slice_get lines.now noted.position }
{
    lines.get(noted.position).copied()
}

/// A rank, and the line where it stands, if that is known.
pub fn print_place(text: &mut String<Heap>, rank: u8, line: Option<usize>) -> Result<(), AllocError>
    ensures { OnOk result (string_bytes text.new ≡ string_bytes text.old ++ place_words rank line) }
{
    match line {
        Some(line) => write!(text, "rank {rank} at line {line} "),
        None => write!(text, "rank {rank} "),
    }
}

fn print_choice(text: &mut String<Heap>, choice: Choice, probes: bool) -> Result<(), AllocError>
    ensures { OnOk result (string_bytes text.new ≡ string_bytes text.old ++ choice_words choice probes) }
{
    match choice {
        Choice::Take { source, index: _ } if probes => write!(text, "finds one from {source}"),
        Choice::Take { source, index: _ } => write!(text, "takes from {source}"),
        Choice::Miss => text.push_str("finds none"),
        Choice::Next => text.push_str("goes on"),
    }
}

// What the same rank chose there before.
fn print_instead(text: &mut String<Heap>, choice: Choice, probes: bool) -> Result<(), AllocError>
    ensures { OnOk result (string_bytes text.new ≡ string_bytes text.old ++ instead_words choice probes) }
{
    match choice {
        Choice::Take { source, index: _ } => print_other(text, source, probes),
        Choice::Miss => text.push_str(", not none"),
        Choice::Next => Ok(()),
    }
}

fn print_other(text: &mut String<Heap>, source: u32, probes: bool) -> Result<(), AllocError>
    ensures { OnOk result (string_bytes text.new ≡ string_bytes text.old ++ other_words source probes) }
{
    if probes {
        write!(text, ", not one from {source}")
    } else {
        write!(text, " before {source}")
    }
}
