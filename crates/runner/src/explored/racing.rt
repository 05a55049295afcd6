//! The short form of what a search found.
ghost use Rattle.std.specs.Prelude.{IfOk, string_bytes};
ghost use Rattle.runner.specs.OutcomesText.{IsSummary};

use crate::explored::leftover::print_shorts;
use crate::explored::lined::LinedOutcome;
use crate::explored::meaning::print_meaning;
use crate::explored::parting::print_place;
use crate::explored::print_safe;
use explore::{Explored, Limits, Race};
use limits::Heap;
use std::alloc::AllocError;
use std::fmt::Write;

/// Which receives and probes had several answers, a line each, what is listed of
/// the outcomes as never received, and what they mean. The statement at position K of the program stands on line
/// `lines[K]` of its text. An `Err` means out of memory.
pub fn print_summary(
    alloc: Heap,
    found: &Explored,
    left: &[LinedOutcome],
    marks: &[Option<bool>],
    cycle: &[usize],
    limits: Limits,
    lines: &[usize],
    synchronous: bool,
) -> Result<String<Heap>, AllocError>
    ensures { IfOk result (λ text. IsSummary synchronous found.now left.now marks.now cycle.now limits.runs (string_bytes text)) }
{
    let mut text = String::new(alloc);
    for race in found.races.iter() {
        print_race(&mut text, race, lines)?;
    }
    print_shorts(&mut text, left)?;
    print_safe(&mut text, found, synchronous)?;
    print_meaning(
        alloc,
        &mut text,
        found,
        left,
        marks,
        cycle,
        limits.runs,
        synchronous,
    )?;
    Ok(text)
}

fn print_race(text: &mut String<Heap>, race: &Race, lines: &[usize]) -> Result<(), AllocError> {
    print_place(text, race.rank, lines.get(race.position).copied())?;
    text.push_str(if race.probes {
        "finds one from "
    } else {
        "takes from "
    })?;
    print_sources(text, race)?;
    text.push_str(if race.misses { ", or none\n" } else { "\n" })
}

// The ranks of which it could take or find a message: `1`, `1 or 2`, `1, 2 or 3`.
fn print_sources(text: &mut String<Heap>, race: &Race) -> Result<(), AllocError> {
    let mut left = count_of(&race.sources);
    for (rank, is_one) in race.sources.iter().enumerate() {
        if *is_one {
            left = left.saturating_sub(1);
            write!(text, "{rank}{}", behind(left))?;
        }
    }
    Ok(())
}

fn count_of(sources: &[bool]) -> usize {
    let mut count = 0usize;
    for is_one in sources {
        if *is_one {
            count = count.saturating_add(1);
        }
    }
    count
}

// What stands between a rank and so many more.
fn behind(left: usize) -> &'static str {
    match left {
        0 => "",
        1 => " or ",
        _ => ", ",
    }
}
