//! Whether a program is safe: it needs no buffer.
ghost use Rattle.std.specs.Prelude.{◌≡◌, ◌++◌, IfOk, OnOk, string_bytes};
ghost use Rattle.runner.specs.Safety.{safety_behind, safety_text, unknown_text, unsafe_words, wait_words, waiting_lines, waiting_ranks, waits_line, waits_text};

use crate::explored::enumerating::{print_lines, print_ranks};
use limits::Heap;
use std::alloc::AllocError;

/// A rank that waits in its send, if no message is buffered.
#[derive(Clone, Copy)]
pub struct WaitingRank {
    pub rank: u8,
    /// The line at which it waits, if that is known.
    pub line: Option<usize>,
}

/// The ranks that wait so after a run.
#[derive(Drop)]
pub struct WaitingRanks {
    pub ranks: Vec<WaitingRank, Heap>,
    /// Whether each waits for another one of them.
    pub each_other: bool,
}

/// Why it isn't known whether a program is safe.
#[derive(Clone, Copy)]
pub enum Unknown {
    /// The search of its synchronous runs came to a limit.
    Stopped,
    /// A rank doesn't halt, and no message was found that waits for its receive.
    Unhalted,
}

/// Whether a program is safe.
#[derive(Drop)]
pub enum Safety {
    /// It wasn't looked for.
    Untold,
    Safe,
    /// It isn't, as these ranks wait; none if no run of them was found again.
    NotSafe(WaitingRanks),
    Unknown(Unknown),
}

/// The line on whether the program is safe, unless the search itself was one of synchronous runs.
pub fn print_safety(
    alloc: Heap,
    text: &mut String<Heap>,
    safety: &Safety,
    synchronous: bool,
) -> Result<(), AllocError>
    ensures { OnOk result (string_bytes text.new ≡ string_bytes text.old ++ safety_behind synchronous safety.now) }
{
    if synchronous {
        return Ok(());
    }
    print_told(alloc, text, safety)
}

fn print_told(alloc: Heap, text: &mut String<Heap>, safety: &Safety) -> Result<(), AllocError>
    ensures { OnOk result (string_bytes text.new ≡ string_bytes text.old ++ safety_text safety.now) }
{
    match safety {
        Safety::Untold => Ok(()),
        Safety::Safe => text.push_str("# safe: no send needs a buffer\n"),
        Safety::NotSafe(waits) => print_waits(alloc, text, waits),
        Safety::Unknown(why) => print_unknown(text, *why),
    }
}

fn print_unknown(text: &mut String<Heap>, why: Unknown) -> Result<(), AllocError>
    ensures { OnOk result (string_bytes text.new ≡ string_bytes text.old ++ unknown_text why) }
{
    match why {
        Unknown::Stopped => text.push_str(
            "# not known whether it is safe: the search without buffers came to a limit\n",
        ),
        Unknown::Unhalted => text.push_str(
            "# not known whether it is safe: a rank doesn't halt, though each message sent is received\n",
        ),
    }
}

fn print_waits(alloc: Heap, text: &mut String<Heap>, waits: &WaitingRanks) -> Result<(), AllocError>
    ensures { OnOk result (string_bytes text.new ≡ string_bytes text.old ++ waits_text waits.now) }
{
    if waits.ranks.is_empty() {
        return text.push_str("# not safe: without buffers a rank waits in its send\n");
    }
    print_waits_line(alloc, text, waits)
}

fn print_waits_line(
    alloc: Heap,
    text: &mut String<Heap>,
    waits: &WaitingRanks,
) -> Result<(), AllocError>
    ensures { OnOk result (string_bytes text.new ≡ string_bytes text.old ++ waits_line waits.now) }
{
    let ranks = waiting_ranks(alloc, waits.ranks.as_slice())?;
    let lines = waiting_lines(alloc, waits.ranks.as_slice())?;
    let told = print_waits_at(text, waits, ranks.as_slice(), lines.as_slice());
    drop(lines);
    drop(ranks);
    told
}

// That these ranks wait, at these lines.
fn print_waits_at(
    text: &mut String<Heap>,
    waits: &WaitingRanks,
    ranks: &[usize],
    lines: &[usize],
) -> Result<(), AllocError>
    requires ranks { ranks.now ≡ waiting_ranks waits.now.ranks.items }
    requires lines { lines.now ≡ waiting_lines waits.now.ranks.items }
    ensures { OnOk result (string_bytes text.new ≡ string_bytes text.old ++ waits_line waits.now) }
{
    print_unsafe_words(text)?;
    print_ranks(text, ranks)?;
    print_wait_words(text, waits)?;
    print_lines(text, lines)?;
    text.push_str("\n")
}

// Which ranks wait.
fn waiting_ranks(alloc: Heap, waits: &[WaitingRank]) -> Result<Vec<usize, Heap>, AllocError>
    ensures { IfOk result (λ ranks. ranks.items ≡ waiting_ranks waits.now) }
{
    waits
        .iter()
        .map(|wait| usize::from(wait.rank))
        .collect(alloc)
}

// The lines at which they wait.
fn waiting_lines(alloc: Heap, waits: &[WaitingRank]) -> Result<Vec<usize, Heap>, AllocError>
    ensures { IfOk result (λ lines. lines.items ≡ waiting_lines waits.now) }
{
    waits.iter().filter_map(|wait| wait.line).collect(alloc)
}

#[tactic(auto, unfolding(crate::specs::Safety::unsafe_words))]
fn print_unsafe_words(text: &mut String<Heap>) -> Result<(), AllocError>
    ensures { OnOk result (string_bytes text.new ≡ string_bytes text.old ++ unsafe_words) }
{
    text.push_str("# not safe: without buffers ")
}

fn print_wait_words(text: &mut String<Heap>, waits: &WaitingRanks) -> Result<(), AllocError>
    ensures { OnOk result (string_bytes text.new ≡ string_bytes text.old ++ wait_words waits.now) }
{
    if waits.each_other {
        text.push_str(" wait for each other, at ")
    } else if waits.ranks.len() == 1 {
        text.push_str(" waits in its send, at ")
    } else {
        text.push_str(" wait in their sends, at ")
    }
}
