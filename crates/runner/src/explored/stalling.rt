//! For what the ranks of an outcome wait that stall.
ghost use Rattle.std.specs.Prelude.{◌≡◌, ◌++◌, IfOk, OnOk, string_bytes};
ghost use Rattle.runner.specs.Stalls.{at_lines, either_line, either_text, either_words, held_lines, held_ranks, is_held, line_of_hold};
ghost use Rattle.runner.specs.Stalls.{message_line, message_text, message_words, send_line, send_text, stall_words, stalls_text};
ghost use Rattle.runner.specs.Stalls.{unheld_ranks};

use crate::explored::enumerating::{print_lines, print_ranks};
use crate::explored::lined::{LinedLeftover, LinedLeftovers, is_sent_by};
use limits::Heap;
use std::alloc::AllocError;
use std::fmt::Write;

/// For what these ranks of an outcome wait, of synchronous runs or of others. Where runs that have the
/// outcome left different messages, other ranks may be held in them.
pub fn print_stalls(
    alloc: Heap,
    text: &mut String<Heap>,
    number: usize,
    ranks: &[usize],
    listed: &[LinedLeftovers],
    synchronous: bool,
) -> Result<(), AllocError>
    ensures { OnOk result (string_bytes text.new ≡ string_bytes text.old ++ stalls_text synchronous number ranks.now listed.now) }
{
    if !synchronous {
        return print_for_messages(text, number, ranks);
    }
    match listed {
        [only] => print_by_hold(alloc, text, number, ranks, only.messages.as_slice()),
        [] | [_, _, ..] => print_either(text, number, ranks),
    }
}

// First those that wait in their sends, then the others.
fn print_by_hold(
    alloc: Heap,
    text: &mut String<Heap>,
    number: usize,
    ranks: &[usize],
    left: &[LinedLeftover],
) -> Result<(), AllocError>
    ensures { OnOk result (string_bytes text.new ≡ string_bytes text.old ++ send_text number (held_ranks left.now ranks.now) (held_lines left.now ranks.now)
        ++ message_text number (unheld_ranks left.now ranks.now)) }
{
    print_held(alloc, text, number, ranks, left)?;
    let others = unheld_ranks(alloc, left, ranks)?;
    let told = print_for_messages(text, number, others.as_slice());
    drop(others);
    told
}

fn print_held(
    alloc: Heap,
    text: &mut String<Heap>,
    number: usize,
    ranks: &[usize],
    left: &[LinedLeftover],
) -> Result<(), AllocError>
    ensures { OnOk result (string_bytes text.new ≡ string_bytes text.old ++ send_text number (held_ranks left.now ranks.now) (held_lines left.now ranks.now)) }
{
    let held = held_ranks(alloc, left, ranks)?;
    let lines = held_lines(alloc, left, ranks)?;
    let told = print_in_sends(text, number, held.as_slice(), lines.as_slice());
    drop(lines);
    drop(held);
    told
}

fn held_ranks(
    alloc: Heap,
    left: &[LinedLeftover],
    ranks: &[usize],
) -> Result<Vec<usize, Heap>, AllocError>
    ensures { IfOk result (λ held. held.items ≡ held_ranks left.now ranks.now) }
{
    ranks
        .iter()
        .copied()
        .filter(|rank| is_held(left, *rank))
        .collect(alloc)
}

fn unheld_ranks(
    alloc: Heap,
    left: &[LinedLeftover],
    ranks: &[usize],
) -> Result<Vec<usize, Heap>, AllocError>
    ensures { IfOk result (λ others. others.items ≡ unheld_ranks left.now ranks.now) }
{
    ranks
        .iter()
        .copied()
        .filter(|rank| !is_held(left, *rank))
        .collect(alloc)
}

fn held_lines(
    alloc: Heap,
    left: &[LinedLeftover],
    ranks: &[usize],
) -> Result<Vec<usize, Heap>, AllocError>
    ensures { IfOk result (λ lines. lines.items ≡ held_lines left.now ranks.now) }
{
    ranks
        .iter()
        .filter_map(|rank| line_of_hold(left, *rank))
        .collect(alloc)
}

// Whether the rank waits in its send: a message that it sent was never received.
fn is_held(left: &[LinedLeftover], rank: usize) -> bool
    ensures { result ≡ is_held left.now rank }
{
    left.iter().any(|message| is_sent_by(rank, message.message))
}

// The line of that send.
fn line_of_hold(left: &[LinedLeftover], rank: usize) -> Option<usize>
    ensures { result ≡ line_of_hold left.now rank }
{
    let mut rest = left;
    while let [message, more @ ..] = rest {
        if is_sent_by(rank, message.message) {
            return message.line;
        }
        rest = more;
    }
    None
}

#[tactic(auto, unfolding(crate::specs::Stalls::stall_words))]
fn print_stall_words(text: &mut String<Heap>, number: usize) -> Result<(), AllocError>
    ensures { OnOk result (string_bytes text.new ≡ string_bytes text.old ++ stall_words number) }
{
    write!(text, "# outcome {number} stalls: ")
}

fn print_for_messages(
    text: &mut String<Heap>,
    number: usize,
    ranks: &[usize],
) -> Result<(), AllocError>
    ensures { OnOk result (string_bytes text.new ≡ string_bytes text.old ++ message_text number ranks.now) }
{
    if ranks.is_empty() {
        return Ok(());
    }
    print_message_line(text, number, ranks)
}

fn print_message_line(
    text: &mut String<Heap>,
    number: usize,
    ranks: &[usize],
) -> Result<(), AllocError>
    ensures { OnOk result (string_bytes text.new ≡ string_bytes text.old ++ message_line number ranks.now) }
{
    print_stall_words(text, number)?;
    print_ranks(text, ranks)?;
    print_message_words(text, ranks)
}

// That these wait for messages.
fn print_message_words(text: &mut String<Heap>, ranks: &[usize]) -> Result<(), AllocError>
    ensures { OnOk result (string_bytes text.new ≡ string_bytes text.old ++ message_words ranks.now) }
{
    if ranks.len() == 1 {
        text.push_str(" waits for a message that doesn't come\n")
    } else {
        text.push_str(" wait for messages that don't come\n")
    }
}

fn print_in_sends(
    text: &mut String<Heap>,
    number: usize,
    ranks: &[usize],
    lines: &[usize],
) -> Result<(), AllocError>
    ensures { OnOk result (string_bytes text.new ≡ string_bytes text.old ++ send_text number ranks.now lines.now) }
{
    if ranks.is_empty() {
        return Ok(());
    }
    print_send_line(text, number, ranks, lines)
}

fn print_send_line(
    text: &mut String<Heap>,
    number: usize,
    ranks: &[usize],
    lines: &[usize],
) -> Result<(), AllocError>
    ensures { OnOk result (string_bytes text.new ≡ string_bytes text.old ++ send_line number ranks.now lines.now) }
{
    print_stall_words(text, number)?;
    print_ranks(text, ranks)?;
    text.push_str(if ranks.len() == 1 {
        " waits in its send"
    } else {
        " wait in their sends"
    })?;
    print_at_lines(text, lines)?;
    text.push_str("\n")
}

fn print_at_lines(text: &mut String<Heap>, lines: &[usize]) -> Result<(), AllocError>
    ensures { OnOk result (string_bytes text.new ≡ string_bytes text.old ++ at_lines lines.now) }
{
    if lines.is_empty() {
        return Ok(());
    }
    text.push_str(", at ")?;
    print_lines(text, lines)
}

fn print_either(text: &mut String<Heap>, number: usize, ranks: &[usize]) -> Result<(), AllocError>
    ensures { OnOk result (string_bytes text.new ≡ string_bytes text.old ++ either_text number ranks.now) }
{
    if ranks.is_empty() {
        return Ok(());
    }
    print_either_line(text, number, ranks)
}

fn print_either_line(
    text: &mut String<Heap>,
    number: usize,
    ranks: &[usize],
) -> Result<(), AllocError>
    ensures { OnOk result (string_bytes text.new ≡ string_bytes text.old ++ either_line number ranks.now) }
{
    print_stall_words(text, number)?;
    print_ranks(text, ranks)?;
    print_either_words(text, ranks)
}

// That these do, or wait in their sends.
fn print_either_words(text: &mut String<Heap>, ranks: &[usize]) -> Result<(), AllocError>
    ensures { OnOk result (string_bytes text.new ≡ string_bytes text.old ++ either_words ranks.now) }
{
    if ranks.len() == 1 {
        text.push_str(" waits for a message that doesn't come, or in its send\n")
    } else {
        text.push_str(" wait for messages that don't come, or in their sends\n")
    }
}
