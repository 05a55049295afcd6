//! What was never received in runs that have an outcome.
ghost use Rattle.std.specs.Prelude.{◌≡◌, ◌++◌, OnOk, string_bytes};
ghost use Rattle.run_shown.specs.Trace.Words.{ordinal_text};
ghost use Rattle.runner.specs.LeftText.{are_alike, begin_alike, each_text, left_line, left_text, listed_text, short_text, shorts_text};
ghost use Rattle.runner.specs.LeftText.{known_words, line_words, mark_words, number_words, same_mark, some_text};

use crate::explored::lined::{LinedLeftover, LinedLeftovers, LinedOutcome};
use crash_free::MessageMark;
use limits::Heap;
use run_shown::trace::kind_name;
use std::alloc::AllocError;
use std::fmt::Write;

/// What is listed of an outcome, behind these words: that of all runs, if it is
/// one, or of some.
pub fn print_listed(
    text: &mut String<Heap>,
    before: &str,
    listed: &[LinedLeftovers],
) -> Result<(), AllocError>
    ensures { OnOk result (string_bytes text.new ≡ string_bytes text.old ++ listed_text before.now listed.now) }
{
    match listed {
        [] => Ok(()),
        [only] => print_left(text, before, only.messages.as_slice()),
        [_, _, ..] => print_each(text, before, listed),
    }
}

fn print_each(
    text: &mut String<Heap>,
    before: &str,
    listed: &[LinedLeftovers],
) -> Result<(), AllocError>
    ensures { OnOk result (string_bytes text.new ≡ string_bytes text.old ++ each_text before.now listed.now) }
{
    let mut rest = listed;
    while let [some, more @ ..] = rest {
        print_some(text, before, some.messages.as_slice())?;
        rest = more;
    }
    Ok(())
}

fn print_some(
    text: &mut String<Heap>,
    before: &str,
    messages: &[LinedLeftover],
) -> Result<(), AllocError>
    ensures { OnOk result (string_bytes text.new ≡ string_bytes text.old ++ some_text before.now messages.now) }
{
    if messages.is_empty() {
        return writeln!(text, "{before}in some runs: each message was received");
    }
    writeln!(text, "{before}in some runs:")?;
    print_left(text, before, messages)
}

/// What is listed of each outcome, in short, with the number of the outcome.
pub fn print_shorts(text: &mut String<Heap>, outcomes: &[LinedOutcome]) -> Result<(), AllocError>
    ensures { OnOk result (string_bytes text.new ≡ string_bytes text.old ++ shorts_text 1 outcomes.now) }
{
    let mut number = 0usize;
    let mut rest = outcomes;
    while let [outcome, more @ ..] = rest {
        number += 1;
        print_short(text, number, outcome.left.as_slice())?;
        rest = more;
    }
    Ok(())
}

fn print_short(
    text: &mut String<Heap>,
    number: usize,
    listed: &[LinedLeftovers],
) -> Result<(), AllocError>
    ensures { OnOk result (string_bytes text.new ≡ string_bytes text.old ++ short_text number listed.now) }
{
    let mut before = String::new(*text.allocator());
    write!(before, "# outcome {number}: ")?;
    print_listed(text, before.as_str(), listed)
}

/// A line, behind these words, for those of the messages that are alike and stand
/// one after another.
pub fn print_left(
    text: &mut String<Heap>,
    before: &str,
    messages: &[LinedLeftover],
) -> Result<(), AllocError>
    ensures { OnOk result (string_bytes text.new ≡ string_bytes text.old ++ left_text before.now messages.now) }
{
    let mut count = 0usize;
    let mut rest = messages;
    while let [one, more @ ..] = rest {
        count += 1;
        if !begin_alike(*one, more) {
            print_line_of(text, before, *one, count)?;
            count = 0;
        }
        rest = more;
    }
    Ok(())
}

fn begin_alike(one: LinedLeftover, messages: &[LinedLeftover]) -> bool
    ensures { result ≡ begin_alike one messages.now }
{
    match messages.first() {
        Some(other) => are_alike(one, *other),
        None => false,
    }
}

fn are_alike(one: LinedLeftover, other: LinedLeftover) -> bool
    ensures { result ≡ are_alike one other }
{
    let (message, like) = (one.message, other.message);
    message.rank == like.rank
        && message.source == like.source
        && is_same_mark(message.mark, like.mark)
        && one.line == other.line
}

fn is_same_mark(mark: MessageMark, other: MessageMark) -> bool
    ensures { result ≡ same_mark mark other }
{
    match mark {
        MessageMark::Tag(tag) => match other {
            MessageMark::Tag(same) => tag == same,
            MessageMark::Call { .. } => false,
        },
        MessageMark::Call { kind, number } => match other {
            MessageMark::Call {
                kind: of,
                number: among,
            } => kind == of && number == among,
            MessageMark::Tag(_) => false,
        },
    }
}

fn print_line_of(
    text: &mut String<Heap>,
    before: &str,
    one: LinedLeftover,
    count: usize,
) -> Result<(), AllocError>
    ensures { OnOk result (string_bytes text.new ≡ string_bytes text.old ++ left_line before.now one count) }
{
    let rank = one.message.rank;
    let source = one.message.source;
    write!(text, "{before}rank {rank}: ")?;
    print_number(text, count)?;
    write!(text, " never received, from {source}")?;
    print_known(text, one)?;
    text.push_str("\n")
}

fn print_known(text: &mut String<Heap>, one: LinedLeftover) -> Result<(), AllocError>
    ensures { OnOk result (string_bytes text.new ≡ string_bytes text.old ++ known_words one) }
{
    print_mark(text, one.message.mark)?;
    print_line_number(text, one.line)
}

fn print_line_number(text: &mut String<Heap>, line: Option<usize>) -> Result<(), AllocError>
    ensures { OnOk result (string_bytes text.new ≡ string_bytes text.old ++ line_words line) }
{
    match line {
        Some(line) => write!(text, ", sent at line {line}"),
        None => Ok(()),
    }
}

fn print_number(text: &mut String<Heap>, count: usize) -> Result<(), AllocError>
    ensures { OnOk result (string_bytes text.new ≡ string_bytes text.old ++ number_words count) }
{
    if count == 1 {
        text.push_str("1 message was")
    } else {
        write!(text, "{count} messages were")
    }
}

fn print_mark(text: &mut String<Heap>, mark: MessageMark) -> Result<(), AllocError>
    ensures { OnOk result (string_bytes text.new ≡ string_bytes text.old ++ mark_words mark) }
{
    match mark {
        MessageMark::Tag(tag) => write!(text, ", tag {tag}"),
        MessageMark::Call { kind, number } => {
            let name = kind_name(kind);
            write!(text, ", {name}")?;
            print_ordinal(text, number)
        }
    }
}

fn print_ordinal(text: &mut String<Heap>, number: Option<i64>) -> Result<(), AllocError>
    ensures { OnOk result (string_bytes text.new ≡ string_bytes text.old ++ ordinal_text number) }
{
    match number {
        Some(number) => write!(text, " {number}"),
        None => Ok(()),
    }
}
