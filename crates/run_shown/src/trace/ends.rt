//! How each rank ended, and where.

use crate::trace::acts::message_at;
use crate::trace::given::Told;
use crate::trace::left::unreceived;
use crate::trace::message::{SentMessage, write_mark};
use crate::trace::place::Place;
use crate::trace::why::WhyUnfinished;
use audit::End;
use crash_free::{Passed, Sim};
use limits::Heap;
use matching::Selector;
use rank_language::line_of_text;
use rank_machine::Want;
use rank_text::text_writer::TextWriter;
use std::alloc::AllocError;

/// The most messages that a stalled rank's line shows.
const SHOWN: usize = 8;

/// Writes a line for each rank.
pub fn put_ends(to: &mut TextWriter, told: Told<'_, '_>) {
    for rank in 0..told.run.ranks() {
        if let Some(end) = told.ends.get(usize::from(rank)) {
            to.numbered("rank ", u64::from(rank), ": ");
            put_end(to, told, rank, *end);
            to.sign('\n');
        }
    }
}

fn put_end(to: &mut TextWriter, told: Told<'_, '_>, rank: u8, end: End) {
    match end {
        End::Halted => to.text("halted"),
        End::Faulted(fault) => {
            to.numbered("fault ", u64::from(fault.number()), " ");
            to.text(fault.name());
            put_statement(to, told, rank);
        }
        End::Stalled => {
            to.text("stalled");
            put_statement(to, told, rank);
            put_there(to, told, rank);
        }
        End::Unfinished => {
            to.text("unfinished");
            put_statement(to, told, rank);
            to.text("; ");
            to.text(why_unfinished(told.whys, rank));
        }
    }
}

// Writes the line that the rank stands at, and its text.
fn put_statement(to: &mut TextWriter, told: Told<'_, '_>, rank: u8) {
    match line_of(told.run, told.lines, rank) {
        Some(line) => {
            to.numbered(" at line ", line as u64, ": ");
            put_line(to, told.text, line);
        }
        None => to.text(" at the end"),
    }
}

/// The line that the rank stands at; none at the end of the text.
pub fn line_of(run: &Sim<'_>, lines: &[usize], rank: u8) -> Option<usize> {
    if rank >= run.ranks() {
        return None;
    }
    lines.get(run.machine(rank).position()).copied()
}

/// What stands on a line of the program with this text.
pub fn statement_of(alloc: Heap, text: &[u8], line: usize) -> Result<String<Heap>, AllocError> {
    let mut statement = TextWriter::new(alloc);
    put_line(&mut statement, text, line);
    statement.done()
}

fn put_line(to: &mut TextWriter, text: &[u8], line: usize) {
    if let Some(statement) = line_of_text(text, line) {
        to.printable(statement);
    }
}

/// What a rank waits for, if it waits.
pub fn waits_for(run: &Sim<'_>, rank: u8) -> Option<Selector> {
    if rank >= run.ranks() {
        return None;
    }
    match run.wants(rank) {
        Want::Receive(selector) | Want::Probe(selector) => Some(selector),
        Want::TryProbe(_)
        | Want::Internal
        | Want::Send { .. }
        | Want::Print(_)
        | Want::Halted
        | Want::Faulted(_) => None,
    }
}

// Whether the selector names such a message of this source.
fn names(selector: Selector, source: u8, message: SentMessage<'_>) -> bool {
    selector.context == message.context
        && match selector.source {
            Some(wanted) => wanted == source,
            None => true,
        }
        && match selector.tag {
            Some(tag) => tag == message.tag,
            None => true,
        }
}

// Writes which messages are there that the rank doesn't wait for.
fn put_there(to: &mut TextWriter, told: Told<'_, '_>, rank: u8) {
    let Some(selector) = waits_for(told.run, rank) else {
        return;
    };
    let mut count = 0usize;
    for index in 0..told.acts.len() {
        if is_other(told, index, rank, selector) {
            count = count.saturating_add(1);
        }
    }
    to.text("; ");
    match count {
        0 => to.text("no message is there"),
        1 => to.text("1 message is there that it doesn't match"),
        _ => to.numbered(
            "",
            count as u64,
            " messages are there that it doesn't match",
        ),
    }
    put_others(to, told, rank, selector, count);
}

/// Whether the act of this index sends the rank a message that it never received
/// and doesn't wait for.
pub fn is_other(told: Told<'_, '_>, index: usize, rank: u8, selector: Selector) -> bool {
    if !unreceived(told.acts, told.deliveries, index, rank) {
        return false;
    }
    match (
        told.acts.get(index),
        message_at(told.acts, told.places, index),
    ) {
        (Some(passed), Some(message)) => !names(selector, passed.rank, message),
        (Some(_), None) | (None, _) => false,
    }
}

fn put_others(to: &mut TextWriter, told: Told<'_, '_>, rank: u8, selector: Selector, count: usize) {
    let mut shown = 0usize;
    for index in 0..told.acts.len() {
        if shown < SHOWN && is_other(told, index, rank, selector) {
            to.text(if shown == 0 { ": from " } else { "; from " });
            put_sent(to, told.acts, told.places, index);
            shown = shown.saturating_add(1);
        }
    }
    if shown < count {
        to.text("; ..");
    }
}

/// Writes of the message that the act of this index sent its source, and by what to know it.
pub fn put_sent(to: &mut TextWriter, acts: &[Passed], places: &[Place], index: usize) {
    if let Some(passed) = acts.get(index) {
        to.number(u64::from(passed.rank));
    }
    if let Some(message) = message_at(acts, places, index) {
        write_mark(to, message);
    }
}

/// Why a rank is unfinished, and what helps.
pub fn why_unfinished(whys: &[Option<WhyUnfinished>], rank: u8) -> &'static str {
    match whys.get(usize::from(rank)) {
        Some(Some(why)) => why.words(),
        Some(None) | None => "why isn't known",
    }
}
