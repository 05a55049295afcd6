//! A script's fault, explained.

use crate::near::{is_among, put_nearest};
use crate::piece::{Cut, Piece, pieces_of};
use crate::shown::{line_of, put_piece};
use crate::wordless::put_wordless;
use limits::{GREATEST_CLOCK, Heap};
use rank_text::script::{ScriptFault, ScriptFaultKind};
use rank_text::text_writer::TextWriter;
use std::alloc::AllocError;

/// The words that a script's lines begin with.
const ORDERS: [&str; 2] = ["kill", "image"];

/// What is expected behind so many words that fit.
const EXPECTED: [&str; 5] = [
    "`kill` or `image`",
    "a rank",
    "`at`",
    "a clock, 1 to 268435455",
    "nothing more",
];

/// What is wrong with the text of a script for so many ranks that has this fault.
pub fn explain_script(
    alloc: Heap,
    text: &[u8],
    fault: ScriptFault,
    ranks: u8,
) -> Result<String<Heap>, AllocError> {
    let line = line_of(text, fault.line);
    let words = pieces_of(alloc, line, Cut::Words)?;
    let mut told = TextWriter::begun(heading(alloc, fault), alloc);
    put_why(&mut told, alloc, line, words.as_slice(), fault, ranks);
    told.text("manual: docs/RUNS.md\n");
    told.done()
}

fn heading(alloc: Heap, fault: ScriptFault) -> Result<String<Heap>, AllocError> {
    let (number, kind) = (fault.line, fault.kind);
    format!(in alloc; "script line {number}: fault {} {kind}\n", kind.number())
}

fn put_why(
    told: &mut TextWriter,
    alloc: Heap,
    line: &[u8],
    words: &[Piece<'_>],
    fault: ScriptFault,
    ranks: u8,
) {
    match fault.kind {
        ScriptFaultKind::BadLine => put_bad_line(told, alloc, fault.line, line, words),
        ScriptFaultKind::BadRank => {
            put_piece(told, line, words, 1);
            put_ranks(told, ranks);
        }
        ScriptFaultKind::Limit => {
            put_piece(told, line, words, 0);
            told.text("a script has at most 256 lines\n");
        }
    }
}

fn put_ranks(told: &mut TextWriter, ranks: u8) {
    match ranks {
        0 | 1 => told.text("the one rank of this run is 0\n"),
        _ => {
            told.numbered(
                "the ranks of this run are 0 to ",
                u64::from(ranks - 1),
                "\n",
            );
        }
    }
}

// The first word that doesn't go on as a line.
fn put_bad_line(
    told: &mut TextWriter,
    alloc: Heap,
    number: usize,
    line: &[u8],
    words: &[Piece<'_>],
) {
    if put_wordless(told, number, line, words) {
        return;
    }
    let place = words_that_fit(words);
    put_piece(told, line, words, place);
    told.text("expected here: ");
    told.text(EXPECTED[place.min(4)]);
    match words {
        [word, ..] if place == 0 => put_nearest(told, alloc, word.text, &ORDERS),
        _ => {}
    }
    told.text("; a line is `kill R at C` or `image R at C`\n");
}

// How many words in front fit a line: at most 4.
fn words_that_fit(words: &[Piece<'_>]) -> usize {
    let mut place = 0usize;
    for word in words {
        if !fits(*word, place) {
            break;
        }
        place = place.saturating_add(1);
    }
    place
}

fn fits(word: Piece<'_>, place: usize) -> bool {
    match place {
        0 => is_among(word.text, &ORDERS),
        1 => rank_text::lines::decimal(word.text).is_some(),
        2 => word.is(b"at"),
        3 => is_clock(word.text),
        _ => false,
    }
}

fn is_clock(word: &[u8]) -> bool {
    match rank_text::lines::decimal(word) {
        Some(clock) => 1 <= clock && clock <= GREATEST_CLOCK,
        None => false,
    }
}
