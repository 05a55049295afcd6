//! A fault of an events text, explained.

use crate::near::NearWord;
use crate::piece::{Cut, Piece, pieces_of};
use crate::shown::{line_of, put_piece};
use crate::wordless::put_wordless;
use limits::Heap;
use rank_text::text_writer::TextWriter;
use std::alloc::AllocError;
use world_model::events_text::EventsFaultKind;

/// An event: its word, and what numbers follow it.
struct EventForm {
    word: &'static str,
    numbers: usize,
    shown: &'static str,
}

const FORMS: [EventForm; 9] = [
    EventForm {
        word: "step",
        numbers: 1,
        shown: "`step R`",
    },
    EventForm {
        word: "put",
        numbers: 2,
        shown: "`put S R`",
    },
    EventForm {
        word: "arrive",
        numbers: 3,
        shown: "`arrive S R I`",
    },
    EventForm {
        word: "store",
        numbers: 1,
        shown: "`store R`",
    },
    EventForm {
        word: "ack",
        numbers: 1,
        shown: "`ack R`",
    },
    EventForm {
        word: "release",
        numbers: 1,
        shown: "`release R`",
    },
    EventForm {
        word: "image",
        numbers: 1,
        shown: "`image R`",
    },
    EventForm {
        word: "crash",
        numbers: 1,
        shown: "`crash R`",
    },
    EventForm {
        word: "restart",
        numbers: 1,
        shown: "`restart R`",
    },
];

fn forms() -> &'static [EventForm] {
    &FORMS
}

/// What is wrong with an events text that has this fault on this line, from 1.
pub fn explain_events(
    alloc: Heap,
    text: &[u8],
    number: usize,
    kind: EventsFaultKind,
) -> Result<String<Heap>, AllocError> {
    let line = line_of(text, number);
    let words = pieces_of(alloc, line, Cut::Words)?;
    let mut told = TextWriter::begun(heading(alloc, number, kind), alloc);
    match kind {
        EventsFaultKind::BadLine => put_bad_line(&mut told, alloc, number, line, words.as_slice()),
        EventsFaultKind::Limit => {
            put_piece(&mut told, line, words.as_slice(), 0);
            told.text("an events text has at most 100000 lines\n");
        }
    }
    told.text("manual: docs/WORLDS.md\n");
    told.done()
}

fn heading(alloc: Heap, number: usize, kind: EventsFaultKind) -> Result<String<Heap>, AllocError> {
    format!(in alloc; "events line {number}: fault {} {kind}\n", kind.number())
}

fn put_bad_line(
    told: &mut TextWriter,
    alloc: Heap,
    number: usize,
    line: &[u8],
    words: &[Piece<'_>],
) {
    if put_wordless(told, number, line, words) {
        return;
    }
    match words {
        [] => {
            put_piece(told, line, words, 0);
            told.text("no event begins so\n");
        }
        [word, numbers @ ..] => match form_of(*word) {
            Some(form) => put_numbers(told, line, numbers, form),
            None => put_no_event(told, alloc, line, words, word.text),
        },
    }
}

fn form_of(word: Piece<'_>) -> Option<&'static EventForm> {
    for form in forms() {
        if word.is(form.word.as_bytes()) {
            return Some(form);
        }
    }
    None
}

fn put_no_event(told: &mut TextWriter, alloc: Heap, line: &[u8], words: &[Piece<'_>], word: &[u8]) {
    put_piece(told, line, words, 0);
    told.text("no event begins so");
    let mut nearest = NearWord::to(word);
    for form in forms() {
        nearest.look_at(alloc, form.word);
    }
    nearest.put(told);
    told.sign('\n');
}

// The first word that is no number, or stands where none is.
fn put_numbers(told: &mut TextWriter, line: &[u8], words: &[Piece<'_>], form: &EventForm) {
    let place = numbers_in_front(words).min(form.numbers);
    let expected = if place < form.numbers {
        "a number of at most 9 digits"
    } else {
        "nothing more"
    };
    put_piece(told, line, words, place);
    told.text("expected here: ");
    told.text(expected);
    told.text("; the event is ");
    told.text(form.shown);
    told.sign('\n');
}

fn numbers_in_front(words: &[Piece<'_>]) -> usize {
    let mut place = 0usize;
    for word in words {
        if !is_number(word.text) {
            break;
        }
        place = place.saturating_add(1);
    }
    place
}

fn is_number(word: &[u8]) -> bool {
    word.len() <= 9 && rank_text::lines::decimal(word).is_some()
}
