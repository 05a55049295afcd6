//! Lines of scripts and of events that don't begin with a word, and bytes that are no text.

use crate::piece::Piece;
use crate::shown::{is_shown, put_marked, put_piece};
use rank_text::text_writer::TextWriter;

/// Says so of a line with a byte that is no text, or with a `#` behind spaces.
/// Answers whether the line is one of these.
pub fn put_wordless(
    told: &mut TextWriter,
    number: usize,
    line: &[u8],
    words: &[Piece<'_>],
) -> bool {
    if let Some((column, byte)) = first_foreign(line) {
        put_foreign(told, number, line, column, byte);
        return true;
    }
    match words {
        [first, ..] if is_comment(first.text) => {
            put_piece(told, line, words, 0);
            told.text("a comment begins at the line's first byte\n");
            true
        }
        _ => false,
    }
}

fn is_comment(word: &[u8]) -> bool {
    match word {
        [b'#', ..] => true,
        _ => false,
    }
}

/// The first byte that is no text, with a mark under it and its name.
pub fn put_no_text(told: &mut TextWriter, number: usize, line: &[u8]) {
    match first_foreign(line) {
        Some((column, byte)) => put_foreign(told, number, line, column, byte),
        None => put_marked(told, line, 0, 1),
    }
}

// The first byte that is no text, behind so many.
fn first_foreign(line: &[u8]) -> Option<(usize, u8)> {
    let mut column = 0usize;
    for byte in line {
        if !is_shown(*byte) {
            return Some((column, *byte));
        }
        column = column.saturating_add(1);
    }
    None
}

fn put_foreign(told: &mut TextWriter, number: usize, line: &[u8], column: usize, byte: u8) {
    put_marked(told, line, column, 1);
    if byte == b'\r' {
        told.text("a carriage return: end the lines with a line feed alone\n");
    } else if byte == b'\t' {
        told.text("a tab: use spaces\n");
    } else if byte == 0xef && number == 1 && column == 0 {
        told.text("a byte order mark: save the text without one\n");
    } else {
        told.text("the byte ");
        told.byte(byte);
        told.text(": a text has letters, digits and signs from 0x20 to 0x7e\n");
    }
}
