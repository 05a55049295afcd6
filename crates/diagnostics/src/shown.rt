//! How a line is shown, with a mark below a place in it.

use crate::piece::Piece;
use rank_text::text_writer::TextWriter;

/// The most bytes of a line that are shown.
const WIDTH: usize = 100;

/// Whether the byte is shown as it is: one of a text.
pub fn is_shown(byte: u8) -> bool {
    b' ' <= byte && byte <= b'~'
}

/// Writes a text whose bytes needn't be letters: each other byte as `?`.
pub fn put_bytes(told: &mut TextWriter, text: &[u8]) {
    for byte in text {
        let shown = if is_shown(*byte) { *byte } else { b'?' };
        told.sign(char::from(shown));
    }
}

fn put_times(told: &mut TextWriter, letter: char, times: usize) {
    for _ in 0..times {
        told.sign(letter);
    }
}

/// Writes the line, and below it a mark under so many bytes from a column on. Of
/// a long line the part round the mark is shown.
pub fn put_marked(told: &mut TextWriter, line: &[u8], column: usize, length: usize) {
    let first = if column < WIDTH {
        0
    } else {
        column - WIDTH / 2
    };
    let last = first.saturating_add(WIDTH).min(line.len());
    let part = line.get(first..last).unwrap_or(line);
    let before = if first == 0 { "  " } else { "  .." };
    told.text(before);
    put_bytes(told, part);
    if last < line.len() {
        told.text("..");
    }
    told.sign('\n');
    put_times(
        told,
        ' ',
        before.len().saturating_add(column.saturating_sub(first)),
    );
    put_times(told, '^', length.clamp(1, WIDTH));
    told.sign('\n');
}

/// Writes the line with a mark under the piece at this place of it, or behind the line's last byte.
pub fn put_piece(told: &mut TextWriter, line: &[u8], pieces: &[Piece<'_>], place: usize) {
    match pieces.get(place) {
        Some(piece) => put_marked(told, line, piece.column, piece.text.len()),
        None => put_marked(told, line, line.len(), 1),
    }
}

/// The line of this number from 1 of the text; an empty one if it hasn't so many.
pub fn line_of(text: &[u8], number: usize) -> &[u8] {
    let mut rest = text;
    for _ in 1..number {
        match rank_text::lines::next_line(rest) {
            Some((_, more)) => rest = more,
            None => return &[],
        }
    }
    match rank_text::lines::next_line(rest) {
        Some((line, _)) => line,
        None => &[],
    }
}
