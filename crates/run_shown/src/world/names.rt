//! The names of a program's variables and arrays, which a program that is parsed
//! doesn't show: they are read from its text.

use limits::Heap;
use rank_text::lines::{next_line, without_front};
use std::alloc::AllocError;

/// The names that a text declares, in its order.
#[derive(Drop)]
pub struct Names<'t> {
    pub variables: Vec<&'t str, Heap>,
    pub arrays: Vec<&'t str, Heap>,
}

/// The names that this text of a program declares.
pub fn names_of(alloc: Heap, text: &[u8]) -> Result<Names<'_>, AllocError> {
    let variables = declared_in(alloc, text, b"var ")?;
    let arrays = declared_in(alloc, text, b"array ")?;
    Ok(Names { variables, arrays })
}

// The names behind this word, in the order of the lines that begin with it.
fn declared_in<'t>(
    alloc: Heap,
    text: &'t [u8],
    word: &[u8],
) -> Result<Vec<&'t str, Heap>, AllocError> {
    let mut names = Vec::new(alloc);
    let mut rest = text;
    while let Some((line, more)) = next_line(rest) {
        if let Some(name) = declared_by(line, word) {
            names.push(name)?;
        }
        rest = more;
    }
    Ok(names)
}

// The name behind this word, if the line begins with it.
fn declared_by<'t>(line: &'t [u8], word: &[u8]) -> Option<&'t str> {
    let rest = without_front(line, b' ').strip_prefix(word)?;
    let name = without_front(rest, b' ');
    match std::str::from_utf8(name.get(..length_of(name))?) {
        Ok(name) => Some(name),
        Err(_) => None,
    }
}

// How long the name in front is. It ends where a space or a bracket stands.
fn length_of(text: &[u8]) -> usize {
    let mut length = 0usize;
    for byte in text {
        if *byte == b' ' || *byte == b'[' {
            break;
        }
        length = length.saturating_add(1);
    }
    length
}
