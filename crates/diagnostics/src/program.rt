//! A program's fault, explained.

use crate::declared::{Before, DeclaredName, OpenBlock, Sort};
use crate::fitting::{STATEMENTS, first_unfitting};
use crate::foreign::{SET, aim_of};
use crate::near::{NearWord, put_nearest};
use crate::passed_limits::limit_passed;
use crate::piece::{Cut, Piece, pieces_of};
use crate::shown::{line_of, put_bytes, put_marked, put_piece};
use crate::wordless::put_no_text;
use limits::Heap;
use rank_language::{FaultKind, ProgramFault};
use rank_text::lines::without_front;
use rank_text::text_writer::TextWriter;
use std::alloc::AllocError;

/// What is wrong with the text of a program that has this fault: the fault as
/// `check` says it, the line with a mark, what was expected or what stands in the
/// way, and where the manual tells of it.
pub fn explain_program(
    alloc: Heap,
    text: &[u8],
    fault: ProgramFault,
) -> Result<String<Heap>, AllocError> {
    let line = line_of(text, fault.line);
    let pieces = pieces_of(alloc, line, Cut::Tokens)?;
    let before = Before::line(alloc, text, fault.line);
    let mut told = TextWriter::begun(format!(in alloc; "{fault}\n"), alloc);
    put_why(&mut told, alloc, fault, line, pieces.as_slice(), &before);
    told.text("manual: docs/LANGUAGE.md, ");
    told.text(page_of(fault.kind));
    told.sign('\n');
    if let Err(error) = before.room {
        told.fail(error);
    }
    told.done()
}

// The line and why it is at fault.
fn put_why(
    told: &mut TextWriter,
    alloc: Heap,
    fault: ProgramFault,
    line: &[u8],
    pieces: &[Piece<'_>],
    before: &Before<'_>,
) {
    match fault.kind {
        FaultKind::NotText => put_no_text(told, fault.line, line),
        FaultKind::NotAStatement => put_no_statement(told, alloc, line, pieces),
        FaultKind::BadForm => put_misfit(told, alloc, line, pieces),
        FaultKind::Undeclared => put_undeclared(told, alloc, line, pieces, before),
        FaultKind::DeclaredTwice => put_twice(told, line, pieces, before),
        FaultKind::BlockOpen => put_open(told, before),
        FaultKind::BlockStray => put_stray(told, line, pieces, before),
        FaultKind::Limit => put_limit(told, fault.line, line, pieces, before),
        FaultKind::NumberRange => put_great(told, line, pieces),
    }
}

/// The part of the manual that tells of a fault.
fn page_of(kind: FaultKind) -> &'static str {
    match kind {
        FaultKind::NotText | FaultKind::NotAStatement => "\"Lines, words and names\"",
        FaultKind::BadForm => "\"Statements\" and \"Expressions\"",
        FaultKind::Undeclared | FaultKind::DeclaredTwice => "\"var\" and \"array\"",
        FaultKind::BlockOpen | FaultKind::BlockStray => "\"Blocks\"",
        FaultKind::Limit | FaultKind::NumberRange => "\"Limits\"",
    }
}

fn put_no_statement(told: &mut TextWriter, alloc: Heap, line: &[u8], pieces: &[Piece<'_>]) {
    put_piece(told, line, pieces, 0);
    told.text("no statement begins so");
    match pieces {
        [word, behind, ..] if word.is_word() && behind.is(b"=") => put_aim(told, SET),
        [word, ..] => put_meant(told, alloc, word.text),
        [] => {}
    }
    told.sign('\n');
}

// What to write in place of this word.
fn put_meant(told: &mut TextWriter, alloc: Heap, word: &[u8]) {
    match aim_of(alloc, word) {
        Ok(Some(aim)) => put_aim(told, aim),
        Ok(None) => put_nearest(told, alloc, word, &STATEMENTS),
        Err(error) => told.fail(error),
    }
}

fn put_aim(told: &mut TextWriter, aim: &str) {
    told.text("; ");
    told.text(aim);
}

fn put_misfit(told: &mut TextWriter, alloc: Heap, line: &[u8], pieces: &[Piece<'_>]) {
    match first_unfitting(alloc, pieces) {
        Ok(unfitting) => {
            put_piece(told, line, pieces, unfitting.place);
            told.text("expected here: ");
            told.text(unfitting.expected);
            told.sign('\n');
        }
        Err(error) => told.fail(error),
    }
}

fn put_undeclared(
    told: &mut TextWriter,
    alloc: Heap,
    line: &[u8],
    pieces: &[Piece<'_>],
    before: &Before<'_>,
) {
    let behind = pieces.get(1..).unwrap_or(&[]);
    let Some(piece) = before.first_strange(behind) else {
        return put_piece(told, line, pieces, 0);
    };
    put_marked(told, line, piece.column, piece.text.len());
    put_backed(told, piece.text);
    match before.declaration(piece.text) {
        Some(declared) => put_other_sort(told, piece, declared),
        None => {
            told.text(" isn't declared on a line above");
            put_near_name(told, alloc, piece, before);
            told.sign('\n');
        }
    }
}

fn put_other_sort(told: &mut TextWriter, piece: Piece<'_>, declared: DeclaredName<'_>) {
    told.text(" is declared on line ");
    told.number(declared.line as u64);
    match declared.sort {
        Sort::Variable => told.text(" as a variable, which has no items\n"),
        Sort::Array => {
            told.text(" as an array: an item of it is written `");
            put_bytes(told, piece.text);
            told.text("[0]`\n");
        }
    }
}

// The declared name that was perhaps meant.
fn put_near_name(told: &mut TextWriter, alloc: Heap, piece: Piece<'_>, before: &Before<'_>) {
    let mut nearest = NearWord::to(piece.text);
    for declared in &before.names {
        if let Ok(name) = std::str::from_utf8(declared.name) {
            nearest.look_at(alloc, name);
        }
    }
    nearest.put(told);
}

fn put_twice(told: &mut TextWriter, line: &[u8], pieces: &[Piece<'_>], before: &Before<'_>) {
    put_piece(told, line, pieces, 1);
    let [_, piece, ..] = pieces else {
        return;
    };
    put_backed(told, piece.text);
    if let Some(declared) = before.declaration(piece.text) {
        told.text(" is declared already, on line ");
        told.number(declared.line as u64);
    }
    told.sign('\n');
}

// The block that was opened last and isn't closed.
fn put_open(told: &mut TextWriter, before: &Before<'_>) {
    if let Some(block) = before.blocks.last() {
        put_line_of(told, *block);
        told.text("this block has no `end`\n");
    }
}

fn put_line_of(told: &mut TextWriter, block: OpenBlock<'_>) {
    let length = without_front(block.text, b' ').len();
    let first = block.text.len().saturating_sub(length);
    told.numbered("line ", block.line as u64, ":\n");
    put_marked(told, block.text, first, length);
}

fn put_stray(told: &mut TextWriter, line: &[u8], pieces: &[Piece<'_>], before: &Before<'_>) {
    put_piece(told, line, pieces, 0);
    let Some(block) = before.blocks.last() else {
        return told.text("no block is open here\n");
    };
    match pieces {
        [first, ..] if first.is(b"else") => {
            if block.takes_else {
                return;
            }
            told.text("the innermost open block isn't an `if`, or has an `else` already:\n");
        }
        _ => told.text("declarations stand outside of blocks, and this one is open:\n"),
    }
    put_line_of(told, *block);
}

fn put_limit(
    told: &mut TextWriter,
    number: usize,
    line: &[u8],
    pieces: &[Piece<'_>],
    before: &Before<'_>,
) {
    let passed = limit_passed(before, number, line, pieces);
    put_piece(told, line, pieces, passed.place);
    told.text(passed.limit);
    told.sign('\n');
}

fn put_great(told: &mut TextWriter, line: &[u8], pieces: &[Piece<'_>]) {
    put_piece(told, line, pieces, first_great(pieces));
    told.text("the greatest number is 9223372036854775807\n");
}

// How many pieces stand before the first great number; all if there is none.
fn first_great(pieces: &[Piece<'_>]) -> usize {
    let mut place = 0usize;
    for piece in pieces {
        if piece.is_number() && is_great(piece.text) {
            break;
        }
        place = place.saturating_add(1);
    }
    place
}

// Above 9223372036854775807.
fn is_great(number: &[u8]) -> bool {
    let digits = without_front(number, b'0');
    digits.len() > 19 || digits.len() == 19 && digits > b"9223372036854775807".as_slice()
}

// A name, as it stands in the text.
fn put_backed(told: &mut TextWriter, name: &[u8]) {
    told.sign('`');
    put_bytes(told, name);
    told.sign('`');
}
