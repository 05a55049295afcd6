//! The numbers of the lines that have statements.
ghost use Rattle.std.specs.Prelude.{◌≡◌, IfOk, List};
ghost use Rattle.rank_text.specs.Checker.Faults.{IsText};
ghost use Rattle.rank_text.specs.Grammar.Forms.{Form};
ghost use Rattle.rank_text.specs.Lines.Pieces.{pieces_of};
ghost use Rattle.rank_language.specs.StandOn.{StandOn};
ghost use Rattle.rank_language.specs.LineNumbers.{numbers_from};

use limits::Heap;
use rank_text::checker::is_skipped;
use rank_text::lines::next_line;
use std::alloc::AllocError;

/// The number, from 1, of the line on which each statement of a program's text stands. Skipped lines count.
///
/// An `Err` means out of memory.
pub fn statement_lines(alloc: Heap, text: &[u8]) -> Result<Vec<usize, Heap>, AllocError>
    ensures { IfOk result (λ lines. (forms : List Form) → IsText text.now forms → StandOn text.now forms lines.items) }
{
    let lines = numbers(alloc, text)?;
    Ok(lines)
}

/// The numbers, from 1, of the lines that aren't skipped.
fn numbers(alloc: Heap, text: &[u8]) -> Result<Vec<usize, Heap>, AllocError>
    ensures { IfOk result (λ lines. lines.items ≡ numbers_from 1 (pieces_of 10 text.now)) }
{
    let mut lines = Vec::new(alloc);
    let mut number = 1;
    let mut rest = text;
    while let Some((line, more)) = next_line(rest) {
        if !is_skipped(line) {
            lines.push(number)?;
        }
        number += 1;
        rest = more;
    }
    Ok(lines)
}
