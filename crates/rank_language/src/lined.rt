//! A program with the lines on which its statements stand.
ghost use Rattle.std.specs.Prelude.{◌≡◌, Err, IfErr, IfOk, List, length};
ghost use Rattle.rank_text.specs.declared.checker.fault.ParseFault.TheVariants.{Fault, Memory};
ghost use Rattle.rank_text.specs.declared.checker.fault.ProgramFault.{ProgramFault};
ghost use Rattle.rank_text.specs.Checker.Faults.{IsFaultOf, IsText};
ghost use Rattle.rank_text.specs.Grammar.Forms.{Form};
ghost use Rattle.rank_language.specs.StandOn.{IsLinedOf};

use crate::line_numbers::statement_lines;
use crate::program::Program;
use limits::Heap;
use rank_text::checker::{ParseFault, ProgramFault};

/// A program, and for each of its statements the line of the text that it was read from.
#[derive(Drop)]
pub struct LinedProgram {
    pub program: Program,
    /// By the position of the statement; lines count from 1.
    pub lines: Vec<usize, Heap>,
}

impl LinedProgram {
    /// The program of a text with its lines, or its first fault, as `Program::parse` has them.
    pub fn parse(alloc: Heap, text: &[u8]) -> Result<LinedProgram, ParseFault>
        ensures lined { IfOk result (λ lined. IsLinedOf text.now lined.program lined.lines.items) }
        ensures each { IfOk result (λ lined. length lined.lines.items ≡ length lined.program.statements) }
        ensures fault { (f : ProgramFault) → result ≡ Err (Fault f) → IsFaultOf text.now f.line f.kind }
        ensures accepted { (forms : List Form) → IsText text.now forms → IfErr result (λ e. e ≡ Memory) }
    {
        match Program::parse(alloc, text) {
            Err(fault) => Err(fault),
            Ok(program) => match statement_lines(alloc, text) {
                Ok(lines) => Ok(LinedProgram { program, lines }),
                Err(_) => {
                    drop(program);
                    Err(ParseFault::Memory)
                }
            },
        }
    }
}
