//! The script of a run.
ghost use Rattle.std.specs.Prelude.{◌≡◌, [], Err, None, Some, IfOk, OnOk};

use crate::lines::next_line;
use crate::script::fault::{ScriptFault, ScriptParseFault};
use crate::script::judge::judge;
use crate::script::line::ScriptLine;
use limits::Heap;
use std::alloc::AllocError;
use std::marker::Model;

/// What is to happen in a run beside the program. Contracts see the list of lines.
#[derive(Drop)]
pub struct Script {
    lines: Vec<ScriptLine, Heap>,
}

impl Model for Script {
    ghost use Rattle.std.specs.Prelude.{List};
    ghost use Rattle.rank_text.specs.declared.script.line.ScriptLine.{ScriptLine};

    ghost Value = { List ScriptLine };

    ghost view = { λ s. s.lines.items };
}

impl Script {
    ghost use Rattle.rank_text.specs.Scripts.Script.{first_fault, orders_of, script_lines};
    ghost use Rattle.rank_text.specs.declared.script.fault.ScriptFault.{ScriptFault};
    ghost use Rattle.rank_text.specs.declared.script.fault.ScriptParseFault.TheVariants.{Fault};

    /// The script that asks for nothing.
    pub fn new(alloc: Heap) -> Script
        ensures { result ≡ [] }
    {
        Script {
            lines: Vec::new(alloc),
        }
    }

    /// Reads the script of a run of `ranks` ranks. The first faulty line decides,
    /// then the lowest number.
    ///
    /// A text is cut at each LF; what follows the last one is a line where it isn't
    /// empty. Blank lines and those that begin with `#` are skipped.
    pub fn parse(alloc: Heap, text: &[u8], ranks: u8) -> Result<Script, ScriptParseFault>
        ensures lines { IfOk result (λ script. script ≡ script_lines text.now) }
        ensures faultless { OnOk result (first_fault ranks text.now ≡ None) }
        ensures fault { (fault : ScriptFault) → result ≡ Err (Fault fault)
            → first_fault ranks text.now ≡ Some fault }
    {
        let mut lines = Vec::new(alloc);
        let mut number = 1;
        let mut rest = text;
        while let Some((line, more)) = next_line(rest) {
            match judge(line, number, ranks) {
                Ok(None) => {}
                Ok(Some(order)) => {
                    let Ok(()) = lines.push(order) else {
                        return Err(ScriptParseFault::Memory);
                    };
                }
                Err(kind) => {
                    let fault = ScriptFault { line: number, kind };
                    return Err(ScriptParseFault::Fault(fault));
                }
            }
            number += 1;
            rest = more;
        }
        Ok(Script { lines })
    }

    /// What is asked for, in the text's order.
    pub fn lines(&self) -> &[ScriptLine]
        ensures { result.now ≡ self.now }
    {
        self.lines.as_slice()
    }

    /// What is asked of one rank, in the text's order. An `Err` means out of memory.
    pub fn lines_of(&self, alloc: Heap, rank: u8) -> Result<Vec<ScriptLine, Heap>, AllocError>
        ensures { IfOk result (λ lines. lines.items ≡ orders_of rank self.now) }
    {
        self.lines
            .iter()
            .copied()
            .filter(|line| line.rank == rank)
            .collect(alloc)
    }
}
