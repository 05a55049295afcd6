//! Statements that are made of those of a text.
ghost use Rattle.std.specs.Prelude.{◌≡◌, ◌≤◌, ◌-◌, ◌++◌, Err, IfOk, OnOk, length, []};
ghost use Rattle.rank_text.specs.Checker.Faults.{IsFaultOf};
ghost use Rattle.rank_text.specs.Checker.SeenLines.{forms_seen};
ghost use Rattle.rank_text.specs.Printer.Canonical.{program_text};
ghost use Rattle.rank_text.specs.declared.checker.fault.ParseFault.TheVariants as parse;
ghost use Rattle.rank_text.specs.declared.checker.fault.ProgramFault.{ProgramFault};
ghost use Rattle.rank_language.specs.Correct.{IsProgramOf};
ghost use Rattle.telling.specs.Lines.{repeated};

use limits::Heap;
use rank_language::{LinedProgram, Program};
use rank_text::checker::ParseFault;
use rank_text::grammar::Form;
use rank_text::printer::print;
use std::alloc::AllocError;

/// Statements, and for each the line of the text that it stands on.
#[derive(Drop)]
pub(crate) struct LinedForms {
    pub forms: Vec<Form, Heap>,
    pub lines: Vec<usize, Heap>,
}

impl LinedForms {
    pub fn new(alloc: Heap) -> LinedForms
        ensures forms { result.forms.items ≡ [] }
        ensures lines { result.lines.items ≡ [] }
    {
        LinedForms {
            forms: Vec::new(alloc),
            lines: Vec::new(alloc),
        }
    }

    /// The statements that have no line yet stand on this one.
    #[tactic(auto, using(crate::proofs::Putting::repeated_more))]
    pub fn stand_on(&mut self, line: usize) -> Result<(), AllocError>
        requires { length self.old.lines.items ≤ length self.old.forms.items }
        ensures lines { OnOk result (self.new.lines.items ≡ self.old.lines.items ++ repeated line (length self.old.forms.items - length self.old.lines.items)) }
        ensures forms { OnOk result (self.new.forms ≡ self.old.forms) }
        ensures each { OnOk result (length self.new.lines.items ≡ length self.new.forms.items) }
    {
        let mut left = self.forms.len() - self.lines.len();
        while left > 0 {
            self.lines.push(line)?;
            left -= 1;
        }
        Ok(())
    }

    /// The program of the canonical text of the statements.
    pub fn into_program(self, alloc: Heap) -> Result<LinedProgram, ParseFault>
        ensures program { IfOk result (λ lined. IsProgramOf (program_text (forms_seen self.forms.items)) lined.program) }
        ensures lines { IfOk result (λ lined. lined.lines.items ≡ self.lines.items) }
        ensures fault { (f : ProgramFault) → result ≡ Err (parse.Fault f) → IsFaultOf (program_text (forms_seen self.forms.items)) f.line f.kind }
    {
        let LinedForms { forms, lines } = self;
        let made = program_of(alloc, forms.as_slice());
        drop(forms);
        match made {
            Ok(program) => Ok(LinedProgram { program, lines }),
            Err(fault) => {
                drop(lines);
                Err(fault)
            }
        }
    }
}

/// The program of the canonical text of these statements.
fn program_of(alloc: Heap, forms: &[Form]) -> Result<Program, ParseFault>
    ensures program { IfOk result (λ program. IsProgramOf (program_text (forms_seen forms.now)) program) }
    ensures fault { (f : ProgramFault) → result ≡ Err (parse.Fault f) → IsFaultOf (program_text (forms_seen forms.now)) f.line f.kind }
{
    match print(alloc, forms) {
        Ok(text) => Program::parse(alloc, text.as_slice()),
        Err(_) => Err(ParseFault::Memory),
    }
}
