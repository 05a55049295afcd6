//! A text is read: its statements in order, or its first fault.
ghost use Rattle.std.specs.Prelude.{◌≡◌, Err, IfErr, IfOk, List, None, OnOk, []};
ghost use Rattle.rank_text.specs.Grammar.Forms as forms;
ghost use Rattle.rank_text.specs.Grammar.SeenForms.{form_seen};
ghost use Rattle.rank_text.specs.declared.checker.fault.ParseFault.TheVariants.{Fault, Memory};
ghost use Rattle.rank_text.specs.declared.checker.fault.ProgramFault.{ProgramFault};
ghost use Rattle.rank_text.specs.Checker.Faults.{IsFaultOf, IsText};
ghost use Rattle.rank_text.specs.Checker.Scope.{IsWhole};
ghost use Rattle.rank_text.specs.Checker.SeenLines.{forms_seen};
ghost use Rattle.rank_text.specs.Checker.Verdict.{reading_of};
ghost use Rattle.rank_text.specs.Checker.Progress.{HasTables, IsLed, Reads, ended, fresh, going, reader_seen, step, stepped, taken};

use crate::checker::fault::{FaultKind, ParseFault, ProgramFault};
use crate::checker::judge::{Judged, judge};
use crate::checker::scope::{Array, Scope};
use crate::grammar::{Form, Name};
use crate::lines::next_line;
use limits::Heap;
use std::alloc::AllocError;

/// The statements of a text in order, and what they declare.
#[derive(Drop)]
pub struct Draft {
    pub forms: Vec<Form, Heap>,
    /// In order of declaration.
    pub variables: Vec<Name, Heap>,
    /// In order of declaration.
    pub arrays: Vec<Array, Heap>,
}

/// What has been read of a text so far.
#[derive(Drop)]
struct Reader {
    scope: Scope,
    forms: Vec<Form, Heap>,
}

impl Reader {
    fn new(alloc: Heap) -> Reader
        ensures { reader_seen result ≡ fresh }
    {
        Reader {
            scope: Scope::new(alloc),
            forms: Vec::new(alloc),
        }
    }

    /// A statement more.
    #[tactic(auto, using(crate::proofs::CheckerLaws::ReadLaws::forms_push))]
    fn take(&mut self, form: Form) -> Result<(), AllocError>
        ensures { OnOk result (reader_seen self.new ≡ taken (reader_seen self.old) (form_seen form)) }
    {
        if let Err(error) = self.scope.enter(&form) {
            drop(form);
            return Err(error);
        }
        self.forms.push(form)?;
        Ok(())
    }

    /// A line more, or its lowest fault.
    fn read_line(
        &mut self,
        alloc: Heap,
        number: usize,
        line: &[u8],
    ) -> Result<Option<FaultKind>, AllocError>
        ensures { IfOk result (λ fault. stepped fault (reader_seen self.new)
            ≡ step (reader_seen self.old) number line.now) }
    {
        match judge(alloc, &self.scope, number, line)? {
            Judged::Skipped => Ok(None),
            Judged::Statement(form) => {
                self.take(form)?;
                Ok(None)
            }
            Judged::Faulty(kind) => Ok(Some(kind)),
        }
    }

    /// The fault of a text that ends before a line of this number.
    #[tactic(auto, using(crate::proofs::CheckerLaws::ScopeLaws::blocks_empty))]
    fn open_fault(&self, number: usize) -> Option<ProgramFault>
        ensures { ended result (reader_seen self.now) ≡ going (reader_seen self.now) number [] }
    {
        if self.scope.blocks.is_empty() {
            return None;
        }
        Some(ProgramFault {
            line: number,
            kind: FaultKind::BlockOpen,
        })
    }

    fn finish(self) -> Draft
        ensures forms { result.forms ≡ self.forms }
        ensures variables { result.variables ≡ self.scope.variables }
        ensures arrays { result.arrays ≡ self.scope.arrays }
    {
        let Reader { scope, forms } = self;
        let Scope {
            variables,
            arrays,
            ..
        } = scope;
        Draft {
            forms,
            variables,
            arrays,
        }
    }
}

/// The lines of a text, up to the first that is at fault.
fn read_lines(
    alloc: Heap,
    reader: &mut Reader,
    text: &[u8],
) -> Result<Option<ProgramFault>, AllocError>
    requires { reader_seen reader.old ≡ fresh }
    ensures reading { IfOk result (λ fault. ended fault (reader_seen reader.new) ≡ reading_of text.now) }
    ensures led { IfOk result (λ fault. fault ≡ None → IsLed (reader_seen reader.new)) }
{
    let mut number = 1;
    let mut rest = text;
    while let Some((line, more)) = next_line(rest) {
        if let Some(kind) = reader.read_line(alloc, number, line)? {
            return Ok(Some(ProgramFault { line: number, kind }));
        }
        number += 1;
        rest = more;
    }
    Ok(reader.open_fault(number))
}

/// What a text gives, as the reading function has it.
fn read_all(alloc: Heap, text: &[u8]) -> Result<Draft, ParseFault>
    ensures reading { Reads result (reading_of text.now) }
    ensures tables { IfOk result (λ draft. HasTables draft) }
{
    let mut reader = Reader::new(alloc);
    match read_lines(alloc, &mut reader, text) {
        Err(_) => Err(ParseFault::Memory),
        Ok(Some(fault)) => Err(ParseFault::Fault(fault)),
        Ok(None) => Ok(reader.finish()),
    }
}

/// The statements of a text, or its first fault.
pub fn read(alloc: Heap, text: &[u8]) -> Result<Draft, ParseFault>
    // What is read is the text's statements by its definition.
    ensures program { IfOk result (λ draft. IsText text.now (forms_seen draft.forms.items)) }
    // Each of them may stand where it does, and each block is closed.
    ensures whole { IfOk result (λ draft. IsWhole (forms_seen draft.forms.items)) }
    // The tables are what the statements declare.
    ensures tables { IfOk result (λ draft. HasTables draft) }
    // A fault is the first faulty line and the lowest number that holds there.
    ensures fault { (f : ProgramFault) → result ≡ Err (Fault f) → IsFaultOf text.now f.line f.kind }
    // A text by its definition is refused when out of memory alone.
    ensures accepted { (fs : List forms.Form) → IsText text.now fs → IfErr result (λ e. e ≡ Memory) }
{
    read_all(alloc, text)
}
