//! Programs: statements in order, each with where it leads to.
ghost use Rattle.limits.specs.Limits.{most_lines, most_variables, most_arrays};
ghost use Rattle.rank_text.specs.Grammar.Forms.{Form};
ghost use Rattle.rank_text.specs.declared.checker.fault.ParseFault.TheVariants.{Fault, Memory};
ghost use Rattle.rank_text.specs.declared.checker.fault.ProgramFault.{ProgramFault};
ghost use Rattle.rank_text.specs.Checker.Faults.{IsFaultOf, IsText};
ghost use Rattle.rank_text.specs.Checker.Progress.{HasTables};
ghost use Rattle.rank_text.specs.Checker.Scope.{IsWhole};
ghost use Rattle.rank_text.specs.Checker.SeenLines.{arrays_seen, forms_seen};
ghost use Rattle.rank_language.specs.Correct.{IsOfForms, IsProgramOf};
ghost use Rattle.rank_language.specs.Named.{forms_of};
ghost use Rattle.rank_text.specs.Printer.Canonical.{program_text};
ghost use Rattle.std.specs.Prelude.{List, Err, IfErr, IfOk, ◌≡◌, ◌<◌, ◌≤◌, IfSome, IsNone, Some, ◌↔◌, length, option_map, slice_get, Bool};
ghost use Rattle.rank_language.specs.Block.{Line, size, lines_at, remaining, Leads, next_position};
ghost use Rattle.rank_language.specs.Compact.{compact_line, own_line};
ghost use Rattle.rank_language.specs.Seen.{line_of, line_in};
ghost use Rattle.rank_language.specs.Program.{block_of, AllSized, IsPlaced};

use crate::build::statements_of;
use crate::compact::{Compact, compacts_of};
use crate::name_form::name_forms;
use crate::resolve::Tables;
use crate::statement::Statement;
use limits::Heap;
use rank_text::checker::{Array, Draft, ParseFault, ProgramFault, read};
use rank_text::grammar::Name;
use rank_text::printer::print;
use std::alloc::AllocError;
use std::marker::Model;

/// A rank program: its statements in order, and the variables and arrays that it declares.
#[derive(Drop)]
pub struct Program {
    statements: Vec<Statement, Heap>,
    variables: Vec<Name, Heap>,
    arrays: Vec<Array, Heap>,
    // Of each statement, and behind the last one.
    compacts: Vec<Compact, Heap>,
}

impl Model for Program {
    ghost use Rattle.rank_language.specs.Program.{ProgramValue, program_value};
    ghost use Rattle.rank_language.specs.Correct.{IsProgram};
    ghost use Rattle.rank_language.specs.Compact.{HasCompacts};
    ghost use Rattle.std.specs.Coded.{codes};
    ghost use Rattle.rank_language.specs.Coding.{placed_code};

    ghost Value = { ProgramValue };

    ghost coded = { Prim.hlevel (codes, placed_code) };

    ghost view = { λ p. program_value p.statements.items p.variables.items p.arrays.items };

    ghost invariant = { λ p. HasCompacts p.compacts.items (program_value p.statements.items p.variables.items p.arrays.items) };
}

impl Program {
    /// The program of a text that was read.
    fn build(alloc: Heap, draft: Draft) -> Result<Program, AllocError>
        requires whole { IsWhole (forms_seen draft.forms.items) }
        requires tables { HasTables draft }
        ensures { IfOk result (λ program. IsOfForms (forms_seen draft.forms.items) program) }
    {
        let Draft {
            forms,
            variables,
            arrays,
        } = draft;
        let tables = Tables {
            variables: &variables,
            arrays: &arrays,
        };
        let statements = statements_of(alloc, tables, &forms)?;
        let compacts = compacts_of(alloc, &statements)?;
        Ok(Program {
            statements,
            variables,
            arrays,
            compacts,
        })
    }

    /// The program of a text, or its first fault.
    pub fn parse(alloc: Heap, text: &[u8]) -> Result<Program, ParseFault>
        ensures program { IfOk result (λ program. IsProgramOf text.now program) }
        ensures fault { (f : ProgramFault) → result ≡ Err (Fault f) → IsFaultOf text.now f.line f.kind }
        ensures accepted { (fs : List Form) → IsText text.now fs → IfErr result (λ e. e ≡ Memory) }
    {
        match read(alloc, text) {
            Err(fault) => Err(fault),
            Ok(draft) => Program::build(alloc, draft).map_err(|_| ParseFault::Memory),
        }
    }

    /// The canonical text, which is a text of this program, so that checking it gives it again.
    ///
    /// The only error means out of memory.
    pub fn print(&self, alloc: Heap) -> Result<Vec<u8, Heap>, AllocError>
        // Its statements are written in the one canonical way.
        ensures text { IfOk result (λ text. text.items ≡ program_text (forms_of self.now)) }
        // By its definition the text is one of this program.
        ensures program { IfOk result (λ text. IsProgramOf text.items self.now) }
    {
        let tables = Tables {
            variables: &self.variables,
            arrays: &self.arrays,
        };
        let forms = name_forms(alloc, tables, &self.statements)?;
        print(alloc, &forms)
    }

    /// How many statements it has.
    pub fn len(&self) -> usize
        ensures count { result ≡ length self.now.statements }
        ensures lines { result ≡ size (block_of self.now) }
    {
        self.statements.len()
    }

    /// How many variables it declares: their places are below it.
    pub fn variable_count(&self) -> usize
        ensures { result ≡ length self.now.variables }
    {
        self.variables.len()
    }

    /// The arrays that it declares, in their order: their places are below their number.
    pub fn arrays(&self) -> &[Array]
        ensures arrays { arrays_seen result.now ≡ self.now.arrays }
        ensures sized { AllSized self.now.arrays }
    {
        &self.arrays
    }

    /// A law, for proofs alone: it has no more statements, variables and arrays
    /// than a text may declare (`limits`).
    pub fn law_within_limits(&self)
        ensures lines { length self.now.statements ≤ most_lines }
        ensures variables { length self.now.variables ≤ most_variables }
        ensures arrays { length self.now.arrays ≤ most_arrays }
    {
        let _statements = &self.statements;
    }

    /// A law, for proofs alone: its lines are those of its tree.
    pub fn law_lines(&self)
        ensures { self.now.statements ≡ lines_at 0 (block_of self.now) }
    {
        let _statements = &self.statements;
    }

    /// The statement at a position.
    pub fn statement(&self, position: usize) -> Option<&Statement>
        ensures line { line_in result ≡ slice_get self.now.statements position }
        ensures there { IfSome result (λ s. Leads (remaining (block_of self.now)) position (line_of s.now)) }
        ensures within { IfSome result (λ s. (truth : Bool) → next_position (line_of s.now) position truth ≤ size (block_of self.now)) }
        ensures placed { IfSome result (λ s. IsPlaced (length self.now.variables) (length self.now.arrays) (line_of s.now)) }
        ensures bound { IfSome result (λ _. position < most_lines) }
        ensures past { IsNone result ↔ (size (block_of self.now) ≤ position) }
    {
        self.statements.get(position)
    }

    /// The compact form of the statement at a position, or of none behind the last one.
    pub fn compact(&self, position: usize) -> &Compact
        requires { position ≤ size (block_of self.now) }
        ensures line { IfSome (compact_line result.now) (λ m. option_map own_line (slice_get self.now.statements position) ≡ Some m) }
        ensures there { (l : Line) → slice_get self.now.statements position ≡ Some l → Leads (remaining (block_of self.now)) position l }
        ensures within { (l : Line) → slice_get self.now.statements position ≡ Some l
            → (truth : Bool) → next_position l position truth ≤ size (block_of self.now) }
        ensures placed { (l : Line) → slice_get self.now.statements position ≡ Some l
            → IsPlaced (length self.now.variables) (length self.now.arrays) l }
        ensures bound { position ≤ most_lines }
    {
        &self.compacts[position]
    }
}
