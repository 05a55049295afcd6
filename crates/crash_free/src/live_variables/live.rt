//! Tables of what is unread at each position of a program.
ghost use Rattle.std.specs.Prelude.{◌≡◌, ℕ, true, IfOk, Some, length, slice_get};
ghost use Rattle.rank_language.specs.Block.{Line, remaining};
ghost use Rattle.rank_language.specs.Program.{IsPlaced, block_of};
ghost use Rattle.rank_machine.specs.States.{opening};
ghost use Rattle.crash_free.specs.LiveVariables.Given.{GivesItems};
ghost use Rattle.crash_free.specs.LiveVariables.Names.{place, status};
ghost use Rattle.crash_free.specs.LiveVariables.Live.{IsTableOf, IsRow, row_of, claimed};

use crate::live_variables::name::StoredName;
use crate::live_variables::row::Claims;
use crate::live_variables::unread::unread;
use limits::Heap;
use rank_language::Program;
use std::alloc::AllocError;
use std::marker::Model;

/// What is unread at each position of one program: which variables, and whether
/// the status is. A program of 1000 lines with 64 variables takes 65 KB.
#[derive(Drop)]
pub struct Live {
    variables: Vec<Claims, Heap>,
    status: Claims,
}

impl Model for Live {
    ghost use Rattle.crash_free.specs.LiveVariables.Live.{Table};

    ghost Value = { Table };

    ghost view = { λ l. record { variables = l.variables.items; status_row = l.status } };
}

impl Live {
    /// The table of a program. An `Err` means out of memory.
    pub fn of(alloc: Heap, program: &Program) -> Result<Live, AllocError>
        ensures { IfOk result (λ live. IsTableOf program.now live) }
    {
        gives_items(program);
        let mut variables = Vec::new(alloc);
        for place in 0..program.variable_count() {
            variables.push(unread(alloc, program, StoredName::Variable(place))?)?;
        }
        let status = unread(alloc, program, StoredName::Status)?;
        Ok(Live { variables, status })
    }

    /// Whether the variable at this place is known to be unread at a position.
    pub fn is_variable_unread(&self, variable: usize, position: usize) -> bool
        ensures { result ≡ claimed (row_of self.now (place variable)) position }
    {
        if variable >= self.variables.len() {
            return false;
        }
        self.variables[variable].claims(position)
    }

    /// Whether the status is known to be unread at a position.
    pub fn is_status_unread(&self, position: usize) -> bool
        ensures { result ≡ claimed (row_of self.now status) position }
    {
        self.status.claims(position)
    }
}

// A law, for proofs alone: each message that a rank sends has an item.
fn gives_items(program: &Program)
    ensures { (rank size : ℕ) → GivesItems (opening program.now rank size) }
{
    are_placed(program);
    program.law_lines();
    let _arrays = program.arrays();
}

// A law, for proofs alone: each line's places are in the program's tables.
fn are_placed(program: &Program)
    ensures { (p : ℕ) (l : Line) → slice_get program.now.statements p ≡ Some l → IsPlaced (length program.now.variables) (length program.now.arrays) l }
{
    let lines = program.len();
    let mut position = 0;
    while position < lines {
        let _statement = program.statement(position);
        position += 1;
    }
}
