//! The positions at which a name is unread: claims that are dropped until those
//! that are left hold line by line.
ghost use Rattle.std.specs.Prelude.{◌≡◌, ◌<◌, ◌-◌, ◌^◌, true, IfOk, IfSome, Some, slice_get, ℕ};
ghost use Rattle.rank_language.specs.Block.{Line, next_position};
ghost use Rattle.rank_language.specs.Seen.{line_of, line_in};
ghost use Rattle.crash_free.specs.LiveVariables.Live.{holds_at, claimed, AllHold, IsRow};
ghost use Rattle.crash_free.specs.LiveVariables.Seen.{name_of};

use crate::live_variables::line::{reads, writes};
use crate::live_variables::name::StoredName;
use crate::live_variables::row::Claims;
use limits::Heap;
use rank_language::{Program, Statement};
use std::alloc::AllocError;

/// For each position of the program, and for its end, whether the name is
/// unread there. The claims that no line denies, at first all, are looked at
/// from the last line on, again and again while some were dropped.
pub fn unread(alloc: Heap, program: &Program, name: StoredName) -> Result<Claims, AllocError>
    ensures { IfOk result (λ row. IsRow program.now (name_of name) row) }
{
    program.law_within_limits();
    program.law_lines();
    let lines = program.len();
    let mut row = Claims::full(alloc, lines + 1)?;
    let mut rounds = 0;
    while rounds <= lines {
        if all_hold(program, name, &row) {
            return Ok(row);
        }
        drop_some(program, name, &mut row);
        rounds += 1;
    }
    Ok(Claims::empty(alloc))
}

// Whether the claim for the statement at a position is right, if those for the next ones are.
fn holds_at(name: StoredName, row: &Claims, position: usize, statement: &Statement) -> bool
    requires { position < 2 ^ 64 - 1 }
    ensures { result ≡ holds_at (name_of name) (claimed row.now) position (line_of statement.now) }
{
    if reads(name, statement) {
        return false;
    }
    writes(name, statement)
        || (row.claims(statement.next_position(position, true))
            && row.claims(statement.next_position(position, false)))
}

// The same of the position's statement, if there is one, and if the row claims it.
fn is_right(program: &Program, name: StoredName, row: &Claims, position: usize) -> bool
    ensures { result ≡ true → (l : Line) → slice_get program.now.statements position ≡ Some l → claimed row.now position ≡ true
        → holds_at (name_of name) (claimed row.now) position l ≡ true }
{
    if !row.claims(position) {
        return true;
    }
    match program.statement(position) {
        None => true,
        Some(statement) => holds_at(name, row, position, statement),
    }
}

// Whether each claim is right if the others are.
fn all_hold(program: &Program, name: StoredName, row: &Claims) -> bool
    ensures { result ≡ true → AllHold (name_of name) row.now program.now.statements }
{
    let lines = program.len();
    let mut position = 0;
    while position < lines {
        if !is_right(program, name, row, position) {
            return false;
        }
        position += 1;
    }
    true
}

// Drops the claims that the others don't bear out, from the last line on: so most go in one round.
fn drop_some(program: &Program, name: StoredName, row: &mut Claims) {
    let mut position = row.len();
    while position > 0 {
        position -= 1;
        if !is_right(program, name, row, position) {
            row.deny(position);
        }
    }
}
