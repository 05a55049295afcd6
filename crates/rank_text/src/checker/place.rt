//! Whether a statement may stand where it does.
ghost use Rattle.std.specs.Prelude.{◌≡◌, length, nat_le};
ghost use Rattle.limits.specs.Limits.{most_arrays, most_blocks};
ghost use Rattle.rank_text.specs.Grammar.SeenForms.{form_seen};
ghost use Rattle.rank_text.specs.Checker.Scope.{is_array_length, is_empty, is_open_if, is_past_table, is_stray, is_twice};
ghost use Rattle.rank_text.specs.Checker.SeenLines.{scope_seen};

use crate::checker::scope::{Opened, Scope};
use crate::grammar::Form;
use limits::{MOST_ARRAYS, MOST_BLOCKS, MOST_ITEMS, MOST_VARIABLES};

/// Whether the name that the statement declares is already declared.
pub(crate) fn is_twice(scope: &Scope, form: &Form) -> bool
    ensures { result ≡ is_twice (scope_seen scope.now) (form_seen form.now) }
{
    match form {
        Form::Var(name) | Form::Array(name, _) => scope.is_declared(name),
        Form::Let(..) | Form::LetItem(..) => false,
        Form::If(_) | Form::Else | Form::End | Form::While(_) => false,
        Form::Send(..) | Form::Recv(..) => false,
        Form::Probe(..) | Form::TryProbe(..) | Form::Print(_) => false,
        Form::Barrier | Form::Bcast(..) | Form::Reduce(..) => false,
    }
}

/// Whether the innermost block is an `if` without its `else`.
#[tactic(auto, using(crate::proofs::CheckerLaws::ScopeLaws::innermost))]
fn is_open_if(scope: &Scope) -> bool
    ensures { result ≡ is_open_if (scope_seen scope.now).blocks }
{
    match scope.blocks.last().copied() {
        Some(block) => block == Opened::If,
        None => false,
    }
}

#[tactic(auto, using(crate::proofs::CheckerLaws::ScopeLaws::blocks_empty))]
fn has_no_block(scope: &Scope) -> bool
    ensures { result ≡ is_empty (scope_seen scope.now).blocks }
{
    scope.blocks.is_empty()
}

#[tactic(auto, using(crate::proofs::CheckerLaws::ScopeLaws::blocks_length))]
fn has_all_blocks(scope: &Scope) -> bool
    ensures { result ≡ nat_le most_blocks (length (scope_seen scope.now).blocks) }
{
    scope.blocks.len() >= MOST_BLOCKS
}

/// Whether an `end` or `else` has no block of its own, or a declaration stands in one.
pub(crate) fn is_stray(scope: &Scope, form: &Form) -> bool
    ensures { result ≡ is_stray (scope_seen scope.now) (form_seen form.now) }
{
    match form {
        Form::Var(_) | Form::Array(..) => !has_no_block(scope),
        Form::Else => !is_open_if(scope),
        Form::End => has_no_block(scope),
        Form::Let(..) | Form::LetItem(..) | Form::If(_) | Form::While(_) => false,
        Form::Send(..) | Form::Recv(..) => false,
        Form::Probe(..) | Form::TryProbe(..) | Form::Print(_) => false,
        Form::Barrier | Form::Bcast(..) | Form::Reduce(..) => false,
    }
}

#[tactic(auto, using(crate::proofs::CheckerLaws::ScopeLaws::arrays_length))]
fn has_all_arrays(scope: &Scope) -> bool
    ensures { result ≡ nat_le most_arrays (length (scope_seen scope.now).arrays) }
{
    scope.arrays.len() >= MOST_ARRAYS
}

fn is_array_length(length: u64) -> bool
    ensures { result ≡ is_array_length length }
{
    1 <= length && length <= MOST_ITEMS as u64
}

/// Whether a table has no room for what the statement declares or opens, or its name or
/// its array is too long, or the array has no item.
pub(crate) fn is_past_table(scope: &Scope, form: &Form) -> bool
    ensures { result ≡ is_past_table (scope_seen scope.now) (form_seen form.now) }
{
    match form {
        Form::Var(name) => scope.variables.len() >= MOST_VARIABLES || name.is_too_long(),
        Form::Array(name, length) => {
            has_all_arrays(scope) || name.is_too_long() || !is_array_length(*length)
        }
        Form::If(_) | Form::While(_) => has_all_blocks(scope),
        Form::Let(..) | Form::LetItem(..) | Form::Else | Form::End => false,
        Form::Send(..) | Form::Recv(..) => false,
        Form::Probe(..) | Form::TryProbe(..) | Form::Print(_) => false,
        Form::Barrier | Form::Bcast(..) | Form::Reduce(..) => false,
    }
}
