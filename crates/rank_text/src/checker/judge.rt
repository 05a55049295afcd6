//! A line is judged: its statement, or its lowest fault.
ghost use Rattle.std.specs.Prelude.{◌≡◌, IfOk, Some};
ghost use Rattle.rank_text.specs.Grammar.SeenForms.{form_seen};
ghost use Rattle.rank_text.specs.Grammar.Tokens.{tokens_of};
ghost use Rattle.rank_text.specs.Checker.Scope.{has_large, is_over};
ghost use Rattle.rank_text.specs.Checker.SeenLines.{judged_seen, scope_seen};
ghost use Rattle.rank_text.specs.Checker.Verdict.{form_fault, formed, verdict_on, skipped_of, unless_fault};

use crate::checker::bytes::{is_skipped, is_statement, is_text};
use crate::checker::depth::deepest;
use crate::checker::fault::FaultKind;
use crate::checker::place::{is_past_table, is_stray, is_twice};
use crate::checker::scope::Scope;
use crate::checker::survey::Survey;
use crate::grammar::forms::form;
use crate::grammar::{Form, Token, tokens};
use limits::{Heap, MOST_LINE_BYTES, MOST_LINES, MOST_PARENTHESES};
use std::alloc::AllocError;

/// What a line is.
#[derive(Drop)]
pub(crate) enum Judged {
    Skipped,
    Statement(Form),
    Faulty(FaultKind),
}

/// Whether a limit is passed.
fn is_over(scope: &Scope, tokens: &[Token], form: &Form, found: Survey) -> bool
    requires { found.large ≡ has_large (form_seen form.now) }
    ensures { result ≡ is_over (scope_seen scope.now) tokens.now (form_seen form.now) }
{
    is_past_table(scope, form) || found.large || deepest(tokens) > MOST_PARENTHESES
}

/// The lowest fault of a line that has its form.
fn form_fault(
    alloc: Heap,
    scope: &Scope,
    number: usize,
    tokens: &[Token],
    form: &Form,
) -> Result<Option<FaultKind>, AllocError>
    ensures { IfOk result (λ fault. fault ≡ form_fault (scope_seen scope.now) number tokens.now (form_seen form.now)) }
{
    let found = Survey::of(alloc, scope, form)?;
    if !found.declared {
        return Ok(Some(FaultKind::Undeclared));
    }
    if is_twice(scope, form) {
        return Ok(Some(FaultKind::DeclaredTwice));
    }
    if is_stray(scope, form) {
        return Ok(Some(FaultKind::BlockStray));
    }
    if number > MOST_LINES || is_over(scope, tokens, form, found) {
        return Ok(Some(FaultKind::Limit));
    }
    if found.great {
        return Ok(Some(FaultKind::NumberRange));
    }
    Ok(None)
}

/// A line that has its form.
fn stated(
    alloc: Heap,
    scope: &Scope,
    number: usize,
    tokens: &[Token],
    form: Form,
) -> Result<Judged, AllocError>
    ensures { IfOk result (λ j. judged_seen j ≡ unless_fault
        (form_fault (scope_seen scope.now) number tokens.now (form_seen form)) (Some (form_seen form))) }
{
    match form_fault(alloc, scope, number, tokens, &form) {
        Ok(None) => Ok(Judged::Statement(form)),
        Ok(Some(kind)) => {
            drop(form);
            Ok(Judged::Faulty(kind))
        }
        Err(error) => {
            drop(form);
            Err(error)
        }
    }
}

/// A line with these tokens.
fn with_tokens(
    alloc: Heap,
    scope: &Scope,
    number: usize,
    tokens: &[Token],
) -> Result<Judged, AllocError>
    ensures { IfOk result (λ j. judged_seen j ≡ formed (scope_seen scope.now) number (Some tokens.now)) }
{
    match form(alloc, tokens)? {
        Err(_) => Ok(Judged::Faulty(FaultKind::BadForm)),
        Ok(form) => stated(alloc, scope, number, tokens, form),
    }
}

/// A line that begins with a statement word.
fn formed(alloc: Heap, scope: &Scope, number: usize, line: &[u8]) -> Result<Judged, AllocError>
    ensures { IfOk result (λ j. judged_seen j ≡ formed (scope_seen scope.now) number (tokens_of line.now)) }
{
    match tokens(alloc, line)? {
        None => Ok(Judged::Faulty(FaultKind::BadForm)),
        Some(tokens) => with_tokens(alloc, scope, number, tokens.as_slice()),
    }
}

/// A line that has nothing to read.
fn skipped(number: usize) -> Judged
    ensures { judged_seen result ≡ skipped_of number }
{
    if number > MOST_LINES {
        Judged::Faulty(FaultKind::Limit)
    } else {
        Judged::Skipped
    }
}

/// The line of this number from 1, after lines that leave the scope.
pub(crate) fn judge(
    alloc: Heap,
    scope: &Scope,
    number: usize,
    line: &[u8],
) -> Result<Judged, AllocError>
    ensures { IfOk result (λ j. judged_seen j ≡ verdict_on (scope_seen scope.now) number line.now) }
{
    if !is_text(line) {
        return Ok(Judged::Faulty(FaultKind::NotText));
    }
    if line.len() > MOST_LINE_BYTES {
        return Ok(Judged::Faulty(FaultKind::Limit));
    }
    if is_skipped(line) {
        return Ok(skipped(number));
    }
    if !is_statement(line) {
        return Ok(Judged::Faulty(FaultKind::NotAStatement));
    }
    formed(alloc, scope, number, line)
}
