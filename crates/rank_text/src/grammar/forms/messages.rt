//! Reads the arguments of sends, receives and probes.
ghost use Rattle.std.specs.Prelude.{◌≡◌, IfOk};
ghost use Rattle.rank_text.specs.declared.grammar.token.Token.{Token};
ghost use Rattle.rank_text.specs.Grammar.Forms.{whole_pattern};
ghost use Rattle.rank_text.specs.Grammar.Forms.{send_of, sent_of, recv_of, probe_of, try_probe_of};
ghost use Rattle.rank_text.specs.Grammar.SeenForms.{form_in};
ghost use Rattle.rank_text.specs.Grammar.Tree.{tree_of};

use super::arguments::{
    after_comma, envelope_in_front, only_name, pattern_in_front, read_payload, whole_pattern,
};
use crate::grammar::form::Form;
use crate::grammar::misfit::Misfit;
use crate::grammar::reader::expression_at;
use crate::grammar::token::Token;
use crate::grammar::written::Written;
use limits::Heap;
use std::alloc::AllocError;

#[tactic(auto, unfolding(crate::specs::Grammar::Forms::send_of))]
pub(super) fn read_send(
    alloc: Heap,
    tokens: &[Token],
) -> Result<Result<Form, Misfit<'_>>, AllocError>
    ensures { IfOk result (λ f. form_in f ≡ send_of tokens.now) }
{
    let (dest, rest) = match expression_at(alloc, tokens)? {
        Ok(found) => found,
        Err(misfit) => return Ok(Err(misfit)),
    };
    match after_comma(rest) {
        Ok(rest) => read_sent(alloc, dest, rest),
        Err(misfit) => {
            drop(dest);
            Ok(Err(misfit))
        }
    }
}

/// From the tag on.
fn read_sent(
    alloc: Heap,
    dest: Written,
    tokens: &[Token],
) -> Result<Result<Form, Misfit<'_>>, AllocError>
    ensures { IfOk result (λ f. form_in f ≡ sent_of (tree_of dest) tokens.now) }
{
    let (tag, rest) = match expression_at(alloc, tokens) {
        Ok(Ok(found)) => found,
        Ok(Err(misfit)) => {
            drop(dest);
            return Ok(Err(misfit));
        }
        Err(error) => {
            drop(dest);
            return Err(error);
        }
    };
    let rest = match after_comma(rest) {
        Ok(found) => found,
        Err(misfit) => {
            drop(dest);
            drop(tag);
            return Ok(Err(misfit));
        }
    };
    let payload = match read_payload(alloc, rest) {
        Ok(Ok(found)) => found,
        Ok(Err(misfit)) => {
            drop(dest);
            drop(tag);
            return Ok(Err(misfit));
        }
        Err(error) => {
            drop(dest);
            drop(tag);
            return Err(error);
        }
    };
    Ok(Ok(Form::Send(dest, tag, payload)))
}

#[tactic(auto, unfolding(crate::specs::Grammar::Forms::recv_of))]
pub(super) fn read_recv(
    alloc: Heap,
    tokens: &[Token],
) -> Result<Result<Form, Misfit<'_>>, AllocError>
    ensures { IfOk result (λ f. form_in f ≡ recv_of tokens.now) }
{
    let (source, tag, rest) = match envelope_in_front(alloc, tokens)? {
        Ok(found) => found,
        Err(misfit) => return Ok(Err(misfit)),
    };
    let buffer = match only_name(rest) {
        Ok(found) => found,
        Err(misfit) => {
            drop(source);
            drop(tag);
            return Ok(Err(misfit));
        }
    };
    Ok(Ok(Form::Recv(source, tag, buffer)))
}

#[tactic(auto, unfolding(crate::specs::Grammar::Forms::probe_of))]
pub(super) fn read_probe(
    alloc: Heap,
    tokens: &[Token],
) -> Result<Result<Form, Misfit<'_>>, AllocError>
    ensures { IfOk result (λ f. form_in f ≡ probe_of tokens.now) }
{
    let (source, rest) = match pattern_in_front(alloc, tokens)? {
        Ok(found) => found,
        Err(misfit) => return Ok(Err(misfit)),
    };
    let rest = match after_comma(rest) {
        Ok(found) => found,
        Err(misfit) => {
            drop(source);
            return Ok(Err(misfit));
        }
    };
    let tag = match whole_pattern(alloc, rest) {
        Ok(Ok(found)) => found,
        Ok(Err(misfit)) => {
            drop(source);
            return Ok(Err(misfit));
        }
        Err(error) => {
            drop(source);
            return Err(error);
        }
    };
    Ok(Ok(Form::Probe(source, tag)))
}

#[tactic(auto, unfolding(crate::specs::Grammar::Forms::try_probe_of))]
pub(super) fn read_try_probe(
    alloc: Heap,
    tokens: &[Token],
) -> Result<Result<Form, Misfit<'_>>, AllocError>
    ensures { IfOk result (λ f. form_in f ≡ try_probe_of tokens.now) }
{
    let (source, tag, rest) = match envelope_in_front(alloc, tokens)? {
        Ok(found) => found,
        Err(misfit) => return Ok(Err(misfit)),
    };
    let flag = match only_name(rest) {
        Ok(found) => found,
        Err(misfit) => {
            drop(source);
            drop(tag);
            return Ok(Err(misfit));
        }
    };
    Ok(Ok(Form::TryProbe(source, tag, flag)))
}
