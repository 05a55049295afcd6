//! Reads the arguments of collectives.
ghost use Rattle.std.specs.Prelude.{◌≡◌, IfOk};
ghost use Rattle.rank_text.specs.declared.grammar.token.Token.{Token};
ghost use Rattle.rank_text.specs.Grammar.Forms.{bcast_of, reduced_of, reduce_of};
ghost use Rattle.rank_text.specs.Grammar.SeenForms.{form_in};

use super::arguments::{after_comma, only_name};
use crate::grammar::form::Form;
use crate::grammar::misfit::{Expected, Misfit};
use crate::grammar::reader::expression_at;
use crate::grammar::token::{Reduction, Token};
use limits::Heap;
use std::alloc::AllocError;

#[tactic(auto, unfolding(crate::specs::Grammar::Forms::bcast_of))]
pub(super) fn read_bcast(
    alloc: Heap,
    tokens: &[Token],
) -> Result<Result<Form, Misfit<'_>>, AllocError>
    ensures { IfOk result (λ f. form_in f ≡ bcast_of tokens.now) }
{
    let (root, rest) = match expression_at(alloc, tokens)? {
        Ok(found) => found,
        Err(misfit) => return Ok(Err(misfit)),
    };
    let rest = match after_comma(rest) {
        Ok(found) => found,
        Err(misfit) => {
            drop(root);
            return Ok(Err(misfit));
        }
    };
    let buffer = match only_name(rest) {
        Ok(found) => found,
        Err(misfit) => {
            drop(root);
            return Ok(Err(misfit));
        }
    };
    Ok(Ok(Form::Bcast(root, buffer)))
}

/// From the root on.
#[tactic(auto, unfolding(crate::specs::Grammar::Forms::reduced_of))]
fn read_reduced(
    alloc: Heap,
    reduction: Reduction,
    tokens: &[Token],
) -> Result<Result<Form, Misfit<'_>>, AllocError>
    ensures { IfOk result (λ f. form_in f ≡ reduced_of reduction tokens.now) }
{
    let (root, rest) = match expression_at(alloc, tokens)? {
        Ok(found) => found,
        Err(misfit) => return Ok(Err(misfit)),
    };
    let rest = match after_comma(rest) {
        Ok(found) => found,
        Err(misfit) => {
            drop(root);
            return Ok(Err(misfit));
        }
    };
    let (value, rest) = match expression_at(alloc, rest) {
        Ok(Ok(found)) => found,
        Ok(Err(misfit)) => {
            drop(root);
            return Ok(Err(misfit));
        }
        Err(error) => {
            drop(root);
            return Err(error);
        }
    };
    let rest = match after_comma(rest) {
        Ok(found) => found,
        Err(misfit) => {
            drop(root);
            drop(value);
            return Ok(Err(misfit));
        }
    };
    let variable = match only_name(rest) {
        Ok(found) => found,
        Err(misfit) => {
            drop(root);
            drop(value);
            return Ok(Err(misfit));
        }
    };
    Ok(Ok(Form::Reduce(reduction, root, value, variable)))
}

#[tactic(auto, unfolding(crate::specs::Grammar::Forms::reduce_of))]
pub(super) fn read_reduce(
    alloc: Heap,
    tokens: &[Token],
) -> Result<Result<Form, Misfit<'_>>, AllocError>
    ensures { IfOk result (λ f. form_in f ≡ reduce_of tokens.now) }
{
    match tokens {
        [Token::Reduction(reduction), Token::Comma, rest @ ..] => {
            read_reduced(alloc, *reduction, rest)
        }
        [Token::Reduction(_), rest @ ..] => Ok(Err(Misfit {
            rest,
            expected: Expected::Comma,
        })),
        _ => Ok(Err(Misfit {
            rest: tokens,
            expected: Expected::Reduction,
        })),
    }
}
