//! What the arguments of several statements are made of.
ghost use Rattle.std.specs.Prelude.{◌≡◌, IfOk};
ghost use Rattle.rank_text.specs.Grammar.Forms.{comma, bracket_assign, lone_name, or_any, pattern_at, envelope_at, whole_pattern, payload_of};
ghost use Rattle.rank_text.specs.Grammar.Seen.{misfit_of};
ghost use Rattle.rank_text.specs.Grammar.SeenForms.{payload_in, pattern_in, envelope_in, whole_pattern_in, rest_in, lone_in};

use crate::grammar::form::{Pattern, Payload};
use crate::grammar::misfit::{Expected, Misfit};
use crate::grammar::name::Name;
use crate::grammar::reader::{expression_at, whole_expression};
use crate::grammar::token::Token;
use limits::Heap;
use std::alloc::AllocError;

pub(super) fn after_comma(tokens: &[Token]) -> Result<&[Token], Misfit<'_>>
    ensures { rest_in result ≡ comma tokens.now }
{
    match tokens {
        [Token::Comma, rest @ ..] => Ok(rest),
        _ => Err(Misfit {
            rest: tokens,
            expected: Expected::Comma,
        }),
    }
}

pub(super) fn after_bracket_assign(tokens: &[Token]) -> Result<&[Token], Misfit<'_>>
    ensures { rest_in result ≡ bracket_assign tokens.now }
{
    match tokens {
        [Token::CloseBracket, Token::Assign, rest @ ..] => Ok(rest),
        [Token::CloseBracket, rest @ ..] => Err(Misfit {
            rest,
            expected: Expected::Assign,
        }),
        _ => Err(Misfit {
            rest: tokens,
            expected: Expected::CloseBracket,
        }),
    }
}

pub(super) fn only_name(tokens: &[Token]) -> Result<Name, Misfit<'_>>
    ensures { lone_in result ≡ lone_name tokens.now }
{
    match tokens {
        [Token::Name(name)] => Ok(*name),
        [Token::Name(_), rest @ ..] => Err(Misfit {
            rest,
            expected: Expected::Nothing,
        }),
        _ => Err(Misfit {
            rest: tokens,
            expected: Expected::Name,
        }),
    }
}

/// A misfit in what may be `any` too.
fn or_any<'a>(tokens: &[Token], misfit: Misfit<'a>) -> Misfit<'a>
    ensures { misfit_of result ≡ or_any tokens.now (misfit_of misfit.entry) }
{
    if misfit.rest.len() == tokens.len() {
        return Misfit {
            rest: misfit.rest,
            expected: Expected::AnyOrOperand,
        };
    }
    misfit
}

pub(super) fn pattern_in_front(
    alloc: Heap,
    tokens: &[Token],
) -> Result<Result<(Pattern, &[Token]), Misfit<'_>>, AllocError>
    ensures { IfOk result (λ c. pattern_in c ≡ pattern_at tokens.now) }
{
    if let [Token::Any, rest @ ..] = tokens {
        return Ok(Ok((Pattern::Any, rest)));
    }
    match expression_at(alloc, tokens)? {
        Ok((value, rest)) => Ok(Ok((Pattern::Value(value), rest))),
        Err(misfit) => Ok(Err(or_any(tokens, misfit))),
    }
}

/// The source and the tag in front, each with the comma behind it, and the
/// tokens after them.
#[tactic(auto, unfolding(crate::specs::Grammar::Forms::envelope_at))]
pub(super) fn envelope_in_front(
    alloc: Heap,
    tokens: &[Token],
) -> Result<Result<(Pattern, Pattern, &[Token]), Misfit<'_>>, AllocError>
    ensures { IfOk result (λ e. envelope_in e ≡ envelope_at tokens.now) }
{
    let (source, rest) = match pattern_in_front(alloc, tokens)? {
        Ok(found) => found,
        Err(misfit) => return Ok(Err(misfit)),
    };
    let rest = match after_comma(rest) {
        Ok(rest) => rest,
        Err(misfit) => {
            drop(source);
            return Ok(Err(misfit));
        }
    };
    let (tag, rest) = match pattern_in_front(alloc, rest) {
        Ok(Ok(found)) => found,
        Ok(Err(misfit)) => {
            drop(source);
            return Ok(Err(misfit));
        }
        Err(error) => {
            drop(source);
            return Err(error);
        }
    };
    match after_comma(rest) {
        Ok(rest) => Ok(Ok((source, tag, rest))),
        Err(misfit) => {
            drop(source);
            drop(tag);
            Ok(Err(misfit))
        }
    }
}

pub(super) fn whole_pattern(
    alloc: Heap,
    tokens: &[Token],
) -> Result<Result<Pattern, Misfit<'_>>, AllocError>
    ensures { IfOk result (λ c. whole_pattern_in c ≡ whole_pattern tokens.now) }
{
    let (pattern, rest) = match pattern_in_front(alloc, tokens)? {
        Ok(found) => found,
        Err(misfit) => return Ok(Err(misfit)),
    };
    if !rest.is_empty() {
        drop(pattern);
        return Ok(Err(Misfit {
            rest,
            expected: Expected::Nothing,
        }));
    }
    Ok(Ok(pattern))
}

pub(super) fn read_payload(
    alloc: Heap,
    tokens: &[Token],
) -> Result<Result<Payload, Misfit<'_>>, AllocError>
    ensures { IfOk result (λ p. payload_in p ≡ payload_of tokens.now) }
{
    if let [Token::Name(name)] = tokens {
        return Ok(Ok(Payload::Lone(*name)));
    }
    match whole_expression(alloc, tokens)? {
        Ok(value) => Ok(Ok(Payload::One(value))),
        Err(misfit) => Ok(Err(misfit)),
    }
}
