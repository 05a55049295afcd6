//! Reads the statement of a line from its tokens.

ghost use Rattle.std.specs.Prelude.{◌≡◌, List, IfOk, IfErr, Ok, Some};
ghost use Rattle.rank_text.specs.declared.grammar.token.Token.{Token};
ghost use Rattle.rank_text.specs.Grammar.Forms as forms;
ghost use Rattle.rank_text.specs.Grammar.Reader.{bare};
ghost use Rattle.rank_text.specs.Grammar.Forms.{IsForm};
ghost use Rattle.rank_text.specs.Grammar.Forms.{var_of, array_of, let_of, item_of, if_of, while_of};
ghost use Rattle.rank_text.specs.Grammar.Forms.{print_of};
ghost use Rattle.rank_text.specs.Grammar.Forms.{form_with, read_form};
ghost use Rattle.rank_text.specs.Grammar.Misfits.{IsMisfit};
ghost use Rattle.rank_text.specs.Grammar.SeenForms.{form_in, form_seen};

mod arguments;
mod collectives;
mod messages;

use crate::grammar::form::Form;
use crate::grammar::misfit::{Expected, Misfit};
use crate::grammar::name::Name;
use crate::grammar::reader::{expression_at, whole_expression};
use crate::grammar::token::{Keyword, Token};
use arguments::{after_bracket_assign, only_name};
use collectives::{read_bcast, read_reduce};
use limits::Heap;
use messages::{read_probe, read_recv, read_send, read_try_probe};
use std::alloc::AllocError;

#[tactic(auto, unfolding(crate::specs::Grammar::Forms::var_of))]
fn read_var(tokens: &[Token]) -> Result<Form, Misfit<'_>>
    ensures { form_in result ≡ var_of tokens.now }
{
    match only_name(tokens) {
        Ok(name) => Ok(Form::Var(name)),
        Err(misfit) => Err(misfit),
    }
}

#[tactic(auto, unfolding(crate::specs::Grammar::Forms::array_of))]
fn read_array(tokens: &[Token]) -> Result<Form, Misfit<'_>>
    ensures { form_in result ≡ array_of tokens.now }
{
    let (name, rest) = match tokens {
        [Token::Name(name), rest @ ..] => (*name, rest),
        _ => {
            return Err(Misfit {
                rest: tokens,
                expected: Expected::Name,
            });
        }
    };
    match rest {
        [
            Token::OpenBracket,
            Token::Number(length),
            Token::CloseBracket,
            rest @ ..,
        ] => { with_nothing(Form::Array(name, *length), rest) }
        [Token::OpenBracket, Token::Number(_), rest @ ..] => Err(Misfit {
            rest,
            expected: Expected::CloseBracket,
        }),
        [Token::OpenBracket, rest @ ..] => Err(Misfit {
            rest,
            expected: Expected::Number,
        }),
        _ => Err(Misfit {
            rest,
            expected: Expected::Length,
        }),
    }
}

/// From the index on.
#[tactic(auto, unfolding(crate::specs::Grammar::Forms::item_of))]
fn read_item(
    alloc: Heap,
    name: Name,
    tokens: &[Token],
) -> Result<Result<Form, Misfit<'_>>, AllocError>
    ensures { IfOk result (λ f. form_in f ≡ item_of name tokens.now) }
{
    let (index, rest) = match expression_at(alloc, tokens)? {
        Ok(found) => found,
        Err(misfit) => return Ok(Err(misfit)),
    };
    let rest = match after_bracket_assign(rest) {
        Ok(found) => found,
        Err(misfit) => {
            drop(index);
            return Ok(Err(misfit));
        }
    };
    let value = match whole_expression(alloc, rest) {
        Ok(Ok(found)) => found,
        Ok(Err(misfit)) => {
            drop(index);
            return Ok(Err(misfit));
        }
        Err(error) => {
            drop(index);
            return Err(error);
        }
    };
    Ok(Ok(Form::LetItem(name, index, value)))
}

#[tactic(auto, unfolding(crate::specs::Grammar::Forms::let_of))]
fn read_let(alloc: Heap, tokens: &[Token]) -> Result<Result<Form, Misfit<'_>>, AllocError>
    ensures { IfOk result (λ f. form_in f ≡ let_of tokens.now) }
{
    let (rest, expected) = match tokens {
        [Token::Name(name), Token::Assign, value @ ..] => {
            return match whole_expression(alloc, value)? {
                Ok(value) => Ok(Ok(Form::Let(*name, value))),
                Err(misfit) => Ok(Err(misfit)),
            };
        }
        [Token::Name(name), Token::OpenBracket, item @ ..] => {
            return read_item(alloc, *name, item);
        }
        [Token::Name(_), rest @ ..] => (rest, Expected::AssignOrIndex),
        _ => (tokens, Expected::Name),
    };
    Ok(Err(Misfit { rest, expected }))
}

#[tactic(auto, unfolding(crate::specs::Grammar::Forms::if_of))]
fn read_if(alloc: Heap, tokens: &[Token]) -> Result<Result<Form, Misfit<'_>>, AllocError>
    ensures { IfOk result (λ f. form_in f ≡ if_of tokens.now) }
{
    match whole_expression(alloc, tokens)? {
        Ok(test) => Ok(Ok(Form::If(test))),
        Err(misfit) => Ok(Err(misfit)),
    }
}

#[tactic(auto, unfolding(crate::specs::Grammar::Forms::while_of))]
fn read_while(alloc: Heap, tokens: &[Token]) -> Result<Result<Form, Misfit<'_>>, AllocError>
    ensures { IfOk result (λ f. form_in f ≡ while_of tokens.now) }
{
    match whole_expression(alloc, tokens)? {
        Ok(test) => Ok(Ok(Form::While(test))),
        Err(misfit) => Ok(Err(misfit)),
    }
}

#[tactic(auto, unfolding(crate::specs::Grammar::Forms::print_of))]
fn read_print(alloc: Heap, tokens: &[Token]) -> Result<Result<Form, Misfit<'_>>, AllocError>
    ensures { IfOk result (λ f. form_in f ≡ print_of tokens.now) }
{
    match whole_expression(alloc, tokens)? {
        Ok(value) => Ok(Ok(Form::Print(value))),
        Err(misfit) => Ok(Err(misfit)),
    }
}

/// A form behind which nothing follows.
fn with_nothing(form: Form, rest: &[Token]) -> Result<Form, Misfit<'_>>
    ensures { form_in result ≡ bare (form_seen form) rest.now }
{
    if rest.is_empty() {
        return Ok(form);
    }
    drop(form);
    Err(Misfit {
        rest,
        expected: Expected::Nothing,
    })
}

/// The form of a statement word with these arguments.
fn read_arguments(
    alloc: Heap,
    word: Keyword,
    arguments: &[Token],
) -> Result<Result<Form, Misfit<'_>>, AllocError>
    ensures { IfOk result (λ f. form_in f ≡ form_with word arguments.now) }
{
    match word {
        Keyword::Var => Ok(read_var(arguments)),
        Keyword::Array => Ok(read_array(arguments)),
        Keyword::Let => read_let(alloc, arguments),
        Keyword::If => read_if(alloc, arguments),
        Keyword::Else => Ok(with_nothing(Form::Else, arguments)),
        Keyword::End => Ok(with_nothing(Form::End, arguments)),
        Keyword::While => read_while(alloc, arguments),
        Keyword::Send => read_send(alloc, arguments),
        Keyword::Recv => read_recv(alloc, arguments),
        Keyword::Print => read_print(alloc, arguments),
        Keyword::Probe => read_probe(alloc, arguments),
        Keyword::Iprobe => read_try_probe(alloc, arguments),
        Keyword::Barrier => Ok(with_nothing(Form::Barrier, arguments)),
        Keyword::Bcast => read_bcast(alloc, arguments),
        Keyword::Reduce => read_reduce(alloc, arguments),
    }
}

fn form_read(alloc: Heap, tokens: &[Token]) -> Result<Result<Form, Misfit<'_>>, AllocError>
    ensures { IfOk result (λ f. form_in f ≡ read_form tokens.now) }
{
    match tokens {
        [Token::Keyword(word), arguments @ ..] => read_arguments(alloc, *word, arguments),
        _ => Ok(Err(Misfit {
            rest: tokens,
            expected: Expected::Statement,
        })),
    }
}

/// The form of a line's tokens, or the first token with which no form goes on.
pub fn form(alloc: Heap, tokens: &[Token]) -> Result<Result<Form, Misfit<'_>>, AllocError>
    ensures reading { IfOk result (λ f. form_in f ≡ read_form tokens.now) }
    // What is answered is a form of the tokens.
    ensures found { IfOk result (λ o. IfOk o (λ f. IsForm tokens.now (form_seen f))) }
    // What has a form is answered.
    ensures only { IfOk result (λ o. (f : forms.Form) → IsForm tokens.now f → form_in o ≡ Ok f) }
    // What is no form is so from the misfit on, and not before.
    ensures misfit { IfOk result (λ o. IfErr o (λ m. IsMisfit tokens.now m.rest.now)) }
{
    form_read(alloc, tokens)
}

/// A law, for proofs alone: no tokens have two forms.
pub fn law_one_form()
    ensures { (ts : List Token) (f g : forms.Form) → IsForm ts f → IsForm ts g → f ≡ g }
{}
