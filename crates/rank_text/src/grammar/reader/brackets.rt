//! What stands in brackets ends.
ghost use Rattle.std.specs.Prelude.{◌≡◌, ◌<◌, ◌-◌, IfOk, Err, List, ◌∷◌};
ghost use Rattle.rank_text.specs.Grammar.Tree.{tree_of};
ghost use Rattle.rank_text.specs.Grammar.Reader.{all_of, has, close, inside};
ghost use Rattle.rank_text.specs.Grammar.Reader.{end_tree};
ghost use Rattle.rank_text.specs.declared.grammar.reader.Bracket.{Bracket};
ghost use Rattle.rank_text.specs.declared.grammar.token.Token.{Token};
ghost use Rattle.rank_text.specs.declared.grammar.reader.Level.{Level};
ghost use Rattle.rank_text.specs.Grammar.Seen.{left_of, level_of, stack_of, bracket_of, ended_of, Goes};

use super::operands::joined;
use super::{Bracket, Left, Level, Step, arrived};
use crate::grammar::misfit::Expected;
use crate::grammar::token::Token;
use crate::grammar::written::Written;
use limits::Heap;
use std::alloc::AllocError;

/// The expression of all that stands in the brackets.
fn in_brackets(
    alloc: Heap,
    compared: Left,
    added: Left,
    product: Written,
) -> Result<Written, AllocError>
    ensures { IfOk result (λ e. tree_of e ≡ all_of (left_of compared) (left_of added) (tree_of product)) }
{
    joined(alloc, compared, joined(alloc, added, product)?)
}

/// A token comes after all that stands in the brackets.
fn closed(
    alloc: Heap,
    bracket: Bracket,
    level: Level,
    operand: Written,
    token: Token,
) -> Result<Step, AllocError>
    ensures { IfOk result (λ step. (s : List (Bracket × Level)) → Goes step s
        (close token ((bracket_of bracket, level_of level) ∷ stack_of s) (tree_of operand))
        (Err (inside (bracket_of bracket)))) }
{
    match bracket {
        Bracket::Parenthesis => match token {
            Token::CloseParenthesis => arrived(alloc, level, operand).map(Step::Next),
            _ => {
                drop(level);
                drop(operand);
                Ok(Step::End(Err(Expected::InParentheses)))
            }
        },
        Bracket::IndexOf(name) => match token {
            Token::CloseBracket => {
                let index = match Box::new(alloc, operand) {
                    Ok(index) => index,
                    Err(error) => {
                        drop(level);
                        return Err(error.into());
                    }
                };
                arrived(alloc, level, Written::Item(name, index)).map(Step::Next)
            }
            _ => {
                drop(level);
                drop(operand);
                Ok(Step::End(Err(Expected::InBrackets)))
            }
        },
    }
}

/// A token that is no operator comes after a product.
#[tactic(auto, using(crate::proofs::GrammarLaws::Stacks::stack_of_push))]
pub(super) fn closing(
    alloc: Heap,
    compared: Left,
    added: Left,
    product: Written,
    stack: &mut Vec<(Bracket, Level), Heap>,
    token: Token,
) -> Result<Step, AllocError>
    ensures { IfOk result (λ step. let e = all_of (left_of compared) (left_of added) (tree_of product) in
        Goes step stack.new.items (close token (stack_of stack.old.items) e)
        (end_tree (has (left_of compared) (left_of added) (stack_of stack.old.items) (tree_of product)))) }
{
    let operand = in_brackets(alloc, compared, added, product)?;
    match stack.pop() {
        None => Ok(Step::End(Ok(operand))),
        Some((bracket, level)) => closed(alloc, bracket, level, operand, token),
    }
}

/// What has been read where the tokens end behind a product.
#[tactic(auto, using(crate::proofs::GrammarLaws::Stacks::stack_of_push))]
pub(super) fn stopped(
    alloc: Heap,
    compared: Left,
    added: Left,
    product: Written,
    stack: &mut Vec<(Bracket, Level), Heap>,
) -> Result<Result<Written, Expected>, AllocError>
    ensures { IfOk result (λ e. ended_of e
        ≡ end_tree (has (left_of compared) (left_of added) (stack_of stack.old.items) (tree_of product))) }
{
    let operand = in_brackets(alloc, compared, added, product)?;
    match stack.pop() {
        None => Ok(Ok(operand)),
        Some((bracket, level)) => {
            drop(level);
            drop(operand);
            Ok(Err(bracket.inside()))
        }
    }
}
