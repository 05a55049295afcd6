//! Reads an expression from tokens, without recursion: an open bracket costs an
//! entry of a stack of its own, so that no nesting can use up the thread's.

ghost use Rattle.std.specs.Prelude.{◌≡◌, ◌<◌, ◌^◌, ◌-◌, IfOk, Ok, Err, List};
ghost use Rattle.rank_text.specs.Grammar.Tree.{Tree, tree_of};
ghost use Rattle.rank_text.specs.Grammar.Grammar.{strength, Spells, whole};
ghost use Rattle.rank_text.specs.Grammar.Reader.{fresh, arrive, wants, has, operate};
ghost use Rattle.rank_text.specs.Grammar.Reader.{next, end_tree, end_before, inside, with_rest, expression_at, whole_expression};
ghost use Rattle.rank_text.specs.declared.grammar.misfit.Expected.TheVariants.{OneComparison};
ghost use Rattle.rank_text.specs.declared.grammar.reader.Bracket.{Bracket};
ghost use Rattle.rank_text.specs.declared.grammar.token.Token.{Token};
ghost use Rattle.rank_text.specs.declared.grammar.reader.Level.{Level};
ghost use Rattle.rank_text.specs.Grammar.Seen.{left_of, level_of, state_of, stack_of, bracket_of, tree_in, ended_of, minuses_of, found_of, Goes};

mod brackets;
mod operands;

use crate::grammar::misfit::{Expected, Misfit};
use crate::grammar::name::Name;
use crate::grammar::token::{Operator, Strength, Token};
use crate::grammar::written::Written;
use brackets::{closing, stopped};
use limits::Heap;
use operands::{joined, product};
use std::alloc::AllocError;

/// A left operand and its operator, which wait for the right one.
type Left = Option<(Written, Operator)>;

/// What stands before an operand in its brackets.
#[derive(Drop)]
struct Level {
    compared: Left,
    added: Left,
    multiplied: Left,
    minuses: usize,
}

#[derive(Clone, Copy)]
enum Bracket {
    Parenthesis,
    IndexOf(Name),
}

impl Bracket {
    /// What could stand behind a product in the bracket.
    fn inside(self) -> Expected
        ensures { result ≡ inside (bracket_of self) }
    {
        match self {
            Bracket::Parenthesis => Expected::InParentheses,
            Bracket::IndexOf(_) => Expected::InBrackets,
        }
    }
}

#[derive(Drop)]
enum State {
    Wants(Level),
    Named(Level, Name),
    Has(Left, Left, Written),
}

#[derive(Drop)]
enum Step {
    Next(State),
    End(Result<Written, Expected>),
}

impl Level {
    fn new() -> Level
        ensures { level_of result ≡ fresh }
    {
        Level {
            compared: None,
            added: None,
            multiplied: None,
            minuses: 0,
        }
    }
}

/// The operand has come.
fn arrived(alloc: Heap, level: Level, operand: Written) -> Result<State, AllocError>
    ensures { IfOk result (λ st. (s : _) → state_of st s ≡ arrive (level_of level) s (tree_of operand)) }
{
    match product(alloc, level, operand) {
        Ok((compared, added, product)) => Ok(State::Has(compared, added, product)),
        Err(error) => Err(error),
    }
}

/// An operator comes after a product.
fn operated(
    alloc: Heap,
    compared: Left,
    added: Left,
    product: Written,
    stack: &[(Bracket, Level)],
    operator: Operator,
) -> Result<Step, AllocError>
    ensures { IfOk result (λ step. let s = stack_of stack.now in
        Goes step stack.now
        (operate (strength operator) operator (left_of compared) (left_of added) s (tree_of product))
        (Err OneComparison)) }
{
    match operator.strength() {
        Strength::Multiplies => Ok(Step::Next(State::Wants(Level {
            compared,
            added,
            multiplied: Some((product, operator)),
            minuses: 0,
        }))),
        Strength::Adds => {
            let sum = joined(alloc, added, product)?;
            Ok(Step::Next(State::Wants(Level {
                compared,
                added: Some((sum, operator)),
                multiplied: None,
                minuses: 0,
            })))
        }
        Strength::Compares => {
            if let Some(left) = compared {
                drop(left);
                drop(added);
                drop(product);
                return Ok(Step::End(Err(Expected::OneComparison)));
            }
            let sum = joined(alloc, added, product)?;
            Ok(Step::Next(State::Wants(Level {
                compared: Some((sum, operator)),
                added: None,
                multiplied: None,
                minuses: 0,
            })))
        }
    }
}

/// A token comes after a product.
fn after_product(
    alloc: Heap,
    compared: Left,
    added: Left,
    product: Written,
    stack: &mut Vec<(Bracket, Level), Heap>,
    token: Token,
) -> Result<Step, AllocError>
    ensures { IfOk result (λ step. let old = has (left_of compared) (left_of added) (stack_of stack.old.items) (tree_of product) in
        Goes step stack.new.items (next old token) (end_before old token)) }
{
    match token {
        Token::Operator(operator) => operated(alloc, compared, added, product, stack, operator),
        _ => closing(alloc, compared, added, product, stack, token),
    }
}

/// A token comes where an operand is wanted.
#[tactic(auto, using(crate::proofs::GrammarLaws::Stacks::stack_of_push))]
fn wanted(
    alloc: Heap,
    mut level: Level,
    stack: &mut Vec<(Bracket, Level), Heap>,
    token: Token,
) -> Result<Step, AllocError>
    requires { level.minuses < 2 ^ 64 - 1 }
    ensures { IfOk result (λ step. let old = wants (level_of level) (stack_of stack.old.items) in
        Goes step stack.new.items (next old token) (end_before old token)) }
{
    match token {
        Token::Number(n) => arrived(alloc, level, Written::Number(n)).map(Step::Next),
        Token::Reading(r) => arrived(alloc, level, Written::Reading(r)).map(Step::Next),
        Token::Name(name) => Ok(Step::Next(State::Named(level, name))),
        Token::OpenParenthesis => {
            stack.push((Bracket::Parenthesis, level))?;
            Ok(Step::Next(State::Wants(Level::new())))
        }
        Token::Operator(operator) => {
            if operator != Operator::Subtract {
                drop(level);
                return Ok(Step::End(Err(Expected::Operand)));
            }
            level.minuses += 1;
            Ok(Step::Next(State::Wants(level)))
        }
        Token::Keyword(_)
        | Token::Reduction(_)
        | Token::CloseParenthesis
        | Token::OpenBracket
        | Token::CloseBracket
        | Token::Comma
        | Token::Assign
        | Token::Any => {
            drop(level);
            Ok(Step::End(Err(Expected::Operand)))
        }
    }
}

/// What has been read where the tokens end.
#[tactic(auto, using(crate::proofs::GrammarLaws::Stacks::end_named))]
fn ended(
    alloc: Heap,
    state: State,
    stack: &mut Vec<(Bracket, Level), Heap>,
) -> Result<Result<Written, Expected>, AllocError>
    ensures { IfOk result (λ e. ended_of e ≡ end_tree (state_of state (stack_of stack.old.items))) }
{
    match state {
        State::Wants(level) => {
            drop(level);
            Ok(Err(Expected::Operand))
        }
        State::Named(level, name) => {
            match product(alloc, level, Written::Variable(name)) {
                Ok((compared, added, product)) => stopped(alloc, compared, added, product, stack),
                Err(error) => Err(error),
            }
        }
        State::Has(compared, added, product) => stopped(alloc, compared, added, product, stack),
    }
}

/// The reader after a token, or what it has read where the token can't come.
#[tactic(auto, using(crate::proofs::GrammarLaws::Stacks::stack_of_push, crate::proofs::GrammarLaws::Stacks::next_named, crate::proofs::GrammarLaws::Stacks::before_named))]
fn take_token(
    alloc: Heap,
    state: State,
    stack: &mut Vec<(Bracket, Level), Heap>,
    token: Token,
) -> Result<Step, AllocError>
    requires { minuses_of state < 2 ^ 64 - 1 }
    ensures { IfOk result (λ step. let old = state_of state (stack_of stack.old.items) in
        Goes step stack.new.items (next old token) (end_before old token)) }
{
    match state {
        State::Wants(level) => wanted(alloc, level, stack, token),
        State::Named(level, name) => {
            if let Token::OpenBracket = token {
                stack.push((Bracket::IndexOf(name), level))?;
                return Ok(Step::Next(State::Wants(Level::new())));
            }
            match product(alloc, level, Written::Variable(name)) {
                Ok((compared, added, product)) => {
                    after_product(alloc, compared, added, product, stack, token)
                }
                Err(error) => Err(error),
            }
        }
        State::Has(compared, added, product) => {
            after_product(alloc, compared, added, product, stack, token)
        }
    }
}

fn found(read: Result<Written, Expected>, rest: &[Token]) -> Result<(Written, &[Token]), Misfit<'_>>
    ensures { found_of result ≡ with_rest (ended_of read) rest.now }
{
    match read {
        Ok(e) => Ok((e, rest)),
        Err(expected) => Err(Misfit { rest, expected }),
    }
}

/// The expression at the front, as much of the tokens as belongs to it, and the rest.
#[tactic(auto, using(crate::proofs::GrammarLaws::Loop::goes_on, crate::proofs::GrammarLaws::Loop::ends, crate::proofs::GrammarLaws::Loop::signs))]
pub fn expression_at(
    alloc: Heap,
    tokens: &[Token],
) -> Result<Result<(Written, &[Token]), Misfit<'_>>, AllocError>
    ensures { IfOk result (λ found. found_of found ≡ expression_at tokens.now) }
{
    let mut stack = Vec::new(alloc);
    let mut state = State::Wants(Level::new());
    let mut rest = tokens;
    while let Some((token, more)) = rest.split_first() {
        match take_token(alloc, state, &mut stack, *token)? {
            Step::Next(next) => state = next,
            Step::End(read) => return Ok(found(read, rest)),
        }
        rest = more;
    }
    let read = ended(alloc, state, &mut stack)?;
    Ok(found(read, rest))
}

/// The expression of all of the tokens.
pub(crate) fn whole_expression(
    alloc: Heap,
    tokens: &[Token],
) -> Result<Result<Written, Misfit<'_>>, AllocError>
    ensures { IfOk result (λ o. tree_in o ≡ whole_expression tokens.now) }
{
    let (operand, rest) = match expression_at(alloc, tokens)? {
        Ok(found) => found,
        Err(misfit) => return Ok(Err(misfit)),
    };
    if !rest.is_empty() {
        drop(operand);
        return Ok(Err(Misfit {
            rest,
            expected: Expected::Nothing,
        }));
    }
    Ok(Ok(operand))
}

/// The expression that all of the tokens spell, or where they don't go on as one.
pub fn expression(alloc: Heap, tokens: &[Token]) -> Result<Result<Written, Misfit<'_>>, AllocError>
    // What is read is spelled so.
    ensures found { IfOk result (λ o. IfOk o (λ e. Spells whole tokens.now (tree_of e))) }
    // What is spelled so is read, and nothing else.
    ensures only { IfOk result (λ o. (e : Tree) → Spells whole tokens.now e → tree_in o ≡ Ok e) }
{
    whole_expression(alloc, tokens)
}

/// A law, for proofs alone: no tokens spell two expressions.
pub fn law_one_expression()
    ensures { (ts : List Token) (a b : Tree) → Spells whole ts a → Spells whole ts b → a ≡ b }
{}
