//! Joins operands by the operators and signs that wait for them.
ghost use Rattle.std.specs.Prelude.{◌≡◌, ◌<◌, ◌-◌, IfOk, Some};
ghost use Rattle.rank_text.specs.Grammar.Tree.{tree_of};
ghost use Rattle.rank_text.specs.Grammar.Reader.{join, negate};
ghost use Rattle.rank_text.specs.declared.grammar.reader.Level.{Level};
ghost use Rattle.rank_text.specs.Grammar.Seen.{left_of, level_of};

use super::{Left, Level};
use crate::grammar::written::Written;
use limits::Heap;
use std::alloc::AllocError;

pub(super) fn joined(alloc: Heap, left: Left, right: Written) -> Result<Written, AllocError>
    ensures { IfOk result (λ e. tree_of e ≡ join (left_of left) (tree_of right)) }
{
    match left {
        None => Ok(right),
        Some((first, operator)) => Ok(Written::Operation(
            operator,
            Box::new(alloc, first)?,
            Box::new(alloc, right)?,
        )),
    }
}

pub(super) fn negated(alloc: Heap, minuses: usize, operand: Written) -> Result<Written, AllocError>
    ensures { IfOk result (λ e. tree_of e ≡ negate minuses (tree_of operand)) }
{
    let mut negation = operand;
    for _i in 0..minuses {
        negation = Written::Negation(Box::new(alloc, negation)?);
    }
    Ok(negation)
}

/// The product that an operand ends, and what waits for it.
pub(super) fn product(
    alloc: Heap,
    level: Level,
    operand: Written,
) -> Result<(Left, Left, Written), AllocError>
    ensures compared { IfOk result (λ p. left_of p.0 ≡ (level_of level).compared) }
    ensures added { IfOk result (λ p. left_of p.1 ≡ (level_of level).added) }
    ensures product { IfOk result (λ p. tree_of p.2
        ≡ join (level_of level).multiplied (negate (level_of level).minuses (tree_of operand))) }
{
    let operand = match negated(alloc, level.minuses, operand) {
        Ok(operand) => operand,
        Err(error) => {
            drop(level);
            return Err(error);
        }
    };
    let Level {
        compared,
        added,
        multiplied,
        ..
    } = level;
    match joined(alloc, multiplied, operand) {
        Ok(product) => Ok((compared, added, product)),
        Err(error) => {
            drop(compared);
            drop(added);
            Err(error)
        }
    }
}
