//! Writes an expression.
ghost use Rattle.std.specs.Prelude.{◌≡◌, ◌++◌, OnOk};
ghost use Rattle.rank_text.specs.Grammar.Tree.{tree_of};
ghost use Rattle.c_program.specs.Translation.{all_text, c_expression, operator_call, own_text};

use crate::names::put_name;
use limits::Heap;
use rank_text::grammar::{Name, Operator, Written};
use rank_text::printer::{put_number, reading_word};
use std::alloc::AllocError;

/// The function of an operator, with its parenthesis.
fn operator_call(operator: Operator) -> &'static [u8]
    ensures { result.now ≡ operator_call operator }
{
    match operator {
        Operator::Add => b"sum_of(",
        Operator::Subtract => b"difference_of(",
        Operator::Multiply => b"product_of(",
        Operator::Divide => b"quotient_of(",
        Operator::Remainder => b"remainder_of(",
        Operator::Equal => b"is_equal(",
        Operator::NotEqual => b"is_unequal(",
        Operator::Less => b"is_less(",
        Operator::LessEqual => b"is_at_most(",
        Operator::Greater => b"is_greater(",
        Operator::GreaterEqual => b"is_at_least(",
    }
}

/// Writes a variable or an array of the rank.
#[tactic(auto, unfolding(crate::specs::Translation::own_text))]
pub(crate) fn put_own(text: &mut Vec<u8, Heap>, name: &Name) -> Result<(), AllocError>
    ensures { OnOk result (text.new.items ≡ text.old.items ++ own_text name.now) }
{
    text.extend_from_slice(b"my.".as_slice())?;
    put_name(text, name)
}

/// Writes all of it, as two arguments.
#[tactic(auto, unfolding(crate::specs::Translation::all_text))]
pub(crate) fn put_all(text: &mut Vec<u8, Heap>, name: &Name) -> Result<(), AllocError>
    ensures { OnOk result (text.new.items ≡ text.old.items ++ all_text name.now) }
{
    text.extend_from_slice(b"ALL_OF(".as_slice())?;
    put_own(text, name)?;
    text.extend_from_slice(b")".as_slice())
}

/// Writes an expression, whose nesting costs as much stack.
#[cycle(put)]
pub(crate) fn put_expression(
    alloc: Heap,
    text: &mut Vec<u8, Heap>,
    expression: &Written,
) -> Result<(), AllocError>
    ensures { OnOk result (text.new.items ≡ text.old.items ++ c_expression (tree_of expression.now)) }
{
    match expression {
        Written::Number(number) => {
            text.extend_from_slice(b"number(".as_slice())?;
            put_number(alloc, text, *number)?;
        }
        Written::Variable(name) => {
            text.extend_from_slice(b"number(".as_slice())?;
            put_own(text, name)?;
        }
        Written::Item(name, index) => {
            text.extend_from_slice(b"item_of(".as_slice())?;
            put_all(text, name)?;
            text.extend_from_slice(b", ".as_slice())?;
            put_expression(alloc, text, index)?;
        }
        Written::Reading(reading) => {
            text.extend_from_slice(b"number(self.".as_slice())?;
            text.extend_from_slice(reading_word(*reading))?;
        }
        Written::Negation(operand) => {
            text.extend_from_slice(b"negative_of(".as_slice())?;
            put_expression(alloc, text, operand)?;
        }
        Written::Operation(operator, left, right) => {
            text.extend_from_slice(operator_call(*operator))?;
            put_expression(alloc, text, left)?;
            text.extend_from_slice(b", ".as_slice())?;
            put_expression(alloc, text, right)?;
        }
    }
    text.extend_from_slice(b")".as_slice())
}
