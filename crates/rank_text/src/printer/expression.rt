//! Writes an expression.

ghost use Rattle.std.specs.Prelude.{◌≡◌, ◌++◌, OnOk};
ghost use Rattle.std.specs.Fmt.{decimal};
ghost use Rattle.rank_text.specs.Grammar.Tree.{tree_of};
ghost use Rattle.rank_text.specs.Printer.Canonical.{expression_text, is_operation, operand_text, operator_text, reading_text};

use crate::grammar::{Operator, Reading, Written};
use limits::Heap;
use std::alloc::AllocError;

/// The sign of an operator, with a space on both sides.
fn operator_between(operator: Operator) -> &'static [u8]
    ensures { result.now ≡ operator_text operator }
{
    match operator {
        Operator::Add => b" + ",
        Operator::Subtract => b" - ",
        Operator::Multiply => b" * ",
        Operator::Divide => b" / ",
        Operator::Remainder => b" % ",
        Operator::Equal => b" == ",
        Operator::NotEqual => b" != ",
        Operator::Less => b" < ",
        Operator::LessEqual => b" <= ",
        Operator::Greater => b" > ",
        Operator::GreaterEqual => b" >= ",
    }
}

/// The word for what a rank can only read.
pub fn reading_word(reading: Reading) -> &'static [u8]
    ensures { result.now ≡ reading_text reading }
{
    match reading {
        Reading::Rank => b"rank",
        Reading::Size => b"size",
        Reading::Source => b"source",
        Reading::Tag => b"gottag",
        Reading::Count => b"count",
    }
}

/// Writes a number with no leading zero. An `Err` means out of memory.
pub fn put_number(alloc: Heap, text: &mut Vec<u8, Heap>, number: u64) -> Result<(), AllocError>
    ensures { OnOk result (text.new.items ≡ text.old.items ++ decimal number) }
{
    let digits = format!(in alloc; "{number}")?;
    text.extend_from_slice(digits.as_bytes())
}

/// Whether the expression is an operation, and so stands in parentheses where it is an operand.
fn is_operation(expression: &Written) -> bool
    ensures { result ≡ is_operation (tree_of expression.now) }
{
    match expression {
        Written::Negation(_) | Written::Operation(..) => true,
        Written::Number(_) | Written::Variable(_) | Written::Item(..) | Written::Reading(_) => {
            false
        }
    }
}

/// Writes an expression, whose nesting costs as much stack.
#[cycle(put)]
pub(crate) fn put_expression(
    alloc: Heap,
    text: &mut Vec<u8, Heap>,
    expression: &Written,
) -> Result<(), AllocError>
    ensures { OnOk result (text.new.items ≡ text.old.items ++ expression_text (tree_of expression.now)) }
{
    match expression {
        Written::Number(number) => put_number(alloc, text, *number),
        Written::Variable(name) => text.extend_from_slice(name.as_bytes()),
        Written::Item(name, index) => {
            text.extend_from_slice(name.as_bytes())?;
            text.extend_from_slice(b"[".as_slice())?;
            put_expression(alloc, text, index)?;
            text.extend_from_slice(b"]".as_slice())
        }
        Written::Reading(reading) => text.extend_from_slice(reading_word(*reading)),
        Written::Negation(operand) => {
            text.extend_from_slice(b"-".as_slice())?;
            put_operand(alloc, text, operand)
        }
        Written::Operation(operator, left, right) => {
            put_operand(alloc, text, left)?;
            text.extend_from_slice(operator_between(*operator))?;
            put_operand(alloc, text, right)
        }
    }
}

/// Writes an operand.
#[cycle(put)]
fn put_operand(alloc: Heap, text: &mut Vec<u8, Heap>, operand: &Written) -> Result<(), AllocError>
    ensures { OnOk result (text.new.items ≡ text.old.items ++ operand_text (tree_of operand.now) (expression_text (tree_of operand.now))) }
{
    if !is_operation(operand) {
        return put_expression(alloc, text, operand);
    }
    text.extend_from_slice(b"(".as_slice())?;
    put_expression(alloc, text, operand)?;
    text.extend_from_slice(b")".as_slice())
}
