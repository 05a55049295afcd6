//! Statements in compact form: those of which loops mostly consist, with their operands in place.
ghost use Rattle.std.specs.Prelude.{◌≡◌, ◌+◌, IfOk, IfSome, length, map};
ghost use Rattle.rank_language.specs.Block.{if_line, simple_line};
ghost use Rattle.rank_language.specs.Compact.{compact_line, nested_of, own_line, AreCompact};
ghost use Rattle.rank_language.specs.Seen.{line_of, operand_of, placed_of};
ghost use Rattle.rank_language.specs.Placed.{assign, assign_item, item, number, operation, variable};

use crate::expression::{Expression, Operand};
use crate::statement::Statement;
use limits::Heap;
use rank_text::grammar::Operator;
use std::alloc::AllocError;

/// An operation whose left operand is an operation too, of numbers and variables alone: as
/// `3 * x + 1`.
#[derive(Clone, Copy)]
pub struct Nested {
    pub inner: Operator,
    pub outer: Operator,
    pub left: Operand,
    pub middle: Operand,
    pub right: Operand,
}

/// A statement as a machine makes it most quickly: by one look at what it is.
///
/// Places are those of variables, or of arrays where it says so. A test has two operands, and the
/// position that follows where it doesn't hold; one that does leads to the next position.
#[derive(Drop)]
pub enum Compact {
    /// Any other statement, or none.
    Other,
    /// It leads on.
    Next,
    /// It leads to this position.
    Jump(usize),
    /// A variable, and its new value.
    SetNumber(usize, i64),
    SetVariable(usize, usize),
    /// A variable, and the two operands of its new value.
    AddNumber(usize, usize, i64),
    AddVariable(usize, usize, usize),
    SubtractNumber(usize, usize, i64),
    SubtractVariable(usize, usize, usize),
    MultiplyNumber(usize, usize, i64),
    MultiplyVariable(usize, usize, usize),
    DivideNumber(usize, usize, i64),
    DivideVariable(usize, usize, usize),
    RemainderNumber(usize, usize, i64),
    RemainderVariable(usize, usize, usize),
    /// A variable, and the operations that give its new value.
    SetNested(usize, Nested),
    /// A variable, and the array and the index of the item that it gets.
    Item(usize, usize, usize),
    /// An array, the index of an item, and the item's new value.
    SetItemNumber(usize, usize, i64),
    SetItemVariable(usize, usize, usize),
    EqualNumber(usize, i64, usize),
    EqualVariable(usize, usize, usize),
    NotEqualNumber(usize, i64, usize),
    NotEqualVariable(usize, usize, usize),
    LessNumber(usize, i64, usize),
    LessVariable(usize, usize, usize),
    LessEqualNumber(usize, i64, usize),
    LessEqualVariable(usize, usize, usize),
    GreaterNumber(usize, i64, usize),
    GreaterVariable(usize, usize, usize),
    GreaterEqualNumber(usize, i64, usize),
    GreaterEqualVariable(usize, usize, usize),
    /// A test of an operation's value, whatever the operation is.
    TestNested(Nested, usize),
}

// A number or a variable as an operand.
fn leaf(expression: &Expression) -> Option<Operand>
    ensures { IfSome result (λ operand. operand_of operand ≡ placed_of expression.now) }
{
    match expression {
        Expression::Number(number) => Some(Operand::Number(*number)),
        Expression::Variable(place) => Some(Operand::Variable(*place)),
        Expression::Item(_, _) | Expression::Reading(_) | Expression::Negation(_) => None,
        Expression::Operation(_, _, _) | Expression::Simple(_, _, _) => None,
    }
}

// The operations of an expression that is an operation on these two.
fn nested_in(outer: Operator, left: &Expression, right: &Expression) -> Option<Nested>
    ensures { IfSome result (λ nested. nested_of nested ≡ operation outer (placed_of left.now) (placed_of right.now)) }
{
    let right = leaf(right)?;
    let (inner, left, middle) = match left {
        Expression::Simple(inner, place, middle) => (*inner, Operand::Variable(*place), *middle),
        Expression::Operation(inner, left, middle) => (*inner, leaf(left)?, leaf(middle)?),
        Expression::Number(_) | Expression::Variable(_) | Expression::Item(_, _) => return None,
        Expression::Reading(_) | Expression::Negation(_) => return None,
    };
    Some(Nested {
        inner,
        outer,
        left,
        middle,
        right,
    })
}

// A test of a variable and a number.
fn number_test(operator: Operator, left: usize, right: i64, otherwise: usize) -> Compact
    ensures { IfSome (compact_line result) (λ l. l ≡ if_line (operation operator (variable left) (number right)) otherwise) }
{
    match operator {
        Operator::Equal => Compact::EqualNumber(left, right, otherwise),
        Operator::NotEqual => Compact::NotEqualNumber(left, right, otherwise),
        Operator::Less => Compact::LessNumber(left, right, otherwise),
        Operator::LessEqual => Compact::LessEqualNumber(left, right, otherwise),
        Operator::Greater => Compact::GreaterNumber(left, right, otherwise),
        Operator::GreaterEqual => Compact::GreaterEqualNumber(left, right, otherwise),
        Operator::Add | Operator::Subtract | Operator::Multiply => Compact::Other,
        Operator::Divide | Operator::Remainder => Compact::Other,
    }
}

// A test of two variables.
fn variable_test(operator: Operator, left: usize, right: usize, otherwise: usize) -> Compact
    ensures { IfSome (compact_line result) (λ l. l ≡ if_line (operation operator (variable left) (variable right)) otherwise) }
{
    match operator {
        Operator::Equal => Compact::EqualVariable(left, right, otherwise),
        Operator::NotEqual => Compact::NotEqualVariable(left, right, otherwise),
        Operator::Less => Compact::LessVariable(left, right, otherwise),
        Operator::LessEqual => Compact::LessEqualVariable(left, right, otherwise),
        Operator::Greater => Compact::GreaterVariable(left, right, otherwise),
        Operator::GreaterEqual => Compact::GreaterEqualVariable(left, right, otherwise),
        Operator::Add | Operator::Subtract | Operator::Multiply => Compact::Other,
        Operator::Divide | Operator::Remainder => Compact::Other,
    }
}

// A test, with the position that follows where it doesn't hold.
fn test_of(condition: &Expression, otherwise: usize) -> Compact
    ensures { IfSome (compact_line result) (λ l. l ≡ if_line (placed_of condition.now) otherwise) }
{
    match condition {
        Expression::Simple(operator, left, Operand::Number(right)) => {
            number_test(*operator, *left, *right, otherwise)
        }
        Expression::Simple(operator, left, Operand::Variable(right)) => {
            variable_test(*operator, *left, *right, otherwise)
        }
        Expression::Operation(operator, left, right) => match nested_in(*operator, left, right) {
            Some(nested) => Compact::TestNested(nested, otherwise),
            None => Compact::Other,
        },
        Expression::Number(_) | Expression::Variable(_) | Expression::Item(_, _) => Compact::Other,
        Expression::Reading(_) | Expression::Negation(_) => Compact::Other,
    }
}

// A variable gets the value of an operation, unless it compares.
fn operation_to(place: usize, operator: Operator, left: usize, right: Operand) -> Compact
    ensures { IfSome (compact_line result) (λ l. l ≡ simple_line (assign place (operation operator (variable left) (operand_of right)))) }
{
    match (operator, right) {
        (Operator::Add, Operand::Number(right)) => Compact::AddNumber(place, left, right),
        (Operator::Add, Operand::Variable(right)) => Compact::AddVariable(place, left, right),
        (Operator::Subtract, Operand::Number(right)) => Compact::SubtractNumber(place, left, right),
        (Operator::Subtract, Operand::Variable(right)) => {
            Compact::SubtractVariable(place, left, right)
        }
        (Operator::Multiply, Operand::Number(right)) => Compact::MultiplyNumber(place, left, right),
        (Operator::Multiply, Operand::Variable(right)) => {
            Compact::MultiplyVariable(place, left, right)
        }
        (Operator::Divide, Operand::Number(right)) => Compact::DivideNumber(place, left, right),
        (Operator::Divide, Operand::Variable(right)) => Compact::DivideVariable(place, left, right),
        (Operator::Remainder, Operand::Number(right)) => {
            Compact::RemainderNumber(place, left, right)
        }
        (Operator::Remainder, Operand::Variable(right)) => {
            Compact::RemainderVariable(place, left, right)
        }
        (Operator::Equal | Operator::NotEqual | Operator::Less, _) => Compact::Other,
        (Operator::LessEqual | Operator::Greater | Operator::GreaterEqual, _) => Compact::Other,
    }
}

// A variable gets an item of an array.
fn item_to(place: usize, array: usize, index: &Expression) -> Compact
    ensures { IfSome (compact_line result) (λ l. l ≡ simple_line (assign place (item array (placed_of index.now)))) }
{
    let Expression::Variable(index) = index else {
        return Compact::Other;
    };
    Compact::Item(place, array, *index)
}

// An item of an array gets a value.
fn item_assignment_of(array: usize, index: &Expression, value: &Expression) -> Compact
    ensures { IfSome (compact_line result) (λ l. l ≡ simple_line (assign_item array (placed_of index.now) (placed_of value.now))) }
{
    let Expression::Variable(index) = index else {
        return Compact::Other;
    };
    match value {
        Expression::Number(number) => Compact::SetItemNumber(array, *index, *number),
        Expression::Variable(from) => Compact::SetItemVariable(array, *index, *from),
        Expression::Item(_, _) | Expression::Reading(_) | Expression::Negation(_) => Compact::Other,
        Expression::Operation(_, _, _) | Expression::Simple(_, _, _) => Compact::Other,
    }
}

// A variable gets a value.
fn assignment_of(place: usize, value: &Expression) -> Compact
    ensures { IfSome (compact_line result) (λ l. l ≡ simple_line (assign place (placed_of value.now))) }
{
    match value {
        Expression::Number(number) => Compact::SetNumber(place, *number),
        Expression::Variable(from) => Compact::SetVariable(place, *from),
        Expression::Simple(operator, left, right) => operation_to(place, *operator, *left, *right),
        Expression::Item(array, index) => item_to(place, *array, index),
        Expression::Operation(operator, left, right) => match nested_in(*operator, left, right) {
            Some(nested) => Compact::SetNested(place, nested),
            None => Compact::Other,
        },
        Expression::Reading(_) | Expression::Negation(_) => Compact::Other,
    }
}

// The compact form of a statement.
fn compact_of(statement: &Statement) -> Compact
    ensures { IfSome (compact_line result) (λ l. l ≡ own_line (line_of statement.now)) }
{
    match statement {
        Statement::Declare(_) | Statement::DeclareArray(_) | Statement::EndIf => Compact::Next,
        Statement::Else(next) | Statement::EndWhile(next) => Compact::Jump(*next),
        Statement::Assign(place, value) => assignment_of(*place, value),
        Statement::If(condition, otherwise) | Statement::While(condition, otherwise) => {
            test_of(condition, *otherwise)
        }
        Statement::AssignItem(array, index, value) => item_assignment_of(*array, index, value),
        Statement::Print(_) | Statement::Collect(_) => Compact::Other,
        Statement::Send { .. } | Statement::Receive { .. } => Compact::Other,
        Statement::Probe { .. } | Statement::TryProbe { .. } => Compact::Other,
    }
}

/// The compact forms of statements, and one more behind them, where no statement stands.
pub(crate) fn compacts_of(
    alloc: Heap,
    statements: &[Statement],
) -> Result<Vec<Compact, Heap>, AllocError>
    ensures each { IfOk result (λ compacts. AreCompact compacts.items (map line_of statements.now)) }
    ensures count { IfOk result (λ compacts. length compacts.items ≡ length statements.now + 1) }
{
    let mut compacts = Vec::with_capacity(alloc, statements.len() + 1)?;
    for statement in statements {
        compacts.push(compact_of(statement))?;
    }
    compacts.push(Compact::Other)?;
    Ok(compacts)
}
