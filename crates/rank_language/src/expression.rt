//! Expressions as a machine reads them: variables and arrays by their places.
use limits::Heap;
use rank_text::grammar::{Operator, Reading};

/// An expression of a program. It has no more nodes than `limits::MOST_NODES`.
#[derive(Drop)]
pub enum Expression {
    Number(i64),
    /// A variable, by its place in the order of declaration.
    Variable(usize),
    /// An item of an array, by the array's place and the item's index.
    Item(usize, Box<Expression, Heap>),
    Reading(Reading),
    Negation(Box<Expression, Heap>),
    Operation(Operator, Box<Expression, Heap>, Box<Expression, Heap>),
    /// An operation on a variable, by its place, and a number or a variable: both stand in it
    /// themselves.
    Simple(Operator, usize, Operand),
}

/// A number, or a variable by its place.
#[derive(Clone, Copy)]
pub enum Operand {
    Number(i64),
    Variable(usize),
}
