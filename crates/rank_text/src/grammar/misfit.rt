//! Where the reading of a line's tokens stopped.

use crate::grammar::token::Token;

/// What could have stood in the place of a token that doesn't fit.
#[derive(Clone, Copy)]
pub enum Expected {
    /// A word that begins a statement.
    Statement,
    Name,
    Number,
    /// An operand of an expression.
    Operand,
    /// `any`, or an operand.
    AnyOrOperand,
    /// `sum`, `max` or `min`.
    Reduction,
    Comma,
    /// `[` and the length of an array.
    Length,
    CloseBracket,
    Assign,
    /// `=`, or `[` and an index.
    AssignOrIndex,
    /// An operator, or the `)` of what is open.
    InParentheses,
    /// An operator, or the `]` of what is open.
    InBrackets,
    /// The end of a comparison, in place of another one.
    OneComparison,
    /// The end of the line.
    Nothing,
}

/// The first token of a line with which no form goes on.
#[derive(Clone, Copy)]
pub struct Misfit<'a> {
    /// The line's tokens from that one on; none where the line ends too early.
    pub rest: &'a [Token],
    /// What could have stood there.
    pub expected: Expected,
}
