//! The tokens of a line.

ghost use Rattle.std.specs.Prelude.{◌≡◌};
ghost use Rattle.rank_text.specs.Grammar.Grammar.{strength};

use crate::grammar::name::Name;

/// What an operation between two values does.
#[derive(Clone, Copy, PartialEq, Eq)]
pub enum Operator {
    Add,
    Subtract,
    Multiply,
    Divide,
    Remainder,
    Equal,
    NotEqual,
    Less,
    LessEqual,
    Greater,
    GreaterEqual,
}

/// How strongly an operator binds.
#[derive(Clone, Copy)]
pub enum Strength {
    Compares,
    Adds,
    Multiplies,
}

impl Operator {
    /// How strongly the operator binds.
    pub fn strength(self) -> Strength
        ensures { result ≡ strength self }
    {
        match self {
            Operator::Add | Operator::Subtract => Strength::Adds,
            Operator::Multiply | Operator::Divide | Operator::Remainder => Strength::Multiplies,
            Operator::Equal
            | Operator::NotEqual
            | Operator::Less
            | Operator::LessEqual
            | Operator::Greater
            | Operator::GreaterEqual => Strength::Compares,
        }
    }
}

/// A value of the rank that a program can only read.
#[derive(Clone, Copy)]
pub enum Reading {
    Rank,
    Size,
    Source,
    Tag,
    Count,
}

/// The words that begin statements.
#[derive(Clone, Copy)]
pub enum Keyword {
    Var,
    Array,
    Let,
    If,
    Else,
    End,
    While,
    Send,
    Recv,
    Probe,
    Iprobe,
    Print,
    Barrier,
    Bcast,
    Reduce,
}

/// How a reduction combines two values.
#[derive(Clone, Copy)]
pub enum Reduction {
    Sum,
    Max,
    Min,
}

/// A token of a line.
///
/// A number above 9223372036854775807 is kept as 9223372036854775808.
#[derive(Clone, Copy)]
pub enum Token {
    Keyword(Keyword),
    Reduction(Reduction),
    Name(Name),
    Number(u64),
    Reading(Reading),
    Operator(Operator),
    OpenParenthesis,
    CloseParenthesis,
    OpenBracket,
    CloseBracket,
    Comma,
    Assign,
    Any,
}
