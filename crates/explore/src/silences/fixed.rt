//! Values of expressions that are the same all along on one rank.
ghost use Rattle.std.specs.Prelude.{◌≡◌, IfSome, Ok};
ghost use Rattle.rank_language.specs.Placed.{reading};
ghost use Rattle.rank_language.specs.Seen.{placed_of};
ghost use Rattle.rank_machine.specs.Values.{operated};
ghost use Rattle.explore.specs.Silences.{IsFixed};

use rank_language::{Expression, Operator, Reading};

/// The value that the expression has on this rank of so many, whatever is stored,
/// as far as can be seen: where it is built of numbers, `rank` and `size`.
pub fn fixed(expression: &Expression, rank: u8, ranks: u8) -> Option<i64>
    ensures { IfSome result (λ z. IsFixed ranks rank (placed_of expression.now) z) }
{
    match expression {
        Expression::Number(number) => Some(*number),
        Expression::Reading(word) => read(*word, rank, ranks),
        Expression::Operation(operator, left, right) => {
            let left = fixed(left, rank, ranks)?;
            let right = fixed(right, rank, ranks)?;
            operated(*operator, left, right)
        }
        Expression::Variable(_)
        | Expression::Item(..)
        | Expression::Negation(_)
        | Expression::Simple(..) => None,
    }
}

// What a word reads, if that doesn't change.
fn read(word: Reading, rank: u8, ranks: u8) -> Option<i64>
    ensures { IfSome result (λ z. IsFixed ranks rank (reading word) z) }
{
    match word {
        Reading::Rank => Some(i64::from(rank)),
        Reading::Size => Some(i64::from(ranks)),
        Reading::Source | Reading::Tag | Reading::Count => None,
    }
}

// The value of an operation of arithmetic, if there is one.
#[tactic(auto, using(crate::proofs::Fixing::ranges))]
fn operated(operator: Operator, left: i64, right: i64) -> Option<i64>
    ensures { IfSome result (λ z. operated operator left right ≡ Ok z) }
{
    match operator {
        Operator::Add => left.checked_add(right),
        Operator::Subtract => left.checked_sub(right),
        Operator::Multiply => left.checked_mul(right),
        Operator::Divide => left.checked_div(right),
        Operator::Remainder => left.checked_rem(right),
        Operator::Equal
        | Operator::NotEqual
        | Operator::Less
        | Operator::LessEqual
        | Operator::Greater
        | Operator::GreaterEqual => None,
    }
}
