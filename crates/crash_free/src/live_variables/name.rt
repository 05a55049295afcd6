//! What statements read and write.
ghost use Rattle.std.specs.Prelude.{◌≡◌};
ghost use Rattle.rank_language.specs.Seen.{operand_of, placed_of};
ghost use Rattle.crash_free.specs.LiveVariables.Names.{is_place, is_status, reads_status, mentions};
ghost use Rattle.crash_free.specs.LiveVariables.Seen.{name_of};

use rank_language::{Expression, Operand, Reading};

/// What may be read and written.
#[derive(Clone, Copy)]
pub enum StoredName {
    /// A variable, by its place in the order of declaration.
    Variable(usize),
    /// Source, tag and count of the last message together.
    Status,
}

impl StoredName {
    /// Whether it is the variable at this place.
    pub fn is_place(self, place: usize) -> bool
        ensures { result ≡ is_place place (name_of self) }
    {
        match self {
            StoredName::Variable(own) => own == place,
            StoredName::Status => false,
        }
    }

    /// Whether it is the status.
    pub fn is_status(self) -> bool
        ensures { result ≡ is_status (name_of self) }
    {
        match self {
            StoredName::Variable(_) => false,
            StoredName::Status => true,
        }
    }

    /// Whether the expression reads it.
    pub fn is_in(self, expression: &Expression) -> bool
        ensures { result ≡ mentions (name_of self) (placed_of expression.now) }
    {
        match expression {
            Expression::Number(_) => false,
            Expression::Variable(place) => self.is_place(*place),
            Expression::Item(_, index) => self.is_in(index),
            Expression::Reading(reading) => self.is_status() && reads_status(*reading),
            Expression::Negation(operand) => self.is_in(operand),
            Expression::Operation(_, left, right) => self.is_in(left) || self.is_in(right),
            Expression::Simple(_, place, right) => self.is_place(*place) || self.is_operand(*right),
        }
    }

    // Whether it is the operand.
    fn is_operand(self, operand: Operand) -> bool
        ensures { result ≡ mentions (name_of self) (operand_of operand) }
    {
        match operand {
            Operand::Number(_) => false,
            Operand::Variable(place) => self.is_place(place),
        }
    }
}

fn reads_status(reading: Reading) -> bool
    ensures { result ≡ reads_status reading }
{
    match reading {
        Reading::Rank | Reading::Size => false,
        Reading::Source | Reading::Tag | Reading::Count => true,
    }
}
