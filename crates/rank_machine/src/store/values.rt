//! Values of expressions over what a rank has stored.
ghost use Rattle.std.specs.Prelude.{◌≡◌, ◌<◌, ◌-◌, IfOk, IfSome, Ok, Some, [], length, slice_index_or};
ghost use Rattle.rank_language.specs.Placed.{operation};
ghost use Rattle.rank_language.specs.Seen.{operand_of, placed_of};
ghost use Rattle.rank_language.specs.Program.{IsWithin};
ghost use Rattle.rank_machine.specs.Computed.{valued};
ghost use Rattle.rank_machine.specs.Values.{value, read, rank_in};
ghost use Rattle.rank_machine.specs.States.{item_value};

use crate::fault::MachineFault;
use crate::operate::{negated, operated, product, sum};
use crate::store::Store;
use rank_language::{Expression, Operand, Operator, Reading};

// The value, or none and its fault.
#[inline(always)]
fn value_or(computed: Result<i64, MachineFault>, fault: &mut MachineFault) -> Option<i64>
    ensures { valued result fault.new ≡ computed }
{
    match computed {
        Ok(value) => Some(value),
        Err(found) => {
            *fault = found;
            None
        }
    }
}

impl Store {
    /// The expression's value; operands go from left to right, and the first fault stands. A number
    /// or a variable needs no call.
    #[inline(always)]
    pub fn value_of(&self, expression: &Expression) -> Result<i64, MachineFault>
        requires { IsWithin (length self.now.variables) (length self.now.arrays) (placed_of expression.now) }
        ensures { result ≡ value self.now (placed_of expression.now) }
    {
        match self.leaf(expression) {
            Some(value) => Ok(value),
            None => {
                let mut fault = MachineFault::Overflow;
                match self.computed(expression, &mut fault) {
                    Some(value) => Ok(value),
                    None => Err(fault),
                }
            }
        }
    }

    // The value of an operand.
    #[inline(always)]
    pub(super) fn operand(&self, operand: Operand) -> i64
        requires { IsWithin (length self.now.variables) (length self.now.arrays) (operand_of operand) }
        ensures { value self.now (operand_of operand) ≡ Ok result }
    {
        match operand {
            Operand::Number(number) => number,
            Operand::Variable(place) => self.variables[place],
        }
    }

    // The value of a number or of a variable.
    #[inline(always)]
    fn leaf(&self, expression: &Expression) -> Option<i64>
        requires { IsWithin (length self.now.variables) (length self.now.arrays) (placed_of expression.now) }
        ensures { IfSome result (λ z. value self.now (placed_of expression.now) ≡ Ok z) }
    {
        match expression {
            Expression::Number(number) => Some(*number),
            Expression::Variable(place) => Some(self.variables[*place]),
            Expression::Item(_, _)
            | Expression::Reading(_)
            | Expression::Negation(_)
            | Expression::Operation(_, _, _)
            | Expression::Simple(_, _, _) => None,
        }
    }

    // The value of a number, of a variable, or of an operation on a variable and one of these.
    // Like `index` and `near` it is put into its callers: what they know takes no call.
    #[inline(always)]
    fn simple(&self, expression: &Expression) -> Option<Result<i64, MachineFault>>
        requires { IsWithin (length self.now.variables) (length self.now.arrays) (placed_of expression.now) }
        ensures { IfSome result (λ found. found ≡ value self.now (placed_of expression.now)) }
    {
        match expression {
            Expression::Number(number) => Some(Ok(*number)),
            Expression::Variable(place) => Some(Ok(self.variables[*place])),
            Expression::Simple(operator, place, right) => {
                let right = self.operand(*right);
                Some(operated(*operator, self.variables[*place], right))
            }
            Expression::Item(_, _)
            | Expression::Reading(_)
            | Expression::Negation(_)
            | Expression::Operation(_, _, _) => None,
        }
    }

    // The value of `row * width + column`, a place in a table, where `row` is a variable and the
    // others are variables or numbers. None of another operation. That operators are tested for
    // here is quicker than to choose among all of them, twice.
    #[inline(always)]
    fn table_place(
        &self,
        operator: Operator,
        left: &Expression,
        right: &Expression,
    ) -> Option<Result<i64, MachineFault>>
        requires left { IsWithin (length self.now.variables) (length self.now.arrays) (placed_of left.now) }
        requires right { IsWithin (length self.now.variables) (length self.now.arrays) (placed_of right.now) }
        ensures { IfSome result (λ found. found ≡ value self.now (operation operator (placed_of left.now) (placed_of right.now))) }
    {
        let Operator::Add = operator else {
            return None;
        };
        let Expression::Simple(Operator::Multiply, row, width) = left else {
            return None;
        };
        let column = self.leaf(right)?;
        match product(self.variables[*row], self.operand(*width)) {
            Ok(start) => Some(sum(start, column)),
            Err(fault) => Some(Err(fault)),
        }
    }

    // The value of a simple expression, or of a place in a table.
    #[inline(always)]
    fn index(&self, expression: &Expression) -> Option<Result<i64, MachineFault>>
        requires { IsWithin (length self.now.variables) (length self.now.arrays) (placed_of expression.now) }
        ensures { IfSome result (λ found. found ≡ value self.now (placed_of expression.now)) }
    {
        let Expression::Operation(operator, left, right) = expression else {
            return self.simple(expression);
        };
        self.table_place(*operator, left, right)
    }

    // The value of a simple expression, or of an item with an index as above.
    #[inline(always)]
    fn near(&self, expression: &Expression) -> Option<Result<i64, MachineFault>>
        requires { IsWithin (length self.now.variables) (length self.now.arrays) (placed_of expression.now) }
        ensures { IfSome result (λ found. found ≡ value self.now (placed_of expression.now)) }
    {
        let Expression::Item(place, index) = expression else {
            return self.simple(expression);
        };
        match self.index(index)? {
            Ok(index) => Some(self.arrays[*place].item_at(index)),
            Err(fault) => Some(Err(fault)),
        }
    }

    // The same, or the value of an operation on two such expressions: so a sum needs no call for a
    // product that is added.
    #[inline(always)]
    fn near_operation(&self, expression: &Expression) -> Option<Result<i64, MachineFault>>
        requires { IsWithin (length self.now.variables) (length self.now.arrays) (placed_of expression.now) }
        ensures { IfSome result (λ found. found ≡ value self.now (placed_of expression.now)) }
    {
        let Expression::Operation(operator, left, right) = expression else {
            return self.near(expression);
        };
        match self.near(left)? {
            Ok(left) => match self.near(right)? {
                Ok(right) => Some(operated(*operator, left, right)),
                Err(fault) => Some(Err(fault)),
            },
            Err(fault) => Some(Err(fault)),
        }
    }

    // The value of any expression, or none and its fault. So a value is answered in registers.
    fn computed(&self, expression: &Expression, fault: &mut MachineFault) -> Option<i64>
        requires { IsWithin (length self.now.variables) (length self.now.arrays) (placed_of expression.now) }
        ensures { valued result fault.new ≡ value self.now (placed_of expression.now) }
    {
        match expression {
            Expression::Number(number) => Some(*number),
            Expression::Variable(place) => Some(self.variables[*place]),
            Expression::Item(place, index) => {
                let index = match self.index(index) {
                    Some(value) => value_or(value, fault)?,
                    None => self.computed(index, fault)?,
                };
                value_or(self.arrays[*place].item_at(index), fault)
            }
            Expression::Reading(reading) => Some(self.read(*reading)),
            Expression::Negation(operand) => {
                let operand = self.computed(operand, fault)?;
                value_or(negated(operand), fault)
            }
            Expression::Operation(operator, left, right) => {
                let left = match self.near(left) {
                    Some(value) => value_or(value, fault)?,
                    None => self.computed(left, fault)?,
                };
                let right = match self.near_operation(right) {
                    Some(value) => value_or(value, fault)?,
                    None => self.computed(right, fault)?,
                };
                value_or(operated(*operator, left, right), fault)
            }
            Expression::Simple(operator, place, right) => {
                let right = self.operand(*right);
                value_or(operated(*operator, self.variables[*place], right), fault)
            }
        }
    }

    /// The rank of this number.
    pub fn rank_of(&self, value: i64) -> Result<u8, MachineFault>
        ensures rank { result ≡ rank_in self.now.size value }
        ensures within { IfOk result (λ rank. rank < self.now.size) }
    {
        if value < 0 || value >= i64::from(self.size) {
            return Err(MachineFault::BadRank);
        }
        Ok(value as u8)
    }

    /// The index of the item that a `let` sets, and the item's value. The index
    /// and its range come before the value.
    pub fn item_value(
        &self,
        place: usize,
        index: &Expression,
        value: &Expression,
    ) -> Result<(usize, i64), MachineFault>
        requires place { place < length self.now.arrays }
        requires index { IsWithin (length self.now.variables) (length self.now.arrays) (placed_of index.now) }
        requires value { IsWithin (length self.now.variables) (length self.now.arrays) (placed_of value.now) }
        ensures item { result ≡ item_value self.now place (placed_of index.now) (placed_of value.now) }
        ensures within { IfOk result (λ item. item.0 < length (slice_index_or self.now.arrays place [])) }
    {
        let index = self.value_of(index)?;
        let index = self.arrays[place].index_of(index)?;
        Ok((index, self.value_of(value)?))
    }

    fn read(&self, reading: Reading) -> i64
        ensures { result ≡ read self.now reading }
    {
        match reading {
            Reading::Rank => i64::from(self.rank),
            Reading::Size => i64::from(self.size),
            Reading::Source => i64::from(self.status.source),
            Reading::Tag => i64::from(self.status.tag),
            Reading::Count => i64::from(self.status.count),
        }
    }
}
