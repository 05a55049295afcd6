//! Steps of a rank's own, by the compact forms of their statements.
ghost use Rattle.std.specs.Prelude.{◌≡◌, ◌<◌, ◌+◌, ◌-◌, ◌^◌, IfSome, Some, length, map, if◌then◌else◌};
ghost use Rattle.rank_language.specs.Compact.{compact_line, nested_of};
ghost use Rattle.rank_language.specs.Placed.{variable};
ghost use Rattle.rank_language.specs.Program.{IsPlaced, IsWithin};
ghost use Rattle.rank_language.specs.Seen.{operand_of};
ghost use Rattle.rank_machine.specs.States.{assigned, item_assigned, item_value};
ghost use Rattle.rank_machine.specs.Machine.{is_true, next_after, store_after, where_valued};
ghost use Rattle.rank_machine.specs.Spelled.{let_expression, test_expression};
ghost use Rattle.rank_machine.specs.Values.{value};

use crate::fault::MachineFault;
use crate::operate::{difference, operated, product, quotient, remainder, sum, truth};
use crate::store::Store;
use rank_language::{Compact, Nested, Operand};

impl Store {
    // The value of an operation on an operation.
    #[inline(always)]
    fn nested(&self, nested: &Nested) -> Result<i64, MachineFault>
        requires { IsWithin (length self.now.variables) (length self.now.arrays) (nested_of nested.now) }
        ensures { result ≡ value self.now (nested_of nested.now) }
    {
        let left = self.operand(nested.left);
        let middle = self.operand(nested.middle);
        let left = operated(nested.inner, left, middle)?;
        operated(nested.outer, left, self.operand(nested.right))
    }

    // The value that a compact form tests. One that tests none has 0.
    #[inline(always)]
    fn test_value(&self, compact: &Compact) -> Result<i64, MachineFault>
        requires placed { IfSome (compact_line compact.now) (IsPlaced (length self.now.variables) (length self.now.arrays)) }
        ensures { result ≡ value self.now (test_expression (compact_line compact.now)) }
    {
        let values = &self.variables;
        match compact {
            Compact::EqualNumber(left, right, _) => Ok(truth(values[*left] == *right)),
            Compact::EqualVariable(left, right, _) => Ok(truth(values[*left] == values[*right])),
            Compact::NotEqualNumber(left, right, _) => Ok(truth(values[*left] != *right)),
            Compact::NotEqualVariable(left, right, _) => Ok(truth(values[*left] != values[*right])),
            Compact::LessNumber(left, right, _) => Ok(truth(values[*left] < *right)),
            Compact::LessVariable(left, right, _) => Ok(truth(values[*left] < values[*right])),
            Compact::LessEqualNumber(left, right, _) => Ok(truth(values[*left] <= *right)),
            Compact::LessEqualVariable(left, right, _) => Ok(truth(
                values[*left] <= values[*right],
            )),
            Compact::GreaterNumber(left, right, _) => Ok(truth(values[*left] > *right)),
            Compact::GreaterVariable(left, right, _) => Ok(truth(values[*left] > values[*right])),
            Compact::GreaterEqualNumber(left, right, _) => Ok(truth(values[*left] >= *right)),
            Compact::GreaterEqualVariable(left, right, _) => Ok(truth(
                values[*left] >= values[*right],
            )),
            Compact::TestNested(nested, _) => self.nested(nested),
            Compact::Other | Compact::Next | Compact::Jump(_) => Ok(0),
            Compact::SetNumber(..) | Compact::SetVariable(..) | Compact::SetNested(..) => Ok(0),
            Compact::Item(..) | Compact::SetItemNumber(..) | Compact::SetItemVariable(..) => Ok(0),
            Compact::AddNumber(..) | Compact::AddVariable(..) => Ok(0),
            Compact::SubtractNumber(..) | Compact::SubtractVariable(..) => Ok(0),
            Compact::MultiplyNumber(..) | Compact::MultiplyVariable(..) => Ok(0),
            Compact::DivideNumber(..) | Compact::DivideVariable(..) => Ok(0),
            Compact::RemainderNumber(..) | Compact::RemainderVariable(..) => Ok(0),
        }
    }

    // Where a test leads; the position behind it is read only where it doesn't hold.
    #[inline(always)]
    fn test(&self, compact: &Compact, position: usize, otherwise: &usize) -> Option<usize>
        requires placed { IfSome (compact_line compact.now) (IsPlaced (length self.now.variables) (length self.now.arrays)) }
        requires position { position < 2 ^ 64 - 1 }
        ensures { result ≡ where_valued (value self.now (test_expression (compact_line compact.now)))
            (if is_true (value self.now (test_expression (compact_line compact.now))) then position + 1 else otherwise.now) }
    {
        let Ok(value) = self.test_value(compact) else {
            return None;
        };
        if value != 0 {
            Some(position + 1)
        } else {
            Some(*otherwise)
        }
    }

    // The value that a variable gets by a compact form. One that gives none has 0.
    #[inline(always)]
    fn let_value(&self, compact: &Compact) -> Result<i64, MachineFault>
        requires placed { IfSome (compact_line compact.now) (IsPlaced (length self.now.variables) (length self.now.arrays)) }
        ensures { result ≡ value self.now (let_expression (compact_line compact.now)) }
    {
        let values = &self.variables;
        match compact {
            Compact::SetNumber(_, number) => Ok(*number),
            Compact::SetVariable(_, from) => Ok(values[*from]),
            Compact::AddNumber(_, left, right) => sum(values[*left], *right),
            Compact::AddVariable(_, left, right) => sum(values[*left], values[*right]),
            Compact::SubtractNumber(_, left, right) => difference(values[*left], *right),
            Compact::SubtractVariable(_, left, right) => difference(values[*left], values[*right]),
            Compact::MultiplyNumber(_, left, right) => product(values[*left], *right),
            Compact::MultiplyVariable(_, left, right) => product(values[*left], values[*right]),
            Compact::DivideNumber(_, left, right) => quotient(values[*left], *right),
            Compact::DivideVariable(_, left, right) => quotient(values[*left], values[*right]),
            Compact::RemainderNumber(_, left, right) => remainder(values[*left], *right),
            Compact::RemainderVariable(_, left, right) => remainder(values[*left], values[*right]),
            Compact::Item(_, array, index) => self.arrays[*array].item_at(values[*index]),
            Compact::SetNested(_, nested) => self.nested(nested),
            Compact::Other | Compact::Next | Compact::Jump(_) => Ok(0),
            Compact::SetItemNumber(..) | Compact::SetItemVariable(..) => Ok(0),
            Compact::EqualNumber(..) | Compact::EqualVariable(..) => Ok(0),
            Compact::NotEqualNumber(..) | Compact::NotEqualVariable(..) => Ok(0),
            Compact::LessNumber(..) | Compact::LessVariable(..) => Ok(0),
            Compact::LessEqualNumber(..) | Compact::LessEqualVariable(..) => Ok(0),
            Compact::GreaterNumber(..) | Compact::GreaterVariable(..) => Ok(0),
            Compact::GreaterEqualNumber(..) | Compact::GreaterEqualVariable(..) => Ok(0),
            Compact::TestNested(..) => Ok(0),
        }
    }

    // A variable gets a value, and the next position follows. None if the value is a fault, and
    // then nothing changes. So its place is read last, and takes no register before.
    #[inline(always)]
    fn assign(&mut self, place: &usize, compact: &Compact, position: usize) -> Option<usize>
        requires place { place.now < length self.old.variables }
        requires placed { IfSome (compact_line compact.now) (IsPlaced (length self.old.variables) (length self.old.arrays)) }
        requires position { position < 2 ^ 64 - 1 }
        ensures next { result ≡ where_valued (value self.old (let_expression (compact_line compact.now))) (position + 1) }
        ensures stored { self.new ≡ assigned self.old place.now (value self.old (let_expression (compact_line compact.now))) }
        ensures variables { length self.new.variables ≡ length self.old.variables }
        ensures arrays { self.new.arrays ≡ self.old.arrays }
        ensures rank { self.new.rank < self.new.size }
    {
        // The rank is below the size by the invariant, and no step changes either.
        let _ = &self.rank;
        let Ok(value) = self.let_value(compact) else {
            return None;
        };
        self.variables[*place] = value;
        Some(position + 1)
    }

    // The item of an array at a variable's index gets a value, and the next position follows. None
    // if there is no item at the index, and then nothing changes.
    #[tactic(auto, using(crate::proofs::Lengths::same_lengths))]
    #[inline(always)]
    fn set_item(
        &mut self,
        array: usize,
        index: usize,
        value: Operand,
        position: usize,
    ) -> Option<usize>
        requires array { array < length self.old.arrays }
        requires index { index < length self.old.variables }
        requires value { IsWithin (length self.old.variables) (length self.old.arrays) (operand_of value) }
        requires position { position < 2 ^ 64 - 1 }
        ensures next { result ≡ where_valued (item_value self.old array (variable index) (operand_of value)) (position + 1) }
        ensures stored { self.new ≡ item_assigned self.old array (item_value self.old array (variable index) (operand_of value)) }
        ensures lengths { map length self.new.arrays ≡ map length self.old.arrays }
        ensures variables { self.new.variables ≡ self.old.variables }
        ensures arrays { length self.new.arrays ≡ length self.old.arrays }
        ensures rank { self.new.rank < self.new.size }
    {
        // The rank is below the size by the invariant, and no step changes either.
        let _ = &self.rank;
        let Ok(index) = self.arrays[array].index_of(self.variables[index]) else {
            return None;
        };
        let value = self.operand(value);
        self.arrays[array].set(index, value);
        Some(position + 1)
    }

    /// Makes the step of its own that a compact form at a position spells, and answers where it
    /// leads. None if it spells none, or one that faults, and then nothing changes.
    #[inline(always)]
    pub(super) fn follow_compact(&mut self, compact: &Compact, position: usize) -> Option<usize>
        requires placed { IfSome (compact_line compact.now) (IsPlaced (length self.old.variables) (length self.old.arrays)) }
        requires position { position < 2 ^ 64 - 1 }
        ensures next { result ≡ next_after self.old (compact_line compact.now) position }
        ensures stored { self.new ≡ store_after self.old (compact_line compact.now) }
        ensures lengths { map length self.new.arrays ≡ map length self.old.arrays }
        ensures variables { length self.new.variables ≡ length self.old.variables }
        ensures arrays { length self.new.arrays ≡ length self.old.arrays }
        ensures rank { self.new.rank < self.new.size }
    {
        let _ = &self.rank;
        match compact {
            Compact::Other => None,
            Compact::Next => Some(position + 1),
            Compact::Jump(next) => Some(*next),
            // (an arm for each: where they share one, what the form is is looked up twice)
            Compact::SetNumber(place, _) => self.assign(place, compact, position),
            Compact::SetVariable(place, _) => self.assign(place, compact, position),
            Compact::AddNumber(place, ..) => self.assign(place, compact, position),
            Compact::AddVariable(place, ..) => self.assign(place, compact, position),
            Compact::SubtractNumber(place, ..) => self.assign(place, compact, position),
            Compact::SubtractVariable(place, ..) => self.assign(place, compact, position),
            Compact::MultiplyNumber(place, ..) => self.assign(place, compact, position),
            Compact::MultiplyVariable(place, ..) => self.assign(place, compact, position),
            Compact::DivideNumber(place, ..) => self.assign(place, compact, position),
            Compact::DivideVariable(place, ..) => self.assign(place, compact, position),
            Compact::RemainderNumber(place, ..) => self.assign(place, compact, position),
            Compact::RemainderVariable(place, ..) => self.assign(place, compact, position),
            Compact::SetNested(place, _) => self.assign(place, compact, position),
            Compact::Item(place, ..) => self.assign(place, compact, position),
            Compact::SetItemNumber(array, index, value) => {
                self.set_item(*array, *index, Operand::Number(*value), position)
            }
            Compact::SetItemVariable(array, index, from) => {
                self.set_item(*array, *index, Operand::Variable(*from), position)
            }
            Compact::EqualNumber(_, _, unmet)
            | Compact::EqualVariable(_, _, unmet)
            | Compact::NotEqualNumber(_, _, unmet)
            | Compact::NotEqualVariable(_, _, unmet)
            | Compact::LessNumber(_, _, unmet)
            | Compact::LessVariable(_, _, unmet)
            | Compact::LessEqualNumber(_, _, unmet)
            | Compact::LessEqualVariable(_, _, unmet)
            | Compact::GreaterNumber(_, _, unmet)
            | Compact::GreaterVariable(_, _, unmet)
            | Compact::GreaterEqualNumber(_, _, unmet)
            | Compact::GreaterEqualVariable(_, _, unmet)
            | Compact::TestNested(_, unmet) => self.test(compact, position, unmet),
        }
    }
}
