//! Places for names: an expression as it is written becomes one that a machine reads.
ghost use Rattle.std.specs.Prelude.{◌≡◌, Some, IfOk, IfSome, true, false, position};
ghost use Rattle.std.specs.Str.{bytes_eq};
ghost use Rattle.rank_text.specs.Grammar.Tree.{operation, tree_of};
ghost use Rattle.rank_text.specs.Checker.Scope.{all_declared, is_array, is_declared, is_great, is_variable};
ghost use Rattle.rank_language.specs.Resolved.{array_place, place_in, resolved, variable_place};
ghost use Rattle.rank_language.specs.Seen.{operand_of, placed_of};
ghost use Rattle.rank_language.specs.SeenTables.{IsPlaceOf, tables_seen};

use crate::expression::{Expression, Operand};
use limits::Heap;
use rank_text::checker::Array;
use rank_text::grammar::{Name, Operator, Written};
use std::alloc::AllocError;

/// The names that a text declares, in their order.
#[derive(Clone, Copy)]
pub(crate) struct Tables<'t> {
    pub(crate) variables: &'t [Name],
    pub(crate) arrays: &'t [Array],
}

#[tactic(auto, using(crate::proofs::Names::same_names))]
fn is_same(one: &Name, other: &Name) -> bool
    ensures { result ≡ bytes_eq one.now other.now }
{
    one == other
}

/// The place of a name among those of variables.
fn variable_at(variables: &[Name], name: &Name) -> Option<usize>
    ensures { result ≡ place_in variables.now name.now }
{
    variables
        .iter()
        .position(|variable| is_same(variable, name))
}

/// The place of a name among those of arrays.
fn array_at(arrays: &[Array], name: &Name) -> Option<usize>
    ensures { result ≡ position (λ a. bytes_eq a.name name.now) arrays.now }
{
    arrays.iter().position(|array| is_same(&array.name, name))
}

impl Tables<'_> {
    /// The place of a variable that is declared.
    #[tactic(auto, using(crate::proofs::Names::unplaced))]
    pub(crate) fn variable(self, name: Name) -> usize
        requires { is_variable (tables_seen self) name ≡ true }
        ensures { variable_place (tables_seen self.entry) name ≡ Some result }
    {
        match variable_at(self.variables, &name) {
            Some(place) => place,
            None => unreachable!(),
        }
    }

    /// What a name that is declared is.
    #[tactic(auto, using(crate::proofs::Names::unplaced, crate::proofs::Names::array_placed, crate::proofs::Names::array_unplaced))]
    pub(crate) fn declared(self, name: Name) -> Declared
        requires { is_declared (tables_seen self) name ≡ true }
        ensures { IsPlaceOf (variable_place (tables_seen self.entry) name) (array_place (tables_seen self.entry) name) result }
    {
        match variable_at(self.variables, &name) {
            Some(place) => Declared::Variable(place),
            None => Declared::Array(self.array(name)),
        }
    }

    /// The place of an array that is declared.
    #[tactic(auto, using(crate::proofs::Names::array_placed, crate::proofs::Names::array_unplaced))]
    pub(crate) fn array(self, name: Name) -> usize
        requires { is_array (tables_seen self) name ≡ true }
        ensures { array_place (tables_seen self.entry) name ≡ Some result }
    {
        match array_at(self.arrays, &name) {
            Some(place) => place,
            None => unreachable!(),
        }
    }
}

/// What a name is declared as, with its place in the order of declaration.
#[derive(Clone, Copy)]
pub(crate) enum Declared {
    Variable(usize),
    Array(usize),
}

/// The operand that stands in an operation, if the expression is a number or a variable.
fn resolve_operand(tables: Tables<'_>, written: &Written) -> Option<Operand>
    requires declared { all_declared (tables_seen tables) (tree_of written.now) ≡ true }
    requires fitting { is_great (tree_of written.now) ≡ false }
    ensures { IfSome result (λ o. resolved (tables_seen tables.entry) (tree_of written.now) ≡ Some (operand_of o)) }
{
    match written {
        Written::Number(number) => Some(Operand::Number(*number as i64)),
        Written::Variable(name) => Some(Operand::Variable(tables.variable(*name))),
        Written::Item(..) | Written::Reading(_) | Written::Negation(_) | Written::Operation(..) =>
            None,
    }
}

/// The operation, if it is one on a variable and a number or a variable.
fn resolve_simple(
    tables: Tables<'_>,
    operator: Operator,
    left: &Written,
    right: &Written,
) -> Option<Expression>
    requires left { all_declared (tables_seen tables) (tree_of left.now) ≡ true }
    requires right { all_declared (tables_seen tables) (tree_of right.now) ≡ true }
    requires fitting { is_great (tree_of right.now) ≡ false }
    ensures { IfSome result (λ e. resolved (tables_seen tables.entry) (operation operator (tree_of left.now) (tree_of right.now)) ≡ Some (placed_of e)) }
{
    let Written::Variable(name) = left else {
        return None;
    };
    let right = resolve_operand(tables, right)?;
    Some(Expression::Simple(operator, tables.variable(*name), right))
}

/// The expression with places for its names.
pub(crate) fn resolve(
    alloc: Heap,
    tables: Tables<'_>,
    written: &Written,
) -> Result<Expression, AllocError>
    requires declared { all_declared (tables_seen tables) (tree_of written.now) ≡ true }
    requires fitting { is_great (tree_of written.now) ≡ false }
    ensures { IfOk result (λ e. resolved (tables_seen tables.entry) (tree_of written.now) ≡ Some (placed_of e)) }
{
    match written {
        Written::Number(n) => Ok(Expression::Number(*n as i64)),
        Written::Variable(name) => Ok(Expression::Variable(tables.variable(*name))),
        Written::Item(name, index) => {
            let index = resolve(alloc, tables, index)?;
            Ok(Expression::Item(tables.array(*name), Box::new(alloc, index)?))
        }
        Written::Reading(reading) => Ok(Expression::Reading(*reading)),
        Written::Negation(operand) => {
            let operand = resolve(alloc, tables, operand)?;
            Ok(Expression::Negation(Box::new(alloc, operand)?))
        }
        Written::Operation(operator, left, right) => {
            if let Some(simple) = resolve_simple(tables, *operator, left, right) {
                return Ok(simple);
            }
            let left = Box::new(alloc, resolve(alloc, tables, left)?)?;
            let right = Box::new(alloc, resolve(alloc, tables, right)?)?;
            Ok(Expression::Operation(*operator, left, right))
        }
    }
}
