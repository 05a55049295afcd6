//! One walk over a statement's arguments: are its names declared, its expressions small, its numbers readable?
ghost use Rattle.std.specs.Prelude.{◌≡◌, OnOk, IfOk, true, false, ◌&&◌, ◌||◌};
ghost use Rattle.rank_text.specs.Grammar.SeenForms.{pattern_of, form_seen, payload_seen};
ghost use Rattle.rank_text.specs.Grammar.Tree.{tree_of};
ghost use Rattle.rank_text.specs.Checker.Scope.{all_declared, pattern_declared, pattern_is_great, pattern_is_large, declared_in};
ghost use Rattle.rank_text.specs.Checker.Scope.{has_great_number, has_large, is_array, is_declared, is_great, is_large};
ghost use Rattle.rank_text.specs.Checker.Scope.{is_variable, payload_declared, payload_is_great, payload_is_large};
ghost use Rattle.rank_text.specs.Checker.SeenLines.{scope_seen};

use crate::checker::scope::Scope;
use crate::grammar::{Form, Name, Pattern, Payload, Written};
use limits::{Heap, MOST_NODES};
use std::alloc::AllocError;

/// The greatest number of a program.
pub(crate) const GREATEST: u64 = i64::MAX as u64;

/// What has been found in a statement's arguments so far.
#[derive(Clone, Copy)]
pub(crate) struct Survey {
    /// How many nodes more the expression that is looked at may have.
    pub(crate) room: usize,
    /// Each name is declared in the sort that is used there.
    pub(crate) declared: bool,
    /// An expression has too many nodes.
    pub(crate) large: bool,
    /// A number is above 9223372036854775807.
    pub(crate) great: bool,
}

impl Survey {
    pub(crate) fn variable(&mut self, scope: &Scope, name: &Name)
        ensures room { self.new.room ≡ self.old.room }
        ensures declared { self.new.declared ≡ (self.old.declared && is_variable (scope_seen scope.now) name.now) }
        ensures large { self.new.large ≡ self.old.large }
        ensures great { self.new.great ≡ self.old.great }
    {
        self.declared = self.declared && scope.is_variable(name);
    }

    pub(crate) fn array(&mut self, scope: &Scope, name: &Name)
        ensures room { self.new.room ≡ self.old.room }
        ensures declared { self.new.declared ≡ (self.old.declared && is_array (scope_seen scope.now) name.now) }
        ensures large { self.new.large ≡ self.old.large }
        ensures great { self.new.great ≡ self.old.great }
    {
        self.declared = self.declared && scope.is_array(name);
    }

    /// The name of a variable or of an array.
    fn either(&mut self, scope: &Scope, name: &Name)
        ensures declared { self.new.declared ≡ (self.old.declared && is_declared (scope_seen scope.now) name.now) }
        ensures large { self.new.large ≡ self.old.large }
        ensures great { self.new.great ≡ self.old.great }
    {
        self.declared = self.declared && scope.is_declared(name);
    }

    fn pattern(&mut self, alloc: Heap, scope: &Scope, pattern: &Pattern) -> Result<(), AllocError>
        ensures declared { OnOk result (self.new.declared
            ≡ (self.old.declared && pattern_declared (scope_seen scope.now) (pattern_of pattern.now))) }
        ensures large { OnOk result (self.new.large ≡ (self.old.large || pattern_is_large (pattern_of pattern.now))) }
        ensures great { OnOk result (self.new.great ≡ (self.old.great || pattern_is_great (pattern_of pattern.now))) }
    {
        match pattern {
            Pattern::Any => Ok(()),
            Pattern::Value(expression) => self.expression(alloc, scope, expression),
        }
    }

    fn payload(&mut self, alloc: Heap, scope: &Scope, payload: &Payload) -> Result<(), AllocError>
        ensures declared { OnOk result (self.new.declared
            ≡ (self.old.declared && payload_declared (scope_seen scope.now) (payload_seen payload.now))) }
        ensures large { OnOk result (self.new.large ≡ (self.old.large || payload_is_large (payload_seen payload.now))) }
        ensures great { OnOk result (self.new.great ≡ (self.old.great || payload_is_great (payload_seen payload.now))) }
    {
        match payload {
            Payload::Lone(name) => {
                self.either(scope, name);
                Ok(())
            }
            Payload::One(expression) => self.expression(alloc, scope, expression),
        }
    }

    /// The source and the tag of a reception or of a probe.
    fn envelope(
        &mut self,
        alloc: Heap,
        scope: &Scope,
        source: &Pattern,
        tag: &Pattern,
    ) -> Result<(), AllocError>
        ensures declared { OnOk result (self.new.declared
            ≡ ((self.old.declared && pattern_declared (scope_seen scope.now) (pattern_of source.now))
            && pattern_declared (scope_seen scope.now) (pattern_of tag.now))) }
        ensures large { OnOk result (self.new.large
            ≡ ((self.old.large || pattern_is_large (pattern_of source.now)) || pattern_is_large (pattern_of tag.now))) }
        ensures great { OnOk result (self.new.great
            ≡ ((self.old.great || pattern_is_great (pattern_of source.now)) || pattern_is_great (pattern_of tag.now))) }
    {
        self.pattern(alloc, scope, source)?;
        self.pattern(alloc, scope, tag)
    }

    /// Root and buffer of a broadcast.
    fn broadcast(
        &mut self,
        alloc: Heap,
        scope: &Scope,
        root: &Written,
        buffer: &Name,
    ) -> Result<(), AllocError>
        ensures declared { OnOk result (self.new.declared
            ≡ ((self.old.declared && all_declared (scope_seen scope.now) (tree_of root.now))
            && is_declared (scope_seen scope.now) buffer.now)) }
        ensures large { OnOk result (self.new.large ≡ (self.old.large || is_large (tree_of root.now))) }
        ensures great { OnOk result (self.new.great ≡ (self.old.great || is_great (tree_of root.now))) }
    {
        self.expression(alloc, scope, root)?;
        self.either(scope, buffer);
        Ok(())
    }

    /// Root, value and variable of a reduce.
    fn reduction(
        &mut self,
        alloc: Heap,
        scope: &Scope,
        root: &Written,
        value: &Written,
        variable: &Name,
    ) -> Result<(), AllocError>
        ensures declared { OnOk result (self.new.declared
            ≡ (((self.old.declared && all_declared (scope_seen scope.now) (tree_of root.now))
            && all_declared (scope_seen scope.now) (tree_of value.now)) && is_variable (scope_seen scope.now) variable.now)) }
        ensures large { OnOk result (self.new.large
            ≡ ((self.old.large || is_large (tree_of root.now)) || is_large (tree_of value.now))) }
        ensures great { OnOk result (self.new.great
            ≡ ((self.old.great || is_great (tree_of root.now)) || is_great (tree_of value.now))) }
    {
        self.expression(alloc, scope, root)?;
        self.expression(alloc, scope, value)?;
        self.variable(scope, variable);
        Ok(())
    }

    /// The walk: a new form is added here.
    fn walk(&mut self, alloc: Heap, scope: &Scope, form: &Form) -> Result<(), AllocError>
        requires declared { self.old.declared ≡ true }
        requires large { self.old.large ≡ false }
        requires great { self.old.great ≡ false }
        ensures declared { OnOk result (self.new.declared ≡ declared_in (scope_seen scope.now) (form_seen form.now)) }
        ensures large { OnOk result (self.new.large ≡ has_large (form_seen form.now)) }
        ensures great { OnOk result (self.new.great ≡ has_great_number (form_seen form.now)) }
    {
        match form {
            Form::Var(_) | Form::Else | Form::End | Form::Barrier => Ok(()),
            Form::Array(_, length) => {
                self.great = *length > GREATEST;
                Ok(())
            }
            Form::Let(name, value) => {
                self.variable(scope, name);
                self.expression(alloc, scope, value)
            }
            Form::LetItem(name, index, value) => {
                self.array(scope, name);
                self.expression(alloc, scope, index)?;
                self.expression(alloc, scope, value)
            }
            Form::If(test) | Form::While(test) => self.expression(alloc, scope, test),
            Form::Send(destination, tag, payload) => {
                self.expression(alloc, scope, destination)?;
                self.expression(alloc, scope, tag)?;
                self.payload(alloc, scope, payload)
            }
            Form::Recv(source, tag, buffer) => {
                self.envelope(alloc, scope, source, tag)?;
                self.either(scope, buffer);
                Ok(())
            }
            Form::Probe(source, tag) => self.envelope(alloc, scope, source, tag),
            Form::TryProbe(source, tag, flag) => {
                self.envelope(alloc, scope, source, tag)?;
                self.variable(scope, flag);
                Ok(())
            }
            Form::Print(value) => self.expression(alloc, scope, value),
            Form::Bcast(root, buffer) => self.broadcast(alloc, scope, root, buffer),
            Form::Reduce(_, root, value, variable) => {
                self.reduction(alloc, scope, root, value, variable)
            }
        }
    }

    /// What is found in a statement's arguments.
    pub(crate) fn of(alloc: Heap, scope: &Scope, form: &Form) -> Result<Survey, AllocError>
        ensures declared { IfOk result (λ found. found.declared ≡ declared_in (scope_seen scope.now) (form_seen form.now)) }
        ensures large { IfOk result (λ found. found.large ≡ has_large (form_seen form.now)) }
        ensures great { IfOk result (λ found. found.great ≡ has_great_number (form_seen form.now)) }
    {
        let mut found = Survey {
            room: MOST_NODES,
            declared: true,
            large: false,
            great: false,
        };
        found.walk(alloc, scope, form)?;
        Ok(found)
    }
}
