//! What the lines so far have declared and opened.
ghost use Rattle.std.specs.Prelude.{◌≡◌, ◌∷◌, OnOk, OnErr};
ghost use Rattle.std.specs.Str.{bytes_eq};
ghost use Rattle.rank_text.specs.Grammar.Forms.{array_form, else_form, end_form, var_form};
ghost use Rattle.rank_text.specs.Grammar.SeenForms.{form_seen};
ghost use Rattle.rank_text.specs.Checker.Scope.{after, is_array, is_declared, is_variable, nothing_yet};
ghost use Rattle.rank_text.specs.Checker.SeenLines.{opened_seen, scope_seen};

use crate::grammar::{Form, Name};
use limits::Heap;
use std::alloc::AllocError;

/// An array and the number of its items.
#[derive(Clone, Copy)]
pub struct Array {
    pub name: Name,
    pub length: usize,
}

/// A block that is open: the first part of an `if`, the part after its `else`, or a `while`.
#[derive(Clone, Copy, PartialEq, Eq)]
pub(crate) enum Opened {
    If,
    Else,
    While,
}

/// The names in order of declaration, and the open blocks, the innermost last.
#[derive(Drop)]
pub(crate) struct Scope {
    pub(crate) variables: Vec<Name, Heap>,
    pub(crate) arrays: Vec<Array, Heap>,
    pub(crate) blocks: Vec<Opened, Heap>,
}

fn same(one: &Name, other: &Name) -> bool
    ensures { result ≡ bytes_eq one.now other.now }
{
    one.as_bytes() == other.as_bytes()
}

impl Scope {
    /// Nothing declared, nothing open.
    pub(crate) fn new(alloc: Heap) -> Scope
        ensures { scope_seen result ≡ nothing_yet }
    {
        Scope {
            variables: Vec::new(alloc),
            arrays: Vec::new(alloc),
            blocks: Vec::new(alloc),
        }
    }

    pub(crate) fn is_variable(&self, name: &Name) -> bool
        ensures { result ≡ is_variable (scope_seen self.now) name.now }
    {
        for variable in self.variables.as_slice() {
            if same(variable, name) {
                return true;
            }
        }
        false
    }

    pub(crate) fn is_array(&self, name: &Name) -> bool
        ensures { result ≡ is_array (scope_seen self.now) name.now }
    {
        for array in self.arrays.as_slice() {
            if same(&array.name, name) {
                return true;
            }
        }
        false
    }

    /// Whether the name is a variable or an array.
    pub(crate) fn is_declared(&self, name: &Name) -> bool
        ensures { result ≡ is_declared (scope_seen self.now) name.now }
    {
        self.is_variable(name) || self.is_array(name)
    }

    fn declare(&mut self, name: Name) -> Result<(), AllocError>
        ensures ok { OnOk result (scope_seen self.new ≡ after (scope_seen self.old) (var_form name)) }
        ensures err { OnErr result (scope_seen self.new ≡ scope_seen self.old) }
    {
        self.variables.push(name)?;
        Ok(())
    }

    #[tactic(auto, using(crate::proofs::CheckerLaws::ScopeLaws::arrays_push))]
    fn declare_array(&mut self, name: Name, length: u64) -> Result<(), AllocError>
        ensures ok { OnOk result (scope_seen self.new ≡ after (scope_seen self.old) (array_form name length)) }
        ensures err { OnErr result (scope_seen self.new ≡ scope_seen self.old) }
    {
        self.arrays.push(Array {
            name,
            length: length as usize,
        })?;
        Ok(())
    }

    #[tactic(auto, using(crate::proofs::CheckerLaws::ScopeLaws::blocks_push))]
    fn open(&mut self, block: Opened) -> Result<(), AllocError>
        ensures ok { OnOk result (scope_seen self.new
            ≡ record (scope_seen self.old) { blocks = opened_seen block ∷ (scope_seen self.old).blocks }) }
        ensures err { OnErr result (scope_seen self.new ≡ scope_seen self.old) }
    {
        self.blocks.push(block)?;
        Ok(())
    }

    #[tactic(auto, using(crate::proofs::CheckerLaws::ScopeLaws::blocks_turn, crate::proofs::CheckerLaws::ScopeLaws::blocks_none))]
    fn turn(&mut self)
        ensures { scope_seen self.new ≡ after (scope_seen self.old) else_form }
    {
        let length = self.blocks.len();
        if length > 0 {
            self.blocks[length - 1] = Opened::Else;
        }
    }

    #[tactic(auto, using(crate::proofs::CheckerLaws::ScopeLaws::blocks_pop))]
    fn close(&mut self)
        ensures { scope_seen self.new ≡ after (scope_seen self.old) end_form }
    {
        self.blocks.pop();
    }

    /// What a statement leaves.
    pub(crate) fn enter(&mut self, form: &Form) -> Result<(), AllocError>
        ensures ok { OnOk result (scope_seen self.new ≡ after (scope_seen self.old) (form_seen form.now)) }
        ensures err { OnErr result (scope_seen self.new ≡ scope_seen self.old) }
    {
        match form {
            Form::Var(name) => self.declare(*name),
            Form::Array(name, length) => self.declare_array(*name, *length),
            Form::If(_) => self.open(Opened::If),
            Form::While(_) => self.open(Opened::While),
            Form::Else => {
                self.turn();
                Ok(())
            }
            Form::End => {
                self.close();
                Ok(())
            }
            Form::Let(..) | Form::LetItem(..) => Ok(()),
            Form::Send(..) | Form::Recv(..) => Ok(()),
            Form::Probe(..) | Form::TryProbe(..) | Form::Print(_) => Ok(()),
            Form::Barrier | Form::Bcast(..) | Form::Reduce(..) => Ok(()),
        }
    }
}
