//! What holds of the statements that remain in every program, where it begins and where it ends.
ghost use Rattle.std.specs.Prelude.{◌≡◌, ℕ, List, ◌↔◌, None, false};
ghost use Rattle.rank_text.specs.Grammar.Forms.{Form};
ghost use Rattle.rank_text.specs.Checker.Scope.{Scope, after, declared_in};
ghost use Rattle.rank_text.specs.declared.checker.fault.FaultKind.{FaultKind};
ghost use Rattle.rank_text.specs.Checker.Faults.{IsFaultOf};
ghost use Rattle.rank_language.specs.Correct.{IsProgramOf};
ghost use Rattle.rank_language.specs.Resolved.{form_resolved};
ghost use Rattle.rank_language.specs.Block.{size, remaining, done};
ghost use Rattle.rank_language.specs.Program.{ProgramValue, block_of};

use crate::program::Program;

/// A law, for proofs alone: at position 0 the whole program remains.
#[tactic(auto, using(crate::proofs::Places::begins_there))]
pub fn law_begins_there(program: &Program)
    ensures { remaining (block_of program.now) 0 ≡ block_of program.now }
{}

/// A law, for proofs alone: behind the last statement nothing remains.
#[tactic(auto, using(crate::proofs::Places::ends_there))]
pub fn law_ends_there(program: &Program)
    ensures { remaining (block_of program.now) (size (block_of program.now)) ≡ done }
{}

/// A law, for proofs alone: a statement resolves, by the tables that it leaves, exactly where each name in it is
/// declared in the sort that is used there.
#[tactic(auto, using(crate::proofs::Declared::undeclared_unresolved))]
pub fn law_resolved_where_declared()
    ensures { (s : Scope) (f : Form)
        → (form_resolved (after s f) f ≡ None) ↔ (declared_in s f ≡ false) }
{}

/// A law, for proofs alone: a text has one program at the most, and none where it has a fault.
pub fn law_one_program()
    ensures one { (text : List ℕ) (p q : ProgramValue)
        → IsProgramOf text p → IsProgramOf text q → p ≡ q }
    ensures no_fault { (text : List ℕ) (p : ProgramValue) (line : ℕ) (kind : FaultKind)
        → IsProgramOf text p → IsFaultOf text line kind → ⊥ }
{}
