//! What a text is by its definition, with nothing to compute.
ghost use Rattle.std.specs.Prelude.{◌≡◌, List, ℕ};
ghost use Rattle.std.proofs.Common.{◌⊎◌};
ghost use Rattle.rank_text.specs.Grammar.Forms.{Form};
ghost use Rattle.rank_text.specs.declared.checker.fault.FaultKind.{FaultKind};
ghost use Rattle.rank_text.specs.Checker.Faults.{IsFaultOf, IsText};

/// A law, for proofs alone: each text is a program or has a first fault, and none is both.
pub fn law_program_or_fault()
    ensures never_both { (text : List ℕ) (fs : List Form) (line : ℕ) (kind : FaultKind)
        → IsText text fs → IsFaultOf text line kind → ⊥ }
    ensures always_one { (text : List ℕ) → ((fs : List Form) × IsText text fs)
        ⊎ ((line : ℕ) × (kind : FaultKind) × IsFaultOf text line kind) }
{}

/// A law, for proofs alone: a text has one list of statements, or one first fault.
pub fn law_one_reading()
    ensures program { (text : List ℕ) (fs gs : List Form) → IsText text fs → IsText text gs → fs ≡ gs }
    ensures fault { (text : List ℕ) (m n : ℕ) (kind other : FaultKind)
        → IsFaultOf text m kind → IsFaultOf text n other → (m ≡ n) × (kind ≡ other) }
{}
