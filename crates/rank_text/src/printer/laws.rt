//! What the canonical text is by its definition, with nothing to compute.

ghost use Rattle.std.specs.Prelude.{◌≡◌, List};
ghost use Rattle.rank_text.specs.Grammar.Forms.{Form};
ghost use Rattle.rank_text.specs.Checker.Faults.{IsText};
ghost use Rattle.rank_text.specs.Checker.Scope.{IsWhole};
ghost use Rattle.rank_text.specs.Printer.Canonical.{AllCanonical, all_canonical, program_text};

/// A law, for proofs alone: the canonical text of statements that are a whole program's is a text of just these
/// statements.
pub fn law_reads_back()
    ensures { (fs : List Form) → IsWhole fs → AllCanonical fs → IsText (program_text fs) fs }
{}

/// A law, for proofs alone: what is printed of a whole program's statements is a text even where they aren't
/// canonical, one of the canonical statements in their place, which have the same text.
pub fn law_settles()
    ensures text { (fs : List Form) → IsWhole fs → IsText (program_text fs) (all_canonical fs) }
    ensures same { (fs : List Form) → program_text (all_canonical fs) ≡ program_text fs }
    ensures whole { (fs : List Form) → IsWhole fs → IsWhole (all_canonical fs) }
    ensures canonical { (fs : List Form) → AllCanonical (all_canonical fs) }
{}
