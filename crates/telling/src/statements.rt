//! Statements, one behind another.
ghost use Rattle.std.specs.Prelude.{◌≡◌, ◌++◌, ◌∷◌, OnOk, []};
ghost use Rattle.rank_text.specs.Checker.SeenLines.{forms_seen};
ghost use Rattle.rank_text.specs.Grammar.SeenForms.{form_seen};

use limits::Heap;
use rank_text::grammar::Form;
use std::alloc::AllocError;

/// Puts a statement behind the others.
#[tactic(auto, using(rank_text::proofs::CheckerLaws::ReadLaws::forms_push))]
pub(crate) fn put(forms: &mut Vec<Form, Heap>, form: Form) -> Result<(), AllocError>
    ensures { OnOk result (forms_seen forms.new.items ≡ forms_seen forms.old.items ++ form_seen form ∷ []) }
{
    forms.push(form)?;
    Ok(())
}
