//! The name that may be added to a program's own.
ghost use Rattle.std.specs.Prelude.{◌≡◌, ◌≤◌, ℕ, true, false, codes, IfSome, None, length};
ghost use Rattle.rank_text.specs.Checker.SeenLines.{forms_seen};
ghost use Rattle.rank_text.specs.Grammar.SeenForms.{form_seen};
ghost use Rattle.telling.specs.Free.{HasFreeName, HasNoneFree, IsDigit, declares_name, is_declared, is_taken, numbered};

use crate::added::Added;
use rank_text::grammar::{Form, Name};

fn declares_name(name: &Name, form: &Form) -> bool
    ensures { result ≡ declares_name name.now (form_seen form.now) }
{
    match form {
        Form::Var(other) | Form::Array(other, _) => other.as_bytes() == name.as_bytes(),
        Form::Let(..) | Form::LetItem(..) | Form::Send(..) => false,
        Form::If(_) | Form::Else | Form::End | Form::While(_) | Form::Print(_) => false,
        Form::Recv(..) | Form::Probe(..) | Form::TryProbe(..) => false,
        Form::Barrier | Form::Bcast(..) | Form::Reduce(..) => false,
    }
}

fn is_declared(name: &Name, forms: &[Form]) -> bool
    ensures { result ≡ is_declared name.now (forms_seen forms.now) }
{
    let mut left = forms;
    while let [form, more @ ..] = left {
        if declares_name(name, form) {
            return true;
        }
        left = more;
    }
    false
}

fn numbered(name: &[u8], tens: u8, ones: u8) -> Name
    requires { length name.now ≤ 15 }
    ensures { result ≡ numbered name.now tens ones }
{
    Name::new(name).with(tens).with(ones)
}

fn is_taken(tens: u8, ones: u8, forms: &[Form]) -> bool
    ensures { result ≡ is_taken tens ones (forms_seen forms.now) }
{
    is_declared(&numbered(b"reply_", tens, ones), forms)
}

/// The first second digit with which no name is taken.
#[tactic(auto, using(crate::proofs::Finding::one_more, crate::proofs::Finding::all_digits))]
fn free_ones(tens: u8, forms: &[Form]) -> Option<u8>
    ensures digit { IfSome result (λ ones. IsDigit ones) }
    ensures free { IfSome result (λ ones. is_taken tens ones (forms_seen forms.now) ≡ false) }
    ensures none { result ≡ None → (ones : ℕ) → IsDigit ones → is_taken tens ones (forms_seen forms.now) ≡ true }
{
    let mut ones = b'0';
    while ones <= b'9' {
        if !is_taken(tens, ones, forms) {
            return Some(ones);
        }
        ones += 1;
    }
    None
}

fn name_with(tens: u8, ones: u8) -> Added
    ensures { result.reply ≡ numbered (codes "reply_") tens ones }
{
    Added {
        reply: numbered(b"reply_", tens, ones),
    }
}

/// The first name that isn't declared.
#[tactic(auto, using(crate::proofs::Finding::has_free_name, crate::proofs::Finding::tens_more, crate::proofs::Finding::all_names))]
pub(crate) fn free_name(forms: &[Form]) -> Option<Added>
    ensures name { IfSome result (λ added. HasFreeName (forms_seen forms.now) added) }
    ensures none { result ≡ None → HasNoneFree (forms_seen forms.now) }
{
    let mut tens = b'0';
    while tens <= b'9' {
        if let Some(ones) = free_ones(tens, forms) {
            return Some(name_with(tens, ones));
        }
        tens += 1;
    }
    None
}
