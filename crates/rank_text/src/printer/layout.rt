//! How statements are indented.

ghost use Rattle.std.specs.Prelude.{◌≡◌, ◌+◌, ◌<◌, ◌^◌};
ghost use Rattle.rank_text.specs.Grammar.SeenForms.{form_seen};
ghost use Rattle.rank_text.specs.Printer.Canonical.{depth_after, depth_of};

use crate::grammar::Form;

/// How far a statement is indented, where this many blocks are open.
pub fn depth_of(depth: usize, form: &Form) -> usize
    ensures { result ≡ depth_of depth (form_seen form.now) }
{
    match form {
        Form::Else | Form::End => depth.saturating_sub(1),
        Form::Var(_) | Form::Array(..) | Form::Let(..) | Form::LetItem(..) => depth,
        Form::If(_) | Form::While(_) => depth,
        Form::Send(..) | Form::Recv(..) => depth,
        Form::Probe(..) | Form::TryProbe(..) | Form::Print(_) => depth,
        Form::Barrier | Form::Bcast(..) | Form::Reduce(..) => depth,
    }
}

/// How many blocks are open after a statement.
pub fn depth_after(depth: usize, form: &Form) -> usize
    requires { depth + 1 < 2 ^ 64 }
    ensures { result ≡ depth_after depth (form_seen form.now) }
{
    match form {
        Form::If(_) | Form::While(_) => depth + 1,
        Form::Else => depth,
        Form::End => depth.saturating_sub(1),
        Form::Var(_) | Form::Array(..) | Form::Let(..) | Form::LetItem(..) => depth,
        Form::Send(..) | Form::Recv(..) => depth,
        Form::Probe(..) | Form::TryProbe(..) | Form::Print(_) => depth,
        Form::Barrier | Form::Bcast(..) | Form::Reduce(..) => depth,
    }
}
