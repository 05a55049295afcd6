//! Whether a program has probes that don't wait.
ghost use Rattle.std.specs.Prelude.{◌≡◌, ℕ, true, false, slice_get};
ghost use Rattle.rank_language.specs.Seen.{line_of};
ghost use Rattle.explore.specs.Shown.{HasTryProbe, NeverMissesShown, is_try_in, is_try_line};

use rank_language::{Program, Statement};

/// Whether a rank of the program may miss: it has a probe that doesn't wait (MPI 1.1, section 3.8).
#[tactic(auto, using(crate::proofs::Untried::never_missed))]
pub fn may_miss(program: &Program) -> bool
    ensures yes { result ≡ true → HasTryProbe program.now.statements }
    ensures no { result ≡ false → (n : ℕ) → NeverMissesShown program.now n }
{
    program.law_lines();
    for position in 0..program.len() {
        if is_try_at(program, position) {
            return true;
        }
    }
    false
}

// Whether one stands at the position.
fn is_try_at(program: &Program, position: usize) -> bool
    ensures { result ≡ is_try_in (slice_get program.now.statements position) }
{
    match program.statement(position) {
        Some(statement) => is_try(statement),
        None => false,
    }
}

fn is_try(statement: &Statement) -> bool
    ensures { result ≡ is_try_line (line_of statement.now) }
{
    match statement {
        Statement::TryProbe { .. } => true,
        Statement::Declare(_) | Statement::DeclareArray(_) => false,
        Statement::Assign(..) | Statement::AssignItem(..) => false,
        Statement::If(..) | Statement::Else(_) | Statement::EndIf => false,
        Statement::While(..) | Statement::EndWhile(_) => false,
        Statement::Send { .. } | Statement::Receive { .. } | Statement::Probe { .. } => false,
        Statement::Print(_) | Statement::Collect(_) => false,
    }
}
