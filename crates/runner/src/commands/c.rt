//! A program as a C program for MPI.
ghost use Rattle.std.specs.Prelude.{IfErr, IfOk};
ghost use Rattle.runner.specs.Reasons.{IsProgramRefusal, UnlessMemory};
ghost use Rattle.runner.specs.Translations.{IsCAnswer};

use crate::commands::reading::text_in;
use crate::commands::refusal::Refusal;
use crate::commands::said::Said;
use crate::files::Files;
use c_program::c_text;
use command_line::CJob;
use limits::Heap;

/// The C text of the job's program.
#[tactic(auto, using(crate::proofs::Tools::is_c_answer, crate::proofs::Reasons::unread, crate::proofs::Reasons::faulty_program))]
pub fn translated<'a, F: Files>(
    alloc: Heap,
    job: CJob<'a>,
    files: &mut F,
) -> Result<Said, Refusal<'a>>
    ensures answer { IfOk result (λ said. IsCAnswer (F.holds files.old job.entry.program.now) job.entry.synchronous said.out.items said.status) }
    ensures refused { IfErr result (UnlessMemory (IsProgramRefusal (F.holds files.old) job.entry.program)) }
{
    let text = text_in(job.program, files)?;
    match c_text(alloc, job.synchronous, text.as_slice()) {
        Ok(c) => Ok(Said::answer(alloc, 0, c)),
        Err(fault) => Err(Refusal::from(fault)),
    }
}
