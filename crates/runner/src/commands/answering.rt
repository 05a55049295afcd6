//! What is said, written to the program's streams.
ghost use Rattle.std.specs.Prelude.{◌≡◌, ◌≢◌, ◌≤◌, ℕ, List, IfOk, OnOk, string_bytes};
ghost use Rattle.std.specs.Io.KnownBytes.{Appends};
ghost use Rattle.command_line.specs.Requests.{IsAsked};
ghost use Rattle.runner.specs.Commands.{IsWithoutJob};
ghost use Rattle.runner.specs.Statuses.{status_without_job, help_in, mistake_in};

use crate::commands::said::Said;
use command_line::NoJob;
use limits::Heap;
use std::alloc::AllocError;
use std::io::Write;

/// Writes what is said, and answers its exit status. It goes to standard output
/// whole, or the status is 5.
pub fn tell<O: Write, E: Write>(said: &Said, out: &mut O, err: &mut E) -> u8
    ensures status { result ≢ 5 → result ≡ said.now.status }
    ensures out { result ≢ 5 → Appends (O.contents out.old) (O.contents out.new) said.now.out.items }
    ensures known { result ≤ 5 }
{
    if write_whole(out, said.out.as_slice()).is_err() {
        return 5;
    }
    let _ = write_whole(err, said.err.as_bytes());
    said.status
}

/// Says that there is no memory, and answers the exit status.
pub fn tell_no_memory<E: Write>(err: &mut E) -> u8
    ensures { result ≡ 4 }
{
    let _ = write_whole(err, b"out of memory\n");
    4
}

/// Writes the help that the words ask for, or what is wrong with them, and answers
/// the exit status. A help has to be asked for.
#[tactic(auto, using(crate::proofs::Answers::nothing_written, crate::proofs::CommandAnswers::is_without_job, crate::proofs::CommandAnswers::without_memory))]
pub fn tell_no_job<O: Write, E: Write>(alloc: Heap, no_job: &NoJob, out: &mut O, err: &mut E) -> u8
    ensures known { result ≤ 5 }
    ensures answer { (words : List (List ℕ)) → IsAsked words no_job.now → result ≢ 5
        → (text : List ℕ) × Appends (O.contents out.old) (O.contents out.new) text × IsWithoutJob words text result }
{
    match refuse(alloc, no_job) {
        Ok(said) => tell(&said, out, err),
        Err(_) => tell_no_memory(err),
    }
}

// What isn't flushed isn't written: a stream may keep what it takes.
fn write_whole<W: Write>(to: &mut W, text: &[u8]) -> std::io::Result<()>
    ensures { OnOk result (Appends (W.contents to.old) (W.contents to.new) text.now) }
{
    if text.is_empty() {
        return Ok(());
    }
    to.write_all(text)?;
    to.flush()
}

// Help goes to standard output with status 0, a mistake in the words to standard error with status 3.
fn refuse(alloc: Heap, no_job: &NoJob) -> Result<Said, AllocError>
    ensures status { IfOk result (λ said. said.status ≡ status_without_job no_job.now) }
    ensures out { IfOk result (λ said. said.out.items ≡ help_in no_job.now) }
    ensures err { IfOk result (λ said. string_bytes said.err ≡ mistake_in no_job.now) }
{
    match no_job {
        NoJob::Help(text) => {
            let text = String::from_str(alloc, text.as_str())?;
            Ok(Said::answer(alloc, 0, text.into_bytes()))
        }
        NoJob::Mistake(text) => {
            let text = String::from_str(alloc, text.as_str())?;
            Ok(Said::refusal(alloc, 3, text))
        }
        NoJob::Memory => Err(AllocError),
    }
}
