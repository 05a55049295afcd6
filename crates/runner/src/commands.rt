//! The program: what its words ask for, what it writes, and its exit status.
//!
//! - 0: done, also for help; after `explore` all was looked at and each rank
//!   halts; after `judge` some run has the outcome; after `explain` there is no
//!   fault
//! - 1: after a run or a trace a rank isn't halted, or its run ends without a
//!   report, and after `soak` one of the runs is such a run; a run gives no
//!   events; a world isn't led to its end; after `explore` not all was looked
//!   at, or in some outcome a rank isn't halted; after `judge` no run has the
//!   outcome
//! - 2: the program, the script, the events or the outcome are refused, by
//!   `explain` too, or a file can't be read
//! - 3: the words are refused
//! - 4: there is no memory
//! - 5: standard output can't be written
ghost use Rattle.std.specs.Prelude.{◌≢◌, ◌≤◌, ℕ, List};
ghost use Rattle.std.specs.Io.KnownBytes.{Appends};
ghost use Rattle.command_line.specs.Words.{texts};
ghost use Rattle.runner.specs.Answers.{IsJobAnswer};
ghost use Rattle.runner.specs.Commands.{IsCommandAnswer};

mod answering;
mod apart;
mod c;
mod check;
mod determinism;
mod explain;
mod exploring;
mod finishing;
mod job;
mod judging;
mod lining;
mod reading;
mod refusal;
mod run;
mod safety;
mod said;
mod scheduling;
mod sending;
mod sent_lines;
mod soaking;
mod trace;
mod unreceived;
mod waiting;
mod world;
mod world_objects;

use crate::commands::answering::{tell, tell_no_job, tell_no_memory};
use crate::commands::job::work;
pub use crate::commands::refusal::Refusal;
use crate::files::Files;
use command_line::{Job, job_of};
use explore::{Unwatched, Watch};
use limits::Heap;
use std::io::Write;
use std::sync::Wait;
use std::thread::Threads;

/// Does what the words say, and answers the exit status. The first word is the
/// program's name. Unless the status is 5, an answer to the job that the words name
/// is written to `out`, whole, or what is said instead of a job: help, if a word asks for
/// it, and else nothing.
///
/// What goes to `out` is made whole before any of it is written. A write to
/// `err` that fails changes no status.
pub fn command<R: Threads + Wait + Sync + Copy + Send + AllocGlobal, F: Files, O: Write, E: Write>(
    rt: &R,
    alloc: Heap,
    words: &[String],
    files: &mut F,
    out: &mut O,
    err: &mut E,
) -> u8
    ensures known { result ≤ 5 }
    ensures answer { result ≢ 5 → (text : List ℕ) × Appends (O.contents out.old) (O.contents out.new) text
        × IsCommandAnswer (IsJobAnswer (F.holds files.old)) (texts words.now) text result }
{
    command_watched(rt, alloc, words, files, out, err, &mut Unwatched)
}

/// The same, where `watch` is told how far a search has come.
pub fn command_watched<
    R: Threads + Wait + Sync + Copy + Send + AllocGlobal,
    F: Files,
    O: Write,
    E: Write,
    W: Watch,
>(
    rt: &R,
    alloc: Heap,
    words: &[String],
    files: &mut F,
    out: &mut O,
    err: &mut E,
    watch: &mut W,
) -> u8
    ensures known { result ≤ 5 }
    ensures answer { result ≢ 5 → (text : List ℕ) × Appends (O.contents out.old) (O.contents out.new) text
        × IsCommandAnswer (IsJobAnswer (F.holds files.old)) (texts words.now) text result }
{
    match job_of(rt.alloc(), words) {
        Ok(job) => do_job(rt, alloc, job, files, out, err, watch),
        Err(no_job) => tell_no_job(alloc, &no_job, out, err),
    }
}

/// Does this job, and answers the exit status. Unless that is 5, an answer to the
/// job is written to `out`, whole.
#[tactic(auto, using(crate::proofs::Answers::nothing_written, crate::proofs::Answers::no_memory, crate::proofs::Answers::is_refused))]
pub fn do_job<R: Threads + Wait + Sync + Copy + Send, F: Files, O: Write, E: Write, W: Watch>(
    rt: &R,
    alloc: Heap,
    job: Job<'_>,
    files: &mut F,
    out: &mut O,
    err: &mut E,
    watch: &mut W,
) -> u8
    ensures known { result ≤ 5 }
    ensures answer { result ≢ 5 → (text : List ℕ) × Appends (O.contents out.old) (O.contents out.new) text
        × IsJobAnswer (F.holds files.old) job.entry text result }
{
    let said = match work(rt, alloc, job, files, watch) {
        Ok(said) => Ok(said),
        Err(refusal) => refusal.said(alloc),
    };
    match said {
        Ok(said) => tell(&said, out, err),
        Err(_) => tell_no_memory(err),
    }
}
