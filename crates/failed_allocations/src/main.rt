//! Calls that may be refused their memory, each made once more where it was.
//!
//! What is printed is the same whichever one allocation was refused, or none:
//! of each call its answer, and what can be seen of the value then. Where a
//! refusal left another value than there was before, a line says so. Refused
//! twice, a call ends what is printed, and the status is 4.
#![tactic(auto)]

mod again;
mod audits;
mod desks;
mod images;
mod inboxes;
mod lanes;
mod lists;
mod logs;
mod machines;
mod out;
mod ranks;
mod replays;
mod rows;
mod sims;
mod words;
mod worlds;

use crate::out::Out;
use crate::rows::{ROWS, Row};
use std::process::ExitCode;

fn play_all(out: &mut Out) {
    words::play(out);
    inboxes::play(out);
    logs::play(out);
    machines::play(out);
    lanes::play(out);
    desks::play(out);
    ranks::play(out);
    sims::play(out);
    audits::play(out);
    play_rows(out, &ROWS);
}

fn play_rows(out: &mut Out, rows: &[Row]) {
    worlds::play_all(out, rows);
    lists::play_all(out, rows);
}

fn main(rt: HostRuntime) -> ExitCode {
    let mut out = Out::new(rt.alloc());
    play_all(&mut out);
    let is_written = rt.write_all(out.text.as_bytes()).is_ok();
    let _ = eprint!(rt; "{}", out.errors);
    if !is_written {
        return ExitCode::from(5);
    }
    if out.lacks {
        let _ = eprintln!(rt; "out of memory");
        return ExitCode::from(4);
    }
    ExitCode::from(0)
}
