//! A small runner on `rank_node`: two ranks of one program, on one thread.
//! Rank 1 takes an image of itself, crashes later on, and comes back by replay.
#![tactic(auto)]

mod around;
mod failure;
mod gate;
mod rank;
mod runner;

use crate::failure::Failure;
use crate::runner::Runner;
use rank_language::Program;
use std::process::ExitCode;

/// Rank 1 has three numbers multiplied by rank 0, prints each product, and last how often it asked whether one was there.
const TEXT: &[u8] = b"var n
var there
var asked
var x
if rank == 0
  while n < 3
    recv 1, 1, x
    send 1, 7, x * 10
    let n = n + 1
  end
else
  while n < 3
    send 0, 1, n + 4
    let there = 0
    while there == 0
      iprobe 0, 7, there
      let asked = asked + 1
    end
    recv 0, 7, x
    print x
    let n = n + 1
  end
  print asked
end
";

fn main(rt: HostRuntime) -> ExitCode {
    match play(&rt) {
        Ok(()) => ExitCode::from(0),
        Err(failure) => {
            let (status, words) = failure.told();
            let _ = eprintln!(&rt; "{words}");
            ExitCode::from(status)
        }
    }
}

fn play<R: AllocGlobal + Print>(rt: &R) -> Result<(), Failure> {
    let program = Program::parse(rt.alloc(), TEXT)?;
    let mut runner = Runner::new(rt.alloc(), &program)?;
    let played = runner.play(rt);
    let told = runner.tell(rt);
    runner.end();
    played?;
    Ok(told?)
}
