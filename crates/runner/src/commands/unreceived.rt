//! What was never received in a run.
ghost use Rattle.std.specs.Prelude.{◌≡◌, ◌≤◌, IfOk, length, string_bytes};
ghost use Rattle.limits.specs.Limits.{most_ranks};
ghost use Rattle.runner.specs.Unreceived.{TellsSent};

use crate::commands::sent_lines::lined_left;
use crate::explored::print_left;
use crash_free::Sim;
use limits::Heap;
use rank_language::LinedProgram;
use std::alloc::AllocError;

/// A line for those messages that are alike and stand one after another, of a run
/// of the program. An `Err` means out of memory.
pub fn left_text(
    alloc: Heap,
    lined: &LinedProgram,
    ranks: u8,
    run: &Sim<'_>,
) -> Result<String<Heap>, AllocError>
    requires some { 1 ≤ ranks }
    requires few { ranks ≤ most_ranks }
    requires size { length run.now.machines ≡ ranks }
    ensures { IfOk result (λ text. TellsSent lined.now.program ranks lined.now.lines.items run.now.run (string_bytes text)) }
{
    let left = lined_left(alloc, &lined.program, ranks, lined.lines.as_slice(), run)?;
    let mut text = String::new(alloc);
    print_left(&mut text, "", left.messages.as_slice())?;
    Ok(text)
}
