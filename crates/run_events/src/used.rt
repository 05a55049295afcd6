//! The lines of a script that a run used.
ghost use Rattle.std.specs.Prelude.{◌≡◌, IfOk};
ghost use Rattle.rank_text.specs.Scripts.Script.{orders_of};
ghost use Rattle.run_events.specs.Scripted.{used_lines};

use limits::Heap;
use rank_text::script::ScriptLine;
use std::alloc::AllocError;

/// The lines for a rank that were used, in their order: all but the last ones,
/// so many of which the run left unused. An `Err` means out of memory.
pub fn used_lines(
    alloc: Heap,
    script: &[ScriptLine],
    unused: &[usize],
    rank: u8,
) -> Result<Vec<ScriptLine, Heap>, AllocError>
    ensures { IfOk result (λ lines. lines.items ≡ used_lines script.now unused.now rank) }
{
    let mut lines = lines_of(alloc, script, rank)?;
    let left = match unused.get(usize::from(rank)) {
        Some(left) => *left,
        None => 0,
    };
    let used = lines.len().saturating_sub(left);
    lines.truncate(used);
    Ok(lines)
}

// The lines for a rank, in their order.
fn lines_of(
    alloc: Heap,
    script: &[ScriptLine],
    rank: u8,
) -> Result<Vec<ScriptLine, Heap>, AllocError>
    ensures { IfOk result (λ lines. lines.items ≡ orders_of rank script.now) }
{
    let mut lines = Vec::new(alloc);
    let mut rest = script;
    while let [line, more @ ..] = rest {
        if line.rank == rank {
            lines.push(*line)?;
        }
        rest = more;
    }
    Ok(lines)
}
