//! What is seen of the outcome of a run.
ghost use Rattle.std.specs.Prelude.{◌≡◌, ℕ, ℤ, IfOk, map};
ghost use Rattle.audit.specs.Outcome.{lines_of};
ghost use Rattle.audit.specs.FinalRuns.Final.{seen_of};
ghost use Rattle.outcomes.specs.Soak.Seen.{seen_one};

use audit::final_runs::RankEnd;
use audit::{End, Outcome};
use limits::Heap;
use matching::Line;
use std::alloc::AllocError;

/// What is seen of each rank: what it printed, and how it ended. An `Err`
/// means out of memory.
pub fn seen_of(alloc: Heap, outcome: &Outcome) -> Result<Vec<RankEnd, Heap>, AllocError>
    ensures { IfOk result (λ seen. seen.items ≡ seen_of outcome.now) }
{
    let mut seen = Vec::new(alloc);
    let mut rank = 0usize;
    let mut rest = outcome.ends.as_slice();
    while let [end, more @ ..] = rest {
        seen.push(seen_one(alloc, outcome.lines.as_slice(), rank, *end)?)?;
        rank += 1;
        rest = more;
    }
    Ok(seen)
}

// What is seen of the rank of this number, which ended so.
fn seen_one(alloc: Heap, lines: &[Line], rank: usize, end: End) -> Result<RankEnd, AllocError>
    ensures { IfOk result (λ seen. seen ≡ seen_one rank lines.now end) }
{
    let lines = values_of(alloc, lines, rank)?;
    Ok(RankEnd { lines, end })
}

// What a rank printed, in order.
fn values_of(alloc: Heap, lines: &[Line], rank: usize) -> Result<Vec<i64, Heap>, AllocError>
    ensures { IfOk result (λ values. values.items ≡ map (λ (line : ℕ × ℤ). line.1) (lines_of rank lines.now)) }
{
    let mut values = Vec::new(alloc);
    let mut rest = lines;
    while let [line, more @ ..] = rest {
        if usize::from(line.rank) == rank {
            values.push(line.value)?;
        }
        rest = more;
    }
    Ok(values)
}
