//! How many images of a script were taken.
use limits::{Heap, MOST_RANKS};
use rank_text::script::{Order, Script, ScriptLine};
use std::alloc::AllocError;

/// How many images of the script were taken, if so many lines of each rank, its
/// last ones, weren't used. An `Err` means out of memory.
pub fn images_used(alloc: Heap, script: &Script, unused: &[usize]) -> Result<u64, AllocError> {
    let mut images = 0u64;
    for rank in 0..unused.len().min(MOST_RANKS) {
        let lines = script.lines_of(alloc, rank as u8)?;
        let used = lines.len().saturating_sub(unused[rank]);
        images = images.saturating_add(images_in(&lines[..used]));
    }
    Ok(images)
}

fn images_in(lines: &[ScriptLine]) -> u64 {
    let mut images = 0u64;
    for line in lines {
        if line.order == Order::Image {
            images = images.saturating_add(1);
        }
    }
    images
}
