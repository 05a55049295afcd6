//! What became of the lines of a script.

use crate::trace::due::last_due;
use crate::trace::given::Given;
use crash_free::Passed;
use limits::{Heap, MOST_RANKS, MOST_SCRIPT_LINES};
use rank_text::lines::{is_skipped, next_line};
use rank_text::script::{Order, ScriptLine};
use std::alloc::AllocError;
use std::num::NonZeroU32;

/// What became of a line of a script.
#[derive(Clone, Copy)]
pub enum Fate {
    /// Its rank crashed, or took its image.
    Used,
    /// Its rank made only so many acts.
    Short(usize),
    /// Its rank had the act in its image, and so didn't make it again.
    Behind,
    /// The act was made where no image is taken or no line was next, as in a replay.
    Passed,
    /// The line of this number stayed next.
    Held(usize),
}

/// A line of a script, and what became of it.
#[derive(Clone, Copy)]
pub struct Fated {
    /// The line's number in the text of the script, from 1.
    pub number: usize,
    pub line: ScriptLine,
    /// The clock of its rank's image by then; 0 where there is none.
    pub image: u32,
    pub fate: Fate,
}

impl Fated {
    /// Whether the line came to pass.
    pub fn is_used(&self) -> bool {
        match self.fate {
            Fate::Used => true,
            Fate::Short(_) | Fate::Behind | Fate::Passed | Fate::Held(_) => false,
        }
    }
}

// What is known of one rank's lines up to some line of the script.
#[derive(Clone, Copy)]
struct Seen {
    /// How many of them were used and aren't met yet.
    used: usize,
    /// The clock of the rank's image; 0 where there is none.
    image: u32,
    /// The number of the line that stayed next, if it is met.
    held: Option<usize>,
}

/// What became of each line of the script, in their order.
pub fn fates_of(
    alloc: Heap,
    given: Given<'_>,
    acts: &[Passed],
) -> Result<Vec<Fated, Heap>, AllocError> {
    let mut seen = seen_first(given);
    let mut fates: Vec<Fated, Heap> = Vec::new(alloc);
    let mut rest = given.script;
    let mut number = 0usize;
    for line in given.orders {
        let (lines, more) = behind_next(rest);
        number = number.saturating_add(lines);
        rest = more;
        if let Some(seen) = seen.get_mut(usize::from(line.rank)) {
            let made = made_by(acts, line.rank);
            fates.push(fate_of(number, *line, made, given.images_every, seen))?;
        }
    }
    Ok(fates)
}

// What is known before the first line.
fn seen_first(given: Given<'_>) -> [Seen; MOST_RANKS] {
    let mut seen = [Seen {
        used: 0,
        image: 0,
        held: None,
    }; MOST_RANKS];
    for rank in 0..MOST_RANKS {
        seen[rank].used = used_of(given, rank);
    }
    seen
}

// How many lines for the rank were used.
fn used_of(given: Given<'_>, rank: usize) -> usize {
    let mut lines = 0usize;
    for line in given.orders {
        if usize::from(line.rank) == rank {
            lines = lines.saturating_add(1);
        }
    }
    lines.saturating_sub(given.unused.get(rank).copied().unwrap_or(0))
}

// How many lines of a script there are up to the first that isn't skipped, and what is behind it.
fn behind_next(script: &[u8]) -> (usize, &[u8]) {
    let mut rest = script;
    let mut lines = 0usize;
    for _ in 0..MOST_SCRIPT_LINES {
        let Some((text, more)) = next_line(rest) else {
            break;
        };
        rest = more;
        lines = lines.saturating_add(1);
        if !is_skipped(text) {
            break;
        }
    }
    (lines, rest)
}

// How many acts the rank made.
fn made_by(acts: &[Passed], rank: u8) -> usize {
    let mut made = 0usize;
    for passed in acts {
        if passed.rank == rank {
            made = made.saturating_add(1);
        }
    }
    made
}

// What became of the rank's next line, where the rank made so many acts and took an image after each so many.
fn fate_of(
    number: usize,
    line: ScriptLine,
    made: usize,
    every: Option<NonZeroU32>,
    seen: &mut Seen,
) -> Fated {
    if seen.used > 0 && line.order == Order::Kill {
        seen.image = seen.image.max(last_due(every, line.clock));
    }
    let image = seen.image;
    let fate = if seen.used > 0 {
        seen.used -= 1;
        if line.order == Order::Image {
            seen.image = line.clock;
        }
        Fate::Used
    } else if let Some(held) = seen.held {
        Fate::Held(held)
    } else {
        seen.held = Some(number);
        unused(line, made, image)
    };
    Fated {
        number,
        line,
        image,
        fate,
    }
}

// Why the rank's next line wasn't used.
fn unused(line: ScriptLine, made: usize, image: u32) -> Fate {
    if line.clock as usize > made {
        Fate::Short(made)
    } else if line.clock <= image {
        Fate::Behind
    } else {
        Fate::Passed
    }
}
