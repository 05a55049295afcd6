//! What every other crate takes: the limits of the project,
//! as code counts with them, and the name of the memory.
//!
//! Definitions and contracts cite `specs/Limits.antt`; `law_limits` says that
//! both have the same numbers, so a wrong one here is no proof anywhere.
//!
//! Each type and each signature that allocates names `Heap`, so that what
//! stands behind it can be changed in this one place; not so where arguments
//! and files are read.
#![tactic(auto)]

ghost use Rattle.std.specs.Prelude.{◌≡◌};
ghost use Rattle.limits.specs.Limits.{most_ranks, most_ranks_of_format_1, most_lines, most_line_bytes, most_blocks};
ghost use Rattle.limits.specs.Limits.{most_variables, most_arrays, most_name_bytes, most_nodes, most_parentheses};
ghost use Rattle.limits.specs.Limits.{most_items, most_collective_items, greatest_tag, greatest_clock};
ghost use Rattle.limits.specs.Limits.{greatest_sender, most_events, most_effects, most_frames, most_script_lines};
ghost use Rattle.limits.specs.Limits.{most_event_lines};

use std::alloc::Global;

/// The allocator of the workspace.
pub type Heap = Global;

/// The most ranks of a run.
pub const MOST_RANKS: usize = 16;

/// The most ranks of a run whose images are of format 1.
pub const MOST_RANKS_OF_FORMAT_1: usize = 8;

/// The most lines of a program's text.
pub const MOST_LINES: usize = 1000;

/// The most bytes of a line of a program's text.
pub const MOST_LINE_BYTES: usize = 8192;

/// The most blocks that are open at once.
pub const MOST_BLOCKS: usize = 32;

/// The most variables of a program.
pub const MOST_VARIABLES: usize = 64;

/// The most arrays of a program.
pub const MOST_ARRAYS: usize = 16;

/// The most bytes of a name.
pub const MOST_NAME_BYTES: usize = 16;

/// The most nodes of an expression.
pub const MOST_NODES: usize = 64;

/// The most parentheses that are open at once in a line.
pub const MOST_PARENTHESES: usize = 64;

/// The most items of an array, and of a message between two ranks.
pub const MOST_ITEMS: usize = 256;

/// The most items of a collective's packet.
pub const MOST_COLLECTIVE_ITEMS: usize = 259;

/// The greatest tag.
pub const GREATEST_TAG: u16 = 32767;

/// The greatest clock of a rank, and the greatest number of a message among those of its pair of ranks.
pub const GREATEST_CLOCK: u32 = 268_435_455;

/// The greatest sender that an event can name.
pub const GREATEST_SENDER: u8 = 15;

/// The most events of one rank.
pub const MOST_EVENTS: usize = 4096;

/// The most sends and lines of one rank that wait at its gate.
pub const MOST_EFFECTS: usize = 64;

/// The most frames that a lane between two ranks holds.
pub const MOST_FRAMES: usize = 64;

/// The most lines of a script.
pub const MOST_SCRIPT_LINES: usize = 256;

/// The most lines of a text of a world's events.
pub const MOST_EVENT_LINES: usize = 100_000;

/// A law: the numbers of code are those of the definitions.
pub fn law_limits()
    ensures ranks { MOST_RANKS ≡ most_ranks }
    ensures ranks_of_format_1 { MOST_RANKS_OF_FORMAT_1 ≡ most_ranks_of_format_1 }
    ensures lines { MOST_LINES ≡ most_lines }
    ensures line_bytes { MOST_LINE_BYTES ≡ most_line_bytes }
    ensures blocks { MOST_BLOCKS ≡ most_blocks }
    ensures variables { MOST_VARIABLES ≡ most_variables }
    ensures arrays { MOST_ARRAYS ≡ most_arrays }
    ensures name_bytes { MOST_NAME_BYTES ≡ most_name_bytes }
    ensures nodes { MOST_NODES ≡ most_nodes }
    ensures parentheses { MOST_PARENTHESES ≡ most_parentheses }
    ensures items { MOST_ITEMS ≡ most_items }
    ensures collective_items { MOST_COLLECTIVE_ITEMS ≡ most_collective_items }
    ensures tag { GREATEST_TAG ≡ greatest_tag }
    ensures clock { GREATEST_CLOCK ≡ greatest_clock }
    ensures sender { GREATEST_SENDER ≡ greatest_sender }
    ensures events { MOST_EVENTS ≡ most_events }
    ensures effects { MOST_EFFECTS ≡ most_effects }
    ensures frames { MOST_FRAMES ≡ most_frames }
    ensures script_lines { MOST_SCRIPT_LINES ≡ most_script_lines }
    ensures event_lines { MOST_EVENT_LINES ≡ most_event_lines }
{}
