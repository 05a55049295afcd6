//! The words of `explain`.
ghost use Rattle.std.specs.Prelude.{◌≤◌};
ghost use Rattle.limits.specs.Limits.{most_ranks};

use crate::argument::{Argument, ArgumentKind, CommandForm, FILE_OF, RANKS};
use crate::help;
use crate::range::Range;
use crate::syntax::PROGRAM;
use limits::MOST_RANKS;

/// The texts whose first fault is to be explained. The script is one for so many
/// ranks.
#[derive(Clone, Copy)]
pub struct ExplainJob<'a> {
    pub ranks: u8,
    pub program: &'a str,
    pub script: Option<&'a str>,
    pub events: Option<&'a str>,
    pub ghost few_ranks: { ranks ≤ most_ranks },
}

/// The form of the words.
pub const EXPLAIN: CommandForm = CommandForm {
    name: "explain",
    about: "Explains a text's first fault: where it is and what was expected",
    help: help::EXPLAIN,
    arguments: &[
        Argument {
            given: ArgumentKind::Number(RANKS_OR_MOST),
            is_required: false,
            ..RANKS
        },
        Argument {
            name: "script",
            help: "The script of a run of N ranks",
            with: Some("ranks"),
            ..FILE_OF
        },
        Argument {
            name: "events",
            help: "The events of a world",
            ..FILE_OF
        },
        PROGRAM,
    ],
};

/// Numbers of ranks, or the most that there may be. Without `--ranks` there is no script.
pub const RANKS_OR_MOST: Range = Range {
    least: 1,
    most: MOST_RANKS as u32,
    default: Some(MOST_RANKS as u32),
};
