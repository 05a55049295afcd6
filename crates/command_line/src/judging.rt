//! The words of `judge`.
ghost use Rattle.std.specs.Prelude.{◌≤◌};
ghost use Rattle.limits.specs.Limits.{most_ranks};

use crate::argument::{Argument, ArgumentKind, CommandForm, FILE, FLAG, NUMBER, RANKS};
use crate::help;
use crate::range::{MOST, ShownRange, shown};
use crate::syntax::PROGRAM;

/// One outcome that is judged: whether some run of the program without crashes
/// has it, in which no rank makes more than so many steps. With `trace` that run
/// is told.
#[derive(Clone, Copy)]
pub struct JudgeJob<'a> {
    pub ranks: u8,
    pub steps: u32,
    pub trace: bool,
    pub program: &'a str,
    pub outcome: &'a str,
    pub ghost some_rank: { 1 ≤ ranks },
    pub ghost few_ranks: { ranks ≤ most_ranks },
}

/// The form of the words.
pub const JUDGE: CommandForm = CommandForm {
    name: "judge",
    about: "Says whether some run without crashes has an outcome",
    help: help::JUDGE,
    arguments: &[
        RANKS,
        Argument {
            name: "steps",
            value: "S",
            help: "Steps a rank may make, 1 to 1000000000",
            given: ArgumentKind::Shown(STEPS_RANGE),
            ..NUMBER
        },
        Argument {
            name: "trace",
            help: "Prints a run that has the outcome, too",
            ..FLAG
        },
        PROGRAM,
        Argument {
            name: "outcome",
            value: "OUTCOME",
            help: "The file of the outcome (below)",
            ..FILE
        },
    ],
};

/// The numbers of `--steps`.
pub const STEPS_RANGE: ShownRange = shown!(1, MOST, 1000000);
