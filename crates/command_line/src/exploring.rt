//! The words of `explore`.
ghost use Rattle.std.specs.Prelude.{◌≤◌};
ghost use Rattle.limits.specs.Limits.{most_ranks};

use crate::argument::{Argument, ArgumentKind, CommandForm, FLAG, NUMBER, RANKS};
use crate::help;
use crate::range::{MOST, ShownRange, shown};
use crate::syntax::{PROGRAM, SYNCHRONOUS};

/// In which form the outcomes are printed.
#[derive(Clone, Copy)]
pub enum ExploreForm {
    /// Each outcome, and what all of it means.
    Text,
    /// Which receives and probes had several answers, and what the outcomes mean.
    Summary,
    /// JSON, one object.
    Json,
    /// A run of the outcome of this number, from 1, as events of a world.
    Events(u32),
}

/// One program, all outcomes of which are looked for, in so many runs of so many
/// steps of each rank, with so many states kept.
#[derive(Clone, Copy)]
pub struct ExploreJob<'a> {
    pub ranks: u8,
    pub runs: u32,
    pub steps: u32,
    pub states: u32,
    pub form: ExploreForm,
    /// Whether each send waits until its message is received.
    pub synchronous: bool,
    pub program: &'a str,
    pub ghost some_rank: { 1 ≤ ranks },
    pub ghost few_ranks: { ranks ≤ most_ranks },
}

/// The form of the words.
pub const EXPLORE: CommandForm = CommandForm {
    name: "explore",
    about: "Finds every outcome that a program can have, whatever the order",
    help: help::EXPLORE,
    arguments: &[
        RANKS,
        Argument {
            name: "runs",
            value: "M",
            help: "Runs looked at, 1 to 1000000000",
            given: ArgumentKind::Shown(RUNS_RANGE),
            ..NUMBER
        },
        Argument {
            name: "steps",
            value: "S",
            help: "Steps of a rank in a run, 1 to 1000000000",
            given: ArgumentKind::Shown(STEPS_RANGE),
            ..NUMBER
        },
        Argument {
            name: "states",
            value: "K",
            help: "States kept to merge, 1 to 1000000000",
            given: ArgumentKind::Shown(STATES_RANGE),
            ..NUMBER
        },
        Argument {
            name: "summary",
            help: "Prints which receives raced, and what outcomes mean",
            ..FLAG
        },
        Argument {
            name: "json",
            help: "Prints all of it as JSON, one object",
            without: &["summary"],
            ..FLAG
        },
        Argument {
            name: "events",
            value: "K",
            help: "Prints a run of outcome K as events, for `ftmpi world`",
            without: &["summary", "json", "synchronous"],
            ..NUMBER
        },
        SYNCHRONOUS,
        PROGRAM,
    ],
};

/// The numbers of `--runs`.
pub const RUNS_RANGE: ShownRange = shown!(1, MOST, 100000);

/// The numbers of `--steps`.
pub const STEPS_RANGE: ShownRange = shown!(1, MOST, 100000);

/// The numbers of `--states`.
pub const STATES_RANGE: ShownRange = shown!(1, MOST, 1000000);
