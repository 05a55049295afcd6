//! The words of `catch-up`.
ghost use Rattle.std.specs.Prelude.{◌≤◌};

use crate::argument::{Argument, ArgumentKind, CommandForm, FLAG, NUMBER, RANKS};
use crate::help;
use crate::job::WorldJob;
use crate::range::{MOST, ShownRange, shown};
use crate::syntax::{EVENTS, PROGRAM};

/// One world that is wanted at its end, where no rank makes more than so many
/// steps on the way there. `steps` is at most 1000000000.
#[derive(Clone, Copy)]
pub struct FinishJob<'a> {
    pub world: WorldJob<'a>,
    pub steps: u32,
    pub ghost some_steps: { 1 ≤ steps },
}

/// The form of the words.
pub const CATCH_UP: CommandForm = CommandForm {
    name: "catch-up",
    about: "Prints events that bring a world's ranks back to where they were",
    help: help::CATCH_UP,
    arguments: &[
        RANKS,
        Argument {
            name: "to-the-end",
            help: "Prints events that bring the world to its end (below)",
            ..FLAG
        },
        Argument {
            name: "steps",
            value: "S",
            help: "Steps of a rank in them, 1 to 1000000000",
            given: ArgumentKind::Shown(STEPS_RANGE),
            with: Some("to-the-end"),
            ..NUMBER
        },
        PROGRAM,
        EVENTS,
    ],
};

/// The numbers of `--steps`.
pub const STEPS_RANGE: ShownRange = shown!(1, MOST, 100000);
