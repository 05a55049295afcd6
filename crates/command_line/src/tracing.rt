//! What the words of `trace` ask for.
use crate::argument::{Argument, CommandForm, FLAG, RANKS};
use crate::help;
use crate::job::RunJob;
use crate::scheduling::{SCHEDULE, SEED, TURNS};
use crate::syntax::{IDLE, IMAGES_EVERY, PROGRAM, SCRIPT, STEPS_OF_A_RUN};

/// In which form a run is traced.
#[derive(Clone, Copy)]
pub enum TraceForm {
    /// Lines for a person.
    Text,
    /// JSON, an object a line.
    Json,
    /// Events of a world, one a line.
    Events,
}

/// One run that is traced.
#[derive(Clone, Copy)]
pub struct TraceJob<'a> {
    pub run: RunJob<'a>,
    pub form: TraceForm,
}

/// The form of the words.
pub const TRACE: CommandForm = CommandForm {
    name: "trace",
    about: "Runs a program and prints what each rank did, and why it ended",
    help: help::TRACE,
    arguments: &[
        RANKS,
        SCRIPT,
        IMAGES_EVERY,
        IDLE,
        STEPS_OF_A_RUN,
        SCHEDULE,
        SEED,
        TURNS,
        PROGRAM,
        Argument {
            name: "json",
            help: "Prints the same as JSON, an object a line",
            ..FLAG
        },
        Argument {
            name: "events",
            help: "Prints that run as events, for `ftmpi world`",
            without: &["json"],
            ..FLAG
        },
        // refused by a text of its own
        Argument {
            name: "picture",
            is_hidden: true,
            ..FLAG
        },
    ],
};
