//! The words of `soak`.
ghost use Rattle.std.specs.Prelude.{◌+◌, ◌≤◌};
ghost use Rattle.limits.specs.Limits.{most_ranks, most_script_lines};

use crate::argument::{Argument, ArgumentKind, CommandForm, NUMBER, RANKS};
use crate::help;
use crate::range::{MOST, ShownRange, shown};
use crate::scheduling::{SCHEDULE, SEED, Scheduling, TURNS};
use crate::syntax::{IDLE, IMAGES_EVERY, PROGRAM, STEPS_OF_A_RUN};
use limits::MOST_SCRIPT_LINES;
use std::num::NonZeroU32;

/// Many runs of one program, each under a script that is drawn at random.
/// `runs`, `images_every`, `idle` and `steps` are at most 1000000000.
#[derive(Clone, Copy)]
pub struct SoakJob<'a> {
    pub ranks: u8,
    pub runs: u32,
    /// What the scripts are drawn from.
    pub seed: u32,
    /// How many kills a script has at most.
    pub kills: u8,
    /// How many images a script has at most.
    pub images: u8,
    /// After how many acts each rank takes an image, beside those of its script.
    pub images_every: Option<NonZeroU32>,
    pub idle: u32,
    pub steps: u32,
    pub scheduling: Scheduling,
    pub program: &'a str,
    pub ghost some_rank: { 1 ≤ ranks },
    pub ghost few_ranks: { ranks ≤ most_ranks },
    pub ghost few_lines: { kills + images ≤ most_script_lines },
    pub ghost some_idle: { 1 ≤ idle },
    pub ghost some_steps: { 1 ≤ steps },
}

/// The script of one of these runs.
#[derive(Clone, Copy)]
pub struct SoakScriptJob<'a> {
    pub soak: SoakJob<'a>,
    /// Which run, from 1, at most 1000000000.
    pub number: u32,
}

/// The form of the words.
pub const SOAK: CommandForm = CommandForm {
    name: "soak",
    about: "Runs a program many times, crashes its ranks at random, and counts",
    help: help::SOAK,
    arguments: &[
        RANKS,
        Argument {
            name: "runs",
            value: "K",
            help: "Runs made, 1 to 1000000000",
            given: ArgumentKind::Shown(RUNS_RANGE),
            ..NUMBER
        },
        Argument {
            help: "Seed of the scripts, 0 to 1000000000",
            given: ArgumentKind::Shown(SEED_RANGE),
            ..SEED
        },
        Argument {
            name: "kills",
            help: "Kills in a run, 0 to M, at most 128",
            ..LINES
        },
        Argument {
            name: "images",
            help: "Images in a run, 0 to M, at most 128",
            ..LINES
        },
        IMAGES_EVERY,
        Argument {
            name: "script-of",
            value: "K",
            help: "Prints the script of run K alone (below)",
            ..NUMBER
        },
        IDLE,
        STEPS_OF_A_RUN,
        SCHEDULE,
        TURNS,
        PROGRAM,
    ],
};

/// How many lines of a kind a script has at most.
const LINES: Argument = Argument {
    value: "M",
    given: ArgumentKind::Shown(LINES_RANGE),
    ..NUMBER
};

/// The numbers of `--runs`.
pub const RUNS_RANGE: ShownRange = shown!(1, MOST, 100);

/// The numbers of `--seed`, by which scripts are drawn.
pub const SEED_RANGE: ShownRange = shown!(0, MOST, 1);

/// The numbers of `--kills` and of `--images`.
pub const LINES_RANGE: ShownRange = shown!(0, MOST_SCRIPT_LINES as u32 / 2, 2);
