//! What a trace is made of.

use crate::trace::deliveries::Delivery;
use crate::trace::fates::Fated;
use crate::trace::place::Place;
use crate::trace::why::WhyUnfinished;
use audit::{End, Outcome};
use crash_free::{Passed, Sim};
use rank_text::script::ScriptLine;
use std::num::NonZeroU32;

/// A run's program, script and outcome.
#[derive(Clone, Copy)]
pub struct Given<'a> {
    /// The text of the program.
    pub text: &'a [u8],
    /// For each statement, by its position, the line of the text that it stands on.
    pub lines: &'a [usize],
    /// The text of the script; empty where there is none.
    pub script: &'a [u8],
    /// What the script asks for.
    pub orders: &'a [ScriptLine],
    /// How many of the script's lines for each rank weren't used; the others
    /// were, in their order.
    pub unused: &'a [usize],
    /// After how many acts each rank took an image, beside those of the script.
    pub images_every: Option<NonZeroU32>,
    pub outcome: &'a Outcome,
    /// Why each rank is unfinished, where that is known.
    pub whys: &'a [Option<WhyUnfinished>],
    /// How often ranks crashed.
    pub crashes: u64,
    /// How often they called the event logger.
    pub calls: u64,
}

/// A run that is told, with what was found of its acts, by their index, and of
/// the lines of its script.
#[derive(Clone, Copy)]
pub struct Told<'a, 'p> {
    /// The text of the program.
    pub text: &'a [u8],
    /// For each statement, by its position, the line of the text that it stands on.
    pub lines: &'a [usize],
    pub ends: &'a [End],
    /// Why each rank is unfinished, where that is known.
    pub whys: &'a [Option<WhyUnfinished>],
    pub run: &'a Sim<'p>,
    pub acts: &'a [Passed],
    pub places: &'a [Place],
    pub deliveries: &'a [Delivery],
    pub orders: &'a [Fated],
}
