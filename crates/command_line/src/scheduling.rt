//! The words that say in which order the ranks of a run take their turns.
ghost use Rattle.std.specs.Prelude.{◌≡◌, IfSome, codes};
ghost use Rattle.command_line.specs.Schedules.{IsPolicyIf, IsSchedulingOf, policy_word};
ghost use Rattle.command_line.specs.Words.{texts, value_of};

use crate::argument::{Argument, ArgumentKind, FILE_OF, NUMBER};
use crate::range::{MOST, Range};
use crate::words::{is, value_of};

/// In which order ranks take turns that take them on one thread.
#[derive(Clone, Copy)]
pub enum Policy {
    /// One after another.
    RoundRobin,
    /// Any of them.
    Uniform,
    /// One of them is held for long, and then another.
    Starve,
    /// A rank goes on as long as it can.
    RunOn,
    /// A rank that has crashed goes first until it is back.
    RecoveryFirst,
}

/// How the ranks of a run are scheduled. `seed` and `turns` are at most 1000000000.
#[derive(Clone, Copy)]
pub struct Scheduling {
    /// None if each rank runs on a thread of its own.
    pub policy: Option<Policy>,
    pub seed: u32,
    /// How many turns there are at most, of all ranks together.
    pub turns: u32,
}

/// Whether the ranks take turns on one thread, and how.
pub const SCHEDULE: Argument = Argument {
    name: "schedule",
    value: "ORDER",
    help: "Runs all ranks on one thread, in turns (below)",
    ..FILE_OF
};

/// What the turns are drawn from.
pub const SEED: Argument = Argument {
    name: "seed",
    value: "S",
    help: "Seed of the turns, 0 to 1000000000; 1 if not given",
    given: ArgumentKind::Number(SEED_RANGE),
    ..NUMBER
};

/// Its numbers.
pub const SEED_RANGE: Range = Range {
    least: 0,
    most: MOST,
    default: Some(1),
};

/// How many turns there may be.
pub const TURNS: Argument = Argument {
    name: "turns",
    value: "T",
    help: "Turns of all ranks, 1 to 1000000000",
    given: ArgumentKind::Number(TURNS_RANGE),
    ..NUMBER
};

/// Its numbers.
pub const TURNS_RANGE: Range = Range {
    least: 1,
    most: MOST,
    default: Some(100000000),
};

/// The policy that the word names, if it names one.
pub fn policy_called(word: &str) -> Option<Policy>
    ensures { IfSome result (λ policy. word.now ≡ policy_word policy) }
{
    if is(word, "round-robin") {
        Some(Policy::RoundRobin)
    } else if is(word, "uniform") {
        Some(Policy::Uniform)
    } else if is(word, "starve") {
        Some(Policy::Starve)
    } else if is(word, "run-on") {
        Some(Policy::RunOn)
    } else if is(word, "recovery-first") {
        Some(Policy::RecoveryFirst)
    } else {
        None
    }
}

/// Whether a policy is asked for that there isn't.
pub fn is_unknown(arguments: &[String]) -> bool {
    match value_of("schedule", arguments) {
        Some(word) => policy_called(word).is_none(),
        None => false,
    }
}

// The policy that the option names, if it is there.
fn policy_if(arguments: &[String]) -> Option<Option<Policy>>
    ensures { IfSome result (λ policy. IsPolicyIf (value_of (codes "schedule") (texts arguments.now)) policy) }
{
    match value_of("schedule", arguments) {
        Some(word) => match policy_called(word) {
            Some(policy) => Some(Some(policy)),
            None => None,
        },
        None => Some(None),
    }
}

/// How the arguments schedule the ranks of a run.
pub fn scheduling_of(arguments: &[String]) -> Option<Scheduling>
    ensures { IfSome result (λ scheduling. IsSchedulingOf (texts arguments.now) scheduling) }
{
    let (Some(policy), Some(seed), Some(turns)) = (
        policy_if(arguments),
        SEED_RANGE.number(value_of("seed", arguments)),
        TURNS_RANGE.number(value_of("turns", arguments)),
    ) else {
        return None;
    };
    Some(Scheduling {
        policy,
        seed,
        turns,
    })
}
