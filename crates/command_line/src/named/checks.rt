//! A program that arguments name, or texts that are explained.
ghost use Rattle.std.specs.Prelude.{◌≡◌, IfSome, codes};
ghost use Rattle.command_line.specs.Jobs.{IsJobBy};
ghost use Rattle.command_line.specs.Words.{texts};

use crate::explain::{ExplainJob, RANKS_OR_MOST};
use crate::job::{CJob, CheckJob, Job};
use crate::words::{is_given, one_file, value_of};

/// The program that the arguments name.
pub fn check_of<'a>(command: &str, arguments: &'a [String]) -> Option<Job<'a>>
    requires { command.now ≡ codes "check" }
    ensures { IfSome result (λ job. IsJobBy command.now (texts arguments.entry.now) job) }
{
    match one_file(command, arguments) {
        Some(program) => Some(Job::Check(CheckJob { program })),
        None => None,
    }
}

/// The program that the arguments name, and how its sends are written in C.
pub fn c_of<'a>(command: &str, arguments: &'a [String]) -> Option<Job<'a>>
    requires { command.now ≡ codes "c" }
    ensures { IfSome result (λ job. IsJobBy command.now (texts arguments.entry.now) job) }
{
    let synchronous = is_given("synchronous", arguments);
    match one_file(command, arguments) {
        Some(program) => Some(Job::C(CJob {
            program,
            synchronous,
        })),
        None => None,
    }
}

/// The texts that the arguments name. Without a number of ranks there is no script.
pub fn explain_of<'a>(command: &str, arguments: &'a [String]) -> Option<Job<'a>>
    requires { command.now ≡ codes "explain" }
    ensures { IfSome result (λ job. IsJobBy command.now (texts arguments.entry.now) job) }
{
    let (Some(ranks), Some(program)) = (
        RANKS_OR_MOST.small(value_of("ranks", arguments)),
        one_file(command, arguments),
    ) else {
        return None;
    };
    Some(Job::Explain(ExplainJob {
        ranks,
        program,
        script: value_of("script", arguments),
        events: value_of("events", arguments),
    }))
}
