//! A search that arguments name, or an outcome.
ghost use Rattle.std.specs.Prelude.{◌≡◌, IfSome, codes};
ghost use Rattle.command_line.specs.Jobs.{IsExploreFormOf, IsJobBy};
ghost use Rattle.command_line.specs.Words.{texts};

use crate::exploring::{ExploreForm, ExploreJob, RUNS_RANGE, STATES_RANGE, STEPS_RANGE};
use crate::job::Job;
use crate::judging::{self, JudgeJob};
use crate::range::RANKS_RANGE;
use crate::words::{is_given, number_in, one_file, two_files, value_of};

/// The search that the arguments ask for.
pub fn explore_of<'a>(command: &str, arguments: &'a [String]) -> Option<Job<'a>>
    requires { command.now ≡ codes "explore" }
    ensures { IfSome result (λ job. IsJobBy command.now (texts arguments.entry.now) job) }
{
    let (Some(ranks), Some(runs), Some(steps), Some(states), Some(form), Some(program)) = (
        RANKS_RANGE.small(value_of("ranks", arguments)),
        RUNS_RANGE.range.number(value_of("runs", arguments)),
        STEPS_RANGE.range.number(value_of("steps", arguments)),
        STATES_RANGE.range.number(value_of("states", arguments)),
        form_of(arguments),
        one_file(command, arguments),
    ) else {
        return None;
    };
    Some(Job::Explore(ExploreJob {
        ranks,
        runs,
        steps,
        states,
        form,
        synchronous: is_given("synchronous", arguments),
        program,
    }))
}

fn form_of(arguments: &[String]) -> Option<ExploreForm>
    ensures { IfSome result (λ form. IsExploreFormOf (texts arguments.now) form) }
{
    if let Some(outcome) = value_of("events", arguments) {
        return match number_in(outcome) {
            Some(number) => Some(ExploreForm::Events(number)),
            None => None,
        };
    }
    if is_given("json", arguments) {
        return Some(ExploreForm::Json);
    }
    if is_given("summary", arguments) {
        return Some(ExploreForm::Summary);
    }
    Some(ExploreForm::Text)
}

/// The outcome that the arguments name.
pub fn judge_of<'a>(command: &str, arguments: &'a [String]) -> Option<Job<'a>>
    requires { command.now ≡ codes "judge" }
    ensures { IfSome result (λ job. IsJobBy command.now (texts arguments.entry.now) job) }
{
    let (Some((program, outcome)), Some(ranks), Some(steps)) = (
        two_files(command, arguments),
        RANKS_RANGE.small(value_of("ranks", arguments)),
        judging::STEPS_RANGE
            .range
            .number(value_of("steps", arguments)),
    ) else {
        return None;
    };
    Some(Job::Judge(JudgeJob {
        ranks,
        steps,
        trace: is_given("trace", arguments),
        program,
        outcome,
    }))
}
