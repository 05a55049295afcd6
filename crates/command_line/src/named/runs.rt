//! A run that arguments name, and how it is traced.
ghost use Rattle.std.specs.Prelude.{◌≡◌, IfSome, codes};
ghost use Rattle.command_line.specs.Jobs.{IsCostFormOf, IsJobBy, IsRunOf, IsTraceFormOf};
ghost use Rattle.command_line.specs.Words.{texts};

use crate::costing::CostForm;
use crate::job::{Job, RunJob};
use crate::range::RANKS_RANGE;
use crate::scheduling::scheduling_of;
use crate::syntax::{IDLE_RANGE, STEPS_RANGE};
use crate::tracing::{TraceForm, TraceJob};
use crate::words::{count_if, is_given, one_file, value_of};

/// The run that the arguments ask for, with its costs in this form.
pub fn run_of<'a>(command: &str, arguments: &'a [String], costs: CostForm) -> Option<RunJob<'a>>
    ensures run { IfSome result (λ run. IsRunOf command.now (texts arguments.entry.now) run) }
    ensures costs { IfSome result (λ run. run.costs ≡ costs) }
{
    let (
        Some(ranks),
        Some(images_every),
        Some(idle),
        Some(steps),
        Some(scheduling),
        Some(program),
    ) = (
        RANKS_RANGE.small(value_of("ranks", arguments)),
        count_if("images-every", arguments),
        IDLE_RANGE.range.number(value_of("idle", arguments)),
        STEPS_RANGE.range.number(value_of("steps", arguments)),
        scheduling_of(arguments),
        one_file(command, arguments),
    ) else {
        return None;
    };
    Some(RunJob {
        ranks,
        script: value_of("script", arguments),
        images_every,
        idle,
        steps,
        scheduling,
        costs,
        program,
    })
}

/// In which form the costs of a run are printed.
pub fn cost_form_of(arguments: &[String]) -> CostForm
    ensures { IsCostFormOf (texts arguments.now) result }
{
    if !is_given("costs", arguments) {
        CostForm::Unasked
    } else if is_given("json", arguments) {
        CostForm::Json
    } else {
        CostForm::Table
    }
}

/// The run that is to be traced, and the form.
pub fn trace_of<'a>(command: &str, arguments: &'a [String]) -> Option<Job<'a>>
    requires { command.now ≡ codes "trace" }
    ensures { IfSome result (λ job. IsJobBy command.now (texts arguments.entry.now) job) }
{
    let (Some(run), Some(form)) = (
        run_of(command, arguments, CostForm::Unasked),
        form_of(arguments),
    ) else {
        return None;
    };
    Some(Job::Trace(TraceJob { run, form }))
}

// No run is drawn.
fn form_of(arguments: &[String]) -> Option<TraceForm>
    ensures { IfSome result (λ form. IsTraceFormOf (texts arguments.now) form) }
{
    if is_given("picture", arguments) {
        return None;
    }
    if is_given("json", arguments) {
        return Some(TraceForm::Json);
    }
    if is_given("events", arguments) {
        return Some(TraceForm::Events);
    }
    Some(TraceForm::Text)
}
