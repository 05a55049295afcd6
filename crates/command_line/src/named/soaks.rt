//! The runs of a soak that arguments name.
ghost use Rattle.std.specs.Prelude.{IfSome};
ghost use Rattle.command_line.specs.Jobs.{IsSoakOf, IsSoakScriptOf};
ghost use Rattle.command_line.specs.Words.{texts};

use crate::range::RANKS_RANGE;
use crate::scheduling::scheduling_of;
use crate::soaking::{LINES_RANGE, RUNS_RANGE, SEED_RANGE, SoakJob, SoakScriptJob};
use crate::syntax::{IDLE_RANGE, STEPS_RANGE};
use crate::words::{count_if, number_in, one_file, value_of};

/// The runs that the arguments ask for.
pub fn soak_of<'a>(command: &str, arguments: &'a [String]) -> Option<SoakJob<'a>>
    ensures { IfSome result (λ runs. IsSoakOf command.now (texts arguments.entry.now) runs) }
{
    let (Some(ranks), Some(runs), Some(seed), Some(kills), Some(images)) = (
        RANKS_RANGE.small(value_of("ranks", arguments)),
        RUNS_RANGE.range.number(value_of("runs", arguments)),
        SEED_RANGE.range.number(value_of("seed", arguments)),
        LINES_RANGE.range.small(value_of("kills", arguments)),
        LINES_RANGE.range.small(value_of("images", arguments)),
    ) else {
        return None;
    };
    let (Some(images_every), Some(idle), Some(steps), Some(scheduling), Some(program)) = (
        count_if("images-every", arguments),
        IDLE_RANGE.range.number(value_of("idle", arguments)),
        STEPS_RANGE.range.number(value_of("steps", arguments)),
        scheduling_of(arguments),
        one_file(command, arguments),
    ) else {
        return None;
    };
    Some(SoakJob {
        ranks,
        runs,
        seed,
        kills,
        images,
        images_every,
        idle,
        steps,
        scheduling,
        program,
    })
}

/// The run whose script the arguments ask for.
pub fn script_of<'a>(command: &str, arguments: &'a [String]) -> Option<SoakScriptJob<'a>>
    ensures { IfSome result (λ script. IsSoakScriptOf command.now (texts arguments.entry.now) script) }
{
    let Some(text) = value_of("script-of", arguments) else {
        return None;
    };
    let (Some(soak), Some(number)) = (soak_of(command, arguments), number_in(text)) else {
        return None;
    };
    Some(SoakScriptJob { soak, number })
}
