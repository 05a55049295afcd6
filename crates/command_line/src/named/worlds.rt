//! A world that arguments name.
ghost use Rattle.std.specs.Prelude.{IfSome};
ghost use Rattle.command_line.specs.Jobs.{IsFinishOf, IsWorldOf};
ghost use Rattle.command_line.specs.Words.{texts};

use crate::catching_up::{FinishJob, STEPS_RANGE};
use crate::job::WorldJob;
use crate::range::RANKS_RANGE;
use crate::words::{two_files, value_of};

/// The world that the arguments ask for.
pub fn world_of<'a>(command: &str, arguments: &'a [String]) -> Option<WorldJob<'a>>
    ensures { IfSome result (λ world. IsWorldOf command.now (texts arguments.entry.now) world) }
{
    let (Some((program, events)), Some(ranks)) = (
        two_files(command, arguments),
        RANKS_RANGE.small(value_of("ranks", arguments)),
    ) else {
        return None;
    };
    Some(WorldJob {
        ranks,
        program,
        events,
    })
}

/// The world that is wanted at its end.
pub fn finish_of<'a>(command: &str, arguments: &'a [String]) -> Option<FinishJob<'a>>
    ensures { IfSome result (λ finish. IsFinishOf command.now (texts arguments.entry.now) finish) }
{
    let (Some(world), Some(steps)) = (
        world_of(command, arguments),
        STEPS_RANGE.range.number(value_of("steps", arguments)),
    ) else {
        return None;
    };
    Some(FinishJob { world, steps })
}
