//! A world under the events of a file, as JSON.
ghost use Rattle.std.specs.Prelude.{IfErr, IfOk, OnOk};
ghost use Rattle.runner.specs.Objects.{HasEvents, IsObjectsAnswer};
ghost use Rattle.runner.specs.Reasons.{IsEventsRefusal, IsWorldRefusal, UnlessMemory};
ghost use Rattle.runner.specs.declared.commands.world.WorldQuestion.TheVariants.{Replies};

use crate::commands::reading::text_in;
use crate::commands::refusal::Refusal;
use crate::commands::said::Said;
use crate::files::Files;
use command_line::WorldJob;
use limits::Heap;
use rank_language::Program;
use run_shown::world::{WorldTexts, world_json};
use world_model::events_text::parse_events;

/// What each event changes in the job's world, an object a line. The program is
/// read and parsed before the events are read.
#[tactic(auto, using(crate::proofs::Tools::is_objects_answer, crate::proofs::Reasons::world_unread, crate::proofs::Reasons::world_faulty, crate::proofs::Reasons::world_of_events))]
pub fn objects_said<'a, F: Files>(
    alloc: Heap,
    job: WorldJob<'a>,
    files: &mut F,
) -> Result<Said, Refusal<'a>>
    ensures answer { IfOk result (λ said. IsObjectsAnswer (F.holds files.old) job.entry said.status) }
    ensures refused { IfErr result (UnlessMemory (IsWorldRefusal (F.holds files.old) job.entry Replies)) }
{
    let text = text_in(job.program, files)?;
    let program = Program::parse(alloc, text.as_slice())?;
    let json = json_of(alloc, job, &program, text.as_slice(), files);
    drop(program);
    drop(text);
    match json {
        Ok(json) => Ok(Said::answer(alloc, 0, json.into_bytes())),
        Err(refusal) => Err(refusal),
    }
}

// The objects, of a program that is parsed and that no early return lets go of.
#[tactic(auto, using(crate::proofs::Tools::has_events, crate::proofs::Reasons::unread, crate::proofs::Reasons::faulty_events, crate::proofs::Reasons::of_memory))]
fn json_of<'a, F: Files>(
    alloc: Heap,
    job: WorldJob<'a>,
    program: &Program,
    text: &[u8],
    files: &mut F,
) -> Result<String<Heap>, Refusal<'a>>
    ensures events { OnOk result (HasEvents (F.holds files.old job.entry.events.now)) }
    ensures refused { IfErr result (UnlessMemory (IsEventsRefusal (F.holds files.old) job.entry.events)) }
{
    let events = text_in(job.events, files)?;
    let parsed = parse_events(alloc, events.as_slice())?;
    let texts = WorldTexts {
        program: text,
        events: events.as_slice(),
    };
    let json = world_json(alloc, program, job.ranks, parsed.as_slice(), texts);
    drop(parsed);
    match json {
        Ok(json) => Ok(json),
        Err(error) => Err(Refusal::from(error)),
    }
}
