//! Events that lead a world to its end.
ghost use Rattle.std.specs.Prelude.{◌≡◌, IfOk, IfErr, string_bytes};
ghost use Rattle.runner.specs.FinishText.{IsFinishText, IsWithoutEnd, refusal_of_end};
ghost use Rattle.world_model.specs.EventsText.Written.{events_text};
ghost use Rattle.bare_world.specs.declared.finish.FinishEnd.TheVariants.{Ended};

use crate::commands::refusal::Refusal;
use limits::Heap;
use world_model::events_text::events_text;
use world_model::{FinishEnd, World, WorldEvent};

/// Makes the events, one after another, and answers events that lead from there
/// to the end, one a line, or why there are none. No rank makes more than so
/// many steps in them.
///
/// The world then stands after what was played, whatever is answered.
#[tactic(auto, using(crate::proofs::FinishText::is_finish_text, crate::proofs::FinishText::is_without_end, crate::proofs::FinishText::without_memory))]
pub fn finish_text<'a>(
    alloc: Heap,
    world: &mut World<'_>,
    events: &[WorldEvent],
    steps: u32,
) -> Result<String<Heap>, Refusal<'a>>
    ensures ok { IfOk result (λ text. IsFinishText steps world.old events.now world.new (string_bytes text)) }
    ensures refused { IfErr result (λ refusal. IsWithoutEnd steps world.old events.now world.new refusal) }
{
    let Ok(_) = world.run(alloc, events) else {
        return Err(Refusal::Memory);
    };
    let finish = world.finish(alloc, steps);
    let text = text_of_end(alloc, finish.events.as_slice(), finish.end, steps);
    drop(finish);
    text
}

// The text of events by which a world has ended, or why it hasn't.
fn text_of_end<'a>(
    alloc: Heap,
    events: &[WorldEvent],
    end: FinishEnd,
    steps: u32,
) -> Result<String<Heap>, Refusal<'a>>
    ensures ended { IfOk result (λ text. (end ≡ Ended) × (string_bytes text ≡ events_text events.now)) }
    ensures refused { IfErr result (λ refusal. refusal ≡ refusal_of_end steps end) }
{
    match end {
        FinishEnd::Ended => match events_text(alloc, events) {
            Ok(text) => Ok(text),
            Err(_) => Err(Refusal::Memory),
        },
        FinishEnd::OutOfRounds { rank } => Err(Refusal::OutOfSteps { rank, steps }),
        FinishEnd::Spent { rank, fault } => Err(Refusal::Node { rank, fault }),
        FinishEnd::OutOfMemory => Err(Refusal::Memory),
    }
}
