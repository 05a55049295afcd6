//! The text of a world's run.
ghost use Rattle.std.specs.Prelude.{◌≡◌, ◌++◌, IfOk, OnOk, string_bytes};
ghost use Rattle.bare_world.specs.Headline.{lines_of};
ghost use Rattle.world_model.specs.EventsText.Output.{IsRunText, line_text, printed_text, ranks_text, replies_text, world_text};

use crate::events_text::reply_line::ReplyLine;
use crate::{Reply, World, WorldEvent};
use limits::Heap;
use matching::Line;
use std::alloc::AllocError;
use std::fmt::Write;

/// Makes the events, one after another, and answers all that is to be shown:
/// a line for each reply, in the order of the events, and then the lines that
/// each rank printed, rank by rank, each rank's by its clock.
///
/// An `Err` means out of memory; the world then stands after some of the events.
pub fn run_text(
    alloc: Heap,
    world: &mut World<'_>,
    events: &[WorldEvent],
) -> Result<String<Heap>, AllocError>
    ensures { IfOk result (λ text. IsRunText world.old events.now world.new (string_bytes text)) }
{
    let Ok(replies) = world.run(alloc, events) else {
        return Err(AllocError);
    };
    world_text(alloc, replies.as_slice(), world.ranks(), world.lines())
}

/// The replies, one a line, and then the lines of so many ranks.
pub fn world_text(
    alloc: Heap,
    replies: &[Reply],
    ranks: u8,
    lines: &[Line],
) -> Result<String<Heap>, AllocError>
    ensures { IfOk result (λ text. string_bytes text ≡ world_text replies.now ranks lines.now) }
{
    let mut text = String::new(alloc);
    put_replies(&mut text, replies)?;
    put_ranks(&mut text, ranks, lines)?;
    Ok(text)
}

fn put_replies(text: &mut String<Heap>, replies: &[Reply]) -> Result<(), AllocError>
    ensures { OnOk result (string_bytes text.new ≡ string_bytes text.old ++ replies_text replies.now) }
{
    let mut rest = replies;
    while let [reply, more @ ..] = rest {
        let reply = ReplyLine(*reply);
        writeln!(text, "{reply}")?;
        rest = more;
    }
    Ok(())
}

fn put_ranks(text: &mut String<Heap>, ranks: u8, lines: &[Line]) -> Result<(), AllocError>
    ensures { OnOk result (string_bytes text.new ≡ string_bytes text.old ++ ranks_text ranks lines.now) }
{
    for rank in 0..ranks {
        put_lines_of(text, rank, lines)?;
    }
    Ok(())
}

// The lines of one rank stand by their clocks already.
fn put_lines_of(text: &mut String<Heap>, rank: u8, lines: &[Line]) -> Result<(), AllocError>
    ensures { OnOk result (string_bytes text.new ≡ string_bytes text.old ++ printed_text rank (lines_of rank lines.now)) }
{
    let mut rest = lines;
    while let [line, more @ ..] = rest {
        if line.rank == rank {
            put_line(text, rank, line.value)?;
        }
        rest = more;
    }
    Ok(())
}

fn put_line(text: &mut String<Heap>, rank: u8, value: i64) -> Result<(), AllocError>
    ensures { OnOk result (string_bytes text.new ≡ string_bytes text.old ++ line_text rank value) }
{
    writeln!(text, "{rank}> {value}")
}
