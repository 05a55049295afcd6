//! One line of a text of events.
ghost use Rattle.std.specs.Prelude.{◌≡◌};
ghost use Rattle.rank_text.specs.Lines.Pieces.{words_of};
ghost use Rattle.world_model.specs.EventsText.Events.{event_of, judged_seen, event_on, named_event, one_number, rank_event, three_numbers, two_numbers};

use crate::WorldEvent;
use crate::events_text::fault::EventsFaultKind;
use crate::events_text::number::number_in;
use limits::MOST_EVENT_LINES;
use rank_text::lines::{is_skipped, next_word};

/// The number that is the line's only word.
fn one_number(line: &[u8]) -> Option<u32>
    ensures { result ≡ one_number (words_of line.now) }
{
    let (word, rest) = next_word(line)?;
    match next_word(rest) {
        Some(_) => None,
        None => number_in(word),
    }
}

/// The numbers that are the line's only two words.
fn two_numbers(line: &[u8]) -> Option<(u32, u32)>
    ensures { result ≡ two_numbers (words_of line.now) }
{
    let (word, rest) = next_word(line)?;
    let first = number_in(word)?;
    let second = one_number(rest)?;
    Some((first, second))
}

/// The numbers that are the line's only three words.
fn three_numbers(line: &[u8]) -> Option<(u32, (u32, u32))>
    ensures { result ≡ three_numbers (words_of line.now) }
{
    let (word, rest) = next_word(line)?;
    let first = number_in(word)?;
    let others = two_numbers(rest)?;
    Some((first, others))
}

/// The event that has this name and is told by these words, if there is one.
fn named_event(name: &[u8], line: &[u8]) -> Option<WorldEvent>
    ensures { result ≡ named_event name.now (words_of line.now) }
{
    if name == b"put".as_slice() {
        let (source, dest) = two_numbers(line)?;
        return Some(WorldEvent::Put { source, dest });
    }
    if name == b"arrive".as_slice() {
        let (source, (dest, index)) = three_numbers(line)?;
        let index = u64::from(index);
        return Some(WorldEvent::Arrive {
            source,
            dest,
            index,
        });
    }
    let rank = one_number(line)?;
    rank_event(name, rank)
}

/// The event of one rank that has this name, if there is one.
fn rank_event(name: &[u8], rank: u32) -> Option<WorldEvent>
    ensures { result ≡ rank_event name.now rank }
{
    if name == b"step".as_slice() {
        return Some(WorldEvent::Step { rank });
    }
    if name == b"store".as_slice() {
        return Some(WorldEvent::Store { rank });
    }
    if name == b"ack".as_slice() {
        return Some(WorldEvent::Ack { rank });
    }
    if name == b"image".as_slice() {
        return Some(WorldEvent::Image { rank });
    }
    if name == b"crash".as_slice() {
        return Some(WorldEvent::Crash { rank });
    }
    if name == b"restart".as_slice() {
        return Some(WorldEvent::Restart { rank });
    }
    if name == b"release".as_slice() {
        return Some(WorldEvent::Release { rank });
    }
    None
}

/// The event that the line tells, if it has a form.
fn event_of(line: &[u8]) -> Option<WorldEvent>
    ensures { result ≡ event_of (words_of line.now) }
{
    let (name, rest) = next_word(line)?;
    named_event(name, rest)
}

/// What a line gives.
#[derive(Clone, Copy)]
pub(crate) enum Judged {
    Skipped,
    Event(WorldEvent),
    Faulty(EventsFaultKind),
}

/// A line's event, or its lowest fault.
pub(crate) fn judge(number: usize, line: &[u8]) -> Judged
    ensures { judged_seen result ≡ event_on number line.now }
{
    let judged = if is_skipped(line) {
        Judged::Skipped
    } else {
        match event_of(line) {
            Some(event) => Judged::Event(event),
            None => return Judged::Faulty(EventsFaultKind::BadLine),
        }
    };
    if number > MOST_EVENT_LINES {
        return Judged::Faulty(EventsFaultKind::Limit);
    }
    judged
}
