//! The acts of a run, a line each.
ghost use Rattle.std.specs.Prelude.{◌≡◌, ◌++◌, OnOk, Some, codes, slice_get, string_bytes};
ghost use Rattle.std.specs.Fmt.{decimal};
ghost use Rattle.crash_free.specs.Runs.{Passed};
ghost use Rattle.crash_free.specs.SendIndex.Sends.{run_before};
ghost use Rattle.run_shown.specs.Trace.Deliveries.{AreClocked, AreDelivered, as_told, delivered, made_by, sent_by};
ghost use Rattle.run_shown.specs.Trace.Lines.{acts_text, clock_width, columns_text, greatest_of, line_text};
ghost use Rattle.run_shown.specs.Trace.Seen.{maybe_seen, message_seen};
ghost use Rattle.run_shown.specs.Trace.Words.{act_text, hit_text, probe_text, reception_text, send_text};

use crate::trace::columns::{digits, put_head, put_right};
use crate::trace::given::Told;
use crate::trace::message::{SentMessage, put_collective, put_content, put_tag};
use crate::trace::place::Place;
use crash_free::{Act, Passed};
use limits::Heap;
use std::alloc::AllocError;
use std::fmt::Write;

/// What is said of the order of the acts.
const HEAD: &str = "# an order of the acts that the audit found, not that of the threads\n";

/// Writes the head of the columns and each act: rank, clock, line and what was done.
pub fn put_acts(to: &mut String<Heap>, told: Told<'_, '_>) -> Result<(), AllocError>
    requires clocked { AreClocked told.acts.now told.places.now }
    requires delivered { AreDelivered told.acts.now told.deliveries.now }
    ensures { OnOk result (string_bytes to.new ≡ string_bytes to.old
        ++ acts_text told.entry.lines.now told.entry.acts.now told.entry.places.now) }
{
    let width = clock_width(told.places);
    to.push_str(HEAD)?;
    put_head(to, width)?;
    for index in 0..told.acts.len() {
        let passed = &told.acts[index];
        let place = told.places[index];
        let message = sent(told, index);
        put_line(to, told.lines, passed, place, message, width)?;
    }
    Ok(())
}

// How wide the column of clocks is: as its widest number, or as its head.
fn clock_width(places: &[Place]) -> usize
    ensures { result ≡ clock_width places.now }
{
    digits(u64::from(greatest_of(places))).max(5)
}

// The greatest clock; 0 where there is no place.
fn greatest_of(places: &[Place]) -> u32
    ensures { result ≡ greatest_of places.now }
{
    let mut greatest = 0;
    let mut rest = places;
    while let [place, more @ ..] = rest {
        greatest = greatest.max(place.clock);
        rest = more;
    }
    greatest
}

// Writes the line of an act: with the message that it takes or hits, if it does.
fn put_line(
    to: &mut String<Heap>,
    lines: &[usize],
    passed: &Passed,
    place: Place,
    message: Option<SentMessage<'_>>,
    width: usize,
) -> Result<(), AllocError>
    ensures { OnOk result (string_bytes to.new ≡ string_bytes to.old
        ++ line_text width lines.now passed.now place (maybe_seen message.entry)) }
{
    put_columns(to, lines, passed, place, width)?;
    put_act(to, passed, place, message)?;
    to.push('\n')
}

fn put_columns(
    to: &mut String<Heap>,
    lines: &[usize],
    passed: &Passed,
    place: Place,
    width: usize,
) -> Result<(), AllocError>
    ensures { OnOk result (string_bytes to.new ≡ string_bytes to.old ++ columns_text width lines.now passed.now place) }
{
    put_right(to, u64::from(passed.rank), 4)?;
    to.push(' ')?;
    put_right(to, u64::from(place.clock), width)?;
    to.push_str("  ")?;
    let line = lines.get(place.position).copied().unwrap_or(0);
    put_right(to, line as u64, 4)?;
    to.push_str("  ")
}

fn put_act(
    to: &mut String<Heap>,
    passed: &Passed,
    place: Place,
    message: Option<SentMessage<'_>>,
) -> Result<(), AllocError>
    ensures { OnOk result (string_bytes to.new ≡ string_bytes to.old
        ++ act_text place.clock place.tries passed.now.act (maybe_seen message.entry)) }
{
    match &passed.act {
        Act::Sends {
            dest,
            context,
            tag,
            items,
        } => put_send(
            to,
            *dest,
            SentMessage {
                clock: place.clock,
                context: *context,
                tag: *tag,
                items: items.as_slice(),
            },
        ),
        Act::Takes { source, .. } => put_reception(to, *source, message),
        Act::Hits { source, .. } => put_hit(to, *source, place.tries, message),
        Act::Misses => to.push_str("iprobe: nothing"),
        Act::Prints(value) => write!(to, "print {value}"),
    }
}

fn put_send(to: &mut String<Heap>, dest: u8, message: SentMessage<'_>) -> Result<(), AllocError>
    ensures { OnOk result (string_bytes to.new ≡ string_bytes to.old ++ send_text dest (message_seen message.entry)) }
{
    put_collective(to, message)?;
    write!(to, "send to {dest}")?;
    put_content(to, message)
}

fn put_reception(
    to: &mut String<Heap>,
    source: u8,
    message: Option<SentMessage<'_>>,
) -> Result<(), AllocError>
    ensures { OnOk result (string_bytes to.new ≡ string_bytes to.old ++ reception_text source (maybe_seen message.entry)) }
{
    match message {
        Some(message) => {
            let clock = message.clock;
            put_collective(to, message)?;
            write!(to, "recv from {source}")?;
            put_content(to, message)?;
            write!(to, " (sent at clock {clock})")
        }
        None => write!(to, "recv from {source}"),
    }
}

fn put_hit(
    to: &mut String<Heap>,
    source: u8,
    tries: bool,
    message: Option<SentMessage<'_>>,
) -> Result<(), AllocError>
    ensures { OnOk result (string_bytes to.new ≡ string_bytes to.old
        ++ (probe_text tries ++ codes "from " ++ decimal source ++ hit_text (maybe_seen message.entry))) }
{
    to.push_str(if tries { "iprobe: " } else { "probe " })?;
    write!(to, "from {source}")?;
    match message {
        Some(message) => put_tag(to, message),
        None => Ok(()),
    }
}

/// The message that an act took or hit.
#[tactic(auto, using(crate::proofs::TraceLaws::DeliveryLemmas::told_none, crate::proofs::TraceLaws::DeliveryLemmas::told_some))]
pub fn sent<'a>(told: Told<'a, '_>, index: usize) -> Option<SentMessage<'a>>
    ensures { AreClocked told.entry.acts.now told.entry.places.now → AreDelivered told.entry.acts.now told.entry.deliveries.now
        → (p : Passed) → slice_get told.entry.acts.now index ≡ Some p
        → maybe_seen result ≡ as_told (delivered (run_before told.entry.acts.now index) p) }
{
    let send = told.deliveries.get(index)?.send?;
    message_at(told.acts, told.places, send)
}

/// The message that the act of this index sent.
pub fn message_at<'a>(acts: &'a [Passed], places: &[Place], index: usize) -> Option<SentMessage<'a>>
    ensures { maybe_seen result ≡ made_by (slice_get acts.now index) (slice_get places.now index) }
{
    message_of(acts.get(index)?, *places.get(index)?)
}

// The message of a send that was made at this place.
fn message_of(passed: &Passed, place: Place) -> Option<SentMessage<'_>>
    ensures { maybe_seen result ≡ sent_by passed.now.act place.clock }
{
    match &passed.act {
        Act::Sends {
            context,
            tag,
            items,
            ..
        } => Some(SentMessage {
            clock: place.clock,
            context: *context,
            tag: *tag,
            items: items.as_slice(),
        }),
        Act::Takes { .. } | Act::Hits { .. } | Act::Misses | Act::Prints(_) => None,
    }
}
