//! Messages in words.
ghost use Rattle.std.specs.Prelude.{◌≡◌, ◌++◌, OnOk, slice_get, string_bytes};
ghost use Rattle.run_shown.specs.Trace.Seen.{message_seen};
ghost use Rattle.run_shown.specs.Trace.Words.{collective_text, content_text, given_items, items_text, lead_text, listed_text};
ghost use Rattle.run_shown.specs.Trace.Words.{mark_text, name_text, tag_text};

use limits::Heap;
use matching::Context;
use rank_text::text_writer::TextWriter;
use std::alloc::AllocError;
use std::fmt::Write;

/// The most items of a message that are shown.
const SHOWN: usize = 8;

/// A message as its send has it.
#[derive(Clone, Copy)]
pub struct SentMessage<'a> {
    /// The clock of the send, as it is told.
    pub clock: u32,
    pub context: Context,
    pub tag: u16,
    pub items: &'a [i64],
}

/// Writes the collective that the message is of, as `reduce sum 1: `; nothing for
/// a message between two ranks.
pub fn put_collective(to: &mut String<Heap>, message: SentMessage<'_>) -> Result<(), AllocError>
    ensures { OnOk result (string_bytes to.new ≡ string_bytes to.old ++ lead_text message.entry.context message.entry.items.now) }
{
    match message.context {
        Context::PointToPoint => Ok(()),
        Context::Collective => {
            put_kind(to, message.items)?;
            to.push_str(": ")
        }
    }
}

// Writes kind and number of a collective's packet, as `barrier 2`.
fn put_kind(to: &mut String<Heap>, items: &[i64]) -> Result<(), AllocError>
    ensures { OnOk result (string_bytes to.new ≡ string_bytes to.old ++ collective_text items.now) }
{
    to.push_str(call_name(items))?;
    match call_number(items) {
        Some(number) => write!(to, " {number}"),
        None => Ok(()),
    }
}

/// The kind of a collective's packet; its items are kind, root, number and then
/// those of the call.
pub fn call_name(items: &[i64]) -> &'static str
    ensures { result.now ≡ name_text (slice_get items.now 0) }
{
    kind_name(items.first().copied())
}

/// The word for a kind of collective, by the number that a packet has of it.
pub fn kind_name(kind: Option<i64>) -> &'static str
    ensures { result.now ≡ name_text kind }
{
    // by the numbers that `rank_machine` has for kinds (`kind_number`)
    match kind {
        Some(0) => "barrier",
        Some(1) => "bcast",
        Some(2) => "reduce sum",
        Some(3) => "reduce max",
        Some(4) => "reduce min",
        Some(_) | None => "collective",
    }
}

/// The number of a collective among its rank's.
pub fn call_number(items: &[i64]) -> Option<i64>
    ensures { result ≡ slice_get items.now 2 }
{
    items.get(2).copied()
}

/// The items of a message, and of a collective's packet those of the call alone.
pub fn call_items(message: SentMessage<'_>) -> &[i64]
    ensures { result.now ≡ given_items message.entry.context message.entry.items.now }
{
    match message.context {
        Context::PointToPoint => message.items,
        Context::Collective => message.items.get(3..).unwrap_or(&[]),
    }
}

/// Writes what stands behind the other rank's number: `, tag 7: 41`, and of a
/// collective the items of the call alone.
pub fn put_content(to: &mut String<Heap>, message: SentMessage<'_>) -> Result<(), AllocError>
    ensures { OnOk result (string_bytes to.new ≡ string_bytes to.old ++ content_text (message_seen message.entry)) }
{
    put_tag(to, message)?;
    put_items(to, call_items(message))
}

/// Writes the tag, as `, tag 7`; nothing of a collective.
pub fn put_tag(to: &mut String<Heap>, message: SentMessage<'_>) -> Result<(), AllocError>
    ensures { OnOk result (string_bytes to.new ≡ string_bytes to.old ++ tag_text message.entry.context message.entry.tag) }
{
    match message.context {
        Context::PointToPoint => {
            let tag = message.tag;
            write!(to, ", tag {tag}")
        }
        Context::Collective => Ok(()),
    }
}

/// Writes by what to know a message: its tag, or the collective that it is of.
pub fn put_mark(to: &mut String<Heap>, message: SentMessage<'_>) -> Result<(), AllocError>
    ensures { OnOk result (string_bytes to.new ≡ string_bytes to.old ++ mark_text message.entry.context message.entry.tag message.entry.items.now) }
{
    match message.context {
        Context::PointToPoint => put_tag(to, message),
        Context::Collective => {
            to.push_str(", ")?;
            put_kind(to, message.items)
        }
    }
}

/// The same behind what was written so far.
pub fn write_mark(to: &mut TextWriter, message: SentMessage<'_>) {
    if to.room.is_ok() {
        to.room = put_mark(&mut to.text, message);
    }
}

// Writes the first items behind a colon, and how many there are where these aren't all; nothing where there is none.
fn put_items(to: &mut String<Heap>, items: &[i64]) -> Result<(), AllocError>
    ensures { OnOk result (string_bytes to.new ≡ string_bytes to.old ++ items_text items.now) }
{
    if items.is_empty() {
        return Ok(());
    }
    to.push(':')?;
    let count = items.len();
    if count <= SHOWN {
        return put_listed(to, items);
    }
    put_listed(to, &items[..SHOWN])?;
    write!(to, " .. ({count} items)")
}

// Writes items, each behind a space.
fn put_listed(to: &mut String<Heap>, items: &[i64]) -> Result<(), AllocError>
    ensures { OnOk result (string_bytes to.new ≡ string_bytes to.old ++ listed_text items.now) }
{
    let mut rest = items;
    while let [item, more @ ..] = rest {
        write!(to, " {item}")?;
        rest = more;
    }
    Ok(())
}
