//! Names for the places of sends, receives and probes.
ghost use Rattle.std.specs.Prelude.{◌≡◌, ◌<◌, IfOk, length};
ghost use Rattle.rank_text.specs.Grammar.SeenForms.{form_seen};
ghost use Rattle.rank_language.specs.Named.{form_named};
ghost use Rattle.rank_language.specs.Placed.{does, probe, receive};
ghost use Rattle.rank_language.specs.Placed.{send, try_probe};
ghost use Rattle.rank_language.specs.Program.{IsWithin};
ghost use Rattle.rank_language.specs.Program.{IsBufferWithin, IsPatternWithin, IsPayloadWithin};
ghost use Rattle.rank_language.specs.Seen.{buffer_of, pattern_of, payload_of, placed_of};
ghost use Rattle.rank_language.specs.SeenTables.{tables_seen};

use super::{name, name_buffer, name_pattern, name_payload};
use crate::expression::Expression;
use crate::resolve::Tables;
use crate::statement::{Buffer, Pattern, Payload};
use limits::Heap;
use rank_text::grammar::Form;
use std::alloc::AllocError;

/// A send with names for its places.
pub(super) fn name_send(
    alloc: Heap,
    tables: Tables<'_>,
    destination: &Expression,
    tag: &Expression,
    payload: &Payload,
) -> Result<Form, AllocError>
    requires destination { IsWithin (length (tables_seen tables).variables) (length (tables_seen tables).arrays) (placed_of destination.now) }
    requires tag { IsWithin (length (tables_seen tables).variables) (length (tables_seen tables).arrays) (placed_of tag.now) }
    requires payload { IsPayloadWithin (length (tables_seen tables).variables) (length (tables_seen tables).arrays) (payload_of payload.now) }
    ensures { IfOk result (λ f. form_seen f
        ≡ form_named (tables_seen tables.entry) (does (send (placed_of destination.now) (placed_of tag.now) (payload_of payload.now)))) }
{
    let destination = name(alloc, tables, destination)?;
    let tag = match name(alloc, tables, tag) {
        Ok(tag) => tag,
        Err(error) => {
            drop(destination);
            return Err(error);
        }
    };
    match name_payload(alloc, tables, payload) {
        Ok(payload) => Ok(Form::Send(destination, tag, payload)),
        Err(error) => {
            drop(destination);
            drop(tag);
            Err(error)
        }
    }
}

/// A receive with names for its places.
pub(super) fn name_receive(
    alloc: Heap,
    tables: Tables<'_>,
    source: &Pattern,
    tag: &Pattern,
    buffer: &Buffer,
) -> Result<Form, AllocError>
    requires source { IsPatternWithin (length (tables_seen tables).variables) (length (tables_seen tables).arrays) (pattern_of source.now) }
    requires tag { IsPatternWithin (length (tables_seen tables).variables) (length (tables_seen tables).arrays) (pattern_of tag.now) }
    requires buffer { IsBufferWithin (length (tables_seen tables).variables) (length (tables_seen tables).arrays) (buffer_of buffer.now) }
    ensures { IfOk result (λ f. form_seen f
        ≡ form_named (tables_seen tables.entry) (does (receive (pattern_of source.now) (pattern_of tag.now) (buffer_of buffer.now)))) }
{
    let source = name_pattern(alloc, tables, source)?;
    match name_pattern(alloc, tables, tag) {
        Ok(tag) => Ok(Form::Recv(source, tag, name_buffer(tables, buffer))),
        Err(error) => {
            drop(source);
            Err(error)
        }
    }
}

/// A probe that waits, with names for its places.
pub(super) fn name_probe(
    alloc: Heap,
    tables: Tables<'_>,
    source: &Pattern,
    tag: &Pattern,
) -> Result<Form, AllocError>
    requires source { IsPatternWithin (length (tables_seen tables).variables) (length (tables_seen tables).arrays) (pattern_of source.now) }
    requires tag { IsPatternWithin (length (tables_seen tables).variables) (length (tables_seen tables).arrays) (pattern_of tag.now) }
    ensures { IfOk result (λ f. form_seen f
        ≡ form_named (tables_seen tables.entry) (does (probe (pattern_of source.now) (pattern_of tag.now)))) }
{
    let source = name_pattern(alloc, tables, source)?;
    match name_pattern(alloc, tables, tag) {
        Ok(tag) => Ok(Form::Probe(source, tag)),
        Err(error) => {
            drop(source);
            Err(error)
        }
    }
}

/// A probe that doesn't wait, with names for its places.
pub(super) fn name_try_probe(
    alloc: Heap,
    tables: Tables<'_>,
    source: &Pattern,
    tag: &Pattern,
    flag: usize,
) -> Result<Form, AllocError>
    requires source { IsPatternWithin (length (tables_seen tables).variables) (length (tables_seen tables).arrays) (pattern_of source.now) }
    requires tag { IsPatternWithin (length (tables_seen tables).variables) (length (tables_seen tables).arrays) (pattern_of tag.now) }
    requires flag { flag < length (tables_seen tables).variables }
    ensures { IfOk result (λ f. form_seen f
        ≡ form_named (tables_seen tables.entry) (does (try_probe (pattern_of source.now) (pattern_of tag.now) flag))) }
{
    let source = name_pattern(alloc, tables, source)?;
    match name_pattern(alloc, tables, tag) {
        Ok(tag) => Ok(Form::TryProbe(source, tag, tables.variables[flag])),
        Err(error) => {
            drop(source);
            Err(error)
        }
    }
}
