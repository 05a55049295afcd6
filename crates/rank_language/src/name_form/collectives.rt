//! Names for the places of collectives.
ghost use Rattle.std.specs.Prelude.{◌≡◌, ◌<◌, IfOk, length};
ghost use Rattle.rank_text.specs.Grammar.SeenForms.{form_seen};
ghost use Rattle.rank_language.specs.Named.{collective_named};
ghost use Rattle.rank_language.specs.Placed.{reduce};
ghost use Rattle.rank_language.specs.Program.{IsWithin};
ghost use Rattle.rank_language.specs.Program.{IsCollectiveWithin};
ghost use Rattle.rank_language.specs.Seen.{collective_of, placed_of};
ghost use Rattle.rank_language.specs.SeenTables.{tables_seen};

use super::{name, name_buffer};
use crate::expression::Expression;
use crate::resolve::Tables;
use crate::statement::Collective;
use limits::Heap;
use rank_text::grammar::{Form, Reduction};
use std::alloc::AllocError;

/// A reduction with names for its places.
fn name_reduction(
    alloc: Heap,
    tables: Tables<'_>,
    reduction: Reduction,
    root: &Expression,
    value: &Expression,
    place: usize,
) -> Result<Form, AllocError>
    requires root { IsWithin (length (tables_seen tables).variables) (length (tables_seen tables).arrays) (placed_of root.now) }
    requires value { IsWithin (length (tables_seen tables).variables) (length (tables_seen tables).arrays) (placed_of value.now) }
    requires place { place < length (tables_seen tables).variables }
    ensures { IfOk result (λ f. form_seen f
        ≡ collective_named (tables_seen tables.entry) (reduce reduction (placed_of root.now) (placed_of value.now) place)) }
{
    let root = name(alloc, tables, root)?;
    match name(alloc, tables, value) {
        Ok(value) => Ok(Form::Reduce(reduction, root, value, tables.variables[place])),
        Err(error) => {
            drop(root);
            Err(error)
        }
    }
}

/// The collective with names for its places.
pub(super) fn name_collective(
    alloc: Heap,
    tables: Tables<'_>,
    collective: &Collective,
) -> Result<Form, AllocError>
    requires { IsCollectiveWithin (length (tables_seen tables).variables) (length (tables_seen tables).arrays) (collective_of collective.now) }
    ensures { IfOk result (λ f. form_seen f ≡ collective_named (tables_seen tables.entry) (collective_of collective.now)) }
{
    match collective {
        Collective::Barrier => Ok(Form::Barrier),
        Collective::Broadcast { root, buffer } => match name(alloc, tables, root) {
            Ok(root) => Ok(Form::Bcast(root, name_buffer(tables, buffer))),
            Err(error) => Err(error),
        },
        Collective::Reduce {
            reduction,
            root,
            value,
            place,
        } => name_reduction(alloc, tables, *reduction, root, value, *place),
    }
}
