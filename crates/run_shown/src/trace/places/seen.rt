//! Whether an act was made, as the acts of a run show it.
ghost use Rattle.std.specs.Prelude.{◌≡◌, IsTrue, Some, slice_get};
ghost use Rattle.crash_free.specs.Seen.{act_of};

use crash_free::{Act, Passed};

/// Whether this act stands at the index.
pub fn is_there(acts: &[Passed], index: usize, passed: &Passed) -> bool
    ensures { IsTrue result → slice_get acts.now index ≡ Some passed.now }
{
    match acts.get(index) {
        Some(act) => act.rank == passed.rank && is_same(&act.act, &passed.act),
        None => false,
    }
}

fn is_same(act: &Act, other: &Act) -> bool
    ensures { IsTrue result → act_of act.now ≡ act_of other.now }
{
    match act {
        Act::Sends { .. } => is_same_send(act, other),
        Act::Takes { source, place } => match other {
            Act::Takes {
                source: other_source,
                place: other_place,
            } => source == other_source && place == other_place,
            Act::Sends { .. } | Act::Hits { .. } | Act::Misses | Act::Prints(_) => false,
        },
        Act::Hits { source, place } => match other {
            Act::Hits {
                source: other_source,
                place: other_place,
            } => source == other_source && place == other_place,
            Act::Sends { .. } | Act::Takes { .. } | Act::Misses | Act::Prints(_) => false,
        },
        Act::Misses => matches!(other, Act::Misses),
        Act::Prints(value) => match other {
            Act::Prints(other_value) => value == other_value,
            Act::Sends { .. } | Act::Takes { .. } | Act::Hits { .. } | Act::Misses => false,
        },
    }
}

fn is_same_send(act: &Act, other: &Act) -> bool
    ensures { IsTrue result → act_of act.now ≡ act_of other.now }
{
    let Act::Sends {
        dest,
        context,
        tag,
        items,
    } = act
    else {
        return false;
    };
    let Act::Sends {
        dest: other_dest,
        context: other_context,
        tag: other_tag,
        items: other_items,
    } = other
    else {
        return false;
    };
    *dest == *other_dest
        && *context == *other_context
        && *tag == *other_tag
        && has_items(items.as_slice(), other_items.as_slice())
}

fn has_items(items: &[i64], others: &[i64]) -> bool
    ensures { IsTrue result → items.now ≡ others.now }
{
    items == others
}
