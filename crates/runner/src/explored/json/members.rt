//! Members that several objects have.
ghost use Rattle.std.specs.Prelude.{◌≡◌, OnOk};
ghost use Rattle.serde_json.specs.Data.{put as with_member, string};
ghost use Rattle.serde_json.specs.View.{members_view, view};
ghost use Rattle.runner.specs.SearchObject.{mark_value, place_members, with_members};

use limits::Heap;
use serde_json::{Map, Value, put};
use std::alloc::AllocError;

pub fn put_text(
    alloc: Heap,
    to: &mut Map<String<Heap>, Value>,
    name: &str,
    text: &str,
) -> Result<(), AllocError>
    ensures { OnOk result (members_view to.new.entries ≡ with_member name.now (string text.now) (members_view to.old.entries)) }
{
    let text = Value::try_from_str(alloc, text)?;
    put(to, alloc, name, text)
}

pub fn put_place(
    alloc: Heap,
    to: &mut Map<String<Heap>, Value>,
    rank: u8,
    line: Option<usize>,
) -> Result<(), AllocError>
    ensures { OnOk result (members_view to.new.entries ≡ with_members (place_members rank line) (members_view to.old.entries)) }
{
    put(to, alloc, "rank", Value::from(u64::from(rank)))?;
    match line {
        Some(line) => put(to, alloc, "line", Value::from(line as u64)),
        None => Ok(()),
    }
}

pub fn shown(mark: Option<bool>) -> Value
    ensures { view result ≡ mark_value mark }
{
    match mark {
        Some(yes) => Value::from(yes),
        None => Value::Null,
    }
}
