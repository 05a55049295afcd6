//! The same as JSON: an object a line.

mod acts;
mod ends;
mod left;

use crate::json::JsonLines;
use crate::trace::given::Told;
use acts::put_acts;
use ends::{put_circles, put_ends};
use left::{put_cost, put_orders, put_unreceived};
use limits::Heap;
use std::alloc::AllocError;

/// The run that is told, as JSON.
pub fn json_of(
    alloc: Heap,
    told: Told<'_, '_>,
    crashes: u64,
    calls: u64,
) -> Result<String<Heap>, AllocError> {
    let mut lines = JsonLines::new(alloc);
    put_acts(alloc, &mut lines, told);
    put_ends(alloc, &mut lines, told);
    put_circles(alloc, &mut lines, told.run, told.ends);
    put_unreceived(alloc, &mut lines, told);
    put_orders(alloc, &mut lines, told.orders, told.acts, told.places);
    put_cost(alloc, &mut lines, crashes, calls);
    lines.done()
}
