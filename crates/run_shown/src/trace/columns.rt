//! Columns that line up, and lists of numbers.
ghost use Rattle.std.specs.Prelude.{◌≡◌, ◌≤◌, ◌++◌, OnOk, string_bytes};
ghost use Rattle.run_shown.specs.Trace.Columns.{between, digit_count, head_text, right};

use limits::Heap;
use std::alloc::AllocError;
use std::fmt::Write;

/// How many digits the number has.
#[tactic(auto, using(crate::proofs::TraceLaws::ColumnLemmas::counted, crate::proofs::TraceLaws::ColumnLemmas::one_digit))]
pub fn digits(number: u64) -> usize
    ensures { result ≡ digit_count number }
{
    match number.checked_ilog10() {
        Some(power) => power as usize + 1,
        None => 1,
    }
}

/// Writes the number, with spaces before it up to this width.
#[tactic(auto, using(crate::proofs::TraceLaws::ColumnLemmas::padded_right))]
pub fn put_right(to: &mut String<Heap>, number: u64, width: usize) -> Result<(), AllocError>
    ensures { OnOk result (string_bytes to.new ≡ string_bytes to.old ++ right width number) }
{
    write!(to, "{number:>width$}")
}

/// Writes the line above the columns, where that of the clocks has this width.
pub fn put_head(to: &mut String<Heap>, width: usize) -> Result<(), AllocError>
    requires { 5 ≤ width }
    ensures { OnOk result (string_bytes to.new ≡ string_bytes to.old ++ head_text width) }
{
    writeln!(to, "rank {:>width$}  line  act", "clock")
}

/// Writes what stands before the item at this index of so many: nothing, `, ` or ` and `.
pub fn put_between(to: &mut String<Heap>, index: usize, count: usize) -> Result<(), AllocError>
    ensures { OnOk result (string_bytes to.new ≡ string_bytes to.old ++ between index count) }
{
    if index == 0 {
        Ok(())
    } else if index.checked_add(1) == Some(count) {
        to.push_str(" and ")
    } else {
        to.push_str(", ")
    }
}
