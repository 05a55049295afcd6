//! Ranks and lines, named in a sentence.
ghost use Rattle.std.specs.Prelude.{◌≡◌, ◌++◌, OnOk, string_bytes};
ghost use Rattle.std.specs.Fmt.{decimal};
ghost use Rattle.runner.specs.Enumerations.{between, enumeration, named_lines, named_ranks};

use limits::Heap;
use std::alloc::AllocError;
use std::fmt::Write;

/// The ranks: `rank 1`, `ranks 0 and 1`.
pub fn print_ranks(text: &mut String<Heap>, ranks: &[usize]) -> Result<(), AllocError>
    ensures { OnOk result (string_bytes text.new ≡ string_bytes text.old ++ named_ranks ranks.now) }
{
    let count = ranks.len();
    text.push_str(if count == 1 { "rank " } else { "ranks " })?;
    print_numbers(text, ranks)
}

/// The lines: `line 3`, `lines 3 and 4`.
pub fn print_lines(text: &mut String<Heap>, lines: &[usize]) -> Result<(), AllocError>
    ensures { OnOk result (string_bytes text.new ≡ string_bytes text.old ++ named_lines lines.now) }
{
    let count = lines.len();
    text.push_str(if count == 1 { "line " } else { "lines " })?;
    print_numbers(text, lines)
}

// The numbers: `3`, `3 and 4`, `3, 4 and 6`.
fn print_numbers(text: &mut String<Heap>, numbers: &[usize]) -> Result<(), AllocError>
    ensures { OnOk result (string_bytes text.new ≡ string_bytes text.old ++ enumeration numbers.now) }
{
    let mut rest = numbers;
    while let [number, more @ ..] = rest {
        print_number(text, *number, more.len())?;
        rest = more;
    }
    Ok(())
}

// A number, and what stands between it and these many more.
fn print_number(text: &mut String<Heap>, number: usize, left: usize) -> Result<(), AllocError>
    ensures { OnOk result (string_bytes text.new ≡ string_bytes text.old ++ decimal number ++ between left) }
{
    if left == 0 {
        write!(text, "{number}")
    } else if left == 1 {
        write!(text, "{number} and ")
    } else {
        write!(text, "{number}, ")
    }
}
