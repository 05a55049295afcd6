//! The text of a script.
ghost use Rattle.std.specs.Prelude.{◌≡◌, IfOk, OnOk, ◌++◌, string_bytes};
ghost use Rattle.outcomes.specs.Soak.Text.{line_text, text_of};

use limits::Heap;
use rank_text::script::{Order, ScriptLine};
use std::alloc::AllocError;
use std::fmt::Write;

/// A script with these lines, in their order. An `Err` means out of memory.
pub fn text_of(alloc: Heap, lines: &[ScriptLine]) -> Result<String<Heap>, AllocError>
    ensures { IfOk result (λ text. string_bytes text ≡ text_of lines.now) }
{
    let mut text = String::new(alloc);
    let mut rest = lines;
    while let [line, more @ ..] = rest {
        print_line(&mut text, *line)?;
        rest = more;
    }
    Ok(text)
}

fn print_line(text: &mut String<Heap>, line: ScriptLine) -> Result<(), AllocError>
    ensures { OnOk result (string_bytes text.new ≡ string_bytes text.old ++ line_text line) }
{
    let (rank, clock) = (line.rank, line.clock);
    match line.order {
        Order::Kill => writeln!(text, "kill {rank} at {clock}"),
        Order::Image => writeln!(text, "image {rank} at {clock}"),
    }
}
