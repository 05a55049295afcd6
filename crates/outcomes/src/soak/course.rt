//! How far a rank has come once the lines of a script are used.
ghost use Rattle.std.specs.Prelude.{◌≡◌};
ghost use Rattle.outcomes.specs.Soak.Lines.{imaged_in, reached_in};

use rank_text::script::{Order, ScriptLine};

/// The greatest clock at which the rank has a line, or 0.
pub fn reached(lines: &[ScriptLine], rank: u8) -> u32
    ensures { result ≡ reached_in rank lines.now }
{
    let mut last = 0;
    let mut rest = lines;
    while let [line, more @ ..] = rest {
        if line.rank == rank {
            last = last.max(line.clock);
        }
        rest = more;
    }
    last
}

/// The greatest clock at which the rank takes an image, or 0: a restart
/// begins there.
pub fn imaged(lines: &[ScriptLine], rank: u8) -> u32
    ensures { result ≡ imaged_in rank lines.now }
{
    let mut last = 0;
    let mut rest = lines;
    while let [line, more @ ..] = rest {
        if line.rank == rank && line.order == Order::Image {
            last = last.max(line.clock);
        }
        rest = more;
    }
    last
}
