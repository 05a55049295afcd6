//! Lines that tell nothing.
ghost use Rattle.std.specs.Prelude.{◌≡◌};
ghost use Rattle.rank_text.specs.Lines.Skipped.{is_comment, is_skipped};

use crate::lines::pieces::next_word;

/// Whether the line begins with `#`.
fn is_comment(line: &[u8]) -> bool
    ensures { result ≡ is_comment line.now }
{
    match line {
        [byte, ..] => *byte == b'#',
        [] => false,
    }
}

/// Whether the line has only spaces, or begins with `#`.
pub fn is_skipped(line: &[u8]) -> bool
    ensures { result ≡ is_skipped line.now }
{
    is_comment(line) || next_word(line).is_none()
}
