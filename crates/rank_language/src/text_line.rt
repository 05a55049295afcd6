//! The lines of a text by their numbers.
ghost use Rattle.std.specs.Prelude.{◌≡◌};
ghost use Rattle.rank_language.specs.StandOn.{line_of_text};
ghost use Rattle.rank_language.specs.LineNumbers.{line_seen};

use rank_text::lines::next_line;

/// The line of a text with this number, from 1, if there is one.
pub fn line_of_text(text: &[u8], number: usize) -> Option<&[u8]>
    ensures { line_seen result ≡ line_of_text text.now number }
{
    if number == 0 {
        return None;
    }
    let mut left = number - 1;
    let mut rest = text;
    while let Some((line, more)) = next_line(rest) {
        if left == 0 {
            return Some(line);
        }
        left -= 1;
        rest = more;
    }
    None
}
