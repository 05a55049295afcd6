//! Words that ask for help or for the version.
ghost use Rattle.std.specs.Prelude.{◌≡◌};
ghost use Rattle.command_line.specs.Requests.{asks_for_help, begins_so, has_request, is_request, is_short};
ghost use Rattle.command_line.specs.Words.{texts};

use crate::words::{behind_hyphen, is, next_word};

/// Whether some word behind the program's own name asks for help or for the version, as `clap`
/// takes these words where no value of an option stands there.
pub fn asks_for_help(words: &[String]) -> bool
    ensures { result ≡ asks_for_help (texts words.now) }
{
    match next_word(words) {
        Some((_, behind)) => has_request(behind),
        None => false,
    }
}

fn has_request(words: &[String]) -> bool
    ensures { result ≡ has_request (texts words.now) }
{
    let mut rest = words;
    while let Some((word, more)) = next_word(rest) {
        if is_request(word) {
            return true;
        }
        rest = more;
    }
    false
}

fn is_request(word: &str) -> bool
    ensures { result ≡ is_request word.now }
{
    is(word, "help") || is(word, "--help") || is(word, "--version") || is_short(word)
}

// `-h` or `-V`. What stands behind these letters in a word is never looked at.
fn is_short(word: &str) -> bool
    ensures { result ≡ is_short word.now }
{
    match behind_hyphen(word) {
        Some(letters) => begins_so(letters.as_bytes()),
        None => false,
    }
}

fn begins_so(letters: &[u8]) -> bool
    ensures { result ≡ begins_so letters.now }
{
    match letters {
        [letter, ..] => *letter == b'h' || *letter == b'V',
        [] => false,
    }
}
