//! A line's bytes, before its tokens are looked at.
ghost use Rattle.std.specs.Prelude.{◌≡◌};
ghost use Rattle.rank_text.specs.Grammar.Tokens.{is_word_byte};
ghost use Rattle.rank_text.specs.Checker.Lines.{front_word, is_skipped, is_statement, is_text};

use crate::grammar::Token;
use crate::grammar::words::reserved_token;
use crate::lines::without_front;

/// Whether each byte is a space or a printable character of ASCII.
pub(crate) fn is_text(line: &[u8]) -> bool
    ensures { result ≡ is_text line.now }
{
    let mut rest = line;
    while let [byte, more @ ..] = rest {
        if *byte < b' ' || b'~' < *byte {
            return false;
        }
        rest = more;
    }
    true
}

/// Whether the line of a program's text has only spaces, or is a comment.
pub fn is_skipped(line: &[u8]) -> bool
    ensures { result ≡ is_skipped line.now }
{
    match without_front(line, b' ') {
        [] => true,
        [byte, ..] => *byte == b'#',
    }
}

fn is_word_byte(byte: u8) -> bool
    ensures { result ≡ is_word_byte byte }
{
    byte.is_ascii_uppercase() || byte.is_ascii_lowercase() || byte == b'_' || byte.is_ascii_digit()
}

/// The letters, digits and `_` in front.
fn front_word(line: &[u8]) -> &[u8]
    ensures { result.now ≡ front_word line.now }
{
    let mut length = 0;
    while length < line.len() && is_word_byte(line[length]) {
        length += 1;
    }
    &line[..length]
}

/// Whether the line begins with a statement word.
pub(crate) fn is_statement(line: &[u8]) -> bool
    ensures { result ≡ is_statement line.now }
{
    match reserved_token(front_word(without_front(line, b' '))) {
        Some(Token::Keyword(_)) => true,
        _ => false,
    }
}
