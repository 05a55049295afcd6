//! A text's pieces between separators: its lines, and a line's words.
ghost use Rattle.std.specs.Prelude.{◌≡◌, ◌<◌, IfSome, length};
ghost use Rattle.rank_text.specs.Lines.Pieces.{behind, cut_of, front, pieces_of, without_front, word_cut_of, words_of};

/// The bytes before the first separator, or all where there is none.
fn front(text: &[u8], separator: u8) -> &[u8]
    ensures { result.now ≡ front separator text.now }
{
    let mut length = 0;
    while length < text.len() && text[length] != separator {
        length += 1;
    }
    &text[..length]
}

/// The bytes behind the first separator, or none where there is none.
fn behind(text: &[u8], separator: u8) -> &[u8]
    ensures behind { result.now ≡ behind separator text.now }
    ensures shorter { 0 < length text.now → length result.now < length text.now }
{
    let mut rest = text;
    while let [byte, more @ ..] = rest {
        if *byte == separator {
            return more;
        }
        rest = more;
    }
    rest
}

/// The bytes from the first on that isn't the separator.
pub fn without_front(text: &[u8], separator: u8) -> &[u8]
    ensures { result.now ≡ without_front separator text.now }
{
    let mut rest = text;
    while let [byte, more @ ..] = rest {
        if *byte != separator {
            return rest;
        }
        rest = more;
    }
    rest
}

/// The first line, and what follows it.
#[tactic(auto, using(crate::proofs::LinesLaws::PieceLaws::first_piece))]
pub fn next_line(text: &[u8]) -> Option<(&[u8], &[u8])>
    ensures lines { cut_of 10 result ≡ pieces_of 10 text.now }
    ensures shorter { IfSome result (λ cut. length cut.1.now < length text.now) }
{
    if text.is_empty() {
        return None;
    }
    Some((front(text, b'\n'), behind(text, b'\n')))
}

/// The first word, and what follows it.
#[tactic(auto, using(crate::proofs::LinesLaws::PieceLaws::first_word, crate::proofs::LinesLaws::PieceLaws::no_word))]
pub fn next_word(line: &[u8]) -> Option<(&[u8], &[u8])>
    ensures { word_cut_of result ≡ words_of line.now }
{
    let rest = without_front(line, b' ');
    if rest.is_empty() {
        return None;
    }
    Some((front(rest, b' '), behind(rest, b' ')))
}
