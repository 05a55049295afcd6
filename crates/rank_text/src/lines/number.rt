//! The number that a word spells.
ghost use Rattle.std.specs.Prelude.{◌≡◌, ◌<◌, IfSome};
ghost use Rattle.rank_text.specs.Lines.Numbers.{decimal_of, digit_of, kept_of, wide_of};

/// The value of a decimal digit.
fn digit_of(byte: u8) -> Option<u64>
    ensures digit { result ≡ digit_of byte }
    ensures small { IfSome result (λ digit. digit < 10) }
{
    if b'0' <= byte && byte <= b'9' {
        return Some(u64::from(byte - b'0'));
    }
    None
}

/// The number that a word of decimal digits spells, however many they are;
/// `u64::MAX` stands for each number above it. `None` where the word is empty or
/// has another character.
pub fn wide_decimal(word: &[u8]) -> Option<u64>
    ensures { result ≡ wide_of (decimal_of word.now) }
{
    if word.is_empty() {
        return None;
    }
    let mut value: u64 = 0;
    let mut rest = word;
    while let [byte, more @ ..] = rest {
        let digit = digit_of(*byte)?;
        value = value.saturating_mul(10).saturating_add(digit);
        rest = more;
    }
    Some(value)
}

/// The same, where `u32::MAX` stands for each number above it.
#[tactic(auto, using(crate::proofs::LinesLaws::NumberLaws::narrowed))]
pub fn decimal(word: &[u8]) -> Option<u32>
    ensures { result ≡ kept_of (decimal_of word.now) }
{
    match u32::try_from(wide_decimal(word)?) {
        Ok(number) => Some(number),
        Err(_) => Some(u32::MAX),
    }
}
