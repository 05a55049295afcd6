//! Numbers of an event.
ghost use Rattle.std.specs.Prelude.{◌≡◌};
ghost use Rattle.world_model.specs.EventsText.Events.{number_in};

use rank_text::lines::decimal;

/// The number of 1 to 9 decimal digits, if the word is one.
#[tactic(auto, using(crate::proofs::EventsTextLaws::NumberLaws::nine_digits))]
pub(crate) fn number_in(word: &[u8]) -> Option<u32>
    ensures { result ≡ number_in word.now }
{
    if 9 < word.len() {
        return None;
    }
    decimal(word)
}
