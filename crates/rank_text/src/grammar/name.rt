//! Names of variables and arrays.

ghost use Rattle.std.specs.Prelude.{◌≡◌, ◌<◌, ◌↔◌, IsTrue, List, [], ◌∷◌, ◌++◌, length, take};
ghost use Rattle.limits.specs.Limits.{most_name_bytes};
ghost use Rattle.rank_text.specs.Grammar.Name.{kept_bytes};

use limits::MOST_NAME_BYTES;
use std::marker::Model;

/// How many bytes of a name are kept: one above the longest, so that a name
/// which is too long is still told apart from each that isn't.
const KEPT: usize = MOST_NAME_BYTES + 1;

/// A name as a text has it, up to its first 17 bytes, one more than a name may have.
///
/// Two names that are both too long are equal where what is kept of them is;
/// neither can be declared, so nothing is lost by that.
#[derive(Clone, Copy, PartialEq, Eq)]
pub struct Name {
    bytes: [u8; KEPT],
    len: u8,
}

impl Model for Name {
    ghost use Rattle.std.specs.Prelude.{ℕ, List, length, ◌≡◌, ◌≤◌, take};
    ghost use Rattle.rank_text.specs.Grammar.Name.{kept_bytes, padded};
    ghost use Rattle.rank_text.specs.Grammar.NameLaws.{unpadded};

    ghost Value = { List ℕ };

    ghost view = { λ n. take n.len n.bytes };

    ghost invariant = { λ n. (n.len ≤ kept_bytes) × (length n.bytes ≡ kept_bytes) × (n.bytes ≡ padded (take n.len n.bytes)) };

    ghost inverse = { λ xs. record { bytes = padded xs; len = length xs } };

    ghost inverse_ok = { λ n h. unpadded n h.0 h.1 h.2 };
}

impl Name {
    /// The name of these bytes, of which it keeps one more than a name may have.
    pub fn new(bytes: &[u8]) -> Name
        ensures { result ≡ take kept_bytes bytes.now }
    {
        let len = bytes.len().min(KEPT);
        let mut kept = [0; KEPT];
        for i in 0..len {
            kept[i] = bytes[i];
        }
        Name {
            bytes: kept,
            len: len as u8,
        }
    }

    /// The name with one byte more, if it isn't too long already.
    pub fn with(self, byte: u8) -> Name
        ensures { result ≡ take kept_bytes (self ++ byte ∷ []) }
    {
        let mut longer = self;
        if (longer.len as usize) < KEPT {
            longer.bytes[longer.len as usize] = byte;
            longer.len += 1;
        }
        longer
    }

    /// The bytes of the name, one more than a name may have where it is too long.
    pub fn as_bytes(&self) -> &[u8]
        ensures { result.now ≡ self.now }
    {
        &self.bytes[..self.len as usize]
    }

    /// Whether the name has more bytes than a name may have.
    pub fn is_too_long(&self) -> bool
        ensures { IsTrue result ↔ (most_name_bytes < length self.now) }
    {
        self.len as usize > MOST_NAME_BYTES
    }
}
