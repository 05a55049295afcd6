//! The words that the program is called with.
ghost use Rattle.std.specs.Prelude.{◌≡◌, ℕ};

use std::alloc::AllocError;
use std::env::FillError;
use std::io::Write;
use std::rt::Env;

// Most words fit into so many bytes.
const FIRST_ROOM: usize = 256;

/// Why there are no words.
#[derive(Clone, Copy)]
pub enum WordsFault {
    /// The argument of this number isn't UTF-8. Arguments are counted from 1, behind
    /// the program's name, which has number 0.
    NotText(usize),
    Memory,
}

impl WordsFault {
    /// Says it on standard error and answers the exit status. A write that fails
    /// changes no status.
    pub fn tell<E: Write>(self, err: &mut E) -> u8
        ensures not_text { (number : ℕ) → self ≡ WordsFault.NotText number → result ≡ 3 }
        ensures memory { self ≡ WordsFault.Memory → result ≡ 4 }
    {
        let _ = match self {
            WordsFault::NotText(number) => writeln!(err, "argument {number} isn't UTF-8"),
            WordsFault::Memory => writeln!(err, "out of memory"),
        };
        match self {
            WordsFault::NotText(_) => 3,
            WordsFault::Memory => 4,
        }
    }
}

impl From<AllocError> for WordsFault {
    fn from(_: AllocError) -> WordsFault {
        WordsFault::Memory
    }
}

/// The words that the program is called with, its own name first.
pub fn words_given<R: Env + AllocGlobal>(rt: &R) -> Result<Vec<String>, WordsFault> {
    let mut words = Vec::new(rt.alloc());
    for number in 0..usize::MAX {
        let Some(bytes) = bytes_given(rt, number)? else {
            break;
        };
        let Ok(word) = String::from_utf8(bytes) else {
            return Err(WordsFault::NotText(number));
        };
        if words.push(word).is_err() {
            return Err(WordsFault::Memory);
        }
    }
    Ok(words)
}

// The bytes of the argument of this number, if there is one. How many they are isn't
// known before, so the room for them doubles until they fit.
fn bytes_given<R: Env + AllocGlobal>(rt: &R, number: usize) -> Result<Option<Vec<u8>>, AllocError> {
    let mut room = FIRST_ROOM;
    for _ in 0..usize::BITS {
        let mut bytes = vec![in rt.alloc(); 0u8; room]?;
        match rt.arg(number, bytes.as_mut_slice()) {
            Ok(length) => {
                bytes.truncate(length);
                return Ok(Some(bytes));
            }
            Err(FillError::NotPresent) => return Ok(None),
            Err(FillError::TooLong) => room = room.saturating_mul(2),
        }
    }
    Err(AllocError)
}
