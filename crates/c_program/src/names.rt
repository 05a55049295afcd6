//! Names of a rank program as names in C.
ghost use Rattle.std.specs.Prelude.{◌≡◌, ◌++◌, OnOk, map};
ghost use Rattle.rank_text.specs.Checker.Scope.{is_name_in};
ghost use Rattle.c_program.specs.Names.{c_name, ending_of, is_reserved};

use limits::Heap;
use rank_text::grammar::Name;
use std::alloc::AllocError;

/// The keywords of C up to its edition of 2024, and the words that GNU compilers define, without
/// those that begin with `_` and those that are reserved in rank programs too.
pub(crate) const C_WORDS: [&str; 46] = [
    "alignas",
    "alignof",
    "asm",
    "auto",
    "bool",
    "break",
    "case",
    "char",
    "const",
    "constexpr",
    "continue",
    "default",
    "do",
    "double",
    "enum",
    "extern",
    "false",
    "float",
    "for",
    "goto",
    "i386",
    "inline",
    "int",
    "linux",
    "long",
    "nullptr",
    "register",
    "restrict",
    "return",
    "short",
    "signed",
    "sizeof",
    "static",
    "static_assert",
    "struct",
    "switch",
    "thread_local",
    "true",
    "typedef",
    "typeof",
    "typeof_unqual",
    "union",
    "unix",
    "unsigned",
    "void",
    "volatile",
];

/// Whether the word is one of these.
fn is_among(words: &[&str], word: &[u8]) -> bool
    ensures { result ≡ is_name_in (map (λ w. w.now) words.now) word.now }
{
    for known in words {
        if known.as_bytes() == word {
            return true;
        }
    }
    false
}

/// Whether C may have the word.
fn is_reserved(word: &[u8]) -> bool
    ensures { result ≡ is_reserved word.now }
{
    match word {
        [] => false,
        [first, ..] => *first == b'_' || is_among(&C_WORDS, word),
    }
}

/// What stands behind a name in C: a word that C may have gets an ending.
#[tactic(auto, unfolding(crate::specs::Names::ending_of))]
fn ending_of(word: &[u8]) -> &'static [u8]
    ensures { result.now ≡ ending_of word.now }
{
    if is_reserved(word) {
        b"_of_this_program"
    } else {
        b""
    }
}

/// Writes a name as it is in C.
pub(crate) fn put_name(text: &mut Vec<u8, Heap>, name: &Name) -> Result<(), AllocError>
    ensures { OnOk result (text.new.items ≡ text.old.items ++ c_name name.now) }
{
    text.extend_from_slice(name.as_bytes())?;
    text.extend_from_slice(ending_of(name.as_bytes()))
}
