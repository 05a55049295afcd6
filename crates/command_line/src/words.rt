//! Words, read as options, what these are given, and files.
//!
//! `clap` takes no word for a value that begins with two hyphens, unless it stands
//! behind an equals sign or behind `--`. So each word before `--` that begins so is
//! an option.
ghost use Rattle.std.specs.Prelude.{◌≡◌, ◌<◌, [], ◌∷◌, IfSome, length, option_map, slice_get};
ghost use Rattle.std.specs.NonZero.{non_zero_u32_get};
ghost use Rattle.std.specs.Str.{bytes_eq};
ghost use Rattle.command_line.specs.Words.{IsSpelledIf, Spells, behind_hyphen, cut_of, files_behind, files_of, first_of, given_by};
ghost use Rattle.command_line.specs.Words.{is_end, is_flag, is_given, is_option, name_and_value, option_in, own_value, takes_next, texts, value_of};

use std::num::NonZeroU32;

/// Whether the word is this text. Each `==` of texts would be proved anew.
pub fn is(word: &str, text: &str) -> bool
    ensures { result ≡ bytes_eq word.now text.now }
{
    word == text
}

/// The first word, and the words behind it.
pub fn next_word(words: &[String]) -> Option<(&str, &[String])>
    ensures cut { cut_of result ≡ texts words.now }
    ensures shorter { IfSome result (λ cut. length cut.1.now < length words.now) }
{
    match words {
        [word, rest @ ..] => Some((word.as_str(), rest)),
        [] => None,
    }
}

fn is_end(word: &str) -> bool
    ensures { result ≡ is_end word.now }
{
    is(word, "--")
}

/// What stands behind a hyphen in front.
pub fn behind_hyphen(word: &str) -> Option<&str>
    ensures { option_map (λ rest. rest.now) result ≡ behind_hyphen word.now }
{
    word.strip_prefix('-')
}

fn name_and_value(text: &str) -> (&str, Option<&str>)
    ensures { (result.0.now, option_map (λ value. value.now) result.1) ≡ name_and_value text.now }
{
    match text.split_once('=') {
        Some((name, value)) => (name, Some(value)),
        None => (text, None),
    }
}

// The name of the option that the word is, and the value behind an equals sign.
fn option_in(word: &str) -> Option<(&str, Option<&str>)>
    ensures { option_map (λ option. (option.0.now, option_map (λ value. value.now) option.1)) result ≡ option_in word.now }
{
    let Some(letters) = behind_hyphen(word) else {
        return None;
    };
    match behind_hyphen(letters) {
        Some(named) => Some(name_and_value(named)),
        None => None,
    }
}

fn is_option(name: &str, word: &str) -> bool
    ensures { result ≡ is_option name.now word.now }
{
    match option_in(word) {
        Some((found, _)) => found == name,
        None => false,
    }
}

fn own_value(word: &str) -> Option<&str>
    ensures { option_map (λ value. value.now) result ≡ own_value word.now }
{
    match option_in(word) {
        Some((_, value)) => value,
        None => None,
    }
}

fn first_of(words: &[String]) -> Option<&str>
    ensures { option_map (λ word. word.now) result ≡ first_of (texts words.now) }
{
    match words {
        [word, ..] => Some(word.as_str()),
        [] => None,
    }
}

// What the option that the word is has been given.
fn given_by<'a>(word: &'a str, rest: &'a [String]) -> Option<&'a str>
    ensures { option_map (λ value. value.now) result ≡ given_by word.entry.now (texts rest.entry.now) }
{
    match own_value(word) {
        Some(value) => Some(value),
        None => first_of(rest),
    }
}

/// What the option of this name is given.
pub fn value_of<'a>(name: &str, arguments: &'a [String]) -> Option<&'a str>
    ensures { option_map (λ value. value.now) result ≡ value_of name.now (texts arguments.entry.now) }
{
    let mut rest = arguments;
    while let Some((word, more)) = next_word(rest) {
        if is_end(word) {
            return None;
        }
        if is_option(name, word) {
            return given_by(word, more);
        }
        rest = more;
    }
    None
}

/// Whether the option of this name is there.
pub fn is_given(name: &str, arguments: &[String]) -> bool
    ensures { result ≡ is_given name.now (texts arguments.now) }
{
    let mut rest = arguments;
    while let Some((word, more)) = next_word(rest) {
        if is_end(word) {
            return false;
        }
        if is_option(name, word) {
            return true;
        }
        rest = more;
    }
    false
}

// A new option without a value has its line here.
fn is_flag(command: &str, name: &str) -> bool
    ensures { result ≡ is_flag command.now name.now }
{
    is(name, "costs")
        || is(name, "json")
        || is(name, "picture")
        || is(name, "summary")
        || is(name, "synchronous")
        || is(name, "to-the-end")
        || is(name, "trace")
        || (is(name, "events") && is(command, "trace"))
}

fn takes_next(command: &str, name: &str, value: Option<&str>) -> bool
    ensures { result ≡ takes_next command.now (name.now, option_map (λ own. own.now) value.entry) }
{
    value.is_none() && !is_flag(command, name)
}

// The file of this number, from 0.
fn file_at<'a>(command: &str, place: usize, arguments: &'a [String]) -> Option<&'a str>
    ensures { option_map (λ file. file.now) result ≡ slice_get (files_of command.now (texts arguments.entry.now)) place }
{
    let mut rest = arguments;
    let mut left = place;
    let mut is_value = false;
    while let Some((word, more)) = next_word(rest) {
        rest = more;
        if is_value {
            is_value = false;
            continue;
        }
        if is_end(word) {
            return word_at(left, more);
        }
        if let Some((name, value)) = option_in(word) {
            is_value = takes_next(command, name, value);
            continue;
        }
        if left == 0 {
            return Some(word);
        }
        left -= 1;
    }
    None
}

// The word of this number, from 0.
fn word_at(place: usize, words: &[String]) -> Option<&str>
    ensures { option_map (λ word. word.now) result ≡ slice_get (texts words.now) place }
{
    let mut rest = words;
    let mut left = place;
    while let Some((word, more)) = next_word(rest) {
        if left == 0 {
            return Some(word);
        }
        left -= 1;
        rest = more;
    }
    None
}

/// The file that stands alone.
#[tactic(auto, using(crate::proofs::WordLemmas::one_alone))]
pub fn one_file<'a>(command: &str, arguments: &'a [String]) -> Option<&'a str>
    ensures { IfSome result (λ file. files_of command.now (texts arguments.entry.now) ≡ file.now ∷ []) }
{
    match (
        file_at(command, 0, arguments),
        file_at(command, 1, arguments),
    ) {
        (Some(file), None) => Some(file),
        _ => None,
    }
}

/// The two files, in order.
#[tactic(auto, using(crate::proofs::WordLemmas::two_alone))]
pub fn two_files<'a>(command: &str, arguments: &'a [String]) -> Option<(&'a str, &'a str)>
    ensures { IfSome result (λ files. files_of command.now (texts arguments.entry.now) ≡ files.0.now ∷ files.1.now ∷ []) }
{
    let third = file_at(command, 2, arguments);
    match (
        file_at(command, 0, arguments),
        file_at(command, 1, arguments),
        third,
    ) {
        (Some(first), Some(second), None) => Some((first, second)),
        _ => None,
    }
}

/// The number that this option is given, if it is there; None for a number that
/// is 0.
#[tactic(auto, using(crate::proofs::WordLemmas::counted))]
pub fn count_if(name: &str, arguments: &[String]) -> Option<Option<NonZeroU32>>
    ensures { IfSome result (λ count. IsSpelledIf (value_of name.now (texts arguments.now)) count) }
{
    match value_of(name, arguments) {
        Some(text) => match count_in(text) {
            Some(count) => Some(Some(count)),
            None => None,
        },
        None => Some(None),
    }
}

fn count_in(text: &str) -> Option<NonZeroU32>
    ensures { IfSome result (λ count. Spells text.now (non_zero_u32_get count)) }
{
    match number_in(text) {
        Some(number) => NonZeroU32::new(number),
        None => None,
    }
}

/// The number that the text spells, if it is of 32 bits.
pub fn number_in(text: &str) -> Option<u32>
    ensures { IfSome result (λ number. Spells text.now number) }
{
    match text.parse::<i64>() {
        Ok(number) => u32::try_from(number).ok(),
        Err(_) => None,
    }
}
