//! The reserved words.

ghost use Rattle.std.specs.Prelude.{◌≡◌};
ghost use Rattle.std.specs.Str.{bytes_eq};
ghost use Rattle.rank_text.specs.Grammar.Tokens.{found_in, control_words, message_words, reading_words, argument_words, reserved};

use crate::grammar::token::{Keyword, Reading, Reduction, Token};

fn is_word(word: &[u8], reserved: &[u8]) -> bool
    ensures { result ≡ bytes_eq word.now reserved.now }
{
    word == reserved
}

#[tactic(auto, unfolding(crate::specs::Grammar::Tokens::control_words))]
fn control_word(word: &[u8]) -> Option<Token>
    ensures { result ≡ found_in control_words word.now }
{
    if is_word(word, b"var") {
        return Some(Token::Keyword(Keyword::Var));
    }
    if is_word(word, b"array") {
        return Some(Token::Keyword(Keyword::Array));
    }
    if is_word(word, b"let") {
        return Some(Token::Keyword(Keyword::Let));
    }
    if is_word(word, b"if") {
        return Some(Token::Keyword(Keyword::If));
    }
    if is_word(word, b"else") {
        return Some(Token::Keyword(Keyword::Else));
    }
    if is_word(word, b"end") {
        return Some(Token::Keyword(Keyword::End));
    }
    if is_word(word, b"while") {
        return Some(Token::Keyword(Keyword::While));
    }
    None
}

#[tactic(auto, unfolding(crate::specs::Grammar::Tokens::message_words))]
fn message_word(word: &[u8]) -> Option<Token>
    ensures { result ≡ found_in message_words word.now }
{
    if is_word(word, b"send") {
        return Some(Token::Keyword(Keyword::Send));
    }
    if is_word(word, b"recv") {
        return Some(Token::Keyword(Keyword::Recv));
    }
    if is_word(word, b"probe") {
        return Some(Token::Keyword(Keyword::Probe));
    }
    if is_word(word, b"iprobe") {
        return Some(Token::Keyword(Keyword::Iprobe));
    }
    if is_word(word, b"print") {
        return Some(Token::Keyword(Keyword::Print));
    }
    if is_word(word, b"barrier") {
        return Some(Token::Keyword(Keyword::Barrier));
    }
    if is_word(word, b"bcast") {
        return Some(Token::Keyword(Keyword::Bcast));
    }
    if is_word(word, b"reduce") {
        return Some(Token::Keyword(Keyword::Reduce));
    }
    None
}

#[tactic(auto, unfolding(crate::specs::Grammar::Tokens::reading_words))]
fn reading_word(word: &[u8]) -> Option<Token>
    ensures { result ≡ found_in reading_words word.now }
{
    if is_word(word, b"rank") {
        return Some(Token::Reading(Reading::Rank));
    }
    if is_word(word, b"size") {
        return Some(Token::Reading(Reading::Size));
    }
    if is_word(word, b"source") {
        return Some(Token::Reading(Reading::Source));
    }
    if is_word(word, b"gottag") {
        return Some(Token::Reading(Reading::Tag));
    }
    if is_word(word, b"count") {
        return Some(Token::Reading(Reading::Count));
    }
    None
}

#[tactic(auto, unfolding(crate::specs::Grammar::Tokens::argument_words))]
fn argument_word(word: &[u8]) -> Option<Token>
    ensures { result ≡ found_in argument_words word.now }
{
    if is_word(word, b"any") {
        return Some(Token::Any);
    }
    if is_word(word, b"sum") {
        return Some(Token::Reduction(Reduction::Sum));
    }
    if is_word(word, b"max") {
        return Some(Token::Reduction(Reduction::Max));
    }
    if is_word(word, b"min") {
        return Some(Token::Reduction(Reduction::Min));
    }
    None
}

/// The token of a reserved word, which is the whole of `word`.
#[tactic(auto, using(crate::proofs::GrammarLaws::Tables::found_in_parts))]
pub fn reserved_token(word: &[u8]) -> Option<Token>
    ensures { result ≡ found_in reserved word.now }
{
    control_word(word)
        .or(message_word(word))
        .or(reading_word(word))
        .or(argument_word(word))
}
