//! Cuts a line into its tokens, a byte at a time.

ghost use Rattle.std.specs.Prelude.{◌≡◌, ℕ, List, ◌∷◌, IfOk, IfSome, Some};
ghost use Rattle.rank_text.specs.declared.grammar.token.Token as token;
ghost use Rattle.rank_text.specs.Grammar.Lexes.{Lexes};
ghost use Rattle.rank_text.specs.Grammar.Tokens.{is_letter, is_digit, is_word_byte, is_sign, with_digit, word_or_name, lone_sign, with_equal, single};
ghost use Rattle.rank_text.specs.Grammar.Tokens.{begun, grown, flushed, and_after, tokens_from, tokens_of};
ghost use Rattle.rank_text.specs.Grammar.SeenTokens.{pending_of, pending_in, flush_of, from_next, tokens_in};

use crate::grammar::name::Name;
use crate::grammar::token::{Operator, Token};
use crate::grammar::words::reserved_token;
use limits::Heap;
use std::alloc::AllocError;

/// What the next byte may still go on with.
#[derive(Clone, Copy)]
enum Pending {
    Nothing,
    Word(Name),
    Digits(u64),
    /// One of `= < > !`, which `=` may follow.
    Sign(u8),
    Whole(Token),
}

fn is_letter(byte: u8) -> bool
    ensures { result ≡ is_letter byte }
{
    (b'A' <= byte && byte <= b'Z') || (b'a' <= byte && byte <= b'z') || byte == b'_'
}

fn is_digit(byte: u8) -> bool
    ensures { result ≡ is_digit byte }
{
    b'0' <= byte && byte <= b'9'
}

fn is_word_byte(byte: u8) -> bool
    ensures { result ≡ is_word_byte byte }
{
    is_letter(byte) || is_digit(byte)
}

fn is_sign(byte: u8) -> bool
    ensures { result ≡ is_sign byte }
{
    byte == b'=' || byte == b'<' || byte == b'>' || byte == b'!'
}

fn with_digit(number: u64, digit: u8) -> u64
    ensures { result ≡ with_digit number digit }
{
    let value = u64::from(digit.saturating_sub(b'0'));
    number.saturating_mul(10).saturating_add(value).min(1 << 63)
}

fn lone_sign(byte: u8) -> Option<Token>
    ensures { result ≡ lone_sign byte }
{
    match byte {
        b'=' => Some(Token::Assign),
        b'<' => Some(Token::Operator(Operator::Less)),
        b'>' => Some(Token::Operator(Operator::Greater)),
        _ => None,
    }
}

fn with_equal(byte: u8) -> Token
    ensures { result ≡ with_equal byte }
{
    match byte {
        b'=' => Token::Operator(Operator::Equal),
        b'<' => Token::Operator(Operator::LessEqual),
        b'>' => Token::Operator(Operator::GreaterEqual),
        _ => Token::Operator(Operator::NotEqual),
    }
}

fn single(byte: u8) -> Option<Token>
    ensures { result ≡ single byte }
{
    match byte {
        b'+' => Some(Token::Operator(Operator::Add)),
        b'-' => Some(Token::Operator(Operator::Subtract)),
        b'*' => Some(Token::Operator(Operator::Multiply)),
        b'/' => Some(Token::Operator(Operator::Divide)),
        b'%' => Some(Token::Operator(Operator::Remainder)),
        b'(' => Some(Token::OpenParenthesis),
        b')' => Some(Token::CloseParenthesis),
        b'[' => Some(Token::OpenBracket),
        b']' => Some(Token::CloseBracket),
        b',' => Some(Token::Comma),
        _ => None,
    }
}

/// What begins with a byte.
fn begun(byte: u8) -> Option<Pending>
    ensures { pending_in result ≡ begun byte }
{
    if byte == b' ' {
        return Some(Pending::Nothing);
    }
    if is_letter(byte) {
        return Some(Pending::Word(Name::new(&[byte])));
    }
    if is_digit(byte) {
        return Some(Pending::Digits(u64::from(byte - b'0')));
    }
    if is_sign(byte) {
        return Some(Pending::Sign(byte));
    }
    single(byte).map(Pending::Whole)
}

/// What a byte makes of what is pending, where it goes on with it.
fn grown(pending: Pending, byte: u8) -> Option<Pending>
    ensures { pending_in result ≡ grown (pending_of pending) byte }
{
    match pending {
        Pending::Word(word) => is_word_byte(byte).then_some(Pending::Word(word.with(byte))),
        Pending::Digits(number) => {
            is_digit(byte).then_some(Pending::Digits(with_digit(number, byte)))
        }
        Pending::Sign(sign) => (byte == b'=').then_some(Pending::Whole(with_equal(sign))),
        Pending::Nothing | Pending::Whole(_) => None,
    }
}

fn word_or_name(word: Name) -> Token
    ensures { result ≡ word_or_name word }
{
    match reserved_token(word.as_bytes()) {
        Some(token) => token,
        None => Token::Name(word),
    }
}

/// Puts the token of what is pending behind the others; the answer is whether
/// what is pending is a token, or nothing.
fn flush(pending: Pending, tokens: &mut Vec<Token, Heap>) -> Result<bool, AllocError>
    ensures { IfOk result (λ is_token. flush_of is_token tokens.new.items
        ≡ and_after (Some tokens.old.items) (flushed (pending_of pending))) }
{
    let token = match pending {
        Pending::Nothing => return Ok(true),
        Pending::Word(word) => Some(word_or_name(word)),
        Pending::Digits(number) => Some(Token::Number(number)),
        Pending::Sign(sign) => lone_sign(sign),
        Pending::Whole(token) => Some(token),
    };
    let Some(token) = token else {
        return Ok(false);
    };
    tokens.push(token)?;
    Ok(true)
}

/// What is pending after a byte, where it can stand there.
fn take_byte(
    pending: Pending,
    byte: u8,
    tokens: &mut Vec<Token, Heap>,
) -> Result<Option<Pending>, AllocError>
    ensures { IfOk result (λ next. (bs : List ℕ) → and_after (Some tokens.new.items) (from_next next bs)
        ≡ and_after (Some tokens.old.items) (tokens_from (pending_of pending) (byte ∷ bs))) }
{
    if let Some(more) = grown(pending, byte) {
        return Ok(Some(more));
    }
    let Some(next) = begun(byte) else {
        return Ok(None);
    };
    if !flush(pending, tokens)? {
        return Ok(None);
    }
    Ok(Some(next))
}

fn tokens_read(alloc: Heap, line: &[u8]) -> Result<Option<Vec<Token, Heap>>, AllocError>
    ensures { IfOk result (λ o. tokens_in o ≡ tokens_of line.now) }
{
    let mut tokens = Vec::new(alloc);
    let mut pending = Pending::Nothing;
    for byte in line {
        let Some(next) = take_byte(pending, *byte, &mut tokens)? else {
            return Ok(None);
        };
        pending = next;
    }
    if !flush(pending, &mut tokens)? {
        return Ok(None);
    }
    Ok(Some(tokens))
}

/// The tokens of a line, or none where it has a character that stands in no token.
///
/// Of a word 17 bytes are kept, and of a number what is at most 2^63: one above
/// what a program may have, so that the limits are told from the tokens.
pub fn tokens(alloc: Heap, line: &[u8]) -> Result<Option<Vec<Token, Heap>>, AllocError>
    ensures reading { IfOk result (λ o. tokens_in o ≡ tokens_of line.now) }
    // What is answered are the tokens of the line.
    ensures found { IfOk result (λ o. IfSome o (λ ts. Lexes line.now ts.items)) }
    // The tokens of the line are answered.
    ensures only { IfOk result (λ o. (ts : List token.Token) → Lexes line.now ts → tokens_in o ≡ Some ts) }
{
    tokens_read(alloc, line)
}

/// A law, for proofs alone: no line has two lists of tokens.
pub fn law_one_lexing()
    ensures { (line : List ℕ) (ts us : List token.Token) → Lexes line ts → Lexes line us → ts ≡ us }
{}
