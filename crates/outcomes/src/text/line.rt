//! The form of a line.
ghost use Rattle.std.specs.Prelude.{◌≡◌, IfSome, false};
ghost use Rattle.event_logger.specs.Sequential.Event.{IsClock, finds_none};
ghost use Rattle.rank_text.specs.Lines.Pieces.{words_of};
ghost use Rattle.outcomes.specs.Text.Forms.{act_of, act_seen, clock_behind, clock_of, end_form, end_of, fault_of, faulted, form_of};
ghost use Rattle.outcomes.specs.Text.Forms.{message_form, miss_form, plain_end, print_form, sender_of, value_of, IsFit};

use crate::text::form::{LineForm, LinePart};
use crate::text::number::{clock_in, value_in};
use audit::End;
use event_logger::Kind;
use rank_machine::MachineFault;
use rank_text::lines::{decimal, next_word};

/// The clock of a word behind `at`.
fn clock_behind(at: &[u8], clock: &[u8]) -> Option<u32>
    ensures value { result ≡ clock_behind at.now clock.now }
    ensures clock { IfSome result IsClock }
{
    if at != b"at".as_slice() {
        return None;
    }
    clock_in(clock)
}

/// The clock of a line of two words, `at C`.
fn clock_of(line: &[u8]) -> Option<u32>
    ensures value { result ≡ clock_of (words_of line.now) }
    ensures clock { IfSome result IsClock }
{
    let (at, rest) = next_word(line)?;
    let (clock, rest) = next_word(rest)?;
    if next_word(rest).is_some() {
        return None;
    }
    clock_behind(at, clock)
}

/// The rank and the clock of a line of four words, `from S at K`.
fn sender_of(line: &[u8]) -> Option<(u32, u32)>
    ensures value { result ≡ sender_of (words_of line.now) }
    ensures clock { IfSome result (λ sender. IsClock sender.1) }
{
    let (from, rest) = next_word(line)?;
    let (source, rest) = next_word(rest)?;
    if from != b"from".as_slice() {
        return None;
    }
    let source = decimal(source)?;
    let sent = clock_of(rest)?;
    Some((source, sent))
}

/// The rank and the clock of a line that begins with `R at C`, and what follows.
fn act_of(line: &[u8]) -> Option<((u32, u32), &[u8])>
    ensures value { act_seen result ≡ act_of (words_of line.now) }
    ensures clock { IfSome result (λ act. IsClock act.0.1) }
{
    let (rank, rest) = next_word(line)?;
    let (at, rest) = next_word(rest)?;
    let (clock, rest) = next_word(rest)?;
    let rank = decimal(rank)?;
    let clock = clock_behind(at, clock)?;
    Some(((rank, clock), rest))
}

/// The value of a line of one word.
fn value_of(line: &[u8]) -> Option<i64>
    ensures { result ≡ value_of (words_of line.now) }
{
    let (value, rest) = next_word(line)?;
    if next_word(rest).is_some() {
        return None;
    }
    value_in(value)
}

/// The fault of a rank with this number.
fn fault_of(number: u32) -> Option<MachineFault>
    ensures { result ≡ fault_of number }
{
    match number {
        1 => Some(MachineFault::Overflow),
        2 => Some(MachineFault::ZeroDivide),
        3 => Some(MachineFault::Index),
        4 => Some(MachineFault::BadRank),
        5 => Some(MachineFault::BadTag),
        6 => Some(MachineFault::TooLong),
        7 => Some(MachineFault::CollectiveMismatch),
        _ => None,
    }
}

fn plain_end(word: &[u8]) -> Option<End>
    ensures { result ≡ plain_end word.now }
{
    if word == b"halted".as_slice() {
        return Some(End::Halted);
    }
    if word == b"stalled".as_slice() {
        return Some(End::Stalled);
    }
    if word == b"unfinished".as_slice() {
        return Some(End::Unfinished);
    }
    None
}

fn faulted(number: Option<u32>) -> Option<End>
    ensures { result ≡ faulted number }
{
    let fault = fault_of(number?)?;
    Some(End::Faulted(fault))
}

/// The end that a line tells: one word, or `fault F`.
fn end_of(line: &[u8]) -> Option<End>
    ensures { result ≡ end_of (words_of line.now) }
{
    let (word, rest) = next_word(line)?;
    let Some((number, rest)) = next_word(rest) else {
        return plain_end(word);
    };
    if word != b"fault".as_slice() || next_word(rest).is_some() {
        return None;
    }
    faulted(decimal(number))
}

fn message_form(kind: Kind, line: &[u8]) -> Option<LineForm>
    requires { finds_none kind ≡ false }
    ensures form { result ≡ message_form kind (act_of (words_of line.now)) }
    ensures fit { IfSome result (λ form. IsFit form.part) }
{
    let ((rank, clock), rest) = act_of(line)?;
    let (source, sent) = sender_of(rest)?;
    let part = LinePart::Event {
        kind,
        source,
        sent,
        clock,
    };
    Some(LineForm { rank, part })
}

fn miss_form(line: &[u8]) -> Option<LineForm>
    ensures form { result ≡ miss_form (act_of (words_of line.now)) }
    ensures fit { IfSome result (λ form. IsFit form.part) }
{
    let ((rank, clock), rest) = act_of(line)?;
    if next_word(rest).is_some() {
        return None;
    }
    let part = LinePart::Event {
        kind: Kind::Miss,
        source: 0,
        sent: 0,
        clock,
    };
    Some(LineForm { rank, part })
}

fn print_form(line: &[u8]) -> Option<LineForm>
    ensures form { result ≡ print_form (act_of (words_of line.now)) }
    ensures fit { IfSome result (λ form. IsFit form.part) }
{
    let ((rank, clock), rest) = act_of(line)?;
    let value = value_of(rest)?;
    let part = LinePart::Print { clock, value };
    Some(LineForm { rank, part })
}

fn end_form(line: &[u8]) -> Option<LineForm>
    ensures form { result ≡ end_form (words_of line.now) }
    ensures fit { IfSome result (λ form. IsFit form.part) }
{
    let (rank, rest) = next_word(line)?;
    let rank = decimal(rank)?;
    let part = LinePart::End(end_of(rest)?);
    Some(LineForm { rank, part })
}

/// What a line says, if it has a form: by its name, and the words behind that.
pub(crate) fn form_of(line: &[u8]) -> Option<LineForm>
    ensures form { result ≡ form_of (words_of line.now) }
    ensures fit { IfSome result (λ form. IsFit form.part) }
{
    let (name, line) = next_word(line)?;
    if name == b"recv".as_slice() {
        return message_form(Kind::Reception, line);
    }
    if name == b"hit".as_slice() {
        return message_form(Kind::Hit, line);
    }
    if name == b"miss".as_slice() {
        return miss_form(line);
    }
    if name == b"print".as_slice() {
        return print_form(line);
    }
    if name == b"end".as_slice() {
        return end_form(line);
    }
    None
}
