//! Packets that a payload log saves or holds.
ghost use Rattle.std.specs.Prelude.{◌≡◌, ◌<◌, length, IfOk};

use crate::again::packet;
use crate::out::Out;
use limits::Heap;
use payload_log::PayloadLog;
use std::alloc::AllocError;

/// What is done for a destination.
#[derive(Clone, Copy)]
enum Step {
    Save,
    Hold,
    Free,
    /// What is next is transmitted.
    Pass,
    Ask(u32),
    Prune(u32),
}

/// A step, as it is printed, and its destination.
type Row = (&'static str, usize, Step);

/// Packets are saved and held.
const TAKING: [Row; 11] = [
    ("Save", 1, Step::Save),
    ("Save", 1, Step::Save),
    ("Hold", 0, Step::Hold),
    ("Hold", 0, Step::Hold),
    ("Prune(1)", 1, Step::Prune(1)),
    ("Hold", 1, Step::Hold),
    ("Hold", 1, Step::Hold),
    ("Hold", 1, Step::Hold),
    ("Free", 1, Step::Free),
    ("Hold", 1, Step::Hold),
    ("Hold", 1, Step::Hold),
];

/// What is held is saved, and what was saved is transmitted and let go.
const FRUGAL: [Row; 14] = [
    ("Free", 0, Step::Free),
    ("Pass", 0, Step::Pass),
    ("Pass", 0, Step::Pass),
    ("Ask(1)", 0, Step::Ask(1)),
    ("Free", 0, Step::Free),
    ("Pass", 0, Step::Pass),
    ("Prune(1)", 0, Step::Prune(1)),
    ("Ask(1)", 0, Step::Ask(1)),
    ("Pass", 1, Step::Pass),
    ("Prune(4)", 1, Step::Prune(4)),
    ("Free", 1, Step::Free),
    ("Free", 1, Step::Free),
    ("Pass", 1, Step::Pass),
    ("Pass", 1, Step::Pass),
];

/// How many packets were sent to a destination and let go, how many are held
/// for it, and the number of the next to transmit, or 0.
type Seen = [u64; 4];

fn look(log: &PayloadLog, dest: usize) -> Seen
    requires { dest < length log.now }
{
    let next = match log.next(dest) {
        Some(packet) => packet.number,
        None => 0,
    };
    [
        u64::from(log.sent(dest)),
        u64::from(log.base(dest)),
        u64::from(log.held(dest)),
        u64::from(next),
    ]
}

fn log_of(alloc: Heap) -> Result<PayloadLog, AllocError>
    ensures { IfOk result (λ log. length log ≡ 2) }
{
    match PayloadLog::new(alloc, 2) {
        Ok(log) => Ok(log),
        Err(_) => PayloadLog::new(alloc, 2),
    }
}

/// Saves the next packet, once more where it was handed back.
fn save(out: &mut Out, log: &mut PayloadLog, dest: usize)
    requires { dest < length log.old }
    ensures { length log.new ≡ length log.old }
{
    let number = log.sent(dest).saturating_add(1);
    if number > 5000 || log.held(dest) != 0 {
        return;
    }
    let Ok(one) = packet(out.alloc, 1, number) else {
        out.lack();
        return;
    };
    let before = look(log, dest);
    if let Err(back) = log.save(dest, one) {
        out.compare(before == look(log, dest));
        if log.save(dest, back).is_err() {
            out.lack();
        }
    }
}

/// Holds the next packet, once more where it was handed back.
fn hold(out: &mut Out, log: &mut PayloadLog, dest: usize)
    requires { dest < length log.old }
    ensures { length log.new ≡ length log.old }
{
    let (sent, held) = (log.sent(dest), log.held(dest));
    if sent > 500 || held > 500 {
        return;
    }
    let Ok(one) = packet(out.alloc, 1, sent + held + 1) else {
        out.lack();
        return;
    };
    let before = look(log, dest);
    if let Err(back) = log.hold(dest, one) {
        out.compare(before == look(log, dest));
        if log.hold(dest, back).is_err() {
            out.lack();
        }
    }
}

/// A step that takes no memory.
fn go_on(log: &mut PayloadLog, dest: usize, step: Step)
    requires { dest < length log.old }
    ensures { length log.new ≡ length log.old }
{
    match step {
        Step::Free if log.held(dest) > 0 => log.free(dest),
        Step::Pass if log.next(dest).is_some() => log.passed(dest),
        Step::Ask(from) if 0 < from && from <= 5000 => log.ask(dest, from),
        Step::Prune(upto) if upto <= 5000 => log.prune(dest, upto),
        _ => (),
    }
}

fn make(out: &mut Out, log: &mut PayloadLog, dest: usize, step: Step)
    requires { dest < length log.old }
    ensures { length log.new ≡ length log.old }
{
    match step {
        Step::Save => save(out, log, dest),
        Step::Hold => hold(out, log, dest),
        Step::Free | Step::Pass | Step::Ask(_) | Step::Prune(_) => go_on(log, dest, step),
    }
}

fn show(out: &mut Out, log: &PayloadLog, name: &str, dest: usize)
    requires { dest < length log.now }
{
    let [sent, base, held, next] = look(log, dest);
    out.text(name);
    out.form(" for #: (#, #, #, ", &[dest as u64, sent, base, held]);
    out.maybe(if next == 0 { None } else { Some(next) });
    out.text(")\n");
}

fn make_all(out: &mut Out, log: &mut PayloadLog, rows: &[Row])
    requires { length log.old ≡ 2 }
    ensures { length log.new ≡ 2 }
{
    for row in rows {
        let (name, dest, step) = *row;
        if dest < 2 {
            make(out, log, dest, step);
            show(out, log, name, dest);
        }
    }
}

/// Saves and holds packets for two destinations, and lets them go.
pub fn play(out: &mut Out) {
    out.text("== a payload log: sent, base, held, the next to transmit\n");
    let Ok(mut log) = log_of(out.alloc) else {
        out.lack();
        return;
    };
    make_all(out, &mut log, &TAKING);
    out.follow("a payload log");
    make_all(out, &mut log, &FRUGAL);
}
