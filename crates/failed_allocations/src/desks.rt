//! Appends to the logger that threads share.
ghost use Rattle.std.specs.Prelude.{◌≡◌, ◌<◌, length, vec_len, IfOk};
ghost use Rattle.event_logger.specs.Desks.{AreDesks, IsSameDesk};

use crate::out::Out;
use event_logger::{Desk, Event, Kind, Ledger, Logger};
use limits::Heap;
use std::alloc::AllocError;

/// The clocks of the appended events; the last one comes too late.
const CLOCKS: [u32; 4] = [1, 2, 5, 5];

/// Appends events, and shows what the desk has counted.
fn append_all(out: &mut Out, logger: &Logger, desk: &mut Desk)
    requires { desk.old.table ≡ logger.now.table }
    ensures { IsSameDesk desk.old desk.new }
{
    for clock in CLOCKS {
        if let Some(event) = Event::new(Kind::Reception, 0, 1, clock) {
            let answer = logger.append(desk, event);
            out.form("at clock #: ", &[u64::from(clock)]);
            out.debug(&answer);
            out.text("\n");
        }
    }
    out.form("calls #, reads #\n", &[desk.calls(), desk.reads()]);
}

/// The only desk appends.
fn work(out: &mut Out, logger: &Logger, desks: &mut [Desk])
    requires some { 0 < length desks.old }
    requires own { AreDesks logger.now.table desks.old }
    ensures own { AreDesks logger.now.table desks.new }
    ensures length { length desks.new ≡ length desks.old }
{
    let desk = &mut desks[0];
    append_all(out, logger, desk)
}

/// A logger of one rank, once more where there was no memory.
fn logger_of(alloc: Heap) -> Result<(Logger, Vec<Desk, Heap>), AllocError>
    ensures ranks { IfOk result (λ made. (made.0.ranks ≡ 1) × (vec_len made.1 ≡ 1)) }
    ensures desks { IfOk result (λ made. AreDesks made.0.table made.1.items) }
{
    match Logger::new(alloc, 1) {
        Ok(made) => Ok(made),
        Err(_) => Logger::new(alloc, 1),
    }
}

/// Appends events, and closes the logger.
pub fn play(out: &mut Out) {
    let Ok((logger, mut desks)) = logger_of(out.alloc) else {
        out.lack();
        return;
    };
    out.follow("appends to the logger that threads share");
    work(out, &logger, desks.as_mut_slice());
    // it may be refused its memory here
    if let Ok(ledger) = logger.close(out.alloc, desks) {
        show_other(out, ledger);
    }
}

/// Says so where the ledger has other events than were appended.
fn show_other(out: &mut Out, ledger: Ledger) {
    let rows = ledger.into_rows();
    match rows.as_slice() {
        [row] if row.len() == 3 => (),
        _ => out.text("the ledger has other events\n"),
    }
}
