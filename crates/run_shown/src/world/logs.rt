//! What a payload log has for each destination.
ghost use Rattle.std.specs.Prelude.{◌≡◌};

use crate::json::{List, Object};
use limits::Heap;
use payload_log::{Backlog, PayloadLog};

/// For each rank to which something was sent, or waits to be sent: which of the
/// packets for it are let go, sent and held, and which goes next.
pub fn log_list(alloc: Heap, log: &PayloadLog) -> List {
    let mut list = List::new(alloc);
    let mut dest = 0u64;
    for backlog in log.destinations() {
        if backlog.sent() > 0 || backlog.held() > 0 {
            list.object(backlog_object(alloc, dest, backlog));
        }
        dest = dest.saturating_add(1);
    }
    list
}

fn backlog_object(alloc: Heap, dest: u64, backlog: &Backlog) -> Object {
    let mut object = Object::new(alloc);
    object.number("destination", dest);
    object.number("let_go", u64::from(backlog.base()));
    object.number("sent", u64::from(backlog.sent()));
    object.number("cursor", u64::from(cursor_of(backlog)));
    object.number("held", u64::from(backlog.held()));
    object
}

// The number of the packet that goes next. Where none does, all went that are
// sent or let go.
fn cursor_of(backlog: &Backlog) -> u32
    ensures { result ≡ backlog.now.cursor }
{
    backlog.law_in_order();
    match backlog.next() {
        Some(packet) => packet.number,
        None => backlog.base().max(backlog.sent()) + 1,
    }
}
