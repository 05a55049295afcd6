//! Packets that arrive at an inbox.
ghost use Rattle.std.specs.Prelude.{◌≡◌, ◌<◌, ◌≤◌, length, IfOk};

use crate::again::packet;
use crate::out::Out;
use limits::Heap;
use matching::{Accept, Context, Inbox, Packet, Selector};
use std::alloc::AllocError;

/// The source and the number of each packet.
static ARRIVALS: [(u8, u32); 9] = [
    (1, 2),
    (1, 1),
    (1, 1),
    (1, 2),
    (0, 1),
    (1, 3),
    (0, 3),
    (0, 2),
    (1, 4),
];

/// How many packets lie in an inbox, and how many were accepted of rank 0 and
/// of rank 1.
type Seen = [u64; 3];

fn look(inbox: &Inbox) -> Seen
    requires { length inbox.now.accepted ≡ 2 }
{
    [
        inbox.len() as u64,
        u64::from(inbox.accepted(0)),
        u64::from(inbox.accepted(1)),
    ]
}

fn inbox_of(alloc: Heap) -> Result<Inbox, AllocError>
    ensures { IfOk result (λ inbox. length inbox.accepted ≡ 2) }
{
    match Inbox::new(alloc, 2) {
        Ok(inbox) => Ok(inbox),
        Err(_) => Inbox::new(alloc, 2),
    }
}

/// A packet that arrives, and once more where it was handed back.
fn accept(out: &mut Out, inbox: &mut Inbox, arrival: Packet) -> Result<Accept, Packet>
    requires source { arrival.source < 2 }
    requires ranks { length inbox.old.accepted ≡ 2 }
    ensures { length inbox.new.accepted ≡ 2 }
{
    let before = look(inbox);
    match inbox.accept(arrival) {
        Ok(answer) => Ok(answer),
        Err(back) => {
            out.compare(before == look(inbox));
            inbox.accept(back)
        }
    }
}

/// The packet of this source and number arrives.
fn arrive(out: &mut Out, inbox: &mut Inbox, source: u8, number: u32)
    requires source { source < 2 }
    requires number { (1 ≤ number) × (number ≤ 5000) }
    requires ranks { length inbox.old.accepted ≡ 2 }
    ensures { length inbox.new.accepted ≡ 2 }
{
    let Ok(arrival) = packet(out.alloc, source, number) else {
        out.lack();
        return;
    };
    match accept(out, inbox, arrival) {
        Ok(answer) => {
            out.form("packet # of #: ", &[u64::from(number), u64::from(source)]);
            out.debug(&answer);
            out.form(", (#, #, #)\n", &look(inbox));
        }
        Err(_) => out.lack(),
    }
}

fn accept_all(out: &mut Out, inbox: &mut Inbox)
    requires { length inbox.old.accepted ≡ 2 }
    ensures { length inbox.new.accepted ≡ 2 }
{
    for arrival in &ARRIVALS {
        let (source, number) = *arrival;
        if source < 2 && 0 < number && number <= 5000 {
            arrive(out, inbox, source, number);
        }
    }
}

/// What is looked for: a source and a tag.
static NAMED: [(&str, Option<u8>, Option<u16>); 4] = [
    ("None, None: ", None, None),
    ("Some(0), Some(7): ", Some(0), Some(7)),
    ("Some(1), None: ", Some(1), None),
    ("None, Some(8): ", None, Some(8)),
];

fn find(out: &mut Out, inbox: &Inbox)
    requires { length inbox.now.accepted ≡ 2 }
{
    for named in &NAMED {
        let (about, source, tag) = *named;
        let selector = Selector {
            context: Context::PointToPoint,
            source,
            tag,
        };
        out.text(about);
        out.debug(&inbox.find(&selector));
        out.text("\n");
    }
    out.text("of rank 1 at clock 3: ");
    out.debug(&inbox.find_named(1, 3));
    out.form("\n(#, #, #)\n", &look(inbox));
}

/// Takes each packet out, the second one first where there are two.
fn take_all(out: &mut Out, inbox: &mut Inbox)
    requires { length inbox.old.accepted ≡ 2 }
{
    for _ in 0..9 {
        let index = match inbox.len() {
            0 => break,
            1 => 0,
            _ => 1,
        };
        let number = inbox.get(index).number;
        let taken = inbox.take(index);
        out.form("# of #: ", &[u64::from(number), u64::from(taken.source)]);
        out.debug(&taken.payload.as_slice());
        out.text("\n");
    }
}

/// Lets each packet arrive, looks for some and takes them.
pub fn play(out: &mut Out) {
    out.text("== an inbox: packets, accepted of rank 0, accepted of rank 1\n");
    let Ok(mut inbox) = inbox_of(out.alloc) else {
        out.lack();
        return;
    };
    accept_all(out, &mut inbox);
    out.follow("an inbox, where packets stand and what is taken");
    find(out, &inbox);
    take_all(out, &mut inbox);
}
