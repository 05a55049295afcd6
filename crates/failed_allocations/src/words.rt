//! Words of events.

use crate::out::Out;
use event_logger::{Event, Kind, pack, unpack};

static EVENTS: [(Kind, u8, u32, u32); 3] = [
    (Kind::Reception, 0, 1, 1),
    (Kind::Hit, 2, 3, 5),
    (Kind::Miss, 0, 0, 1),
];

/// Packs events into words, and unpacks these.
pub fn play(out: &mut Out) {
    out.follow("words of events");
    for event in &EVENTS {
        let (kind, sender, sent, received) = *event;
        if let Some(event) = Event::new(kind, sender, sent, received) {
            let word = pack(event);
            out.form("# is read as it: ", &[word]);
            out.truth(unpack(word) == Some(event));
            out.text("\n");
        }
    }
    out.text("0 is read as ");
    out.text(if unpack(0).is_none() {
        "None\n"
    } else {
        "an event\n"
    });
}
