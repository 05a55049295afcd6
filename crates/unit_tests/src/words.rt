//! The words of events, as docs/FORMATS.md has them.

use crate::same::{holds, same};
use event_logger::{Event, Kind, pack, unpack};
use std::test::*;

const GREATEST: u32 = 268_435_455;

/// A kind, a sender, its clock and the receiver's, and the word of that event.
type Word = (Kind, u8, u32, u32, u64);

static WORDS: [Word; 9] = [
    (Kind::Reception, 0, 1, 1, 0x0000_0000_1000_0001),
    (Kind::Hit, 2, 3, 5, 0x1200_0000_3000_0005),
    (Kind::Miss, 0, 0, 1, 0x2000_0000_0000_0001),
    (Kind::Reception, 15, 1, 1, 0x0f00_0000_1000_0001),
    (
        Kind::Reception,
        7,
        GREATEST,
        GREATEST,
        0x07ff_ffff_ffff_ffff,
    ),
    (Kind::Hit, 15, GREATEST, GREATEST, 0x1fff_ffff_ffff_ffff),
    (Kind::Misses, 0, 3, 3, 0x3000_0000_3000_0003),
    (Kind::Misses, 0, 2, 5, 0x3000_0000_2000_0005),
    (Kind::Misses, 0, GREATEST, GREATEST, 0x30ff_ffff_ffff_ffff),
];

/// Words that are of no event, and why.
static OTHER_WORDS: [(u64, &str); 18] = [
    (0, "no clock"),
    (0x4000_0000_0000_0000, "bit 62 alone"),
    (0x4000_0000_1000_0001, "a reception and bit 62"),
    (0x8000_0000_1000_0001, "a reception and bit 63"),
    (0x6000_0000_0000_0001, "a miss and bit 62"),
    (0x2100_0000_0000_0001, "a miss with a sender"),
    (0x2000_0000_1000_0001, "a miss with a sender's clock"),
    (0x2000_0000_0000_0000, "a miss without a clock"),
    (
        0x0000_0000_0000_0001,
        "a reception without a sender's clock",
    ),
    (0x1000_0000_0000_0001, "a hit without a sender's clock"),
    (0x0000_0000_1000_0000, "a reception without a clock"),
    (0x3000_0000_1000_0001, "a run of one miss"),
    (0x3000_0000_0000_0001, "a run of no miss"),
    (0x3000_0000_3000_0002, "a run longer than its clock"),
    (0x3100_0000_3000_0003, "a run with a sender"),
    (0x3000_0000_2000_0000, "a run without a clock"),
    (0x7000_0000_3000_0003, "a run and bit 62"),
    (u64::MAX, "all bits"),
];

/// Parts that are those of no event: each is out of its range.
static NO_EVENTS: [(Kind, u8, u32, u32); 12] = [
    (Kind::Reception, 16, 1, 1),
    (Kind::Reception, 0, GREATEST + 1, 1),
    (Kind::Reception, 0, 1, GREATEST + 1),
    (Kind::Hit, 16, 1, 1),
    (Kind::Hit, 0, GREATEST + 1, 1),
    (Kind::Hit, 0, 1, GREATEST + 1),
    (Kind::Miss, 0, 0, GREATEST + 1),
    (Kind::Miss, 1, 0, 1),
    (Kind::Misses, 0, GREATEST, GREATEST - 1),
    (Kind::Misses, 0, GREATEST + 1, GREATEST),
    (Kind::Misses, 0, 2, GREATEST + 1),
    (Kind::Misses, 1, 2, 2),
];

#[test]
fn events_and_their_words(rt: HostRuntime) {
    for row in &WORDS {
        let (kind, sender, sender_clock, receiver_clock, word) = *row;
        let event = Event::new(kind, sender, sender_clock, receiver_clock).expect(&rt, "in range");
        same(&rt, "the word of an event", pack(event), word);
    }
    for row in &OTHER_WORDS {
        let (word, why) = *row;
        holds(&rt, why, unpack(word).is_none());
    }
    for row in &NO_EVENTS {
        let (kind, sender, sender_clock, receiver_clock) = *row;
        let made = Event::new(kind, sender, sender_clock, receiver_clock);
        holds(&rt, "parts of no event", made.is_none());
    }
}
