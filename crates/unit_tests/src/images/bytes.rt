//! Images by their bytes, and the fault of each change: those of docs/FORMATS.md and others, worked out by hand.

use super::{Change, Imaged};
use checkpoint::ImageFault;

pub(super) const PRINTING: &[u8] = b"print 5\n";

/// `print 5` on one rank, after its print.
pub(super) const PRINTED: [u8; 42] = [
    2, 2, 0, 1, 0, 1, 0, 0, 0, 1, 0, 0, 0, 0, 0, 0, 0, 0, 0, 0, 0, 0, 0, 0, 0, 1, 0, 0, 0, 0, 0, 0,
    0, 0, 0, 0, 0, 0, 0, 0, 0, 0,
];

/// The same image in format 1.
pub(super) const PRINTED_BEFORE: [u8; 41] = [
    1, 0, 1, 0, 1, 0, 0, 0, 1, 0, 0, 0, 0, 0, 0, 0, 0, 0, 0, 0, 0, 0, 0, 0, 1, 0, 0, 0, 0, 0, 0, 0,
    0, 0, 0, 0, 0, 0, 0, 0, 0,
];

/// Changes of it.
const OF_PRINTED: [Change; 17] = [
    (2, 1, ImageFault::WrongProgram),
    (3, 2, ImageFault::WrongProgram),
    (5, 2, ImageFault::WrongProgram),
    (6, 1, ImageFault::WrongProgram),
    (9, 2, ImageFault::Field),
    (10, 1, ImageFault::Field),
    (11, 1, ImageFault::Field),
    (12, 1, ImageFault::Field),
    (17, 1, ImageFault::Field),
    (18, 128, ImageFault::Field),
    (20, 2, ImageFault::Field),
    (22, 16, ImageFault::Field),
    (26, 16, ImageFault::Field),
    (33, 2, ImageFault::Field),
    (37, 1, ImageFault::Short),
    (37, 2, ImageFault::Field),
    (38, 16, ImageFault::Field),
];

const BUSY_PROGRAM: &[u8] = b"var x\narray a[2]\nsend 1, 7, 41\nprint x\n";

/// Rank 0 of two: a position, a status, a variable, an array, two packets in the inbox, and two kept for rank 1.
const BUSY: [u8; 174] = [
    2, 2, 0, 2, 0, 4, 1, 1, 0, 2, // its format, and whose image it is
    0, 3, 0, 0, 0, 0, 0, 0, 0, // where its machine stands
    1, 0, 7, 0, 1, // of the last message: source, tag, number of items
    255, 255, 255, 255, 255, 255, 255, 255, // the variable
    0, 0, 0, 0, 0, 0, 0, 0, 0, 0, 0, 0, 0, 0, 0, 5, // the items of the array
    0, 0, 0, 5, // the clock
    0, 0, 0, 0, 0, 0, 0, 3, // what was accepted of each rank
    0, 0, 0, 2, // how many packets lie in the inbox
    1, 0, 0, 0, 9, 0, 0, 0, 2, 0, 0, 7, 0, 1, 0, 0, 0, 0, 0, 0, 0, 41, //
    1, 0, 0, 0, 10, 0, 0, 0, 3, 0, 127, 255, 0, 1, 128, 0, 0, 0, 0, 0, 0, 0, //
    0, 0, 0, 0, 0, 0, 0, 0, // sent to rank 0 and let go
    0, 0, 0, 3, 0, 0, 0, 1, // sent to rank 1 and let go
    0, 0, 0, 2, 0, 0, 7, 0, 1, 0, 0, 0, 0, 0, 0, 0, 41, //
    0, 0, 0, 4, 1, 0, 0, 0, 3, 0, 0, 0, 0, 0, 0, 0, 0, 0, 0, 0, 0, 0, 0, 0, 0, 0, 0, 0, 0, 0, 0, 0,
    1,
];

/// One change or more in each field.
const OF_BUSY: [Change; 48] = [
    (2, 1, ImageFault::WrongProgram),
    (3, 1, ImageFault::WrongProgram),
    (3, 3, ImageFault::WrongProgram),
    (4, 1, ImageFault::WrongProgram),
    (5, 5, ImageFault::WrongProgram),
    (6, 2, ImageFault::WrongProgram),
    (7, 0, ImageFault::WrongProgram),
    (8, 1, ImageFault::WrongProgram),
    (9, 3, ImageFault::WrongProgram),
    // the position, what is done, the fault, what is gathered, and how many collectives were finished
    (11, 5, ImageFault::Field),
    (12, 1, ImageFault::Field),
    (13, 1, ImageFault::Field),
    (13, 5, ImageFault::Field),
    (13, 8, ImageFault::Field),
    (14, 1, ImageFault::Field),
    (15, 16, ImageFault::Field),
    // the last message
    (19, 2, ImageFault::Field),
    (20, 128, ImageFault::Field),
    (22, 1, ImageFault::Field),
    // the clock, also where it is below what was sent
    (48, 16, ImageFault::Field),
    (51, 2, ImageFault::Field),
    // what was accepted, also where a packet has a higher number
    (52, 16, ImageFault::Field),
    (59, 2, ImageFault::Field),
    (63, 1, ImageFault::Field),
    (63, 3, ImageFault::Field),
    // the first packet of the inbox
    (64, 2, ImageFault::Field),
    (65, 16, ImageFault::Field),
    (68, 0, ImageFault::Field),
    (72, 0, ImageFault::Field),
    (72, 4, ImageFault::Field),
    (73, 1, ImageFault::Field),
    (73, 2, ImageFault::Field),
    (74, 128, ImageFault::Field),
    (76, 1, ImageFault::Field),
    (77, 0, ImageFault::Field),
    // the number of the second doesn't rise
    (94, 2, ImageFault::Field),
    // what was sent to rank 1, and what of it was let go
    (111, 6, ImageFault::Field),
    (112, 16, ImageFault::Field),
    (119, 2, ImageFault::Long),
    (119, 4, ImageFault::Short),
    (123, 0, ImageFault::Short),
    (123, 3, ImageFault::Long),
    // the clocks of what is kept
    (127, 0, ImageFault::Field),
    (144, 2, ImageFault::Field),
    (144, 6, ImageFault::Field),
    // the packet of a collective
    (145, 2, ImageFault::Field),
    (147, 1, ImageFault::Field),
    (149, 2, ImageFault::Field),
];

/// Rank 0 of two at the end of the same program: a packet of each rank in the inbox, and packets kept for both.
const KEEPING: [u8; 224] = [
    2, 2, 0, 2, 0, 4, 1, 1, 0, 2, // its format, and whose image it is
    0, 4, 0, 0, 0, 0, 0, 0, 0, // where its machine stands
    0, 0, 1, 0, 2, // of the last message: source, tag, number of items
    0, 0, 0, 0, 0, 0, 0, 1, // the variable
    0, 0, 0, 0, 0, 0, 0, 2, 0, 0, 0, 0, 0, 0, 0, 3, // the items of the array
    0, 0, 0, 9, // the clock
    0, 0, 0, 2, 0, 0, 0, 1, // what was accepted of each rank
    0, 0, 0, 2, // how many packets lie in the inbox
    0, 0, 0, 0, 3, 0, 0, 0, 2, 0, 0, 1, 0, 2, 0, 0, 0, 0, 0, 0, 0, 4, 0, 0, 0, 0, 0, 0, 0, 5, //
    1, 0, 0, 0, 5, 0, 0, 0, 1, 1, 0, 0, 0, 3, 0, 0, 0, 0, 0, 0, 0, 0, 0, 0, 0, 0, 0, 0, 0, 0, 0, 0,
    0, 0, 0, 0, 0, 1, //
    0, 0, 0, 2, 0, 0, 0, 1, // sent to rank 0 and let go
    0, 0, 0, 3, 0, 0, 1, 0, 2, 0, 0, 0, 0, 0, 0, 0, 4, 0, 0, 0, 0, 0, 0, 0, 5, //
    0, 0, 0, 3, 0, 0, 0, 0, // sent to rank 1, and nothing let go
    0, 0, 0, 1, 0, 0, 7, 0, 1, 0, 0, 0, 0, 0, 0, 0, 6, //
    0, 0, 0, 5, 0, 0, 7, 0, 1, 0, 0, 0, 0, 0, 0, 0, 7, //
    0, 0, 0, 9, 0, 0, 7, 0, 1, 0, 0, 0, 0, 0, 0, 0, 8,
];

/// The root is an item of an array, which stands behind what is done and gathered.
const REDUCING: &[u8] = b"var x\narray a[1]\nreduce sum, a[0], 1, x\n";

/// Rank 0 of three, the root, which has gathered 2 from rank 1.
const GATHERED: [u8; 92] = [
    2, 2, 0, 3, 0, 3, 1, 1, 0, 1, // its format, and whose image it is
    0, 2, 1, 0, 1, // its position, the parts that are done, its fault, how many values it has gathered
    0, 0, 0, 0, 0, 0, 0, 2, // the value
    0, 0, 0, 0, // how many collectives it has finished
    0, 0, 0, 0, 0, // of the last message: source, tag, number of items
    0, 0, 0, 0, 0, 0, 0, 0, // the variable
    0, 0, 0, 0, 0, 0, 0, 0, // the item
    0, 0, 0, 1, // the clock
    0, 0, 0, 0, 0, 0, 0, 1, 0, 0, 0, 0, // what was accepted of each rank
    0, 0, 0, 0, // how many packets lie in the inbox
    0, 0, 0, 0, 0, 0, 0, 0, 0, 0, 0, 0, 0, 0, 0, 0, 0, 0, 0, 0, 0, 0, 0, 0, // nothing was sent
];

/// Changes of what is done and gathered, and of what decides on it.
const OF_GATHERED: [Change; 9] = [
    // another statement stands there, or none
    (11, 1, ImageFault::Field),
    (11, 3, ImageFault::Field),
    // as many values as parts are done, and two parts at most
    (12, 0, ImageFault::Field),
    (12, 2, ImageFault::Field),
    (12, 3, ImageFault::Field),
    (14, 0, ImageFault::Field),
    (23, 16, ImageFault::Field),
    // another rank is the root, or none
    (47, 1, ImageFault::Field),
    (47, 3, ImageFault::Field),
];

const MEETING: &[u8] = b"barrier\n";

/// Rank 0 of three at a barrier, before its last part; it has finished none.
const MET: [u8; 66] = [
    2, 2, 0, 3, 0, 1, 0, 0, // its format, and whose image it is
    0, 0, 3, 0, 0, // its position, the parts that are done, its fault, how many values it has gathered
    0, 0, 0, 0, // how many collectives it has finished
    0, 0, 0, 0, 0, // of the last message: source, tag, number of items
    0, 0, 0, 3, // the clock
    0, 0, 0, 0, 0, 0, 0, 1, 0, 0, 0, 1, // what was accepted of each rank
    0, 0, 0, 0, // how many packets lie in the inbox
    0, 0, 0, 0, 0, 0, 0, 0, 0, 0, 0, 1, 0, 0, 0, 1, 0, 0, 0, 0, 0, 0, 0, 0, // one was sent to rank 1, and let go
];

/// Rank 0 of three has four parts at a barrier, and none behind it.
const OF_MET: [Change; 4] = [
    (9, 1, ImageFault::Field),
    (10, 4, ImageFault::Field),
    (10, 255, ImageFault::Field),
    (13, 16, ImageFault::Field),
];

const RECORDED_PROGRAM: &[u8] =
    b"var x\narray a[2]\nsend 0, 3, 8\nrecv 0, 7, x\nlet a[1] = x\nprint x\nrecv 0, 7, x\nprint x + a[1]\n";

/// Rank 1 of two, recorded from the program when it wrote format 1; here with the first two bytes of format 2. A packet of rank
/// 0 lies in the inbox, and one is kept for rank 0.
const RECORDED: [u8; 119] = [
    0x02, 0x02, 0x01, 0x02, 0x00, 0x08, 0x01, 0x01, 0x00, 0x02, 0x00, 0x04, 0x00, 0x00, 0x00, 0x00,
    0x00, 0x00, 0x00, 0x00, 0x00, 0x07, 0x00, 0x01, 0x00, 0x00, 0x00, 0x00, 0x00, 0x00, 0x00, 0x0a,
    0x00, 0x00, 0x00, 0x00, 0x00, 0x00, 0x00, 0x00, 0x00, 0x00, 0x00, 0x00, 0x00, 0x00, 0x00, 0x00,
    0x00, 0x00, 0x00, 0x02, 0x00, 0x00, 0x00, 0x02, 0x00, 0x00, 0x00, 0x00, 0x00, 0x00, 0x00, 0x01,
    0x00, 0x00, 0x00, 0x00, 0x02, 0x00, 0x00, 0x00, 0x02, 0x00, 0x00, 0x07, 0x00, 0x01, 0x00, 0x00,
    0x00, 0x00, 0x00, 0x00, 0x00, 0x14, 0x00, 0x00, 0x00, 0x01, 0x00, 0x00, 0x00, 0x00, 0x00, 0x00,
    0x00, 0x01, 0x00, 0x00, 0x03, 0x00, 0x01, 0x00, 0x00, 0x00, 0x00, 0x00, 0x00, 0x00, 0x08, 0x00,
    0x00, 0x00, 0x00, 0x00, 0x00, 0x00, 0x00,
];

/// A beginning of an image of rank 0 of so many, and its fault.
pub(super) type Beginning = (u8, &'static [u8], ImageFault);

pub(super) const BEGINNINGS: [Beginning; 22] = [
    (1, &[], ImageFault::Short),
    (1, &[0], ImageFault::Version),
    (1, &[1], ImageFault::Short),
    (1, &[2], ImageFault::Short),
    (1, &[3], ImageFault::Version),
    (1, &[255], ImageFault::Version),
    (1, &[2, 0], ImageFault::Version),
    (1, &[2, 1], ImageFault::Version),
    (1, &[2, 2], ImageFault::Short),
    (1, &[2, 3], ImageFault::Version),
    (1, &[1, 0], ImageFault::Short),
    (1, &[1, 1], ImageFault::WrongProgram),
    (1, &[2, 2, 0], ImageFault::Short),
    (1, &[2, 2, 1], ImageFault::WrongProgram),
    (1, &[2, 2, 0, 0], ImageFault::WrongProgram),
    (8, &[1, 0, 8], ImageFault::Short),
    (9, &[1, 0], ImageFault::Short),
    (9, &[1, 1], ImageFault::WrongProgram),
    (9, &[1, 0, 9], ImageFault::WrongProgram),
    (9, &[2, 2, 0, 9], ImageFault::Short),
    (16, &[1, 0, 16], ImageFault::WrongProgram),
    (16, &[2, 2, 0, 16], ImageFault::Short),
];

/// Each image with its program, its rank, the number of ranks and the changes.
pub(super) const IMAGES: [Imaged; 6] = [
    (PRINTING, 0, 1, &PRINTED, &OF_PRINTED),
    (BUSY_PROGRAM, 0, 2, &BUSY, &OF_BUSY),
    (BUSY_PROGRAM, 0, 2, &KEEPING, &[]),
    (REDUCING, 0, 3, &GATHERED, &OF_GATHERED),
    (MEETING, 0, 3, &MET, &OF_MET),
    (RECORDED_PROGRAM, 1, 2, &RECORDED, &[]),
];
