//! The bytes of images in both formats, and the fault of each field.
ghost use Rattle.std.specs.Prelude.{◌<◌, ◌≤◌};
ghost use Rattle.limits.specs.Limits.{most_ranks};

mod bytes;

use crate::same::holds;
use bytes::{BEGINNINGS, Beginning, IMAGES, PRINTED, PRINTED_BEFORE, PRINTING};
use checkpoint::{ImageFault, decode, encode};
use limits::{Heap, MOST_RANKS};
use rank_language::Program;
use std::alloc::AllocError;
use std::process::Abort;
use std::test::*;

/// A byte at a place of an image in format 2, behind what says of its format, and the fault that it makes.
type Change = (usize, u8, ImageFault);

/// A program, the rank whose image it is, the number of ranks, the image in format 2, and changes of it.
type Imaged = (&'static [u8], u8, u8, &'static [u8], &'static [Change]);

/// Whose image bytes are: the program, its rank and the number of ranks.
#[derive(Clone, Copy)]
struct Whose<'p> {
    program: &'p Program,
    rank: u8,
    size: u8,
    ghost least: { rank < size },
    ghost most: { size ≤ most_ranks },
}

/// The same image in format 1: it says nothing of event words.
fn in_format_1(alloc: Heap, image: &[u8]) -> Result<Vec<u8, Heap>, AllocError> {
    let mut bytes = Vec::from_slice(alloc, image)?;
    if bytes.len() > 1 {
        bytes.remove(0);
        bytes[0] = 1;
    }
    Ok(bytes)
}

/// What the image that these bytes are is written as, or their fault.
fn rewritten(alloc: Heap, whose: Whose<'_>, bytes: &[u8]) -> Result<Vec<u8, Heap>, ImageFault> {
    match decode(alloc, whose.program, whose.rank, whose.size, bytes) {
        Ok(image) => match encode(alloc, &image) {
            Ok(written) => Ok(written),
            Err(_) => Err(ImageFault::Memory),
        },
        Err(fault) => Err(fault),
    }
}

/// The image that these bytes are is written as those.
fn is_same(rt: &impl Abort, alloc: Heap, whose: Whose<'_>, bytes: &[u8], want: &[u8]) {
    let is_so = match rewritten(alloc, whose, bytes) {
        Ok(written) => written.as_slice() == want,
        Err(_) => false,
    };
    holds(rt, "an image is written as it was read", is_so);
}

/// These bytes have this fault, where they have this at this place.
fn has_fault(rt: &impl Abort, alloc: Heap, whose: Whose<'_>, bytes: &[u8], change: Change) {
    let (place, value, want) = change;
    let is_so = match rewritten(alloc, whose, bytes) {
        Ok(_) => false,
        Err(fault) => fault == want,
    };
    assert!(rt;
        is_so,
        "the fault of {value} at {place} of {} bytes",
        bytes.len()
    );
}

/// Each change of these bytes has its fault, so many places further down.
fn has_faults(
    rt: &impl Abort,
    alloc: Heap,
    whose: Whose<'_>,
    bytes: &[u8],
    down: usize,
    changes: &[Change],
) -> Result<(), AllocError> {
    for change in changes {
        let (place, value, _) = *change;
        let mut other = Vec::from_slice(alloc, bytes)?;
        if let Some(byte) = other.get_mut(place.saturating_sub(down)) {
            *byte = value;
        }
        has_fault(rt, alloc, whose, &other, *change);
    }
    Ok(())
}

/// Each shorter beginning is short, and with a byte more the image is long.
fn is_whole(
    rt: &impl Abort,
    alloc: Heap,
    whose: Whose<'_>,
    bytes: &[u8],
) -> Result<(), AllocError> {
    for length in 0..bytes.len() {
        let change = (length, 0, ImageFault::Short);
        has_fault(rt, alloc, whose, &bytes[..length], change);
    }
    let mut more = Vec::from_slice(alloc, bytes)?;
    more.push(0)?;
    let change = (bytes.len(), 0, ImageFault::Long);
    has_fault(rt, alloc, whose, &more, change);
    Ok(())
}

/// An image is read in both formats, and written in format 2. What is missing, or more, has its fault, and so has each change, a
/// place further down in format 1.
fn is_read(
    rt: &impl Abort,
    alloc: Heap,
    whose: Whose<'_>,
    imaged: &Imaged,
) -> Result<(), AllocError> {
    let (_, _, _, image, changes) = *imaged;
    is_same(rt, alloc, whose, image, image);
    is_whole(rt, alloc, whose, image)?;
    has_faults(rt, alloc, whose, image, 0, changes)?;
    let before = in_format_1(alloc, image)?;
    is_same(rt, alloc, whose, &before, image);
    is_whole(rt, alloc, whose, &before)?;
    has_faults(rt, alloc, whose, &before, 1, changes)
}

// Each image is read in both formats.
fn are_read(rt: &impl Abort, alloc: Heap, images: &[Imaged]) -> Result<(), Fail> {
    for imaged in images {
        let (text, rank, size, _, _) = *imaged;
        assert!(rt; rank < size && usize::from(size) <= MOST_RANKS);
        let program = Program::parse(alloc, text)?;
        let whose = Whose {
            program: &program,
            rank,
            size,
        };
        is_read(rt, alloc, whose, imaged)?;
    }
    Ok(())
}

// Each beginning of an image of this program has its fault.
fn have_faults(rt: &impl Abort, alloc: Heap, program: &Program, beginnings: &[Beginning]) {
    for beginning in beginnings {
        let (size, bytes, want) = *beginning;
        assert!(rt; 0 < size && usize::from(size) <= MOST_RANKS);
        let whose = Whose {
            program,
            rank: 0,
            size,
        };
        has_fault(rt, alloc, whose, bytes, (size as usize, 0, want));
    }
}

#[test]
fn images_are_read_and_written(rt: HostRuntime) -> Result<(), Fail> {
    are_read(&rt, rt.alloc(), &IMAGES)
}

#[test]
fn each_beginning_has_its_fault(rt: HostRuntime) -> Result<(), Fail> {
    let alloc = rt.alloc();
    let program = Program::parse(alloc, PRINTING)?;
    have_faults(&rt, alloc, &program, &BEGINNINGS);
    let before = in_format_1(alloc, &PRINTED)?;
    holds(
        &rt,
        "in format 1",
        before.as_slice() == PRINTED_BEFORE.as_slice(),
    );
    Ok(())
}
