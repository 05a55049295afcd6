//! Images as bytes and as values.
ghost use Rattle.std.specs.Prelude.{IfOk};
ghost use Rattle.checkpoint.specs.Savable.{IsSavable};

use crate::out::Out;
use checkpoint::{Image, ImageFault, MemoryShelf, Shelf, decode, encode};
use limits::Heap;
use rank_language::Program;
use std::alloc::AllocError;

/// The bytes on a shelf, if there are some and there is memory for them.
fn bytes_on(shelf: &mut MemoryShelf) -> Option<Vec<u8, Heap>> {
    match shelf.get() {
        Ok(bytes) => bytes,
        Err(_) => match shelf.get() {
            Ok(bytes) => bytes,
            Err(_) => None,
        },
    }
}

/// The image of rank 1 of two that these bytes are, once more where there was no
/// memory.
fn image_of<'p>(alloc: Heap, program: &'p Program, bytes: &[u8]) -> Result<Image<'p>, ImageFault>
    ensures { IfOk result (λ image. IsSavable image) }
{
    match decode(alloc, program, 1, 2, bytes) {
        Err(ImageFault::Memory) => decode(alloc, program, 1, 2, bytes),
        Err(fault) => Err(fault),
        Ok(image) => Ok(image),
    }
}

/// The bytes of an image, once more where there was no memory.
fn bytes_of(alloc: Heap, image: &Image<'_>) -> Result<Vec<u8, Heap>, AllocError>
    requires { IsSavable image.now }
{
    match encode(alloc, image) {
        Ok(bytes) => Ok(bytes),
        Err(_) => encode(alloc, image),
    }
}

fn show(out: &mut Out, image: &Image<'_>, bytes: &[u8])
    requires { IsSavable image.now }
{
    let Ok(again) = bytes_of(out.alloc, image) else {
        out.lack();
        return;
    };
    let (packets, length) = (image.inbox.len() as u64, again.len() as u64);
    out.form(
        "at clock #, # packets, # bytes, alike: ",
        &[u64::from(image.clock), packets, length],
    );
    out.truth(again.as_slice() == bytes);
    out.text("\n");
}

fn show_fault(out: &mut Out, fault: ImageFault, bytes: &[u8]) {
    if let ImageFault::Memory = fault {
        out.lack();
    }
    out.form("# bytes: ", &[bytes.len() as u64]);
    out.debug(&fault);
    out.text("\n");
}

fn show_read(out: &mut Out, program: &Program, bytes: &[u8]) {
    match image_of(out.alloc, program, bytes) {
        Ok(image) => show(out, &image, bytes),
        Err(fault) => show_fault(out, fault, bytes),
    }
}

/// Reads the image on a shelf and writes it again, and reads bytes that are none.
pub fn play(out: &mut Out, program: &Program, shelf: MemoryShelf) {
    out.text("== an image\n");
    let mut shelf = shelf;
    let Some(bytes) = bytes_on(&mut shelf) else {
        out.lack();
        return;
    };
    show_read(out, program, bytes.as_slice());
    for short in 0..bytes.len() {
        if short % 40 == 0 {
            show_read(out, program, &bytes[..short]);
        }
    }
}
