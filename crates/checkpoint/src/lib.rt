//! Checkpoints of a rank: its image, the checkpoint, as bytes, and the shelf,
//! the checkpoint store, on which the image outlives a crash.
#![tactic(auto)]

mod fault;
mod format;
mod image;
mod laws;
mod memory_shelf;
mod read_inbox;
mod read_log;
mod read_machine;
mod reading;
mod shelf;
mod write_image;
mod writing;

pub use fault::ImageFault;
pub use format::Format;
pub use image::{Image, decode, encode, encode_parts};
pub use laws::law_images;
pub use memory_shelf::MemoryShelf;
pub use shelf::{Shelf, ShelfFault};
