//! Images of a rank, as values and as bytes.
ghost use Rattle.std.specs.Prelude.{◌≡◌, ◌<◌, ◌≤◌, length, Ok, IfOk};
ghost use Rattle.limits.specs.Limits.{most_ranks, most_lines};
ghost use Rattle.rank_language.specs.Block.{size};
ghost use Rattle.rank_language.specs.Program.{block_of};
ghost use Rattle.rank_machine.specs.Machine.{IsMachine};
ghost use Rattle.checkpoint.specs.Image.{at_rest};
ghost use Rattle.checkpoint.specs.Savable.{IsSavable};
ghost use Rattle.checkpoint.specs.Legal.{IsTable, IsTextOf};
ghost use Rattle.checkpoint.specs.Spelling.{FitsBytes, spelling};
ghost use Rattle.checkpoint.specs.Reading.{Gives, image_at, reading};

use crate::fault::ImageFault;
use crate::read_inbox::inbox_of;
use crate::read_log::log_of;
use crate::read_machine::{machine_of, origin_of, table_of};
use crate::reading::count_of;
use crate::write_image::{put_inbox, put_lanes, put_machine, put_origin, put_table};
use crate::writing::put_u32;
use limits::Heap;
use matching::Inbox;
use payload_log::PayloadLog;
use rank_language::Program;
use rank_machine::Machine;
use std::alloc::AllocError;
use std::marker::Model;

/// What a checkpoint keeps of a rank: its machine, the clock of its last act,
/// its inbox with what it accepted, and its payload log.
#[derive(Drop)]
pub struct Image<'p> {
    pub machine: Machine<'p>,
    pub clock: u32,
    pub inbox: Inbox,
    pub log: PayloadLog,
}

impl<'p> Model for Image<'p> {
    ghost use Rattle.std.specs.Coded.{codes};
    ghost use Rattle.rank_language.specs.Coding.{placed_code};
    ghost use Rattle.checkpoint.specs.Image.{ImageValue};

    ghost Value = { ImageValue };

    ghost coded = { Prim.hlevel (codes, placed_code) };

    ghost view = { λ i. record { machine = i.machine; clock = i.clock; inbox = i.inbox; log = i.log } };
}

/// The bytes of an image, in the second format.
pub fn encode(alloc: Heap, image: &Image<'_>) -> Result<Vec<u8, Heap>, AllocError>
    requires { IsSavable image.now }
    ensures spelled { IfOk result (λ bytes. bytes.items ≡ spelling image.now) }
    ensures reads { IfOk result (λ bytes.
        reading image.now.machine.program image.now.machine.store.rank image.now.machine.store.size bytes.items
        ≡ Ok (at_rest image.now)) }
{
    encode_parts(alloc, &image.machine, image.clock, &image.inbox, &image.log)
}

/// The bytes of the image that has these parts, in the second format.
#[tactic(auto, unfolding(crate::specs::Spelling::text_in))]
pub fn encode_parts(
    alloc: Heap,
    machine: &Machine<'_>,
    clock: u32,
    inbox: &Inbox,
    log: &PayloadLog,
) -> Result<Vec<u8, Heap>, AllocError>
    requires { IsSavable (record { machine = machine.now; clock = clock; inbox = inbox.now; log = log.now }) }
    ensures spelled { IfOk result (λ bytes.
        bytes.items ≡ spelling (record { machine = machine.now; clock = clock; inbox = inbox.now; log = log.now })) }
    // They are read as that image, with its cursors at rest.
    ensures reads { IfOk result (λ bytes.
        reading machine.now.program machine.now.store.rank machine.now.store.size bytes.items
        ≡ Ok (at_rest (record { machine = machine.now; clock = clock; inbox = inbox.now; log = log.now }))) }
{
    // what the types of the parts keep
    let program = machine.program();
    law_within_table(program);
    law_within_program(machine);
    law_few_parts(machine);
    inbox.law_numbers_rise();
    inbox.law_few_packets();

    let mut out = Vec::new(alloc);
    put_origin(&mut out, machine.rank(), machine.size())?;
    put_table(&mut out, program)?;
    put_machine(&mut out, machine)?;
    put_u32(&mut out, clock)?;
    put_inbox(&mut out, inbox)?;
    put_lanes(&mut out, log.destinations())?;
    Ok(out)
}

// A law, for proofs alone: a program's numbers take the bytes of the table.
fn law_within_table(program: &Program)
    ensures { IsTable program.now }
{
    program.law_within_limits();
    let _arrays = program.arrays();
}

// A law, for proofs alone: a machine stands within its program, whose statements are few.
fn law_within_program(machine: &Machine<'_>)
    ensures machine { IsMachine machine.now }
    ensures lines { size (block_of machine.now.program) ≡ length machine.now.program.statements }
    ensures few { length machine.now.program.statements ≤ most_lines }
    ensures position { FitsBytes 2 machine.now.position }
{
    machine.law_whole();
    let program = machine.program();
    program.law_within_limits();
    let _statements = program.len();
}

// A law, for proofs alone: a byte holds what is done of a collective, and how many values are
// gathered.
fn law_few_parts(machine: &Machine<'_>)
    requires { machine.now.store.size ≤ most_ranks }
    ensures done { FitsBytes 1 machine.now.store.done }
    ensures gathered { FitsBytes 1 (length machine.now.store.gathered) }
{
    machine.law_whole();
}

// An image, and the bytes behind it.
#[tactic(auto, unfolding(crate::specs::Reading::image_at))]
fn image_of<'p, 'b>(
    alloc: Heap,
    program: &'p Program,
    rank: u8,
    size: u8,
    bytes: &'b [u8],
) -> Result<(Image<'p>, &'b [u8]), ImageFault>
    requires { rank < size }
    ensures { Gives (λ x. (x.0, x.1.now)) result (image_at program.entry.now rank size bytes.now) }
{
    let (_, rest) = origin_of(rank, size, bytes)?;
    let rest = table_of(program, rest)?;
    let (machine, rest) = machine_of(alloc, program, rank, size, rest)?;
    let (clock, rest) = count_of(rest)?;
    let (inbox, rest) = inbox_of(alloc, usize::from(size), rest)?;
    let (log, rest) = log_of(alloc, rank, usize::from(size), clock, rest)?;
    let image = Image {
        machine,
        clock,
        inbox,
        log,
    };
    Ok((image, rest))
}

// The image that is all of the bytes.
#[tactic(auto, unfolding(crate::specs::Reading::reading))]
fn whole_of<'p>(
    alloc: Heap,
    program: &'p Program,
    rank: u8,
    size: u8,
    bytes: &[u8],
) -> Result<Image<'p>, ImageFault>
    requires { rank < size }
    ensures { Gives (λ i. i) result (reading program.entry.now rank size bytes.now) }
{
    let (image, rest) = image_of(alloc, program, rank, size, bytes)?;
    if rest.len() != 0 {
        return Err(ImageFault::Long);
    }
    Ok(image)
}

/// The image of this rank of the program that is all of the bytes, in either format.
///
/// An `Err` is the first fault of the bytes from left to right, or means out of
/// memory.
pub fn decode<'p>(
    alloc: Heap,
    program: &'p Program,
    rank: u8,
    size: u8,
    bytes: &[u8],
) -> Result<Image<'p>, ImageFault>
    requires rank { rank < size }
    requires size { size ≤ most_ranks }
    // What is read is an image in one of the formats, each byte of it.
    ensures found { IfOk result (λ i. IsTextOf program.entry.now rank size bytes.now i) }
    ensures savable { IfOk result (λ i. IsSavable i) }
    ensures rest { IfOk result (λ i. at_rest i ≡ i) }
    // Which fault it is, and what is read.
    ensures read { Gives (λ i. i) result (reading program.entry.now rank size bytes.now) }
{
    whole_of(alloc, program, rank, size, bytes)
}
