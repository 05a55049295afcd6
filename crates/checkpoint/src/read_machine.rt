//! Reads the header and the machine of an image.
ghost use Rattle.std.specs.Prelude.{◌≡◌, ◌≤◌, ◌<◌, ◌==◌, nat_le, length, map, IfOk};
ghost use Rattle.limits.specs.Limits.{greatest_tag, most_items};
ghost use Rattle.rank_text.specs.Checker.SeenLines.{arrays_seen};
ghost use Rattle.rank_language.specs.Program.{AllSized};
ghost use Rattle.rank_machine.specs.Faults.{IsLeft};
ghost use Rattle.rank_machine.specs.Collectives.{greatest_ordinal};
ghost use Rattle.checkpoint.specs.declared.fault.ImageFault.TheVariants.{WrongProgram, Field};
ghost use Rattle.checkpoint.specs.Reading.{Gives, field, where_holds, format_at, origin_at, lengths_at, table_at};
ghost use Rattle.checkpoint.specs.Reading.{fault_at, standing_at, status_at, arrays_at, machine_at};
ghost use Rattle.checkpoint.specs.Seen.{standing_seen};

use crate::fault::ImageFault;
use crate::format::{EVENT_VERSION, Format};
use crate::reading::{u8_at, u16_at, u32_at, values_of};
use limits::{GREATEST_CLOCK, GREATEST_TAG, Heap, MOST_ITEMS};
use rank_language::{Array, Program};
use rank_machine::{Gathered, Items, Machine, MachineFault, Parts, Status};

/// Where a machine stands.
#[derive(Drop)]
pub struct MachineStanding {
    pub position: u16,
    pub done: u8,
    pub fault: Option<MachineFault>,
    pub gathered: Vec<i64, Heap>,
    pub finished: u32,
}

// The format. The second one names the version of event words, which is one alone.
#[tactic(auto, unfolding(crate::specs::Reading::format_at, crate::specs::Reading::field))]
fn format_of(bytes: &[u8]) -> Result<(Format, &[u8]), ImageFault>
    ensures { Gives (λ x. (x.0, x.1.now)) result (format_at bytes.now) }
{
    let (version, rest) = u8_at(bytes)?;
    match version {
        1 => Ok((Format::One, rest)),
        2 => {
            let (events, rest) = u8_at(rest)?;
            if events != EVENT_VERSION {
                return Err(ImageFault::Version);
            }
            Ok((Format::Two, rest))
        }
        _ => Err(ImageFault::Version),
    }
}

/// The format, the rank and the number of ranks.
#[tactic(auto, unfolding(crate::specs::Reading::origin_at, crate::specs::Reading::field))]
pub fn origin_of(rank: u8, size: u8, bytes: &[u8]) -> Result<(Format, &[u8]), ImageFault>
    ensures { Gives (λ x. (x.0, x.1.now)) result (origin_at rank size bytes.now) }
{
    let (format, rest) = format_of(bytes)?;
    let (own, rest) = u8_at(rest)?;
    if own != rank {
        return Err(ImageFault::WrongProgram);
    }
    let (ranks, rest) = u8_at(rest)?;
    if ranks != size || usize::from(ranks) > format.most_ranks() {
        return Err(ImageFault::WrongProgram);
    }
    Ok((format, rest))
}

// A number that has to be the length of an array.
#[tactic(auto, unfolding(crate::specs::Reading::field))]
fn length_of(length: usize, bytes: &[u8]) -> Result<&[u8], ImageFault>
    ensures { Gives (λ x. (length, x.now)) result (field 2 WrongProgram (λ x. x == length) bytes.now) }
{
    let (number, rest) = u16_at(bytes)?;
    if usize::from(number) != length {
        return Err(ImageFault::WrongProgram);
    }
    Ok(rest)
}

#[tactic(auto, unfolding(crate::specs::Reading::lengths_at))]
fn lengths_of<'b>(arrays: &[Array], bytes: &'b [u8]) -> Result<&'b [u8], ImageFault>
    ensures { Gives (λ x. (tt, x.now)) result (lengths_at (arrays_seen arrays.now) bytes.now) }
{
    let mut rest = bytes;
    for array in arrays {
        rest = length_of(array.length, rest)?;
    }
    Ok(rest)
}

/// How many arrays the program declares.
#[tactic(auto, using(rank_text::proofs::CheckerLaws::ScopeLaws::arrays_length))]
pub fn array_count(program: &Program) -> usize
    ensures { result ≡ length program.now.arrays }
{
    program.arrays().len()
}

/// The numbers of the program.
#[tactic(auto, unfolding(crate::specs::Reading::table_at, crate::specs::Reading::field))]
pub fn table_of<'b>(program: &Program, bytes: &'b [u8]) -> Result<&'b [u8], ImageFault>
    ensures { Gives (λ x. (tt, x.now)) result (table_at program.now bytes.now) }
{
    let (statements, rest) = u16_at(bytes)?;
    if usize::from(statements) != program.len() {
        return Err(ImageFault::WrongProgram);
    }
    let (variables, rest) = u8_at(rest)?;
    if usize::from(variables) != program.variable_count() {
        return Err(ImageFault::WrongProgram);
    }
    let (arrays, rest) = u8_at(rest)?;
    if usize::from(arrays) != array_count(program) {
        return Err(ImageFault::WrongProgram);
    }
    lengths_of(program.arrays(), rest)
}

/// A fault that an act left, if one did.
#[tactic(auto, unfolding(crate::specs::Reading::fault_at, crate::specs::Reading::field))]
fn fault_of(bytes: &[u8]) -> Result<(Option<MachineFault>, &[u8]), ImageFault>
    ensures read { Gives (λ x. (x.0, x.1.now)) result (fault_at bytes.now) }
    ensures left { IfOk result (λ x. IsLeft x.0) }
{
    let (number, rest) = u8_at(bytes)?;
    match number {
        0 => Ok((None, rest)),
        6 => Ok((Some(MachineFault::TooLong), rest)),
        7 => Ok((Some(MachineFault::CollectiveMismatch), rest)),
        _ => Err(ImageFault::Field),
    }
}

#[tactic(auto, unfolding(crate::specs::Reading::standing_at, crate::specs::Reading::field))]
fn standing_of(
    alloc: Heap,
    statements: usize,
    bytes: &[u8],
) -> Result<(MachineStanding, &[u8]), ImageFault>
    ensures read { Gives (λ x. (standing_seen x.0, x.1.now)) result (standing_at statements bytes.now) }
    ensures within { IfOk result (λ x. x.0.position ≤ statements) }
    ensures left { IfOk result (λ x. IsLeft x.0.fault) }
    ensures finished { IfOk result (λ x. x.0.finished ≤ greatest_ordinal) }
{
    let (position, rest) = u16_at(bytes)?;
    if usize::from(position) > statements {
        return Err(ImageFault::Field);
    }
    let (done, rest) = u8_at(rest)?;
    let (fault, rest) = fault_of(rest)?;
    let (count, rest) = u8_at(rest)?;
    let (gathered, rest) = values_of(alloc, usize::from(count), rest)?;
    let (finished, rest) = u32_at(rest)?;
    if finished > GREATEST_CLOCK {
        return Err(ImageFault::Field);
    }
    let standing = MachineStanding {
        position,
        done,
        fault,
        gathered,
        finished,
    };
    Ok((standing, rest))
}

#[tactic(auto, unfolding(crate::specs::Reading::status_at, crate::specs::Reading::field))]
fn status_of(size: u8, bytes: &[u8]) -> Result<(Status, &[u8]), ImageFault>
    ensures read { Gives (λ x. (x.0, x.1.now)) result (status_at size bytes.now) }
    ensures source { IfOk result (λ x. x.0.source < size) }
    ensures tag { IfOk result (λ x. x.0.tag ≤ greatest_tag) }
    ensures count { IfOk result (λ x. x.0.count ≤ most_items) }
{
    let (source, rest) = u8_at(bytes)?;
    if source >= size {
        return Err(ImageFault::Field);
    }
    let (tag, rest) = u16_at(rest)?;
    if tag > GREATEST_TAG {
        return Err(ImageFault::Field);
    }
    let (count, rest) = u16_at(rest)?;
    if usize::from(count) > MOST_ITEMS {
        return Err(ImageFault::Field);
    }
    Ok((Status { source, tag, count }, rest))
}

/// The items of each array.
fn arrays_of<'b>(
    alloc: Heap,
    arrays: &[Array],
    bytes: &'b [u8],
) -> Result<(Vec<Items, Heap>, &'b [u8]), ImageFault>
    requires { AllSized (arrays_seen arrays.now) }
    ensures read { Gives (λ x. (x.0.items, x.1.now)) result
        (arrays_at (map (λ a. a.1) (arrays_seen arrays.now)) bytes.now) }
    ensures lengths { IfOk result (λ x. map length x.0.items ≡ map (λ a. a.1) (arrays_seen arrays.now)) }
{
    let mut found = Vec::new(alloc);
    let mut rest = bytes;
    for array in arrays {
        let (items, after) = values_of(alloc, array.length, rest)?;
        found.push(Items::of(items))?;
        rest = after;
    }
    Ok((found, rest))
}

// The values gathered, with room for as many as ranks. More can't have been gathered.
fn gathered_of(alloc: Heap, size: u8, values: &[i64]) -> Result<Gathered, ImageFault>
    ensures { Gives (λ g. g) result
        (where_holds (nat_le (length values.now) size) Field (record { room = size; values = values.now })) }
{
    let room = usize::from(size);
    if values.len() > room {
        return Err(ImageFault::Field);
    }
    let mut gathered = Gathered::new(alloc, room)?;
    for value in values {
        gathered.push(*value);
    }
    Ok(gathered)
}

/// The machine of this rank. What is done and gathered is looked at behind the last item, which the
/// root of a collective may read.
#[tactic(auto, unfolding(crate::specs::Reading::machine_at))]
pub fn machine_of<'p, 'b>(
    alloc: Heap,
    program: &'p Program,
    rank: u8,
    size: u8,
    bytes: &'b [u8],
) -> Result<(Machine<'p>, &'b [u8]), ImageFault>
    requires { rank < size }
    ensures { Gives (λ x. (x.0, x.1.now)) result (machine_at program.entry.now rank size bytes.now) }
{
    let (standing, rest) = standing_of(alloc, program.len(), bytes)?;
    let (status, rest) = status_of(size, rest)?;
    let (variables, rest) = values_of(alloc, program.variable_count(), rest)?;
    let (arrays, rest) = arrays_of(alloc, program.arrays(), rest)?;
    let gathered = gathered_of(alloc, size, &standing.gathered)?;
    let parts = Parts {
        position: usize::from(standing.position),
        fault: standing.fault,
        status,
        finished: standing.finished,
        done: u16::from(standing.done),
        gathered,
        variables,
        arrays,
    };
    match Machine::restored(program, rank, size, parts) {
        None => Err(ImageFault::Field),
        Some(machine) => Ok((machine, rest)),
    }
}
