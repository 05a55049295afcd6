//! Writes the parts of an image.
ghost use Rattle.std.specs.Prelude.{◌≡◌, ◌<◌, ◌≤◌, ◌++◌, length, OnOk, All, FitsSigned};
ghost use Rattle.std.specs.Int.{w64};
ghost use Rattle.std.specs.List.{flat_map};
ghost use Rattle.byteorder.specs.Endian.{big_bytes};
ghost use Rattle.matching.specs.Packets.{left};
ghost use Rattle.limits.specs.Limits.{most_items};
ghost use Rattle.rank_text.specs.Checker.SeenLines.{arrays_seen};
ghost use Rattle.rank_language.specs.Program.{AllSized};
ghost use Rattle.checkpoint.specs.Image.{standing_of, status_of};
ghost use Rattle.checkpoint.specs.Legal.{IsTable, IsPacket, IsStored};
ghost use Rattle.checkpoint.specs.declared.format.Format.TheVariants.{Two};
ghost use Rattle.checkpoint.specs.Spelling.{FitsBytes, values, packet, kept, lane, origin, lengths, table};
ghost use Rattle.checkpoint.specs.Spelling.{fault_field, standing, status, machine, inbox};

use crate::format::{EVENT_VERSION, Format};
use crate::read_machine::array_count;
use crate::writing::{put_tail, put_u8, put_u16, put_u32, put_values};
use limits::Heap;
use matching::{Inbox, Packet, Packets};
use payload_log::Backlog;
use rank_language::{Array, Program};
use rank_machine::{Items, Machine, MachineFault};
use std::alloc::AllocError;

fn put_counts(out: &mut Vec<u8, Heap>, counts: &[u32]) -> Result<(), AllocError>
    ensures { OnOk result (out.new.items ≡ out.old.items ++ flat_map (big_bytes 4) counts.now) }
{
    for count in counts {
        put_u32(out, *count)?;
    }
    Ok(())
}

#[tactic(auto, unfolding(crate::specs::Spelling::packet))]
fn put_packet(out: &mut Vec<u8, Heap>, p: &Packet) -> Result<(), AllocError>
    ensures spelled { OnOk result (out.new.items ≡ out.old.items ++ packet p.now) }
    ensures packet { OnOk result (IsPacket p.now) }
{
    put_u8(out, p.source)?;
    put_u32(out, p.clock)?;
    put_u32(out, p.number)?;
    put_tail(out, p)
}

fn put_packets(out: &mut Vec<u8, Heap>, packets: Packets<'_>) -> Result<(), AllocError>
    ensures spelled { OnOk result (out.new.items ≡ out.old.items ++ flat_map packet (left packets.entry)) }
    ensures packets { OnOk result (All IsPacket (left packets.entry)) }
{
    for p in packets {
        put_packet(out, p)?;
    }
    Ok(())
}

#[tactic(auto, unfolding(crate::specs::Spelling::inbox))]
pub fn put_inbox(out: &mut Vec<u8, Heap>, b: &Inbox) -> Result<(), AllocError>
    requires { FitsBytes 4 (length b.now.packets) }
    ensures spelled { OnOk result (out.new.items ≡ out.old.items ++ inbox b.now) }
    ensures packets { OnOk result (All IsPacket b.now.packets) }
{
    put_counts(out, b.counts())?;
    put_u32(out, b.len() as u32)?;
    put_packets(out, b.packets())
}

#[tactic(auto, unfolding(crate::specs::Spelling::kept))]
fn put_kept(out: &mut Vec<u8, Heap>, p: &Packet) -> Result<(), AllocError>
    ensures spelled { OnOk result (out.new.items ≡ out.old.items ++ kept p.now) }
    ensures packet { OnOk result (IsPacket p.now) }
{
    put_u32(out, p.clock)?;
    put_tail(out, p)
}

fn put_all_kept(out: &mut Vec<u8, Heap>, l: &Backlog) -> Result<(), AllocError>
    ensures spelled { OnOk result (out.new.items ≡ out.old.items ++ flat_map kept l.now.kept) }
    ensures packets { OnOk result (All IsPacket l.now.kept) }
{
    for place in 0..l.len() {
        let Some(p) = l.get(place) else {
            unreachable!()
        };
        put_kept(out, p)?;
    }
    Ok(())
}

#[tactic(auto, unfolding(crate::specs::Spelling::lane))]
fn put_lane(out: &mut Vec<u8, Heap>, l: &Backlog) -> Result<(), AllocError>
    ensures spelled { OnOk result (out.new.items ≡ out.old.items ++ lane l.now) }
    ensures stored { OnOk result (IsStored l.now) }
{
    l.law_in_order();
    put_u32(out, l.sent())?;
    put_u32(out, l.base())?;
    put_all_kept(out, l)
}

pub fn put_lanes(out: &mut Vec<u8, Heap>, log: &[Backlog]) -> Result<(), AllocError>
    ensures spelled { OnOk result (out.new.items ≡ out.old.items ++ flat_map lane log.now) }
    ensures stored { OnOk result (All IsStored log.now) }
{
    for l in log {
        put_lane(out, l)?;
    }
    Ok(())
}

#[tactic(auto, unfolding(crate::specs::Spelling::origin, crate::specs::Spelling::heading))]
pub fn put_origin(out: &mut Vec<u8, Heap>, rank: u8, size: u8) -> Result<(), AllocError>
    ensures { OnOk result (out.new.items ≡ out.old.items ++ origin Two rank size) }
{
    put_u8(out, Format::Two.number())?;
    put_u8(out, EVENT_VERSION)?;
    put_u8(out, rank)?;
    put_u8(out, size)
}

fn put_lengths(out: &mut Vec<u8, Heap>, arrays: &[Array]) -> Result<(), AllocError>
    requires { AllSized (arrays_seen arrays.now) }
    ensures { OnOk result (out.new.items ≡ out.old.items ++ lengths (arrays_seen arrays.now)) }
{
    for array in arrays {
        put_length(out, array.length)?;
    }
    Ok(())
}

fn put_length(out: &mut Vec<u8, Heap>, length: usize) -> Result<(), AllocError>
    requires { length ≤ most_items }
    ensures { OnOk result (out.new.items ≡ out.old.items ++ big_bytes 2 length) }
{
    put_u16(out, length as u16)
}

fn put_array_lengths(out: &mut Vec<u8, Heap>, program: &Program) -> Result<(), AllocError>
    ensures { OnOk result (out.new.items ≡ out.old.items ++ lengths program.now.arrays) }
{
    put_lengths(out, program.arrays())
}

#[tactic(auto, unfolding(crate::specs::Spelling::table))]
pub fn put_table(out: &mut Vec<u8, Heap>, program: &Program) -> Result<(), AllocError>
    requires { IsTable program.now }
    ensures { OnOk result (out.new.items ≡ out.old.items ++ table program.now) }
{
    put_u16(out, program.len() as u16)?;
    put_u8(out, program.variable_count() as u8)?;
    put_u8(out, array_count(program) as u8)?;
    put_array_lengths(out, program)
}

fn fault_byte(fault: Option<MachineFault>) -> u8
    ensures { result ≡ fault_field fault }
{
    match fault {
        None => 0,
        Some(fault) => fault.number(),
    }
}

// The parts of a collective are few, and so are the values gathered, so that a byte holds each
// number.
#[tactic(auto, unfolding(crate::specs::Spelling::standing))]
fn put_standing(out: &mut Vec<u8, Heap>, m: &Machine<'_>) -> Result<(), AllocError>
    requires position { FitsBytes 2 m.now.position }
    requires done { FitsBytes 1 m.now.store.done }
    requires gathered { FitsBytes 1 (length m.now.store.gathered) }
    ensures spelled { OnOk result (out.new.items ≡ out.old.items ++ standing (standing_of m.now)) }
    ensures range { OnOk result (All (FitsSigned w64) m.now.store.gathered) }
{
    put_u16(out, m.position() as u16)?;
    put_u8(out, m.done() as u8)?;
    put_u8(out, fault_byte(m.fault()))?;
    put_u8(out, m.gathered().len() as u8)?;
    put_values(out, m.gathered())?;
    put_u32(out, m.finished())
}

#[tactic(auto, unfolding(crate::specs::Spelling::status))]
fn put_status(out: &mut Vec<u8, Heap>, m: &Machine<'_>) -> Result<(), AllocError>
    ensures { OnOk result (out.new.items ≡ out.old.items ++ status (status_of m.now)) }
{
    let last = m.status();
    put_u8(out, last.source)?;
    put_u16(out, last.tag)?;
    put_u16(out, last.count)
}

fn put_items(out: &mut Vec<u8, Heap>, items: &Items) -> Result<(), AllocError>
    ensures spelled { OnOk result (out.new.items ≡ out.old.items ++ values items.now) }
    ensures range { OnOk result (All (FitsSigned w64) items.now) }
{
    put_values(out, items.as_slice())
}

fn put_arrays(out: &mut Vec<u8, Heap>, arrays: &[Items]) -> Result<(), AllocError>
    ensures spelled { OnOk result (out.new.items ≡ out.old.items ++ flat_map values arrays.now) }
    ensures range { OnOk result (All (All (FitsSigned w64)) arrays.now) }
{
    for array in arrays {
        put_items(out, array)?;
    }
    Ok(())
}

#[tactic(auto, unfolding(crate::specs::Spelling::machine))]
pub fn put_machine(out: &mut Vec<u8, Heap>, m: &Machine<'_>) -> Result<(), AllocError>
    requires position { FitsBytes 2 m.now.position }
    requires done { FitsBytes 1 m.now.store.done }
    requires gathered { FitsBytes 1 (length m.now.store.gathered) }
    ensures spelled { OnOk result (out.new.items ≡ out.old.items ++ machine m.now) }
    ensures gathered { OnOk result (All (FitsSigned w64) m.now.store.gathered) }
    ensures variables { OnOk result (All (FitsSigned w64) m.now.store.variables) }
    ensures arrays { OnOk result (All (All (FitsSigned w64)) m.now.store.arrays) }
{
    put_standing(out, m)?;
    put_status(out, m)?;
    put_values(out, m.variables())?;
    put_arrays(out, m.arrays())
}
