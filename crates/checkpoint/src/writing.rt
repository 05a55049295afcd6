//! Writes the fields of an image.
ghost use Rattle.std.specs.Prelude.{◌≡◌, ◌++◌, OnOk, All, FitsSigned};
ghost use Rattle.std.specs.Int.{w64};
ghost use Rattle.byteorder.specs.Endian.{big_bytes};
ghost use Rattle.checkpoint.specs.Legal.{IsPacket};
ghost use Rattle.checkpoint.specs.Spelling.{value, values, context_number, tail};

use byteorder::{BigEndian, ByteOrder};
use limits::Heap;
use matching::{Context, Packet};
use std::alloc::AllocError;

pub fn put_u8(out: &mut Vec<u8, Heap>, n: u8) -> Result<(), AllocError>
    ensures { OnOk result (out.new.items ≡ out.old.items ++ big_bytes 1 n) }
{
    out.push(n)?;
    Ok(())
}

pub fn put_u16(out: &mut Vec<u8, Heap>, n: u16) -> Result<(), AllocError>
    ensures { OnOk result (out.new.items ≡ out.old.items ++ big_bytes 2 n) }
{
    let mut bytes = [0u8; 2];
    BigEndian::write_u16(&mut bytes, n);
    out.extend_from_slice(&bytes)?;
    Ok(())
}

pub fn put_u32(out: &mut Vec<u8, Heap>, n: u32) -> Result<(), AllocError>
    ensures { OnOk result (out.new.items ≡ out.old.items ++ big_bytes 4 n) }
{
    let mut bytes = [0u8; 4];
    BigEndian::write_u32(&mut bytes, n);
    out.extend_from_slice(&bytes)?;
    Ok(())
}

#[tactic(auto, unfolding(crate::specs::Spelling::value))]
fn put_value(out: &mut Vec<u8, Heap>, n: i64) -> Result<(), AllocError>
    ensures range { FitsSigned w64 n }
    ensures spelled { OnOk result (out.new.items ≡ out.old.items ++ value n) }
{
    let mut bytes = [0u8; 8];
    BigEndian::write_i64(&mut bytes, n);
    out.extend_from_slice(&bytes)?;
    Ok(())
}

pub fn put_values(out: &mut Vec<u8, Heap>, items: &[i64]) -> Result<(), AllocError>
    ensures spelled { OnOk result (out.new.items ≡ out.old.items ++ values items.now) }
    ensures range { OnOk result (All (FitsSigned w64) items.now) }
{
    for n in items {
        put_value(out, *n)?;
    }
    Ok(())
}

fn context_byte(context: Context) -> u8
    ensures { result ≡ context_number context }
{
    match context {
        Context::PointToPoint => 0,
        Context::Collective => 1,
    }
}

/// What stands of a packet after its envelope's numbers.
#[tactic(auto, unfolding(crate::specs::Spelling::tail))]
pub fn put_tail(out: &mut Vec<u8, Heap>, packet: &Packet) -> Result<(), AllocError>
    ensures packet { OnOk result (IsPacket packet.now) }
    ensures spelled { OnOk result (out.new.items ≡ out.old.items ++ tail packet.now) }
{
    put_u8(out, context_byte(packet.context))?;
    put_u16(out, packet.tag)?;
    put_u16(out, packet.payload.len() as u16)?;
    put_values(out, &packet.payload)
}
