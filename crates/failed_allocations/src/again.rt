//! What is made once more where memory was refused.
ghost use Rattle.std.specs.Prelude.{◌≡◌, ◌≤◌, IfOk};

use limits::Heap;
use matching::{Context, Packet, PacketItems};
use rank_language::Program;
use std::alloc::AllocError;

/// The program of a text.
pub fn program_of(alloc: Heap, text: &[u8]) -> Option<Program> {
    match Program::parse(alloc, text) {
        Ok(program) => Some(program),
        Err(_) => Program::parse(alloc, text).ok(),
    }
}

/// A value goes last in a list. Answers whether there was memory.
pub fn push<T: Copy>(list: &mut Vec<T, Heap>, value: T) -> bool {
    list.push(value).is_ok() || list.push(value).is_ok()
}

/// The packet of this number that a rank sends with tag 7, each act of it a
/// send: the one item is ten times its number.
pub fn packet(alloc: Heap, source: u8, number: u32) -> Result<Packet, AllocError>
    requires { (1 ≤ number) × (number ≤ 5000) }
    ensures source { IfOk result (λ packet. packet.source ≡ source) }
    ensures number { IfOk result (λ packet. packet.number ≡ number) }
{
    Ok(Packet {
        source,
        clock: number,
        number,
        context: Context::PointToPoint,
        tag: 7,
        payload: PacketItems::from_slice(alloc, &[10 * i64::from(number)])?,
    })
}

/// The packet of rank 0 with this number, or with the nearest from 1 to 5000.
pub fn packet_near(alloc: Heap, number: u32) -> Result<Packet, AllocError> {
    packet(alloc, 0, number.max(1).min(5000))
}
