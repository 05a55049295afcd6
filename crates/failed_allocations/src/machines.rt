//! A machine from its beginning to its end.
ghost use Rattle.std.specs.Prelude.{◌≡◌, ◌<◌, true};
ghost use Rattle.matching.specs.Matching.{matches};

use crate::again::{packet, program_of};
use crate::out::Out;
use limits::Heap;
use matching::{Context, Packet, PacketItems, Selector};
use rank_language::Program;
use rank_machine::{Machine, Want};
use std::alloc::AllocError;

/// Rank 1 of two comes through each kind of want, and gathers values.
const TEXT: &[u8] = b"var x
array a[2]
send 0, 3, a
iprobe any, 9, x
probe 0, 7
recv 0, 7, x
print x
reduce sum, 1, x, x
print x
print 1 / 0
";

/// What came of a want, and whether the machine goes on.
fn serve(machine: &mut Machine<'_>, packet: &mut Option<Packet>) -> bool {
    match machine.wants() {
        Want::Internal => machine.internal(),
        Want::Print(_) => machine.did_print(),
        Want::Send { .. } => machine.did_send(),
        Want::Receive(selector) => match packet.take() {
            Some(one) if comes(machine, &selector, &one) => machine.give(one),
            _ => return false,
        },
        Want::Probe(selector) => match packet {
            Some(one) if comes(machine, &selector, one) => machine.show(one),
            _ => return false,
        },
        Want::TryProbe(selector) => match packet {
            Some(one) if comes(machine, &selector, one) => machine.show(one),
            _ => machine.miss(),
        },
        Want::Halted | Want::Faulted(_) => return false,
    }
    true
}

/// Whether the packet is of a rank of the run, and one that the selector names.
fn comes(machine: &Machine<'_>, selector: &Selector, packet: &Packet) -> bool
    ensures source { result ≡ true → packet.now.source < machine.now.store.size }
    ensures named { result ≡ true → matches selector.now packet.now ≡ true }
{
    packet.source < machine.size() && selector.matches(packet)
}

/// Serves a machine, with this packet for its next receive and the probes
/// before that.
fn run(out: &mut Out, machine: &mut Machine<'_>, packet: Packet) {
    let mut packet = Some(packet);
    for _ in 0..64 {
        out.debug(&machine.wants());
        out.text("\n");
        if !serve(machine, &mut packet) {
            break;
        }
    }
}

/// What rank 0 sends to the reduce: its kind, its root, its ordinal and 5.
fn part(alloc: Heap) -> Result<Packet, AllocError> {
    Ok(Packet {
        source: 0,
        clock: 2,
        number: 2,
        context: Context::Collective,
        tag: 0,
        payload: PacketItems::from_slice(alloc, &[2, 1, 1, 5])?,
    })
}

fn machine_of<'p>(alloc: Heap, program: &'p Program) -> Result<Machine<'p>, AllocError> {
    match Machine::new(alloc, program, 1, 2) {
        Ok(machine) => Ok(machine),
        Err(_) => Machine::new(alloc, program, 1, 2),
    }
}

/// Serves a machine by a message and then by what the reduce gathers.
fn serve_both(out: &mut Out, program: &Program) {
    let Ok(mut machine) = machine_of(out.alloc, program) else {
        out.lack();
        return;
    };
    let (Ok(message), Ok(part)) = (packet(out.alloc, 0, 1), part(out.alloc)) else {
        out.lack();
        return;
    };
    out.follow("a machine, and what it wants");
    run(out, &mut machine, message);
    run(out, &mut machine, part);
}

/// Plays the program's machine.
pub fn play(out: &mut Out) {
    match program_of(out.alloc, TEXT) {
        Some(program) => serve_both(out, &program),
        None => out.lack(),
    }
}
