//! A rank that runs.
ghost use Rattle.std.specs.Prelude.{◌≡◌, ◌<◌, ◌≤◌, length, replicate, IfOk, IfErr, None};
ghost use Rattle.limits.specs.Limits.{most_events, most_ranks};
ghost use Rattle.rank_machine.specs.Machine.{machine_want, IsWantedBy};
ghost use Rattle.checkpoint.specs.Savable.{IsSavable};
ghost use Rattle.rank_node.specs.Image.{first_image};

use crate::both::both;
use crate::due::Due;
use crate::fault::NodeFault;
use crate::pending::Pending;
use crate::stable::Stable;
use checkpoint::{Image, Shelf};
use limits::Heap;
use matching::Inbox;
use payload_log::PayloadLog;
use rank_language::Program;
use rank_machine::{Machine, Want, Wanted};
use std::alloc::AllocError;
use std::marker::Model;

/// A rank that runs. It must be spent, as by `retire`.
// It hands its machine, the list at its gate and its shelf what is theirs alone,
// so that whoever drives a rank has one value under one invariant.
pub struct Running<'p, S: Shelf, D> {
    pub(crate) stable: Stable<S, D>,
    pub(crate) alloc: Heap,
    pub(crate) machine: Machine<'p>,
    pub(crate) clock: u32,
    // how many events it has made
    pub(crate) made: usize,
    pub(crate) inbox: Inbox,
    pub(crate) log: PayloadLog,
    pub(crate) pending: Pending,
    pub(crate) dues: Vec<Due, Heap>,
}

impl<'p, S: Shelf, D> Model for Running<'p, S, D> {
    ghost use Rattle.std.specs.Coded.{codes};
    ghost use Rattle.rank_language.specs.Coding.{placed_code};
    ghost use Rattle.rank_node.specs.Node.{Node, IsNode};
    ghost use Rattle.rank_node.specs.Seen.{seen};

    ghost Value = { Node S D };

    ghost coded = { Prim.hlevel (codes, placed_code) };

    ghost view = { seen };

    ghost invariant = { λ r. IsNode {S = S} {D = D} (seen r) };
}

impl<'p, S: Shelf, D> Running<'p, S, D> {
    ghost use Rattle.rank_node.specs.Node.{opening, at_image};

    /// A rank at the beginning of its program. An `Err` means out of memory,
    /// and gives back what was given.
    pub fn start(
        alloc: Heap,
        program: &'p Program,
        stable: Stable<S, D>,
    ) -> Result<Running<'p, S, D>, (Stable<S, D>, NodeFault)>
        ensures ok { IfOk result (λ rank. rank ≡ opening program.entry.now stable) }
        ensures err { IfErr result (λ refused. refused ≡ (stable, NodeFault.Memory)) }
    {
        let rank = stable.rank();
        let size = stable.size();
        let image = first_image(alloc, program, rank, size);
        match both(image, no_dues(alloc, usize::from(size))) {
            Ok((image, dues)) => Ok(Running::at(stable, alloc, image, 0, dues)),
            Err(_) => Err((stable, NodeFault::Memory)),
        }
    }

    // The rank that stands at an image and has made so many events, with what is due to each rank.
    #[tactic(auto, using(crate::proofs::Images::savable_held))]
    pub(crate) fn at(
        stable: Stable<S, D>,
        alloc: Heap,
        image: Image<'p>,
        made: usize,
        dues: Vec<Due, Heap>,
    ) -> Running<'p, S, D>
        requires savable { IsSavable image }
        requires rank { image.machine.store.rank ≡ stable.rank }
        requires size { image.machine.store.size ≡ stable.size }
        requires made { made ≤ most_events }
        requires dues { length dues.items ≡ stable.size }
        ensures { result ≡ at_image stable image.entry made dues.items }
    {
        let Image {
            machine,
            clock,
            inbox,
            log,
        } = image;
        Running {
            stable,
            alloc,
            machine,
            clock,
            made,
            inbox,
            log,
            pending: Pending::new(alloc),
            dues,
        }
    }

    /// The rank stops for good.
    pub fn retire(self) -> Stable<S, D>
        ensures { result ≡ self.entry.stable }
    {
        let Running {
            stable,
            alloc: _,
            machine: _,
            clock: _,
            made: _,
            inbox: _,
            log: _,
            pending: _,
            dues: _,
        } = self;
        stable
    }

    /// What its machine wants next.
    pub fn wants(&self) -> Want
        ensures { result ≡ machine_want self.now.machine }
    {
        self.machine.wants()
    }

    /// What its machine wants next, with what was evaluated to find it.
    #[inline(always)]
    pub fn wanted(&self) -> Wanted
        ensures { IsWantedBy self.now.machine result }
    {
        self.machine.wanted()
    }

    /// How many acts it has made.
    pub fn clock(&self) -> u32
        ensures { result ≡ self.now.clock }
    {
        self.clock
    }
}

// The beginning of a program, as an image of the rank. An `Err` means out of
// memory.
#[tactic(auto, using(crate::proofs::Images::first_savable))]
pub(crate) fn first_image<'p>(
    alloc: Heap,
    program: &'p Program,
    rank: u8,
    size: u8,
) -> Result<Image<'p>, AllocError>
    requires rank { rank < size }
    requires size { size ≤ most_ranks }
    ensures first { IfOk result (λ image. image ≡ first_image program.entry.now rank size) }
    ensures savable { IfOk result (λ image. IsSavable image) }
{
    let ranks = usize::from(size);
    let packets = both(Inbox::new(alloc, ranks), PayloadLog::new(alloc, ranks));
    let parts = both(Machine::new(alloc, program, rank, size), packets);
    let (machine, (inbox, log)) = parts?;
    Ok(Image {
        machine,
        clock: 0,
        inbox,
        log,
    })
}

// Nothing is due to this many ranks.
fn no_dues(alloc: Heap, size: usize) -> Result<Vec<Due, Heap>, AllocError>
    ensures { IfOk result (λ dues. dues.items ≡ replicate size (record { ask = None; kept = None })) }
{
    let due = Due {
        ask: None,
        kept: None,
    };
    let dues = vec![in alloc; due; size]?;
    Ok(dues)
}
