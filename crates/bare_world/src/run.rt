//! The run that a world keeps.
//!
//! An index answers what would else need a walk of the run.
ghost use Rattle.std.specs.Prelude.{◌≡◌, ℕ, ◌<◌, [], ◌∷◌, length, drop, replicate, reverse, Some, IfSome, IfNone, IfOk, OnOk, OnErr};
ghost use Rattle.crash_free.specs.Runs.{history, sent};
ghost use Rattle.bare_world.specs.RunIndex.{clock_at, none_made, with_misses, IsNext};

mod made;

use crash_free::{Act, Passed};
use limits::Heap;
use made::Made;
use std::alloc::AllocError;
use std::marker::Model;

/// The acts that passed, in order.
///
/// Contracts see the newest first, and nothing of the index that is asked here.
#[derive(Drop)]
pub struct Run {
    ranks: u8,
    acts: Vec<Passed, Heap>,
    index: Vec<Made, Heap>,
}

impl Model for Run {
    ghost use Rattle.std.specs.Prelude.{reverse};
    ghost use Rattle.bare_world.specs.RunIndex.{RunValue, IsIndexed};

    ghost Value = { RunValue };

    ghost view = { λ r. record { ranks = r.ranks; acts = reverse r.acts.items } };

    ghost invariant = { λ r. IsIndexed r.ranks (reverse r.acts.items) r.index.items };
}

impl Run {
    /// The run of this many ranks in which nothing happened. An `Err` is want
    /// of memory.
    pub fn new(alloc: Heap, ranks: u8) -> Result<Run, AllocError>
        ensures ranks { IfOk result (λ run. run.ranks ≡ ranks) }
        ensures acts { IfOk result (λ run. run.acts ≡ []) }
    {
        Ok(Run {
            ranks,
            acts: Vec::new(alloc),
            index: index_of_none(alloc, ranks)?,
        })
    }

    /// The same run, in memory of its own. An `Err` means out of memory.
    pub fn copy(&self, alloc: Heap) -> Result<Run, AllocError>
        ensures { IfOk result (λ copy. copy ≡ self.now) }
    {
        Ok(Run {
            ranks: self.ranks,
            acts: self.acts.as_slice().to_vec(alloc)?,
            index: self.index.as_slice().to_vec(alloc)?,
        })
    }

    /// How many acts there are.
    pub fn len(&self) -> usize
        ensures { result ≡ length self.now.acts }
    {
        self.acts.len()
    }

    /// The acts, the oldest first.
    pub fn acts(&self) -> &[Passed]
        ensures { result.now ≡ reverse self.now.acts }
    {
        self.acts.as_slice()
    }

    /// The rank of the act at this place, from 0, oldest first.
    pub fn rank_at(&self, index: usize) -> u8
        requires { index < length self.now.acts }
        ensures next { IsNext self.now.acts index result }
        ensures rank { result < self.now.ranks }
    {
        self.acts[index].rank
    }

    /// How many acts a rank made.
    pub fn count(&self, rank: u8) -> usize
        requires { rank < self.now.ranks }
        ensures { result ≡ length (history self.now.acts rank) }
    {
        self.index[usize::from(rank)].count()
    }

    /// How many messages the source sent to the destination.
    pub fn sent(&self, source: u8, dest: u8) -> usize
        requires source { source < self.now.ranks }
        requires dest { dest < self.now.ranks }
        ensures { result ≡ length (sent self.now.acts source dest) }
    {
        self.index[usize::from(source)].sent(dest)
    }

    /// The place, from 1, of the message with this clock among those that the
    /// source sent to the destination.
    pub fn place_of(&self, source: u8, dest: u8, clock: u32) -> Option<u64>
        requires source { source < self.now.ranks }
        requires dest { dest < self.now.ranks }
        ensures some { IfSome result (λ j. clock_at self.now.acts source dest j ≡ Some clock) }
        ensures none { IfNone result (
            (j : ℕ) → clock_at self.now.acts source dest j ≡ Some clock → ⊥) }
    {
        self.index[usize::from(source)].place_of(dest, u64::from(clock))
    }

    /// Puts the newest act. An `Err` means out of memory.
    #[tactic(auto, using(crate::proofs::Runs::Index::count_fits))]
    pub fn push(&mut self, passed: Passed) -> Result<(), AllocError>
        requires { passed.rank < self.old.ranks }
        ensures ok { OnOk result (self.new.acts ≡ passed ∷ self.old.acts) }
        ensures ranks { self.new.ranks ≡ self.old.ranks }
        ensures err { OnErr result (self.new ≡ self.old) }
    {
        self.acts.reserve(1)?;
        self.index[usize::from(passed.rank)].note(&passed.act)?;
        self.acts.push_reserved(passed);
        Ok(())
    }

    /// Puts so many misses of a rank, or none where memory ends. An `Err` is
    /// refused memory.
    #[tactic(auto, using(crate::proofs::Runs::MoreMisses::misses_more, crate::proofs::Runs::MoreMisses::misses_back))]
    pub fn push_misses(&mut self, rank: u8, count: u32) -> Result<(), AllocError>
        requires { rank < self.old.ranks }
        ensures ok { OnOk result (self.new.acts ≡ with_misses rank count self.old.acts) }
        ensures ranks { self.new.ranks ≡ self.old.ranks }
        ensures err { OnErr result (self.new.acts ≡ self.old.acts) }
    {
        for done in 0..count {
            let act = Act::Misses;
            let Ok(()) = self.push(Passed { rank, act }) else {
                self.take_back_many(done);
                return Err(AllocError);
            };
        }
        Ok(())
    }

    /// Takes so many of the newest acts back. This takes no memory.
    #[tactic(auto, using(crate::proofs::Runs::MoreMisses::drop_next, crate::proofs::Lists::Beginnings::drop_zero))]
    pub fn take_back_many(&mut self, count: u32)
        ensures acts { self.new.acts ≡ drop count self.old.acts }
        ensures ranks { self.new.ranks ≡ self.old.ranks }
    {
        for _ in 0..count {
            self.take_back();
        }
    }

    /// Takes the newest act back, if there is one. This takes no memory.
    #[tactic(auto, using(crate::proofs::Runs::Index::counted_last))]
    pub fn take_back(&mut self)
        ensures acts { self.new.acts ≡ drop 1 self.old.acts }
        ensures ranks { self.new.ranks ≡ self.old.ranks }
    {
        if let Some(passed) = self.acts.pop() {
            self.index[usize::from(passed.rank)].forget(&passed.act);
        }
    }
}

fn index_of_none(alloc: Heap, ranks: u8) -> Result<Vec<Made, Heap>, AllocError>
    ensures { IfOk result (λ index. index.items ≡ replicate ranks (none_made ranks)) }
{
    let mut index = Vec::new(alloc);
    for _ in 0..ranks {
        index.push(Made::new(alloc, ranks)?)?;
    }
    Ok(index)
}
