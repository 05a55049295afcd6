//! The ranks, turn by turn.
ghost use Rattle.std.specs.Prelude.{◌≡◌, ◌<◌, length, IfOk};

use crate::around::{Around, RANKS};
use crate::failure::Failure;
use crate::rank::Rank;
use limits::Heap;
use rank_language::Program;
use rank_node::NodeFault;
use std::io;

const ROUNDS: u32 = 12;

// Rank 1 takes an image in this round, and crashes in that.
const IMAGE: u32 = 2;

const CRASH: u32 = 5;

/// All ranks of a program. It must be ended.
pub struct Runner<'p> {
    around: Around<'p>,
    ranks: Vec<Rank<'p>, Heap>,
    ghost all: { length ranks.items ≡ 2 },
}

impl<'p> Runner<'p> {
    /// The ranks at the beginning of the program.
    pub fn new(alloc: Heap, program: &'p Program) -> Result<Runner<'p>, NodeFault> {
        let around = Around::new(alloc, program)?;
        let ranks = start_all(&around)?;
        Ok(Runner { around, ranks })
    }

    /// Ends all ranks.
    pub fn end(self) {
        let Runner { around: _, ranks } = self;
        end_all(ranks);
    }

    /// Each rank has its turn, round after round.
    pub fn play<R: Print>(&mut self, rt: &R) -> Result<(), Failure> {
        for round in 0..ROUNDS {
            for number in 0..RANKS {
                self.turn(rt, round, number)?;
            }
        }
        Ok(())
    }

    fn turn<R: Print>(&mut self, rt: &R, round: u32, number: u8) -> Result<(), Failure>
        requires { number < 2 }
    {
        let rank = &mut self.ranks[usize::from(number)];
        if rank.is_down() {
            rank.restart(&mut self.around)?;
            let (clock, left) = (rank.clock(), rank.left());
            println!(rt;
                "round {round}: rank {number} is back at clock {clock}, {left} events to replay"
            )?;
        }
        rank.take_in(&mut self.around)?;
        rank.step(&mut self.around)?;
        let clock = rank.clock();
        if number == 1 && round == CRASH {
            println!(rt; "round {round}: rank {number} crashes at clock {clock}")?;
            rank.crash();
            return Ok(());
        }
        rank.clear_gate(&mut self.around)?;
        if number == 1 && round == IMAGE {
            println!(rt; "round {round}: rank {number} takes an image at clock {clock}")?;
            rank.image()?;
        }
        rank.put_out(&mut self.around)?;
        Ok(())
    }

    /// Prints the lines that were shown, in their order, and how each rank ended.
    pub fn tell<R: Print>(&self, rt: &R) -> io::Result<()> {
        for line in self.around.console.lines() {
            println!(rt; "{}> {}", line.rank, line.value)?;
        }
        for (number, rank) in self.ranks.iter().enumerate() {
            let end = if rank.has_halted() {
                "halted"
            } else {
                "unfinished"
            };
            println!(rt; "rank {number}: {end}")?;
        }
        Ok(())
    }
}

fn start_all<'p>(around: &Around<'p>) -> Result<Vec<Rank<'p>, Heap>, NodeFault>
    ensures { IfOk result (λ ranks. length ranks.items ≡ 2) }
{
    let mut ranks = Vec::new(around.alloc);
    for number in 0..RANKS {
        match Rank::start(around, number) {
            Ok(rank) => {
                if let Err(refused) = ranks.push(rank) {
                    refused.value.end();
                    end_all(ranks);
                    return Err(NodeFault::Memory);
                }
            }
            Err(fault) => {
                end_all(ranks);
                return Err(fault);
            }
        }
    }
    Ok(ranks)
}

fn end_all(mut ranks: Vec<Rank<'_>, Heap>) {
    while let Some(rank) = ranks.pop() {
        rank.end();
    }
    ranks.destroy_empty();
}
