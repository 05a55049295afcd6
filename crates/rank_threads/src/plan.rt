//! What the script asks of one rank.
ghost use Rattle.std.specs.Prelude.{◌≡◌};

use limits::Heap;
use rank_text::script::{Order, ScriptLine};
use std::marker::Model;

/// The lines of a script for one rank, in their order; each is used once.
///
/// A contract sees those that aren't used yet.
#[derive(Drop)]
pub struct Plan {
    lines: Vec<ScriptLine, Heap>,
    used: usize,
}

impl Model for Plan {
    ghost use Rattle.std.specs.Prelude.{List, drop, length, ◌≤◌};
    ghost use Rattle.rank_text.specs.declared.script.line.ScriptLine.{ScriptLine};

    ghost Value = { List ScriptLine };

    ghost view = { λ p. drop p.used p.lines.items };

    ghost invariant = { λ p. p.used ≤ length p.lines.items };
}

impl Plan {
    ghost use Rattle.std.specs.Prelude.{drop, length};
    ghost use Rattle.rank_threads.specs.Plans.{order_at};

    pub fn new(lines: Vec<ScriptLine, Heap>) -> Plan
        ensures { result ≡ lines.items }
    {
        Plan { lines, used: 0 }
    }

    /// What the next line asks for, where it is for the act of this clock.
    pub fn order_at(&self, clock: u32) -> Option<Order>
        ensures { result ≡ order_at self.now clock }
    {
        match &self.lines[self.used..] {
            [line, ..] if line.clock == clock => Some(line.order),
            [_, ..] | [] => None,
        }
    }

    /// How many lines aren't used yet.
    pub fn unused(&self) -> usize
        ensures { result ≡ length self.now }
    {
        self.lines[self.used..].len()
    }

    /// The next line was done.
    #[tactic(auto, using(crate::proofs::PlanLaws::one_used, crate::proofs::PlanLaws::all_used))]
    pub fn use_one(&mut self)
        ensures { self.new ≡ drop 1 self.old }
    {
        if self.used < self.lines.len() {
            self.used += 1;
        }
    }
}
