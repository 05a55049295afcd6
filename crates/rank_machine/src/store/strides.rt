//! Steps of a rank's own, one after another, over what it has stored.
ghost use Rattle.std.specs.Prelude.{◌≡◌, ◌≢◌, ◌<◌, ◌≤◌, IfSome, IsNone};
ghost use Rattle.rank_machine.specs.declared.want.Want.TheVariants.{Internal};
ghost use Rattle.rank_machine.specs.Machine.{machine_want, standing, IsMachine, IsMade, KeepsRank, Strides};

use crate::store::Store;
use rank_language::Program;

/// Where a rank stands after steps of its own, and how many it made.
#[derive(Clone, Copy)]
pub struct Stride {
    pub position: usize,
    pub made: u32,
}

impl Store {
    // Makes the step of its own at a position, and answers where it leads. None if something else
    // stands there, and then nothing changes. It isn't inlined: a loop of steps in compact form
    // keeps more in registers.
    #[inline(never)]
    fn follow_statement(&mut self, program: &Program, position: usize) -> Option<usize>
        requires machine { IsMachine (standing program.now position self.old) }
        ensures made { IfSome result (λ next. IsMade (standing program.now position self.old) (standing program.now next self.new)) }
        ensures stays { IsNone result → self.new ≡ self.old }
        ensures stands { IsNone result → machine_want (standing program.now position self.old) ≢ Internal }
    {
        let Some(statement) = program.statement(position) else {
            return None;
        };
        self.follow(statement, position)
    }

    // The same, by the compact form of the statement if it has one.
    #[inline(always)]
    fn step(&mut self, program: &Program, position: usize) -> Option<usize>
        requires machine { IsMachine (standing program.now position self.old) }
        ensures made { IfSome result (λ next. IsMade (standing program.now position self.old) (standing program.now next self.new)) }
        ensures stays { IsNone result → self.new ≡ self.old }
        ensures stands { IsNone result → machine_want (standing program.now position self.old) ≢ Internal }
    {
        let compact = program.compact(position);
        match self.follow_compact(compact, position) {
            Some(next) => Some(next),
            None => self.follow_statement(program, position),
        }
    }

    /// Makes steps of its own from a position on until something else stands there, but no more
    /// than `most`. No such step leaves a fault.
    pub fn stride(&mut self, program: &Program, from: usize, most: u32) -> Stride
        requires machine { IsMachine (standing program.now from self.old) }
        ensures machine { IsMachine (standing program.now result.position self.new) }
        ensures made { Strides result.made (standing program.now from self.old) (standing program.now result.position self.new) }
        ensures stays { KeepsRank (standing program.now from self.old) (standing program.now result.position self.new) }
        ensures most { result.made ≤ most }
        ensures stands { result.made < most → machine_want (standing program.now result.position self.new) ≢ Internal }
    {
        let mut position = from;
        let mut left = most;
        while left > 0 {
            let Some(next) = self.step(program, position) else {
                return Stride {
                    position,
                    made: most - left,
                };
            };
            position = next;
            left -= 1;
        }
        Stride {
            position,
            made: most,
        }
    }
}
