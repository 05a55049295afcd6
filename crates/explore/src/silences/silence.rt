//! The positions of a program behind which no message is sent of those that are
//! sought: claims that are dropped until those that are left hold line by line.
ghost use Rattle.std.specs.Prelude.{◌≡◌, ◌<◌, ◌-◌, ◌^◌, true, IfOk, Some, slice_get, ℕ};
ghost use Rattle.rank_language.specs.Block.{Line};
ghost use Rattle.rank_language.specs.Seen.{line_of};
ghost use Rattle.crash_free.specs.LiveVariables.Live.{claimed};

use crate::silences::line::may_send;
use crate::silences::sought::Sought;
use crash_free::live_variables::Claims;
use limits::Heap;
use rank_language::{Program, Statement};
use std::alloc::AllocError;

/// At which positions of one program the sender sends no more of some messages. A
/// program of 1000 lines takes 1 KB.
#[derive(Drop)]
pub struct Silence {
    pub sought: Sought,
    pub claims: Claims,
}

impl Silence {
    ghost use Rattle.explore.specs.Silences.{AllHold, HoldsAt, IsRowOf};

    /// The row of these messages, with the program's end. The claims that no line
    /// denies, at first all, are looked at from the last line on, again and again
    /// while some were dropped. An `Err` means out of memory.
    pub fn of(alloc: Heap, program: &Program, sought: Sought) -> Result<Silence, AllocError>
        ensures { IfOk result (λ row. IsRowOf program.now row) }
    {
        program.law_within_limits();
        program.law_lines();
        let lines = program.len();
        let mut row = Silence {
            sought,
            claims: Claims::full(alloc, lines + 1)?,
        };
        let mut rounds = 0;
        while rounds <= lines {
            if row.all_hold(program) {
                return Ok(row);
            }
            row.drop_some(program);
            rounds += 1;
        }
        Ok(Silence {
            sought,
            claims: Claims::empty(alloc),
        })
    }

    // Whether the claim for the statement at a position is right, if those for the next ones are.
    fn holds_at(&self, position: usize, statement: &Statement) -> bool
        requires { position < 2 ^ 64 - 1 }
        ensures { result ≡ true → HoldsAt self.now.sought (claimed self.now.claims) position (line_of statement.now) }
    {
        self.claims.claims(statement.next_position(position, true))
            && self.claims.claims(statement.next_position(position, false))
            && !may_send(self.sought, statement)
    }

    // The same of the position's statement, if there is one, and if the position is claimed.
    fn is_right(&self, program: &Program, position: usize) -> bool
        ensures { result ≡ true → (l : Line) → slice_get program.now.statements position ≡ Some l → claimed self.now.claims position ≡ true
            → HoldsAt self.now.sought (claimed self.now.claims) position l }
    {
        if !self.claims.claims(position) {
            return true;
        }
        match program.statement(position) {
            None => true,
            Some(statement) => self.holds_at(position, statement),
        }
    }

    // Whether each claim is right if the others are.
    fn all_hold(&self, program: &Program) -> bool
        ensures { result ≡ true → AllHold self.now.sought self.now.claims program.now.statements }
    {
        let lines = program.len();
        let mut position = 0;
        while position < lines {
            if !self.is_right(program, position) {
                return false;
            }
            position += 1;
        }
        true
    }

    // Drops the claims that the others don't bear out, from the last line on: so most go in one
    // round.
    fn drop_some(&mut self, program: &Program)
        ensures { self.new.sought ≡ self.old.sought }
    {
        let mut position = self.claims.len();
        while position > 0 {
            position -= 1;
            if !self.is_right(program, position) {
                self.claims.deny(position);
            }
        }
    }
}
