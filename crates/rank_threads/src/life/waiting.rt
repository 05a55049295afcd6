//! How a rank waits that finds nothing to do.
ghost use Rattle.std.specs.Prelude.{◌≡◌, ◌==◌, ◌-◌, if◌then◌else◌};
ghost use Rattle.rank_threads.specs.Tally.{more};
ghost use Rattle.rank_threads.specs.Waits.{gives_away, rests_after, span_after, span_found};

use std::hint::spin_loop;
use std::thread;

/// So often in a row a rank looks anew before it gives its core away: what it
/// waits for is mostly there within some microseconds, if the other rank has a
/// core too.
const LOOKS: u32 = 64;

/// So many waits go by without such looks at most.
const MOST_RESTS: u32 = 128;

/// Whether it has paid lately to look anew at once.
#[derive(Drop)]
pub struct Patience {
    /// How often in a row nothing was found.
    vain: u32,
    /// How many waits are still to go by without looks.
    rests: u32,
    /// So many go by when looks are next in vain: twice as many each time, and
    /// half as many where looks paid. One that was interrupted soon looks again,
    /// and one that shares its core mostly yields.
    span: u32,
}

impl Patience {
    /// That of a rank that hasn't waited yet.
    pub fn new() -> Patience
        ensures { result ≡ record { vain = 0; rests = 0; span = 1 } }
    {
        Patience {
            vain: 0,
            rests: 0,
            span: 1,
        }
    }

    /// Something was found, so a wait is over, if there was one.
    pub fn end_wait(&mut self)
        ensures vain { self.new.vain ≡ 0 }
        ensures rests { self.new.rests ≡ (if self.old.vain == 0 then self.old.rests else self.old.rests - 1) }
        ensures span { self.new.span ≡ span_found self.old.rests self.old.span self.old.vain }
    {
        if self.vain == 0 {
            return;
        }
        self.vain = 0;
        if self.rests == 0 {
            self.span = (self.span / 2).max(1);
        } else {
            self.rests -= 1;
        }
    }

    /// Nothing was found: the rank waits for a moment. Answers whether it gave
    /// its core away for that.
    pub fn wait(&mut self) -> bool
        ensures gave { result ≡ gives_away self.old.rests (more self.old.vain 1) }
        ensures vain { self.new.vain ≡ more self.old.vain 1 }
        ensures rests { self.new.rests ≡ rests_after self.old.rests self.old.span (more self.old.vain 1) }
        ensures span { self.new.span ≡ span_after self.old.rests self.old.span (more self.old.vain 1) }
    {
        self.vain = self.vain.saturating_add(1);
        if self.rests == 0 && self.vain <= LOOKS {
            spin_loop();
            return false;
        }
        if self.rests == 0 {
            self.rests = self.span;
            self.span = self.span.min(MOST_RESTS / 2) * 2;
        }
        thread::yield_now();
        true
    }
}
