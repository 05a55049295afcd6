//! The script of one run, drawn at random.
ghost use Rattle.std.specs.Prelude.{◌≡◌, ◌<◌, ◌≤◌, ◌+◌, All, IfOk, IfSome, slice_index_or};
ghost use Rattle.rank_text.specs.Scripts.Orders.{IsOrder};
ghost use Rattle.outcomes.specs.Soak.Lines.{AreWithin, CanFollow, CanBeUsed, count_of, images_in, kills_in, passed_in};

use crate::soak::course::{imaged, reached};
use crate::soak::most::Most;
use limits::{GREATEST_CLOCK, Heap};
use rand::RngExt;
use rand_pcg::Pcg32;
use rank_text::script::{Order, ScriptLine};
use std::alloc::AllocError;

/// How many kills and images are still to be drawn.
#[derive(Drop)]
struct LeftToDraw {
    kills: u8,
    images: u8,
}

/// The lines of the script of one run, of a program whose ranks make so many
/// acts. They follow from the seed and the run's number, whatever the machine.
///
/// A line stands at a random rank, at a clock that can come once the lines
/// before it are used: a kill after the rank's last image, also where the rank
/// replays, and an image where the rank has never been. A rank that has no
/// such clock gets no line, so a script may be shorter than what was drawn.
#[tactic(auto, using(crate::proofs::SoakLaws::LineLaws::push_laws))]
pub fn draw(
    alloc: Heap,
    seed: u64,
    run: u64,
    ranks: u8,
    acts: &[u32],
    most: Most,
) -> Result<Vec<ScriptLine, Heap>, AllocError>
    requires some { 1 ≤ ranks }
    ensures orders { IfOk result (λ lines. All (IsOrder ranks) lines.items) }
    ensures within { IfOk result (λ lines. AreWithin acts.now lines.items) }
    ensures usable { IfOk result (λ lines. CanBeUsed lines.items) }
    ensures kills { IfOk result (λ lines. kills_in lines.items ≤ most.kills) }
    ensures images { IfOk result (λ lines. images_in lines.items ≤ most.images) }
{
    let mut rng = Pcg32::new(seed, run);
    let mut left = LeftToDraw {
        kills: rng.random_range(0..=most.kills),
        images: rng.random_range(0..=most.images),
    };
    let mut lines = Vec::new(alloc);
    while left.kills > 0 || left.images > 0 {
        let order = left.next(&mut rng);
        if let Some(line) = line_of(&mut rng, ranks, acts, lines.as_slice(), order) {
            lines.push(line)?;
        }
    }
    Ok(lines)
}

impl LeftToDraw {
    // Which of the two comes next: each that is left is as likely as another.
    fn next(&mut self, rng: &mut Pcg32) -> Order
        requires { 1 ≤ self.old.kills + self.old.images }
        ensures kills { self.new.kills + count_of result Order.Kill ≡ self.old.kills }
        ensures images { self.new.images + count_of result Order.Image ≡ self.old.images }
    {
        let all = u16::from(self.kills) + u16::from(self.images);
        if rng.random_range(0..all) < u16::from(self.kills) {
            self.kills -= 1;
            Order::Kill
        } else {
            self.images -= 1;
            Order::Image
        }
    }
}

// A line more, unless its rank has no clock for it.
fn line_of(
    rng: &mut Pcg32,
    ranks: u8,
    acts: &[u32],
    lines: &[ScriptLine],
    order: Order,
) -> Option<ScriptLine>
    requires { 1 ≤ ranks }
    ensures order { IfSome result (λ line. line.order ≡ order) }
    ensures is_order { IfSome result (IsOrder ranks) }
    ensures within { IfSome result (λ line. line.clock ≤ slice_index_or acts.now line.rank 0) }
    ensures usable { IfSome result (λ line. All (CanFollow line) lines.now) }
{
    let rank = rng.random_range(0..ranks);
    let acts = acts.get(usize::from(rank)).copied().unwrap_or(0);
    let last = acts.min(GREATEST_CLOCK);
    let before = passed(lines, rank, order);
    if before >= last {
        return None;
    }
    let clock = clock_after(rng, before, last);
    Some(ScriptLine { rank, clock, order })
}

// The last clock of the rank at which such a line can't be used behind these.
fn passed(lines: &[ScriptLine], rank: u8, order: Order) -> u32
    ensures { result ≡ passed_in order rank lines.now }
{
    match order {
        Order::Kill => imaged(lines, rank),
        Order::Image => reached(lines, rank),
    }
}

// One of the clocks that are left, and in one case of four the next one: so
// that ranks crash right after an image, and right after they began.
fn clock_after(rng: &mut Pcg32, before: u32, last: u32) -> u32
    requires { before < last }
    ensures past { before < result }
    ensures within { result ≤ last }
{
    let next = before + 1;
    if rng.random_range(0..4u8) == 0 {
        return next;
    }
    rng.random_range(next..=last)
}
