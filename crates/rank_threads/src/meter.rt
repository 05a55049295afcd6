//! What counts the costs of a rank, in life after life.
ghost use Rattle.std.specs.Prelude.{◌≡◌, slice_index_or, slice_set};
ghost use Rattle.rank_threads.specs.Costs.{after_act, after_image, after_log, after_message, after_most, after_put, new_meter, one_dropped};

use crate::costs::{Costs, FrameKind, LogSize};
use limits::MOST_RANKS;

/// What counts the costs of a rank. It outlives the rank's lives, as its tally
/// does.
#[derive(Clone, Copy)]
pub struct Meter {
    /// The greatest clock of an act so far.
    clock: u32,
    /// To each rank, the greatest number of a message so far.
    numbers: [u32; MOST_RANKS],
    pub costs: Costs,
}

impl Meter {
    /// Nothing is counted yet.
    pub fn new() -> Meter
        ensures { result ≡ new_meter }
    {
        Meter {
            clock: 0,
            numbers: [0; MOST_RANKS],
            costs: Costs::none(),
        }
    }

    /// The rank made the act of this clock: again, if it was there before.
    pub fn count_act(&mut self, clock: u32)
        ensures { self.new ≡ after_act self.old clock }
    {
        if clock > self.clock {
            self.clock = clock;
            self.costs.acts = self.costs.acts.saturating_add(1);
        } else {
            self.costs.acts_again = self.costs.acts_again.saturating_add(1);
        }
    }

    /// A frame of this kind was put into the lane to this rank.
    pub fn count_put(&mut self, dest: u8, kind: FrameKind)
        ensures { self.new ≡ after_put self.old dest kind }
    {
        match kind {
            FrameKind::Message { number } => self.count_message(dest, number),
            FrameKind::Ask => self.costs.asks = self.costs.asks.saturating_add(1),
            FrameKind::Notice => self.costs.notices = self.costs.notices.saturating_add(1),
        }
    }

    // The message of this number: again, if it went to that rank before.
    fn count_message(&mut self, dest: u8, number: u32)
        ensures { self.new ≡ after_message self.old dest number }
    {
        if number > self.number_to(dest) {
            self.note_number(dest, number);
            self.costs.messages = self.costs.messages.saturating_add(1);
        } else {
            self.costs.messages_again = self.costs.messages_again.saturating_add(1);
        }
    }

    // The greatest number of a message to that rank so far.
    fn number_to(&self, dest: u8) -> u32
        ensures { result ≡ slice_index_or self.now.numbers dest 0 }
    {
        self.numbers.get(usize::from(dest)).copied().unwrap_or(0)
    }

    #[tactic(auto, using(crate::proofs::LaneLists::set_past))]
    fn note_number(&mut self, dest: u8, number: u32)
        ensures { self.new ≡ record self.old { numbers = slice_set self.old.numbers dest number } }
    {
        let dest = usize::from(dest);
        if dest < self.numbers.len() {
            self.numbers[dest] = number;
        }
    }

    /// An image of so many bytes was taken.
    pub fn count_image(&mut self, bytes: u64)
        ensures { self.new ≡ after_image self.old bytes }
    {
        self.costs.images = self.costs.images.saturating_add(1);
        self.costs.image_bytes = self.costs.image_bytes.saturating_add(bytes);
    }

    /// The payload log is about to let messages go.
    pub fn note_most(&mut self, size: LogSize)
        ensures { self.new ≡ after_most self.old size }
    {
        if size.messages > self.costs.kept_most.messages {
            self.costs.kept_most = size;
        }
    }

    /// A life ends with a payload log of this size.
    pub fn note_log(&mut self, size: LogSize)
        ensures { self.new ≡ after_log self.old size }
    {
        self.note_most(size);
        self.costs.kept = size;
    }

    /// A frame on its way to the rank was dropped.
    pub fn count_dropped(&mut self)
        ensures { self.new ≡ one_dropped self.old }
    {
        self.costs.dropped = self.costs.dropped.saturating_add(1);
    }
}
