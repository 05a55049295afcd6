//! Why a rank is unfinished, and what helps.

/// Why a rank is unfinished.
#[derive(Clone, Copy)]
pub enum WhyUnfinished {
    /// It made as many steps as it may.
    Steps,
    /// It made as many acts as a clock counts.
    Clock,
    /// It made as many events as a row holds.
    Events,
    /// All ranks had come to rest while it replayed.
    Replay,
}

impl WhyUnfinished {
    /// Why, and what helps, in words.
    pub fn words(self) -> &'static str {
        match self {
            WhyUnfinished::Steps => {
                "its steps are spent: allow more (--steps), or look for a loop without an end"
            }
            WhyUnfinished::Clock => "its 268435455 acts are spent: let it do less",
            WhyUnfinished::Events =>
                "its 4096 events are spent: receive and probe less, as by whole arrays",
            WhyUnfinished::Replay => {
                "it was still being replayed when all ranks had come to rest: look at the ends of the others"
            }
        }
    }
}
