//! What a telling program has beside its own.
use rank_text::grammar::Name;

/// The variable that the program doesn't have.
#[derive(Clone, Copy)]
pub struct Added {
    /// Takes the values of prints, and counts items.
    pub reply: Name,
}
