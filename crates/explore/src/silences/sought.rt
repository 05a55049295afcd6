//! Messages by sender, receiver and tag.
ghost use Rattle.std.specs.Prelude.{◌≡◌};
ghost use Rattle.explore.specs.Silences.{covers, has_tag};

/// Messages of one rank to another, with a tag, or with any if none is given.
#[derive(Clone, Copy)]
pub struct Sought {
    /// Of how many ranks the two are.
    pub ranks: u8,
    pub sender: u8,
    pub receiver: u8,
    pub tag: Option<u16>,
}

impl Sought {
    /// Whether the other messages are among these.
    pub fn covers(&self, other: Sought) -> bool
        ensures { result ≡ covers self.now other }
    {
        self.ranks == other.ranks
            && self.sender == other.sender
            && self.receiver == other.receiver
            && self.has_tag(other.tag)
    }

    fn has_tag(&self, other: Option<u16>) -> bool
        ensures { result ≡ has_tag self.now.tag other }
    {
        match self.tag {
            None => true,
            Some(own) => match other {
                None => false,
                Some(tag) => own == tag,
            },
        }
    }
}
