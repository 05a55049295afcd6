//! Whether a rank stands as a part that is kept says.
ghost use Rattle.std.specs.Prelude.{◌≡◌, ◌<◌, true, length};
ghost use Rattle.crash_free.specs.Standing.{no_rows, and_own, and_mail};

use crate::live_variables::Live;
use crate::sim::Sim;
use crate::standing::{Comparison, KeptPart, Standing};
use std::marker::Brand;

impl Sim<'_> {
    /// Whether the part is what the rank has of its own, by this table. A yes is
    /// exact; a no promises nothing. It is compared on the way, up to the first
    /// difference, and takes no memory.
    pub fn has_own(&self, live: &Live, rank: u8, part: &Standing) -> bool
        requires { rank < length self.now.machines }
        ensures { result ≡ true → part.now ≡ and_own live.now self.now no_rows rank }
    {
        self.is_own::<Brand>(live, rank, part)
    }

    /// Whether the part is the messages that the rank hasn't received, likewise.
    pub fn has_mail(&self, rank: u8, part: &Standing) -> bool
        requires { rank < length self.now.machines }
        ensures { result ≡ true → part.now ≡ and_mail self.now no_rows rank }
    {
        self.is_mail::<Brand>(rank, part)
    }

    fn is_own<K: KeptPart>(&self, live: &Live, rank: u8, part: &Standing) -> bool
        requires rank { rank < length self.now.machines }
        requires part { part.now ≡ K.kept }
        ensures { result ≡ true → K.kept ≡ and_own live.now self.now no_rows rank }
    {
        let mut comparison = Comparison::<K>::of(part);
        match self.write_own(live, rank, &mut comparison) {
            Ok(()) => comparison.is_whole(),
            Err(_) => false,
        }
    }

    fn is_mail<K: KeptPart>(&self, rank: u8, part: &Standing) -> bool
        requires rank { rank < length self.now.machines }
        requires part { part.now ≡ K.kept }
        ensures { result ≡ true → K.kept ≡ and_mail self.now no_rows rank }
    {
        let mut comparison = Comparison::<K>::of(part);
        match self.write_mail(rank, &mut comparison) {
            Ok(()) => comparison.is_whole(),
            Err(_) => false,
        }
    }
}
