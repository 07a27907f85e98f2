// Where a kept page stands.
ghost use Rattle.std.specs.Prelude.{◌≡◌};
ghost use Rattle.stm_journal.specs.KeptPlaces.{place_of};

use crate::{Kept, PagePlace};

impl Kept {
    /// Where its digits stand, how many bytes they say, and the number of its line.
    pub fn place(&self) -> PagePlace
        ensures { result ≡ place_of self.now }
    {
        PagePlace {
            at: self.at,
            length: self.bytes.length(),
            line: self.line,
        }
    }
}
