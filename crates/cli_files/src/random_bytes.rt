//! Sources of random bytes.

ghost use Rattle.std.specs.Prelude.{List, ℕ, ⊤, OnOk};

use std::io;
use std::random::RandomSource;

/// A source of random bytes.
pub trait RandomBytes {
    // it may give these bytes
    ghost gives: { Self → List ℕ → Type 0 };

    /// Fills the slice with its next bytes.
    fn fill(&self, bytes: &mut [u8]) -> io::Result<()>
        ensures { OnOk result (gives self.now bytes.new) };
}

impl<R: RandomSource> RandomBytes for R {
    // no contract states what the system's source gives
    ghost gives = { λ _ _. ⊤ };

    fn fill(&self, bytes: &mut [u8]) -> io::Result<()> {
        self.fill_bytes(bytes)
    }
}
