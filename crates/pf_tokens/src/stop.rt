//! Why a list isn't read to its end.

ghost use Rattle.std.specs.Prelude.{◌≡◌};
ghost use Rattle.pf_tokens.specs.declared.stop.Stop.TheVariants.{Memory};

use std::alloc::{AllocError, AllocFailed};

/// Why a value that takes memory isn't read.
#[derive(Clone, Copy, PartialEq, Eq)]
pub enum Stop {
    /// Out of memory.
    Memory,
    /// The tokens don't spell it.
    Syntax,
    /// A list has more elements than a statement may have tokens. It isn't read on, so that nothing is allocated for
    /// it; the statement has a fault while reading, which goes before all else.
    TooMany,
}

impl From<AllocError> for Stop {
    ghost from_gives = { λ _ e. e ≡ Memory };

    fn from(_e: AllocError) -> Stop {
        Stop::Memory
    }
}

impl<T: Drop> From<AllocFailed<T>> for Stop {
    ghost from_gives = { λ _ e. e ≡ Memory };

    fn from(_e: AllocFailed<T>) -> Stop {
        Stop::Memory
    }
}
