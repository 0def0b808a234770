//! Why a file of starts isn't read.

ghost use Rattle.std.specs.Prelude.{◌≡◌};
ghost use Rattle.cli_files.specs.declared.starts_fault.StartsFault.TheVariants.{Memory};

use std::alloc::AllocError;
use thiserror::Error;

/// Why a file of starts isn't read.
#[derive(Clone, Copy, Debug, PartialEq, Eq, Error)]
pub enum StartsFault {
    /// Out of memory.
    #[error("out of memory")]
    Memory,
    /// It doesn't begin with the line of this version.
    #[error("it isn't a file of starts of version 1")]
    Version,
    /// A line isn't one of a member, or there are more than 15.
    #[error("it is damaged")]
    Damaged,
}

impl From<AllocError> for StartsFault {
    ghost from_gives = { λ _ e. e ≡ Memory };

    fn from(_e: AllocError) -> StartsFault {
        StartsFault::Memory
    }
}
