//! Why a member has no start.

ghost use Rattle.std.specs.Prelude.{◌≡◌};
ghost use Rattle.cli_files.specs.declared.raise.RaiseFault.TheVariants.{Memory, Unwritten};

use std::alloc::AllocError;
use std::io;
use thiserror::Error;

/// Why a member has no start.
#[derive(Clone, Copy, Debug, PartialEq, Eq, Error)]
pub enum RaiseFault {
    /// Out of memory.
    #[error("out of memory")]
    Memory,
    /// There is none, and none is to be made.
    #[error("it is missing, beside a store that isn't new: --new-starts creates one")]
    Missing,
    /// It is no regular file, or can't be read.
    #[error("it can't be read")]
    Unread,
    /// It is no file of starts of this version, or of as many members.
    #[error("it isn't a file of starts of this cluster (version 1), or is damaged")]
    Damaged,
    /// Each number of a start was used.
    #[error("all numbers of starts are used")]
    Spent,
    /// It can't be written, or the system gives no random number.
    #[error("it can't be written")]
    Unwritten,
}

impl From<AllocError> for RaiseFault {
    ghost from_gives = { λ _ e. e ≡ Memory };

    fn from(_error: AllocError) -> RaiseFault {
        RaiseFault::Memory
    }
}

impl From<io::Error> for RaiseFault {
    ghost from_gives = { λ _ e. e ≡ Unwritten };

    fn from(_error: io::Error) -> RaiseFault {
        RaiseFault::Unwritten
    }
}
