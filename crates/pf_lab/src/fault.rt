//! Why a line gives nothing.

ghost use Rattle.std.specs.Prelude.{◌≡◌};
ghost use Rattle.pf_lab.specs.declared.fault.LineFault.TheVariants.{Memory};

use pf_arguments::USAGE;
use std::alloc::AllocError;

/// Why a line gives nothing.
#[derive(Clone, Copy, PartialEq, Eq)]
pub(crate) enum LineFault {
    /// Out of memory: the script ends.
    Memory,
    /// The number of the refusal, which is printed.
    Refused(u8),
}

/// What a line gives, or why it gives nothing.
pub(crate) type Read<T> = Result<T, LineFault>;

/// Whether there was memory for what is printed.
pub(crate) type Pushed = Result<(), AllocError>;

/// The number of an unknown line, and of arguments that don't go together.
pub(crate) const UNKNOWN: LineFault = LineFault::Refused(USAGE);

/// The number where no such node or message is.
pub(crate) const NOT_THERE: u8 = 81;

impl From<AllocError> for LineFault {
    ghost from_gives = { λ _ e. e ≡ Memory };

    fn from(_e: AllocError) -> LineFault {
        LineFault::Memory
    }
}
