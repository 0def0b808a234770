//! Why arguments ask for nothing.

ghost use Rattle.std.specs.Prelude.{◌≡◌};
ghost use Rattle.pf_arguments.specs.declared.fault.CommandFault.TheVariants.{Memory};
ghost use Rattle.pf_arguments.specs.Answers.{command_fault_code};

use pf_addr::AddrFault;
use std::alloc::{AllocError, AllocFailed};
use thiserror::Error;

/// The number of the refusal of arguments that aren't understood, here and at every other reader of arguments.
pub const USAGE: u8 = 40;

/// Why arguments ask for nothing. Of several faults the first in this list is returned, and of faulty addresses the
/// lowest fault.
#[derive(Clone, Copy, Debug, PartialEq, Eq, Error)]
pub enum CommandFault {
    /// A growth was refused.
    #[error("out of memory")]
    Memory,
    /// 40: the options don't go together, or a value of one isn't among its values.
    #[error("the arguments form no command")]
    Usage,
    /// 24: the value of `-a` is no path.
    #[error("the path is no anchor's")]
    BadPath,
    /// 1 to 3: an address is malformed.
    #[error("an address is malformed")]
    BadAddress(AddrFault),
    /// 41: the command has more than 32,768 bytes or 4,096 addresses.
    #[error("the command is too long")]
    TooLong,
}

impl CommandFault {
    /// The number of the refusal; none when out of memory.
    pub fn code(self) -> Option<u8>
        ensures { result ≡ command_fault_code self }
    {
        match self {
            CommandFault::Memory => None,
            CommandFault::Usage => Some(USAGE),
            CommandFault::BadPath => Some(24),
            CommandFault::BadAddress(fault) => Some(fault.code()),
            CommandFault::TooLong => Some(41),
        }
    }
}

impl From<AllocError> for CommandFault {
    ghost from_gives = { λ _ e. e ≡ Memory };

    fn from(_e: AllocError) -> CommandFault {
        CommandFault::Memory
    }
}

impl<T: Drop> From<AllocFailed<T>> for CommandFault {
    ghost from_gives = { λ _ e. e ≡ Memory };

    fn from(_e: AllocFailed<T>) -> CommandFault {
        CommandFault::Memory
    }
}
