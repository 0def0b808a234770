//! Why an entry isn't read or written.

ghost use Rattle.std.specs.Prelude.{◌≡◌};
ghost use Rattle.pf_entry.specs.Codes.{encode_fault_code};
ghost use Rattle.pf_entry.specs.declared.fault.EncodeFault.TheVariants.{Memory};

use std::alloc::AllocError;
use thiserror::Error;

/// 42: the bytes spell no entry.
#[derive(Clone, Copy, Debug, PartialEq, Eq, Error)]
#[error("the bytes are no entry")]
pub struct BadEntry;

impl BadEntry {
    /// The number of the refusal, 42.
    pub fn code(self) -> u8
        ensures { result ≡ 42 }
    {
        42
    }
}

/// Why an entry isn't written.
#[derive(Debug, Drop, Error)]
pub enum EncodeFault {
    /// Out of memory.
    #[error("out of memory")]
    Memory,
    /// 41: the entry has more than 32,768 bytes or 4,096 addresses.
    #[error("the command is too long")]
    TooLong,
}

impl EncodeFault {
    /// The number of the refusal, 41; none when out of memory.
    pub fn code(&self) -> Option<u8>
        ensures { result ≡ encode_fault_code self.now }
    {
        match self {
            EncodeFault::Memory => None,
            EncodeFault::TooLong => Some(41),
        }
    }
}

impl From<AllocError> for EncodeFault {
    ghost from_gives = { λ _ e. e ≡ Memory };

    fn from(_e: AllocError) -> EncodeFault {
        EncodeFault::Memory
    }
}
