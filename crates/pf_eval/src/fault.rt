//! Why a packet text is refused.

ghost use Rattle.std.specs.Prelude.{◌≡◌};
ghost use Rattle.pf_eval.specs.Codes.{packet_fault_code};
ghost use Rattle.pf_eval.specs.declared.fault.PacketFault.TheVariants.{Memory};

use std::alloc::{AllocError, AllocFailed};
use thiserror::Error;

/// Why a packet text gives no packet.
#[derive(Clone, Copy, Debug, PartialEq, Eq, Error)]
pub enum PacketFault {
    /// A growth was refused.
    #[error("out of memory")]
    Memory,
    /// 30: the text isn't spelled as a packet.
    #[error("not a packet")]
    BadPacket,
}

impl PacketFault {
    /// The number of the refusal, 30; none when out of memory.
    pub fn code(self) -> Option<u8>
        ensures { result ≡ packet_fault_code self }
    {
        match self {
            PacketFault::Memory => None,
            PacketFault::BadPacket => Some(30),
        }
    }
}

impl From<AllocError> for PacketFault {
    ghost from_gives = { λ _ e. e ≡ Memory };

    fn from(_e: AllocError) -> PacketFault {
        PacketFault::Memory
    }
}

impl<T: Drop> From<AllocFailed<T>> for PacketFault {
    ghost from_gives = { λ _ e. e ≡ Memory };

    fn from(_e: AllocFailed<T>) -> PacketFault {
        PacketFault::Memory
    }
}
