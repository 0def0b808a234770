//! Why a change is refused.

ghost use Rattle.std.specs.Prelude.{◌≡◌};
ghost use Rattle.pf_config.specs.Codes.{fault_code};
ghost use Rattle.pf_config.specs.declared.fault.ConfigFault.TheVariants.{Memory};

use std::alloc::{AllocError, AllocFailed};

/// Why a change is refused. The configuration is then unchanged.
#[derive(Clone, Copy, PartialEq, Eq)]
pub enum ConfigFault {
    /// 20: there is no such table.
    NoTable,
    /// 21: the table may not be changed.
    ConstTable,
    /// 22: the table would have more than 4,096 entries.
    TableFull,
    /// 23: the map would have more than 1,024 entries.
    AnchorsFull,
    /// 24: a path is no path, or deeper than 8 names.
    BadPath,
    /// A growth was refused.
    Memory,
}

impl ConfigFault {
    /// The number of the refusal, 20 to 24; none when out of memory.
    pub fn code(self) -> Option<u8>
        ensures { result ≡ fault_code self }
    {
        match self {
            ConfigFault::NoTable => Some(20),
            ConfigFault::ConstTable => Some(21),
            ConfigFault::TableFull => Some(22),
            ConfigFault::AnchorsFull => Some(23),
            ConfigFault::BadPath => Some(24),
            ConfigFault::Memory => None,
        }
    }
}

impl From<AllocError> for ConfigFault {
    ghost from_gives = { λ _ e. e ≡ Memory };

    fn from(_e: AllocError) -> ConfigFault {
        ConfigFault::Memory
    }
}

impl<T: Drop> From<AllocFailed<T>> for ConfigFault {
    ghost from_gives = { λ _ e. e ≡ Memory };

    fn from(_e: AllocFailed<T>) -> ConfigFault {
        ConfigFault::Memory
    }
}
