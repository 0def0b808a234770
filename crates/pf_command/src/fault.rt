//! Why a command is refused.

ghost use Rattle.std.specs.Prelude.{◌≡◌};
ghost use Rattle.pf_command.specs.declared.fault.ApplyFault.TheVariants.{Memory};
ghost use Rattle.pf_command.specs.inner.Answers.{fault_of_change, fault_of_text};

use pf_config::ConfigFault;
use pf_grammar::Refusal;
use std::alloc::AllocError;
use thiserror::Error;

/// Why a command isn't applied. The configuration is then unchanged.
#[derive(Clone, Copy, Debug, PartialEq, Eq, Error)]
pub enum ApplyFault {
    /// A growth was refused.
    #[error("out of memory")]
    Memory,
    /// The number of the refusal: 10 to 19 of a load's text, with the line of its first refused statement, from 1; 20
    /// no such table, 21 a table that may not change, 22 a table of more than 4,096 entries, 23 a configuration of more
    /// than 1,024 paths, 24 a block deeper than 8 names, each of these with line 0.
    #[error("the command is refused")]
    Refused(u8, u64),
}

impl ApplyFault {
    /// The fault of a change that the configuration refuses.
    pub(crate) fn of_change(fault: ConfigFault) -> ApplyFault
        ensures { result ≡ fault_of_change fault }
    {
        let code = fault.code();
        code.map_or(ApplyFault::Memory, |code| ApplyFault::Refused(code, 0))
    }

    /// The fault of a ruleset that is refused.
    pub(crate) fn of_text(refusal: Refusal) -> ApplyFault
        ensures { result ≡ fault_of_text refusal }
    {
        ApplyFault::Refused(refusal.cause.code(), refusal.line)
    }
}

impl From<AllocError> for ApplyFault {
    ghost from_gives = { λ _ e. e ≡ Memory };

    fn from(_e: AllocError) -> ApplyFault {
        ApplyFault::Memory
    }
}
