//! Why a string is no file of settings.

ghost use Rattle.std.specs.Prelude.{◌≡◌};
ghost use Rattle.cli_files.specs.Settings.{line_of_fault};

use thiserror::Error;

/// Why a string is no file of settings, and in which line, from 1. A key that is written with escapes has no line.
#[derive(Clone, Copy, Debug, PartialEq, Eq, Error)]
pub enum FileFault {
    /// A growth was refused.
    #[error("out of memory")]
    Memory,
    /// The text isn't TOML, or not UTF-8.
    #[error("it isn't TOML")]
    Syntax(u64),
    /// A key that names no setting.
    #[error("unknown setting")]
    Unknown(Option<u64>),
    /// A value that a setting doesn't take.
    #[error("a value of another kind, or out of range")]
    Value(Option<u64>),
}

impl FileFault {
    /// The line, if there is one.
    pub fn line(self) -> Option<u64>
        ensures { result ≡ line_of_fault self }
    {
        match self {
            FileFault::Memory => None,
            FileFault::Syntax(line) => Some(line),
            FileFault::Unknown(line) | FileFault::Value(line) => line,
        }
    }
}
