//! How a run ends.

ghost use Rattle.std.specs.Prelude.{◌≡◌};
ghost use Rattle.cli_io.specs.Status.{code_of};

/// How a run ends.
#[derive(Clone, Copy, PartialEq, Eq)]
pub enum Status {
    /// All that was asked for is done.
    Done,
    /// A string or a packet is refused; the refusal is written.
    Refused,
    /// The arguments aren't understood; what is wrong with them, or the help asked for, is written.
    Usage,
    /// Out of memory; `memory` is written.
    Memory,
    /// A read or a write failed, or the input is larger than 16,777,216 bytes; nothing more is written.
    Failed,
}

impl Status {
    /// The exit status: 0 done; 1 refused, out of memory or failed; 2 arguments that aren't understood.
    pub fn code(self) -> u8
        ensures { result ≡ code_of self }
    {
        match self {
            Status::Done => 0,
            Status::Refused | Status::Memory | Status::Failed => 1,
            Status::Usage => 2,
        }
    }
}
