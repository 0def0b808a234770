//! What arguments give where nothing is changed.

use crate::printing::Printed;
use pf_arguments::Command;
use std::alloc::{AllocError, AllocFailed};

/// What a line of pfctl's arguments gives where nothing is changed.
#[derive(Drop)]
pub enum WordsRead {
    /// It asks for this change, which isn't made.
    Change(Command),
    /// What is printed.
    Printed(Printed),
}

/// Why arguments ask for no change.
#[derive(Clone, Copy, PartialEq, Eq)]
pub enum ChangeFault {
    /// Out of memory.
    Memory,
    /// The number of the refusal: 40 of the arguments, or where they ask for no change, 24 of a path, 1 to 3 of an
    /// address, 41 of a command that is too long.
    Refused(u8),
}
