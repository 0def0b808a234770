//! The limits of the protocol.

/// A cluster has that many members at most.
pub const MEMBERS: u8 = 15;

/// Positions are 0 to 999,999.
pub const POSITIONS: u32 = 1_000_000;

/// Votes are kept at that many positions, from the front on.
pub const WINDOW: u32 = 64;

/// How many entries wait at most.
pub const WAITING: usize = 64;

/// Rounds and numbers are below 2^48.
pub(crate) const NUMBERS: u64 = 1 << 48;
