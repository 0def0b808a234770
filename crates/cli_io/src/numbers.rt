//! The numbers of refusals that have names.

/// No packet in the form of `pfx test`.
pub const NO_PACKET: u8 = 30;

/// Arguments that form no command.
pub const INVALID_ARGUMENTS: u8 = 40;

/// A command, since 64 wait.
pub const WAITING_FULL: u8 = 60;

/// A tick, since every round is used.
pub const ROUNDS_SPENT: u8 = 61;

/// A command, since every position or number is used.
pub const POSITIONS_SPENT: u8 = 62;

/// A store that can't be opened, or fails.
pub const STORE_FAILED: u8 = 70;

/// A store with a row that no node writes.
pub const BAD_ROW: u8 = 72;

/// A store with other tables, or of a later version.
pub const UNKNOWN_STORE: u8 = 73;

/// A request to a node whose store failed.
pub const NODE_FAILED: u8 = 80;

/// An address that is malformed, or that the system refuses.
pub const BAD_ADDRESS: u8 = 82;

/// A file with no key, or one that others may read.
pub const BAD_KEY: u8 = 83;

/// A control socket that can't be opened.
pub const BAD_CONTROL_SOCKET: u8 = 84;

/// A request, since nobody answers at the control socket.
pub const NOBODY_ANSWERS: u8 = 85;

/// An answer that is cut short, or isn't HTTP.
pub const BROKEN_ANSWER: u8 = 86;

/// A file that doesn't list interfaces.
pub const BAD_INTERFACES: u8 = 89;

/// A file that can't be read.
pub const UNREADABLE: u8 = 90;

/// A script of a store's configuration, since none gives it.
pub const NO_SCRIPT: u8 = 91;

/// A node's file of settings that isn't good.
pub const BAD_SETTINGS: u8 = 92;

/// A node's store that is missing.
pub const NO_STORE: u8 = 93;

/// A file to create that exists.
pub const FILE_EXISTS: u8 = 94;
