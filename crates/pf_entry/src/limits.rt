//! The numbers of the format.

/// The most bytes of an entry, and so of a ruleset.
pub const ENTRY_BYTES: usize = 32_768;
/// The most addresses of a command.
pub const ADDRESSES: usize = 4_096;
/// The most names of a path.
pub(crate) const NAMES: u8 = 8;
/// The last member.
pub(crate) const LAST_MEMBER: u8 = 14;
/// Who is no member: a client.
pub const CLIENT: u8 = 255;
/// An entry's number is below this: it has six bytes.
pub(crate) const NUMBERS: u64 = 0x1_0000_0000_0000;
/// The addresses of half an IPv6 address.
pub(crate) const HALF: u128 = 0x1_0000_0000_0000_0000;
