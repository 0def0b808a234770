//! The numbers of the format.

/// The first four bytes, `PFXR`.
pub(crate) const MAGIC: u32 = 0x5046_5852;
/// The version that follows them.
pub(crate) const VERSION: u8 = 1;
/// Where a datagram has its version.
pub(crate) const VERSION_AT: usize = 4;
/// Where it has the cluster's number.
pub(crate) const CLUSTER_AT: usize = 5;
/// Where it has the number of members.
pub(crate) const MEMBERS_AT: usize = 9;
/// Where it has its sender.
pub(crate) const SENDER_AT: usize = 10;
/// Where it has its addressee.
pub(crate) const ADDRESSEE: usize = 11;
/// Where it has its kind.
pub(crate) const KIND_AT: usize = 12;
/// Where the fields of the kind begin: a ballot, a position, a length or a token.
pub(crate) const BODY_AT: usize = 13;
/// Where a position is that follows a ballot.
pub(crate) const POSITION_AT: usize = 21;
/// Where an answer to a command from outside has, after the token, the entry's number or the code of the refusal.
pub(crate) const ANSWER_AT: usize = 21;
/// The most members of a cluster.
pub const MEMBERS: u8 = 15;
/// Who is no member: a client.
pub(crate) const CLIENT: u8 = 255;
/// Rounds, tokens and the numbers of entries are below this: they have six bytes.
pub(crate) const NUMBERS: u64 = 0x1_0000_0000_0000;
/// The first ballot: round 1 of member 0.
pub(crate) const FIRST_BALLOT: u64 = 256;
/// Ballots are below this: a round of six bytes, and a member.
pub(crate) const BALLOTS: u64 = 0x100_0000_0000_0000;
/// The last position.
pub(crate) const LAST_POSITION: u32 = 999_999;
/// The greatest top that a promise reports: nothing is accepted from there on.
pub(crate) const LAST_TOP: u32 = 1_000_000;
/// The most bytes of an entry.
pub(crate) const ENTRY_BYTES: u32 = 32_768;
