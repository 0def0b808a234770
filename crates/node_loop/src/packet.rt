//! How long a datagram may be that goes in one IP packet, and how many members there are.

/// The most bytes of a datagram that goes in one IP packet everywhere, with a tag of 32 bytes behind it: the least
/// packet that IPv6 must carry (RFC 8200, 5) has 1,280, of which the headers of IPv6 and UDP take 48. A longer one may
/// be cut into several.
pub(crate) const PACKET: usize = 1_200;

/// How many members there are at most.
pub(crate) const MEMBERS: usize = px_wire::MEMBERS as usize;
