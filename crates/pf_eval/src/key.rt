//! What a packet is asked for by the sieves of rules.

use pf_addr::Addr;
use pf_rules::Direction;

/// What few compares ask of a packet, made once for all rules of a walk.
#[derive(Clone, Copy)]
pub(crate) struct Key {
    pub(crate) direction: Direction,
    pub(crate) protocol: u8,
    /// The source address, for its family.
    pub(crate) from: Addr,
    /// The first 32 bits of the source address.
    pub(crate) source: u32,
    /// The first 32 bits of the destination address.
    pub(crate) destination: u32,
    /// The destination port, 0 where there is none.
    pub(crate) destination_port: u32,
}
