//! Whom the members' guard lets through.

use pf_addr::Addr;

/// Where a member of the cluster listens.
#[derive(Clone, Copy, PartialEq, Eq)]
pub struct Member {
    /// Its address.
    pub address: Addr,
    /// Its UDP port.
    pub port: u16,
}
