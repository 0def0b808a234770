//! A filter rule, and the conditions under which it matches.

use crate::parts::{Direction, FlagTest, Host, Interface, PortTest};
use pf_addr::Family;

/// What is done with a packet (pf.conf(5), PACKET FILTERING).
#[derive(Clone, Copy, PartialEq, Eq)]
pub enum Action {
    /// It passes.
    Pass,
    /// It is dropped silently.
    Drop,
    /// It is dropped, and the sender is notified.
    Return,
}

/// What a packet must be for a rule to match. Where no condition is given, every packet matches.
pub struct Conditions {
    pub direction: Option<Direction>,
    pub interface: Option<Interface>,
    pub family: Option<Family>,
    /// The number of the protocol.
    pub protocol: Option<u8>,
    pub source: Host,
    pub source_port: Option<PortTest>,
    pub destination: Host,
    pub destination_port: Option<PortTest>,
    pub flags: FlagTest,
    pub icmp_type: Option<u8>,
}

impl Drop for Conditions {
    fn drop(self) {
        let Conditions {
            direction: _,
            interface: _,
            family: _,
            protocol: _,
            source: _,
            source_port: _,
            destination: _,
            destination_port: _,
            flags: _,
            icmp_type: _,
        } = self;
    }
}

/// A filter rule.
pub struct Rule {
    pub action: Action,
    /// Whether the evaluation ends where the rule matches.
    pub quick: bool,
    pub conditions: Conditions,
    /// Whether a state would be kept of what the rule passes.
    pub keeps_state: bool,
}

impl Drop for Rule {
    fn drop(self) {
        let Rule {
            action: _,
            quick: _,
            conditions: _,
            keeps_state: _,
        } = self;
    }
}
