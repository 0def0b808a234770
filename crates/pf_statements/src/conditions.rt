//! A rule's conditions on packets as they are written, before its lists are expanded.

use pf_addr::Family;
use pf_rules::{Direction, FlagTest, Host, Interface, PortTest};
use pf_tokens::Listed;

/// A protocol.
#[derive(Clone, Copy, PartialEq, Eq)]
pub struct Protocol {
    /// Its number, as IP has it (RFC 791, 3.1).
    pub number: u8,
}

/// A test on ports, none where a port is neither number nor name.
#[derive(Clone, Copy, PartialEq, Eq)]
pub struct WrittenPort {
    /// The test, if the port is one.
    pub test: Option<PortTest>,
}

/// A type of ICMP, none where it is neither number nor name.
#[derive(Clone, Copy, PartialEq, Eq)]
pub struct WrittenType {
    /// The type's number, if it is one.
    pub number: Option<u8>,
}

/// The hosts and the ports at one end.
#[derive(Drop)]
pub struct End {
    /// The hosts; `any` where none are written.
    pub hosts: Listed<Host>,
    /// The ports, if they are written.
    pub ports: Option<Listed<WrittenPort>>,
}

/// What is written from `on` to the hosts, in rules and in anchor rules alike.
#[derive(Drop)]
pub struct Common {
    /// The interfaces, if they are written.
    pub interfaces: Option<Listed<Interface>>,
    /// The family, if it is given.
    pub family: Option<Family>,
    /// The protocols, if they are written.
    pub protocols: Option<Listed<Protocol>>,
    /// Where a packet comes from.
    pub source: End,
    /// Where it goes.
    pub destination: End,
}

/// All conditions of a rule or an anchor rule on the packets that it matches.
#[derive(Drop)]
pub struct WrittenConditions {
    /// The direction, if it is given.
    pub direction: Option<Direction>,
    /// Interfaces, family, protocols and hosts.
    pub common: Common,
    /// The test of a TCP packet's flags, if it is given.
    pub flags: Option<FlagTest>,
    /// The types of ICMP, if they are written.
    pub types: Option<Listed<WrittenType>>,
}
