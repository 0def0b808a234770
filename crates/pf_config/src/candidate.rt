//! A rule as an evaluation reads it: its index, and what few comparisons test of its conditions.

use pf_addr::Family;
use pf_rules::Direction;
use pf_tables::Interval;

/// What few comparisons test of a rule's conditions: the rule matches no packet that is outside of one of these.
#[derive(Clone, Copy)]
pub struct Sieve {
    pub direction: Option<Direction>,
    pub family: Option<Family>,
    /// The number of the protocol.
    pub protocol: Option<u8>,
    /// The first 32 bits of the source address.
    pub source: Interval,
    /// The first 32 bits of the destination address.
    pub destination: Interval,
    pub destination_port: Interval,
}

/// A rule that may match: its index among the rules of its path, from 0 on, and its sieve.
#[derive(Clone, Copy)]
pub struct Candidate {
    pub index: u32,
    pub sieve: Sieve,
}
