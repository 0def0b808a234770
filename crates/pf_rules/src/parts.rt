//! Parts of a rule.

use crate::flags::TcpFlags;
use crate::interface_name::InterfaceName;
use crate::table_name::TableName;
use pf_addr::{Prefix, Range};

/// What a plain `block` does (pf.conf(5), `set block-policy`).
#[derive(Clone, Copy, PartialEq, Eq)]
pub enum Policy {
    Drop,
    Return,
}

/// The direction of a packet, as the filter sees it.
#[derive(Clone, Copy, PartialEq, Eq)]
pub enum Direction {
    In,
    Out,
}

/// An interface or a group of them, or, negated, each other one.
pub struct Interface {
    pub negated: bool,
    pub name: InterfaceName,
}

impl Drop for Interface {
    fn drop(self) {
        let Interface {
            negated: _,
            name: _,
        } = self;
    }
}

/// A set of addresses.
pub enum Addresses {
    /// Those that agree with the prefix.
    Prefix(Prefix),
    /// Those from the first to the last.
    Range(Range),
    /// Those that a table of this name holds where the rule is evaluated.
    Table(TableName),
}

impl Drop for Addresses {
    fn drop(self) {
        match self {
            Addresses::Prefix(_) => {}
            Addresses::Range(_) => {}
            Addresses::Table(_) => {}
        }
    }
}

/// Which addresses are meant.
pub enum Host {
    /// Every address.
    Any,
    /// Those in the set.
    In(Addresses),
    /// Those that aren't in the set, of either family.
    NotIn(Addresses),
}

impl Drop for Host {
    fn drop(self) {
        match self {
            Host::Any => {}
            Host::In(_) => {}
            Host::NotIn(_) => {}
        }
    }
}

/// Which ports are meant (pf.conf(5), `port`).
#[derive(Clone, Copy, PartialEq, Eq)]
pub enum PortTest {
    Equal(u16),
    NotEqual(u16),
    Less(u16),
    LessEqual(u16),
    Greater(u16),
    GreaterEqual(u16),
    /// `a:b`, both ends included.
    FromTo(u16, u16),
    /// `a >< b`: greater than a and less than b.
    Between(u16, u16),
    /// `a <> b`: less than a or greater than b.
    Outside(u16, u16),
}

/// What is asked of the flags: nothing, or that of the flags in `of` just those in `set` are set.
#[derive(Clone, Copy, PartialEq, Eq)]
pub enum FlagTest {
    Any,
    Just { set: TcpFlags, of: TcpFlags },
}

impl FlagTest {
    /// That of the packet that begins a connection: of SYN and ACK just SYN (`flags S/SA`).
    pub const SYN_OF_SYN_ACK: FlagTest = FlagTest::Just {
        set: TcpFlags {
            fin: false,
            syn: true,
            rst: false,
            psh: false,
            ack: false,
            urg: false,
            ece: false,
            cwr: false,
        },
        of: TcpFlags {
            fin: false,
            syn: true,
            rst: false,
            psh: false,
            ack: true,
            urg: false,
            ece: false,
            cwr: false,
        },
    };
}
