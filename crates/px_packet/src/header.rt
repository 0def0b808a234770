//! The header of a packet.

ghost use Rattle.std.specs.Prelude.{◌≡◌, ◌+◌, ◌≤◌, ◌++◌, Some, None, true, false, OnOk, MatchResult, length, drop};
ghost use Rattle.px_packet.specs.Headers.{start_at, start_bytes, front_bytes, back_bytes, header_bytes};
ghost use Rattle.px_packet.specs.Headers.{header_fault, header_in};

use crate::bytes::{u32_at, u64_at};
use crate::fault::PacketFault;
use crate::kind::Kind;
use crate::start::Start;
use std::alloc::AllocError;

/// How long a header is.
pub const HEADER_BYTES: usize = 37;

/// The first four bytes, `PFXS`, and the version behind them.
const MAGIC: u32 = 0x5046_5853;

const VERSION: u8 = 2;

/// The header of a packet: who sends what to whom.
#[derive(Clone, Copy, PartialEq, Eq)]
pub struct Header {
    /// The cluster's number.
    pub cluster: u32,
    /// How many members it has.
    pub members: u8,
    /// The sender.
    pub from: u8,
    /// The receiver.
    pub to: u8,
    /// What the body is.
    pub kind: Kind,
    /// The sender's start.
    pub start: Start,
    /// The receiver's start as the sender last heard it; `Start::NEVER` where it never did.
    pub echo: Start,
    /// The number of the packet among those of the sender's start for the receiver, from 1 on.
    pub counter: u64,
}

/// The header of a packet and what follows it, or the packet's first fault.
pub(crate) type Opened<'a> = Result<(Header, &'a [u8]), PacketFault>;

/// The fault, unless this holds.
fn require(holds: bool, fault: PacketFault) -> Result<(), PacketFault>
    ensures { MatchResult result (λ _. holds ≡ true) (λ f. (holds ≡ false) × (f ≡ fault)) }
{
    holds.then_some(()).ok_or(fault)
}

/// The start at an offset.
fn start_at(bytes: &[u8], at: usize) -> Start
    requires { at + 8 ≤ length bytes.now }
    ensures { result ≡ start_at at bytes.now }
{
    Start {
        number: u32_at(bytes, at),
        salt: u32_at(bytes, at + 4),
    }
}

fn write_start(start: Start, buffer: &mut Vec<u8>) -> Result<(), AllocError>
    ensures { OnOk result (buffer.new.items ≡ buffer.old.items ++ start_bytes start) }
{
    buffer.extend_from_slice(&start.number.to_be_bytes())?;
    buffer.extend_from_slice(&start.salt.to_be_bytes())
}

impl Header {
    /// Writes the first 13 bytes behind what the buffer has: of which format, who sends what to whom.
    fn write_front(&self, buffer: &mut Vec<u8>) -> Result<(), AllocError>
        ensures { OnOk result (buffer.new.items ≡ buffer.old.items ++ front_bytes self.now) }
    {
        buffer.extend_from_slice(&MAGIC.to_be_bytes())?;
        buffer.push(VERSION)?;
        buffer.extend_from_slice(&self.cluster.to_be_bytes())?;
        buffer.extend_from_slice(&[self.members, self.from, self.to, self.kind.number()])
    }

    /// Writes the 24 bytes behind those: starts and counter.
    fn write_back(&self, buffer: &mut Vec<u8>) -> Result<(), AllocError>
        ensures { OnOk result (buffer.new.items ≡ buffer.old.items ++ back_bytes self.now) }
    {
        write_start(self.start, buffer)?;
        write_start(self.echo, buffer)?;
        buffer.extend_from_slice(&self.counter.to_be_bytes())
    }

    /// Writes the header behind what the buffer has.
    pub(crate) fn write(&self, buffer: &mut Vec<u8>) -> Result<(), AllocError>
        ensures { OnOk result (buffer.new.items ≡ buffer.old.items ++ header_bytes self.now) }
    {
        self.write_front(buffer)?;
        self.write_back(buffer)
    }

    /// The header that bytes begin with, and what follows it, for a member of a cluster; else its first fault.
    pub(crate) fn read(bytes: &[u8], cluster: u32, members: u8, me: u8) -> Opened<'_>
        ensures { MatchResult result
            (λ x. (header_fault cluster members me bytes.now ≡ None) × (x.0 ≡ header_in bytes.now) ×
            (x.1.now ≡ drop 37 bytes.now))
            (λ fault. header_fault cluster members me bytes.now ≡ Some fault) }
    {
        if bytes.len() < HEADER_BYTES {
            return Err(PacketFault::Short);
        }
        require(u32_at(bytes, 0) == MAGIC, PacketFault::Magic)?;
        require(bytes[4] == VERSION, PacketFault::Version)?;
        require(u32_at(bytes, 5) == cluster, PacketFault::Cluster)?;
        require(bytes[9] == members, PacketFault::Members)?;
        let from = bytes[10];
        require(from < members && from != me, PacketFault::Sender)?;
        require(bytes[11] == me, PacketFault::Receiver)?;
        let kind = Kind::from_number(bytes[12]).ok_or(PacketFault::Kind)?;
        let start = start_at(bytes, 13);
        require(start.number != 0, PacketFault::Start)?;
        let counter = u64_at(bytes, 29);
        require(counter != 0, PacketFault::Counter)?;
        let header = Header {
            cluster,
            members,
            from,
            to: me,
            kind,
            start,
            echo: start_at(bytes, 21),
            counter,
        };
        Ok((header, &bytes[HEADER_BYTES..]))
    }
}
