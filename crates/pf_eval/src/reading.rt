//! Packets from text.

ghost use Rattle.std.specs.Prelude.{◌≡◌, ◌&&◌, Err, true};
ghost use Rattle.pf_eval.specs.PacketTexts.{same_family, has_ports, is_there_if, only_if, agrees};
ghost use Rattle.pf_eval.specs.PacketTexts.{has_outer_blank, packet_at, packet_of, words};
ghost use Rattle.pf_eval.specs.Cursors.{Answers};
ghost use Rattle.pf_eval.specs.inner.Cursors.{end_of};

use crate::cursor::{Cursor, End};
use crate::fault::PacketFault;
use crate::packet::{Packet, stem};
use crate::word::has_outer_blank;
use pf_addr::Addr;
use pf_rules::{InterfaceName, TcpFlags};
use std::alloc::Global;

/// How many groups a packet's interface is in at most.
const GROUPS_MAX: usize = 16;

fn same_family(a: Addr, b: Addr) -> bool
    ensures { result ≡ same_family a b }
{
    match (a, b) {
        (Addr::V4(_), Addr::V4(_)) | (Addr::V6(_), Addr::V6(_)) => true,
        (Addr::V4(_), Addr::V6(_)) | (Addr::V6(_), Addr::V4(_)) => false,
    }
}

fn has_ports(protocol: u8) -> bool
    ensures { result ≡ has_ports protocol }
{
    protocol == 6 || protocol == 17
}

/// Whether the parts of a packet go together.
#[tactic(auto, unfolding(crate::specs::PacketTexts::agrees))]
fn agrees(
    groups: &[InterfaceName],
    protocol: u8,
    source: End,
    destination: End,
    flags: Option<TcpFlags>,
    icmp_type: Option<u8>,
) -> bool
    ensures { result ≡ agrees (groups.now) protocol (end_of source) (end_of destination) flags icmp_type }
{
    groups.len() <= GROUPS_MAX
        && same_family(source.addr, destination.addr)
        && source.port.is_some() == has_ports(protocol)
        && destination.port.is_some() == has_ports(protocol)
        && (protocol == 6 || flags.is_none())
        && (protocol == 1 || icmp_type.is_none())
}

/// The packet that the tokens in a string spell.
#[tactic(auto, unfolding(crate::specs::PacketTexts::packet_at))]
fn packet(alloc: Global, text: &[u8]) -> Result<Packet, PacketFault>
    ensures { Answers result (packet_at (words text.now)) }
{
    let mut cursor = Cursor::new(text);
    let direction = cursor.direction().ok_or(PacketFault::BadPacket)?;
    let interface = cursor.name_after(b"on").ok_or(PacketFault::BadPacket)?;
    let groups = cursor.groups(alloc)?;
    let protocol = cursor.protocol().ok_or(PacketFault::BadPacket)?;
    let source = cursor.end(b"from").ok_or(PacketFault::BadPacket)?;
    let destination = cursor.end(b"to").ok_or(PacketFault::BadPacket)?;
    let flags = cursor.flags().ok_or(PacketFault::BadPacket)?;
    let icmp_type = cursor.icmp_type().ok_or(PacketFault::BadPacket)?;
    if !cursor.is_empty() || !agrees(&groups, protocol, source, destination, flags, icmp_type) {
        return Err(PacketFault::BadPacket);
    }
    let stem = stem(interface.as_bytes());
    Ok(Packet {
        direction,
        interface,
        groups,
        protocol,
        source: source.addr,
        source_port: source.port,
        destination: destination.addr,
        destination_port: destination.port,
        flags: flags.unwrap_or(TcpFlags::NONE),
        icmp_type,
        stem,
    })
}

/// Reads a packet: `in|out on IFNAME {group IFNAME} proto PROTO from ADDR [port N] to ADDR [port N] [flags LETTERS]
/// [icmp-type N]`, blanks between the tokens and none at either end, 16 groups at most. Both addresses have one family;
/// both ports are there for tcp and udp and for no other protocol; flags are for tcp alone, and where they are missing
/// none is set; a type is for icmp alone. Every other text is `BadPacket`.
pub fn parse_packet(alloc: Global, text: &str) -> Result<Packet, PacketFault>
    ensures answer { Answers result (packet_of text.now) }
    ensures first { has_outer_blank text.now ≡ true → result ≡ Err PacketFault.BadPacket }
{
    let bytes = text.as_bytes();
    if has_outer_blank(bytes) {
        return Err(PacketFault::BadPacket);
    }
    packet(alloc, bytes)
}
