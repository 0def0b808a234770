//! A packet.

ghost use Rattle.std.specs.Prelude.{◌≡◌, ◌≤◌, length, take};
ghost use Rattle.std.specs.List.{list_any};
ghost use Rattle.std.specs.Str.{bytes_eq};
ghost use Rattle.pf_eval.specs.Packets.{without_digits, interfaces};

use pf_addr::Addr;
use pf_rules::{Direction, InterfaceName, TcpFlags};
use std::marker::Model;

/// A packet record: what the filter reads of a packet that belongs to no state. It is made by `parse_packet`.
pub struct Packet {
    pub(crate) direction: Direction,
    pub(crate) interface: InterfaceName,
    pub(crate) groups: Vec<InterfaceName>,
    pub(crate) protocol: u8,
    pub(crate) source: Addr,
    pub(crate) source_port: Option<u16>,
    pub(crate) destination: Addr,
    pub(crate) destination_port: Option<u16>,
    pub(crate) flags: TcpFlags,
    pub(crate) icmp_type: Option<u8>,
    /// How many bytes its name has without the digits at its end.
    pub(crate) stem: usize,
    ghost within: { stem ≤ length interface },
    ghost cut: { take stem interface ≡ without_digits interface },
}

impl Drop for Packet {
    fn drop(self) {
        let Packet {
            direction: _,
            interface: _,
            groups: _,
            protocol: _,
            source: _,
            source_port: _,
            destination: _,
            destination_port: _,
            flags: _,
            icmp_type: _,
            stem: _,
        } = self;
    }
}

impl Model for Packet {
    ghost use Rattle.pf_eval.specs.Packets.{PacketValue};

    ghost Value = { PacketValue };

    ghost view = { λ p. record {
      direction = p.direction;
      interface = p.interface;
      groups = p.groups.items;
      protocol = p.protocol;
      source = p.source;
      source_port = p.source_port;
      destination = p.destination;
      destination_port = p.destination_port;
      flags = p.flags;
      icmp_type = p.icmp_type;
    } };
}

impl Packet {
    /// Whether a name is one of the packet's interface: the interface, it without the digits at its end, or a group.
    pub(crate) fn is_on(&self, name: &[u8]) -> bool
        ensures { result ≡ list_any (λ n. bytes_eq n name.now) (interfaces self.now) }
    {
        let own = self.interface.as_bytes();
        own == name || &own[..self.stem] == name || is_among(&self.groups, name)
    }
}

/// Whether the name is among these.
fn is_among(names: &[InterfaceName], name: &[u8]) -> bool
    ensures { result ≡ list_any (λ n. bytes_eq n name.now) names.now }
{
    names.iter().any(|other| other.as_bytes() == name)
}

/// How many bytes the name has without the digits at its end.
#[tactic(auto, using(crate::proofs::Digits::stem_first, crate::proofs::Digits::stem_within))]
pub(crate) fn stem(name: &[u8]) -> usize
    ensures within { result ≤ length name.now }
    ensures cut { take result name.now ≡ without_digits name.now }
{
    without_digits(name).len()
}

/// The name without the digits at its end.
#[tactic(auto, using(crate::proofs::Digits::no_digit, crate::proofs::Digits::one_digit))]
pub fn without_digits(name: &[u8]) -> &[u8]
    ensures { result.now ≡ without_digits name.now }
{
    let mut rest = name;
    while let [front @ .., last] = rest {
        if !last.is_ascii_digit() {
            return rest;
        }
        rest = front;
    }
    rest
}
