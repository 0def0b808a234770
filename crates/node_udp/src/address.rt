//! The address of a member.

ghost use Rattle.std.specs.Prelude.{◌≡◌, Some};
ghost use Rattle.std.specs.List.{prefix_len};
ghost use Rattle.pf_addr.specs.Spelling.{addr_of};
ghost use Rattle.pf_rules.specs.Words.{number_of};
ghost use Rattle.node_udp.specs.Addresses.{address_of, four_of, six_of, four_in, six_in, joined};
ghost use Rattle.node_udp.specs.Addresses.{is_no_colon, is_no_bracket, shown_address};
ghost use Rattle.node_udp.specs.Sockets.{IsSocketOf};
ghost use Rattle.node_udp.specs.Members.{any_port, ip_at, address_at};

use pf_addr::{Addr, parse_bytes};
use pf_rules::parse_decimal;
use std::fmt;
use std::net::{IpAddr, Ipv4Addr, Ipv6Addr, SocketAddr};

/// Where a member listens.
#[derive(Clone, Copy, PartialEq, Eq)]
pub struct Address {
    /// The IP address.
    pub ip: Addr,
    /// 1 to 65535.
    pub port: u16,
}

impl fmt::Display for Address {
    ghost output = { λ a. Some (shown_address a) };

    fn fmt<W: fmt::Write>(&self, f: &mut fmt::Formatter<W>) -> fmt::Result {
        let ip = self.ip;
        let port = self.port;
        match ip {
            Addr::V4(_) => write!(f, "{ip}:{port}"),
            Addr::V6(_) => write!(f, "[{ip}]:{port}"),
        }
    }
}

/// How many bytes are before the first colon.
pub(crate) fn before_colon(text: &[u8]) -> usize
    ensures { result ≡ prefix_len is_no_colon text.now }
{
    text.iter().take_while(|b| **b != b':').count()
}

/// How many bytes are before the first closing bracket.
fn before_bracket(text: &[u8]) -> usize
    ensures { result ≡ prefix_len is_no_bracket text.now }
{
    text.iter().take_while(|b| **b != b']').count()
}

/// An IPv4 address.
fn four(text: &[u8]) -> Option<Addr>
    ensures { result ≡ four_in (addr_of text.now) }
{
    let ip = parse_bytes(text).ok();
    ip.filter(|ip| matches!(ip, Addr::V4(_)))
}

/// An IPv6 address.
fn six(text: &[u8]) -> Option<Addr>
    ensures { result ≡ six_in (addr_of text.now) }
{
    let ip = parse_bytes(text).ok();
    ip.filter(|ip| matches!(ip, Addr::V6(_)))
}

/// The address and the port that this text is.
fn with_port(ip: Option<Addr>, port: &[u8]) -> Option<Address>
    ensures { result ≡ joined ip (number_of 5 65535 port.now) }
{
    let ip = ip?;
    let port = parse_decimal(port, 5, u16::MAX)?;
    (port != 0).then(|| Address { ip, port })
}

/// An IPv4 address, `:` and a port.
#[tactic(auto, unfolding(crate::specs::Addresses::four_of))]
fn parse_four(text: &[u8]) -> Option<Address>
    ensures { result ≡ four_of text.now }
{
    let colon = before_colon(text);
    if colon == text.len() {
        return None;
    }
    with_port(four(&text[..colon]), &text[colon + 1..])
}

/// An IPv6 address, `]:` and a port.
#[tactic(auto, unfolding(crate::specs::Addresses::six_of))]
fn parse_six(text: &[u8]) -> Option<Address>
    ensures { result ≡ six_of text.now }
{
    let end = before_bracket(text);
    if end >= text.len() || text.get(end + 1) != Some(&b':') {
        return None;
    }
    with_port(six(&text[..end]), &text[end + 2..])
}

/// An IP address, `:` and a port 1 to 65535 in 1 to 5 digits; `None` for every other text. An IPv6 address is in
/// brackets, as in `[2001:db8::1]:4711` (RFC 3986, 3.2.2).
#[tactic(auto, unfolding(crate::specs::Addresses::address_of))]
pub fn parse_address(text: &str) -> Option<Address>
    ensures { result ≡ address_of text.now }
{
    let text = text.as_bytes();
    match text {
        [b'[', behind @ ..] => parse_six(behind),
        _ => parse_four(text),
    }
}

/// The address as the system has it.
pub(crate) fn bits_of(ip: IpAddr) -> Addr
    ensures { result ≡ ip_at ip }
{
    match ip {
        IpAddr::V4(four) => Addr::V4(four.to_bits()),
        IpAddr::V6(six) => Addr::V6(six.to_bits()),
    }
}

impl Address {
    /// The same as a socket takes it.
    pub(crate) fn socket(self) -> SocketAddr
        ensures { IsSocketOf self result }
    {
        let ip = match self.ip {
            Addr::V4(bits) => IpAddr::V4(Ipv4Addr::from_bits(bits)),
            Addr::V6(bits) => IpAddr::V6(Ipv6Addr::from_bits(bits)),
        };
        SocketAddr::new(ip, self.port)
    }

    /// Any free port of this machine, for datagrams to an address of this kind.
    pub(crate) fn any_port(ip: Addr) -> Address
        ensures { result ≡ any_port ip }
    {
        let ip = match ip {
            Addr::V4(_) => Addr::V4(0),
            Addr::V6(_) => Addr::V6(0),
        };
        Address { ip, port: 0 }
    }

    /// The address of a datagram's sender, as a socket reports it.
    pub(crate) fn of_socket(from: SocketAddr) -> Address
        ensures { result ≡ address_at from }
    {
        Address {
            ip: bits_of(from.ip()),
            port: from.port(),
        }
    }
}
