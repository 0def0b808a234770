//! Where a member listens, by its host's name.

ghost use Rattle.std.specs.Prelude.{◌≡◌, None, IfSome};
ghost use Rattle.std.specs.List.{list_all, prefix_len};
ghost use Rattle.pf_rules.specs.Words.{number_of};
ghost use Rattle.node_udp.specs.Addresses.{host_port, used_port, is_host, is_host_byte, IsFound, IsUnfound};

use crate::address::{Address, before_colon, parse_address};
use crate::network::Network;
use pf_rules::parse_decimal;

/// Whether the byte may be in a host's name.
fn is_host_byte(b: u8) -> bool
    ensures { result ≡ is_host_byte b }
{
    b.is_ascii_alphanumeric() || b == b'-' || b == b'.'
}

/// Whether each byte may be there.
fn are_host_bytes(text: &[u8]) -> bool
    ensures { result ≡ list_all is_host_byte text.now }
{
    text.iter().all(|b| is_host_byte(*b))
}

/// Whether the text has the form of a host's name.
fn is_host(text: &[u8]) -> bool
    ensures { result ≡ is_host text.now }
{
    match text {
        [first, rest @ ..] => first.is_ascii_alphabetic() && are_host_bytes(rest),
        [] => false,
    }
}

/// A port in 1 to 5 digits that isn't 0.
fn used_port(text: &[u8]) -> Option<u16>
    ensures { result ≡ used_port (number_of 5 65535 text.now) }
{
    let port = parse_decimal(text, 5, u16::MAX)?;
    (port != 0).then(|| port)
}

/// The port of a host's name, `:` and a port.
#[tactic(auto, unfolding(crate::specs::Addresses::host_port))]
fn host_port(text: &[u8]) -> Option<u16>
    ensures { result ≡ host_port text.now }
{
    let colon = before_colon(text);
    if colon == text.len() || !is_host(&text[..colon]) {
        return None;
    }
    used_port(&text[colon + 1..])
}

/// The address that the text is, or what the system gives for the host's name in it.
pub(crate) fn find<R: Network>(rt: &R, text: &str) -> Option<Address>
    ensures found { IfSome result (IsFound (R.is_known rt.now) text.now) }
    ensures unfound { result ≡ None → IsUnfound (R.is_unknown rt.now) text.now }
{
    if let Some(address) = parse_address(text) {
        return Some(address);
    }
    let port = host_port(text.as_bytes())?;
    let (host, _) = text.split_once(':')?;
    let ip = rt.look_up(host, port)?;
    Some(Address { ip, port })
}
