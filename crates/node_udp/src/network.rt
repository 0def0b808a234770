//! What a wire over UDP asks of the system: a socket, and where a host is.

ghost use Rattle.std.specs.Prelude.{◌≡◌, ⊤, ℕ, List, None, IfSome};
ghost use Rattle.std.specs.declared.net.udp.UdpSocket.{UdpSocket};
ghost use Rattle.pf_addr.specs.declared.addr.Addr.{Addr};
ghost use Rattle.node_udp.specs.declared.address.Address.{Address};

use crate::address::{Address, bits_of};
use crate::socket::Socket;
use pf_addr::Addr;
use std::net::{Net, SocketAddr, ToSocketAddrs, UdpSocket};
use std::time::Duration;

/// Where sockets are bound, and hosts are found by their names.
pub trait Network {
    // this socket is bound to this address
    ghost is_bound: { Self → Address → UdpSocket → Type 0 };

    // no socket is to be had at this address
    ghost is_refused: { Self → Address → Type 0 };

    // a host is known by this name, at this IP address
    ghost is_known: { Self → (host : List ℕ) → Addr → Type 0 };

    // no host is known by this name
    ghost is_unknown: { Self → (host : List ℕ) → Type 0 };

    /// A socket that is bound to an address, and that waits so long for a datagram.
    fn bind_at(&self, own: Address, wait: Duration) -> Option<UdpSocket>
        ensures bound { IfSome result (is_bound self.now own) }
        ensures refused { result ≡ None → is_refused self.now own };

    /// The IP address of a host, at which something listens on this port.
    fn look_up(&self, host: &str, port: u16) -> Option<Addr>
        ensures known { IfSome result (is_known self.now host.now) }
        ensures unknown { result ≡ None → is_unknown self.now host.now };
}

impl<R: Net> Network for R {
    // no contract states what the system binds and refuses, nor which hosts it knows
    ghost is_bound = { λ _ _ _. ⊤ };

    ghost is_refused = { λ _ _. ⊤ };

    ghost is_known = { λ _ _ _. ⊤ };

    ghost is_unknown = { λ _ _. ⊤ };

    fn bind_at(&self, own: Address, wait: Duration) -> Option<UdpSocket> {
        let mut socket = UdpSocket::bind(self, own.socket()).ok()?;
        socket.set_timeout(wait).ok()?;
        Some(socket)
    }

    /// The first IPv4 address that the system gives for the name, else the first of any kind.
    fn look_up(&self, host: &str, port: u16) -> Option<Addr> {
        let found = (host, port).to_socket_addrs(self).ok()?;
        let mut first = None;
        for address in found {
            let ip = bits_of(address.ip());
            if let SocketAddr::V4(_) = address {
                return Some(ip);
            }
            first = first.or(Some(ip));
        }
        first
    }
}
