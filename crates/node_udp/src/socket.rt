//! Sockets of datagrams.

ghost use Rattle.std.specs.Prelude.{◌≡◌, ◌≤◌, List, [], ◌∷◌, IfOk, IfErr, length};
ghost use Rattle.px_transport.specs.Wires.{Adds, IsQuiet};
ghost use Rattle.node_udp.specs.Sockets.{SocketEvent, Went, comes};

use std::io::ErrorKind;
use std::net::{SocketAddr, UdpSocket};
use std::time::Duration;

/// A socket of datagrams (RFC 768), bound to an address.
pub trait Socket {
    // this went over it so far, in order
    ghost traffic: { Self → List SocketEvent → Type 0 };

    // no time can be set for its waits
    ghost is_timeless: { Self → Type 0 };

    /// Takes a datagram, which is written from the slice's front on and cut to it: how many bytes it has there, and
    /// where it came from. Whether this waits for one, and how long, is set below.
    fn receive(&mut self, into: &mut [u8]) -> Result<(usize, SocketAddr), ErrorKind>
        ensures fits { IfOk result (λ r. r.0 ≤ length into.new) }
        ensures came { Adds (traffic self.old) (traffic self.new) (comes into.new result) };

    /// Waits for a datagram as `receive` does, and leaves it.
    fn peek(&mut self) -> Result<(), ErrorKind>
        ensures quiet { IsQuiet (traffic self.old) (traffic self.new) };

    /// Sends a datagram to an address: how many bytes of it were sent.
    fn send(&mut self, bytes: &[u8], to: SocketAddr) -> Result<usize, ErrorKind>
        ensures went { Adds (traffic self.old) (traffic self.new) (Went to bytes.now ∷ []) };

    /// From now on it waits for datagrams, or doesn't.
    fn set_blocking(&mut self, is_blocking: bool) -> Result<(), ErrorKind>
        ensures quiet { IsQuiet (traffic self.old) (traffic self.new) };

    /// From now on it waits so long, where it does.
    fn set_timeout(&mut self, timeout: Duration) -> Result<(), ErrorKind>
        ensures quiet { IsQuiet (traffic self.old) (traffic self.new) }
        ensures refused { IfErr result (λ e. is_timeless self.old) };
}

// The system's socket. No contract states what went over it: that it is what these calls report is trusted.
impl Socket for UdpSocket {
    ghost traffic = { λ s es. Unit {0} };

    // nor when the system sets no time
    ghost is_timeless = { λ s. Unit {0} };

    fn receive(&mut self, into: &mut [u8]) -> Result<(usize, SocketAddr), ErrorKind> {
        self.recv_from(into).map_err(|error| error.kind())
    }

    fn peek(&mut self) -> Result<(), ErrorKind> {
        let mut room = [0u8; 1];
        let peeked = self.peek_from(&mut room);
        peeked.map(|_| ()).map_err(|error| error.kind())
    }

    fn send(&mut self, bytes: &[u8], to: SocketAddr) -> Result<usize, ErrorKind> {
        self.send_to(bytes, to).map_err(|error| error.kind())
    }

    fn set_blocking(&mut self, is_blocking: bool) -> Result<(), ErrorKind> {
        self.set_nonblocking(!is_blocking)
            .map_err(|error| error.kind())
    }

    fn set_timeout(&mut self, timeout: Duration) -> Result<(), ErrorKind> {
        self.set_read_timeout(Some(timeout))
            .map_err(|error| error.kind())
    }
}
