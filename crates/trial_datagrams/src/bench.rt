//! A clock of the tests' own.

use std::cell::Cell;
use std::io;
use std::net::{IpAddr, Ipv4Addr, Ipv6Addr, Net, SocketAddr, TcpListener, TcpStream, UdpSocket};
use std::time::{Clock, Duration};

/// The system's network, and a clock of the test's own in milliseconds, which moves on with each reading. Without a
/// step it fails.
#[derive(Clone, Copy)]
pub(crate) struct Bench<'a> {
    pub(crate) rt: HostRuntime,
    pub(crate) now: &'a Cell<u64>,
    pub(crate) step: Option<u64>,
}

/// An address of this machine.
fn four(last: u8) -> IpAddr {
    IpAddr::V4(Ipv4Addr::new(127, 0, 0, last))
}

/// An IPv6 address.
fn six(last: u16) -> IpAddr {
    IpAddr::V6(Ipv6Addr::new(0xfd00, 0, 0, 0, 0, 0, 0, last))
}

impl Clock for Bench<'_> {
    fn monotonic(&self) -> io::Result<Duration> {
        let Some(step) = self.step else {
            return Err(io::Error::from(io::ErrorKind::Unsupported));
        };
        let now = self.now.get();
        self.now.set(now.saturating_add(step));
        Ok(Duration::from_millis(now))
    }

    fn since_1970(&self) -> io::Result<Duration> {
        self.monotonic()
    }
}

impl Net for Bench<'_> {
    type Stream = TcpStream;

    type Listener = TcpListener;

    fn bind(&self, addr: SocketAddr) -> io::Result<TcpListener> {
        Net::bind(&self.rt, addr)
    }

    fn connect(&self, addr: SocketAddr) -> io::Result<TcpStream> {
        Net::connect(&self.rt, addr)
    }

    fn bind_udp(&self, addr: SocketAddr) -> io::Result<UdpSocket> {
        self.rt.bind_udp(addr)
    }

    /// Two addresses for each of three names.
    fn lookup_host(&self, host: &str, port: u16, found: &mut [SocketAddr]) -> io::Result<usize> {
        let ips = match host {
            "four" => [four(8), four(9)],
            "both" => [six(1), four(7)],
            "six" => [six(2), six(3)],
            _ => return Err(io::Error::from(io::ErrorKind::NotFound)),
        };
        let n = found.len().min(2);
        for i in 0..n {
            found[i] = SocketAddr::new(ips[i], port);
        }
        Ok(n)
    }
}
