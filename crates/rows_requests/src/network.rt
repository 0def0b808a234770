//! The program `pfx` in a cluster of two: the row is the second member, and prints what it receives.

use crate::asking::{print_run, words_of};
use cli_node::run_net;
use node_udp::UdpWire;
use px_transport::Wire;
use std::cell::Cell;
use std::io;
use std::net::{SocketAddr, TcpListener, UdpSocket};

/// How many datagrams are read at most.
const DATAGRAMS: usize = 64;

/// Where the two members are.
#[derive(Drop)]
pub(crate) struct Network {
    first: String,
    second: String,
    socket: UdpSocket,
    /// Where a running node serves figures.
    pub(crate) figures: SocketAddr,
    /// The same port of another address, which a node that serves figures there alone leaves free.
    _elsewhere: TcpListener,
    /// The start of the packet that came last.
    start: Cell<u64>,
}

/// The start of the sender of a sealed packet.
fn start_in(packet: &[u8]) -> Option<u64> {
    if packet.starts_with(b"PFXS") {
        let bytes = packet.get(13..21)?;
        return bytes
            .first_chunk::<8>()
            .map(|start| u64::from_be_bytes(*start));
    }
    None
}

impl Network {
    /// Free ports, of which the second member's is taken; that of figures is free at 127.0.0.1 alone.
    pub(crate) fn new(rt: &HostRuntime) -> io::Result<Network> {
        let alloc = rt.alloc();
        let socket = UdpSocket::bind(rt, "127.0.0.1:0")?;
        socket.set_nonblocking(true)?;
        let first = UdpSocket::bind(rt, "127.0.0.1:0")?;
        let figures = TcpListener::bind(rt, "127.0.0.1:0")?.local_addr()?;
        let other = format!(in alloc; "127.0.0.2:{}", figures.port())?;
        Ok(Network {
            first: first.local_addr()?.to_string(alloc)?,
            second: socket.local_addr()?.to_string(alloc)?,
            socket,
            figures,
            _elsewhere: TcpListener::bind(rt, other.as_str())?,
            start: Cell::new(0),
        })
    }

    /// Prints what the second member received: datagrams without a key, and whether packets have a later start than
    /// those before.
    fn print_come(&self, rt: &HostRuntime) -> io::Result<()> {
        let before = self.start.get();
        let mut bytes = [0; 2048];
        for _ in 0..DATAGRAMS {
            let Ok(count) = self.socket.recv(&mut bytes) else {
                break;
            };
            match start_in(bytes.get(..count).unwrap_or(&[])) {
                Some(start) => self.start.set(start),
                None => println!(rt; "> {count} bytes")?,
            }
        }
        if self.start.get() > before {
            println!(rt; "> packets of a later start")?;
        }
        Ok(())
    }

    /// Prints how many bytes are given of datagrams where members alone are heard: of one of the second member and one
    /// of a stranger, which are waited for, and of two more that have come.
    pub(crate) fn print_heard(&self, rt: &HostRuntime) -> io::Result<()> {
        let members = [self.first.as_str(), self.second.as_str()];
        let Ok(mut wire) = UdpWire::bind(rt, rt.alloc(), &members, 0, 50) else {
            return println!(rt; "no socket");
        };
        wire.hear_members();
        let stranger = UdpSocket::bind(rt, "127.0.0.1:0")?;
        for _ in 0..2 {
            self.socket.send_to(b"a member", self.first.as_str())?;
            stranger.send_to(b"a stranger", self.first.as_str())?;
        }
        let mut bytes = [0; 2048];
        for _ in 0..2 {
            println!(rt; "{}", wire.recv(&mut bytes).unwrap_or(2048))?;
        }
        for _ in 0..2 {
            println!(rt; "{}", wire.poll(&mut bytes).unwrap_or(2048))?;
        }
        Ok(())
    }

    /// Runs the program with these arguments, in which `@1` and `@2` stand for the addresses of the members, and `@3`
    /// for that of figures.
    pub(crate) fn run(&self, rt: &HostRuntime, words: &str) -> io::Result<()> {
        let alloc = rt.alloc();
        let words = words.replace(alloc, "@1", self.first.as_str())?;
        let words = words.replace(alloc, "@2", self.second.as_str())?;
        let words = words.replace(alloc, "@3", self.figures.to_string(alloc)?.as_str())?;
        let words = words_of(alloc, words.as_str(), &[])?;
        let mut written = Vec::new(alloc);
        let status = run_net(
            rt,
            &mut { *rt },
            &mut { *rt },
            &mut { *rt },
            alloc,
            words.as_slice(),
            &mut io::empty(),
            &mut written,
        );
        print_run(rt, status, &written, &[])?;
        self.print_come(rt)
    }
}
