//! A socket in memory.

ghost use Rattle.std.specs.Prelude.{◌≡◌, ◌≤◌, ◌++◌, [], ◌∷◌, Some, OnOk, length, map, option_map, take};
ghost use Rattle.trial_datagrams.specs.MemorySockets.{WentOver, came_of, kept_of, went_of};

use node_udp::Socket;
use std::alloc::{AllocError, Global};
use std::io::ErrorKind;
use std::net::SocketAddr;
use std::time::Duration;

/// A socket in memory: to it come the datagrams that it was made with, in order, and it keeps what it is handed as long
/// as memory holds that. It never waits.
#[derive(Drop)]
pub struct MemorySocket {
    coming: Vec<(SocketAddr, Vec<u8>)>,
    /// How many of them came.
    next: usize,
    went: Vec<(SocketAddr, Vec<u8>)>,
    /// Whether `went` is all that was handed over.
    is_whole: bool,
    alloc: Global,
}

impl MemorySocket {
    /// A socket to which these come, and that was handed nothing. Allocates nothing.
    pub fn new(alloc: Global, coming: Vec<(SocketAddr, Vec<u8>)>) -> MemorySocket
        ensures came { came_of result ≡ [] }
        ensures went { went_of result ≡ Some [] }
        ensures traffic { WentOver result [] }
    {
        MemorySocket {
            coming,
            next: 0,
            went: Vec::new(alloc),
            is_whole: true,
            alloc,
        }
    }

    /// What it was handed: for which address, and the bytes. `None` once out of memory.
    pub fn went(&self) -> Option<&[(SocketAddr, Vec<u8>)]>
        ensures { option_map (λ s. map (λ d. (d.0, d.1.items)) s.now) result ≡ went_of self.now }
    {
        self.is_whole.then(|| self.went.as_slice())
    }

    fn keep(&mut self, bytes: &[u8], to: SocketAddr) -> Result<(), AllocError>
        ensures kept { OnOk result (kept_of self.new ≡ kept_of self.old ++ (to, bytes.now) ∷ []) }
        ensures whole { self.new.is_whole ≡ self.old.is_whole }
        ensures came { came_of self.new ≡ came_of self.old }
    {
        let copy = Vec::from_slice(self.alloc, bytes)?;
        self.went.push((to, copy))?;
        Ok(())
    }
}

/// Cuts the datagram to the room that there is, and writes it there: how many bytes it has.
fn put(datagram: &mut Vec<u8>, into: &mut [u8]) -> usize
    ensures fits { result ≤ length into.new }
    ensures written { take result into.new ≡ datagram.new.items }
{
    datagram.truncate(into.len());
    let n = datagram.len();
    into[..n].copy_from_slice(datagram.as_slice());
    n
}

impl Socket for MemorySocket {
    ghost traffic = { WentOver };

    ghost is_timeless = { λ s. ⊥ };

    fn receive(&mut self, into: &mut [u8]) -> Result<(usize, SocketAddr), ErrorKind> {
        if self.next >= self.coming.len() {
            return Err(ErrorKind::WouldBlock);
        }
        let came = &mut self.coming[self.next];
        let from = came.0;
        let n = put(&mut came.1, into);
        self.next += 1;
        Ok((n, from))
    }

    fn peek(&mut self) -> Result<(), ErrorKind> {
        Ok(())
    }

    fn send(&mut self, bytes: &[u8], to: SocketAddr) -> Result<usize, ErrorKind> {
        match self.keep(bytes, to) {
            Ok(()) => Ok(bytes.len()),
            Err(_) => {
                self.is_whole = false;
                Err(ErrorKind::OutOfMemory)
            }
        }
    }

    fn set_blocking(&mut self, _is_blocking: bool) -> Result<(), ErrorKind> {
        Ok(())
    }

    fn set_timeout(&mut self, _timeout: Duration) -> Result<(), ErrorKind> {
        Ok(())
    }
}
