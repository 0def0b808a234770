//! A wire in memory.

ghost use Rattle.std.specs.Prelude.{◌≡◌, ◌≤◌, ◌++◌, [], ◌∷◌, Some, None, true, IfSome, OnOk, OnErr, length, map};
ghost use Rattle.std.specs.Prelude.{option_map, take};
ghost use Rattle.px_transport.specs.Identities.{plain};
ghost use Rattle.px_transport.specs.Wires.{Adds, IsQuiet, gives};
ghost use Rattle.px_transport.specs.Memory.{given_of, handed_of, sent_of, coming_of, IsNext, WentOver};

use crate::cutting::put;
use crate::wire::Wire;
use std::alloc::{AllocError, Global};

/// A wire in memory: it gives the datagrams that it was made with, in order, and keeps what it is handed as long as
/// memory holds that.
#[derive(Drop)]
pub struct MemoryWire {
    coming: Vec<Vec<u8>>,
    /// How many of them were given.
    next: usize,
    sent: Vec<(u8, Vec<u8>)>,
    /// Whether `sent` is all that was handed over.
    is_whole: bool,
    failures: u64,
}

impl MemoryWire {
    /// A wire that gives these datagrams, and was handed nothing. Allocates nothing.
    pub fn new(alloc: Global, coming: Vec<Vec<u8>>) -> MemoryWire
        ensures coming { coming_of result ≡ map (λ d. d.items) coming.items }
        ensures given { given_of result ≡ [] }
        ensures handed { handed_of result ≡ Some [] }
        ensures traffic { WentOver result [] }
    {
        MemoryWire {
            coming,
            next: 0,
            sent: Vec::new(alloc),
            is_whole: true,
            failures: 0,
        }
    }

    /// What it was handed: for whom, and the bytes. `None` once out of memory.
    pub fn sent(&self) -> Option<&[(u8, Vec<u8>)]>
        ensures { option_map (λ s. map (λ d. (d.0, d.1.items)) s.now) result ≡ handed_of self.now }
    {
        self.is_whole.then_some(self.sent.as_slice())
    }

    fn keep(&mut self, to: u8, bytes: &[u8]) -> Result<(), AllocError>
        ensures kept { OnOk result (sent_of self.new ≡ sent_of self.old ++ (to, bytes.now) ∷ []) }
        ensures whole { self.new.is_whole ≡ self.old.is_whole }
        ensures given { given_of self.new ≡ given_of self.old }
        ensures failures { self.new.failures ≡ self.old.failures }
    {
        let copy = Vec::from_slice(*self.sent.allocator(), bytes)?;
        Ok(self.sent.push((to, copy))?)
    }
}

impl Wire for MemoryWire {
    ghost traffic = { WentOver };

    ghost failed = { λ w. w.failures };

    ghost identity = { λ w. plain };

    fn recv(&mut self, into: &mut [u8]) -> Option<usize>
        ensures next { IsNext (coming_of self.old) (length into.old) (option_map (λ n. take n into.new) result)
            (coming_of self.new) }
        ensures fits { IfSome result (λ n. n ≤ length into.new) }
        ensures gave { Adds (WentOver self.old) (WentOver self.new) (gives (option_map (λ n. take n into.new) result)) }
        ensures counts { self.old.failures ≤ self.new.failures }
    {
        let datagram = self.coming.get_mut(self.next)?;
        self.next += 1;
        Some(put(datagram, into))
    }

    fn poll(&mut self, into: &mut [u8]) -> Option<usize>
        ensures next { IsNext (coming_of self.old) (length into.old) (option_map (λ n. take n into.new) result)
            (coming_of self.new) }
        ensures fits { IfSome result (λ n. n ≤ length into.new) }
        ensures gave { Adds (WentOver self.old) (WentOver self.new) (gives (option_map (λ n. take n into.new) result)) }
        ensures counts { self.old.failures ≤ self.new.failures }
    {
        self.recv(into)
    }

    fn wait(&mut self, _milliseconds: u32)
        ensures stays { coming_of self.new ≡ coming_of self.old }
        ensures quiet { IsQuiet (WentOver self.old) (WentOver self.new) }
        ensures counts { self.new.failures ≡ self.old.failures }
    {}

    fn due(&self, milliseconds: u32) -> u32
        ensures { result ≡ milliseconds }
    {
        milliseconds
    }

    fn send(&mut self, to: u8, bytes: &[u8]) -> bool {
        if self.keep(to, bytes).is_ok() {
            return true;
        }
        self.is_whole = false;
        self.failures = self.failures.saturating_add(1);
        false
    }

    fn failures(&self) -> u64 {
        self.failures
    }
}
