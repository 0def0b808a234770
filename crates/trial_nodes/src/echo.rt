//! A wire by which what a member sends comes back to it, but only behind a wait.

ghost use Rattle.std.specs.Prelude.{⊤};
ghost use Rattle.px_transport.specs.Identities.{plain};

use px_transport::Wire;
use std::alloc::Global;

/// What was sent, of which the first ones were given, and those before the last wait may be.
#[derive(Drop)]
pub(crate) struct Echo {
    alloc: Global,
    sent: Vec<Vec<u8>>,
    given: usize,
    waited: usize,
}

impl Echo {
    /// A wire over which nothing was sent.
    pub(crate) fn new(alloc: Global) -> Echo {
        Echo {
            alloc,
            sent: Vec::new(alloc),
            given: 0,
            waited: 0,
        }
    }
}

impl Wire for Echo {
    ghost traffic = { λ _ _. ⊤ };

    ghost failed = { λ _. 0 };

    ghost identity = { λ _. plain };

    fn recv(&mut self, into: &mut [u8]) -> Option<usize> {
        if self.given >= self.waited {
            return None;
        }
        let datagram = self.sent.get(self.given)?;
        self.given = self.given.saturating_add(1);
        let count = datagram.len().min(into.len());
        into[..count].copy_from_slice(&datagram[..count]);
        Some(count)
    }

    fn poll(&mut self, into: &mut [u8]) -> Option<usize> {
        self.recv(into)
    }

    fn wait(&mut self, milliseconds: u32) {
        if milliseconds > 0 {
            self.waited = self.sent.len();
        }
    }

    fn due(&self, milliseconds: u32) -> u32 {
        milliseconds
    }

    fn send(&mut self, _to: u8, bytes: &[u8]) -> bool {
        if let Ok(copy) = Vec::from_slice(self.alloc, bytes) {
            let _kept = self.sent.push(copy);
        }
        true
    }

    fn failures(&self) -> u64 {
        0
    }
}
