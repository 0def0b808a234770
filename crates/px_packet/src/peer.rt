//! What a receiver remembers of a member.

ghost use Rattle.std.specs.Prelude.{◌≡◌, IfOk};
ghost use Rattle.px_packet.specs.Arrivals.{Known, IsKnown, new_start, is_for, known_with, arrival_of, known_after};

use crate::arrival::Arrival;
use crate::header::Header;
use crate::kind::Kind;
use crate::start::Start;
use crate::window::Window;
use std::alloc::{AllocError, Global};

/// What a receiver remembers of a member: its start, and which counters of that start it accepted.
#[derive(Drop)]
pub struct Peer {
    pub(crate) start: Start,
    pub(crate) window: Window,
}

/// Whether a packet's body is for this start of the receiver.
fn is_for(mine: Start, header: &Header) -> bool
    ensures { result ≡ is_for mine header.now }
{
    header.kind == Kind::State || header.echo == mine
}

impl Peer {
    /// A member whose last known start is this, `Start::NEVER` where none is. No packet of it was accepted.
    pub fn new(alloc: Global, start: Start) -> Result<Peer, AllocError>
        ensures { IfOk result (λ p. IsKnown (new_start start) p) }
    {
        let window = Window::new(alloc)?;
        Ok(Peer { start, window })
    }

    /// The member's start, which a packet for it echoes.
    pub fn start(&self) -> Start
        ensures { (k : Known) → IsKnown k self.now → result ≡ k.start }
    {
        self.start
    }

    /// Takes the start of a packet, which isn't below the known one.
    fn know(&mut self, start: Start)
        ensures { (k : Known) → IsKnown k self.old → IsKnown (known_with k start) self.new }
    {
        if start.number > self.start.number {
            self.start = start;
            self.window.clear();
        }
    }

    /// Whether a packet of the member with this header is accepted, by a receiver whose start is `mine`. It was sealed
    /// with the cluster's key.
    pub fn take(&mut self, mine: Start, header: &Header) -> Arrival
        ensures arrival { (k : Known) → IsKnown k self.old → result ≡ arrival_of mine k header.now }
        ensures after { (k : Known) → IsKnown k self.old → IsKnown (known_after mine k header.now) self.new }
    {
        let start = header.start;
        if start.number < self.start.number {
            return Arrival::OldStart;
        }
        if start.number == self.start.number && start.salt != self.start.salt {
            return Arrival::OtherMachine;
        }
        self.know(start);
        if !is_for(mine, header) {
            return Arrival::OtherEcho;
        }
        if self.window.accept(header.counter) {
            return Arrival::Accepted;
        }
        Arrival::Repeated
    }
}
