//! Which counters were accepted.

ghost use Rattle.std.specs.Prelude.{◌≡◌, ℕ, List, [], IfOk, length};

use std::alloc::{AllocError, Global};

/// How many counters the window has, up to the greatest that was accepted.
const WINDOW: u64 = 2_048;

/// Which counters of a start were accepted, in a window of 2,048 up to the greatest of them (RFC 6479). In place of a
/// bit for each counter it has the counter itself, so that nothing is cleared as the window moves: 16 KB.
#[derive(Drop)]
pub struct Window {
    pub(crate) top: u64,
    /// The last that was accepted of those with each rest by 2,048, or 0.
    pub(crate) last: Vec<u64>,
    ghost size: { length last.items ≡ 2048 },
}

impl Window {
    ghost use Rattle.px_packet.specs.Windows.{is_fresh, accepted_with, Remembers};

    /// No counter was accepted.
    pub fn new(alloc: Global) -> Result<Window, AllocError>
        ensures { IfOk result (λ w. Remembers [] w) }
    {
        let mut last = Vec::with_capacity(alloc, WINDOW as usize)?;
        for _ in 0..WINDOW {
            last.push(0)?;
        }
        Ok(Window { top: 0, last })
    }

    /// Forgets the counters that were accepted.
    pub fn clear(&mut self)
        ensures { (accepted : List ℕ) → Remembers accepted self.old → Remembers [] self.new }
    {
        self.top = 0;
        for i in 0..self.last.len() {
            self.last[i] = 0;
        }
    }

    /// Accepts a counter, if it is ahead of all that were accepted, or in the window and not accepted before.
    pub fn accept(&mut self, counter: u64) -> bool
        ensures fresh { (accepted : List ℕ) → Remembers accepted self.old → result ≡ is_fresh accepted counter }
        ensures after { (accepted : List ℕ) → Remembers accepted self.old →
            Remembers (accepted_with accepted counter) self.new }
    {
        let slot = (counter % WINDOW) as usize;
        if counter <= self.last[slot] {
            return false;
        }
        if self.top.saturating_sub(counter) >= WINDOW {
            return false;
        }
        self.last[slot] = counter;
        self.top = self.top.max(counter);
        true
    }
}
