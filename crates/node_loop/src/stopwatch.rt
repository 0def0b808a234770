//! How long a node has run.

ghost use Rattle.std.specs.Prelude.{◌≡◌, List, [], ◌∷◌, Option, ⊤};
ghost use Rattle.std.specs.declared.time.Instant as time;
ghost use Rattle.px_transport.specs.Wires.{Adds};
ghost use Rattle.node_loop.specs.Times.{Reading, between};

use std::time::{Clock, Instant};

/// A clock that is read.
pub trait Stopwatch {
    // it was read so often, and gave this, in order
    ghost readings: { Self → List Reading → Type 0 };

    /// Its reading, none where the system gives none.
    fn read(&mut self) -> Option<Instant>
        ensures { Adds (readings self.old) (readings self.new) (result ∷ []) };
}

/// The system's clock.
#[derive(Clone, Copy)]
pub struct SystemClock<'a, C> {
    pub clock: &'a C,
}

impl<C: Clock> Stopwatch for SystemClock<'_, C> {
    // no contract states what the system's clock reads
    ghost readings = { λ _ _. ⊤ };

    fn read(&mut self) -> Option<Instant> {
        Instant::now(self.clock).ok()
    }
}

/// The time since a reading of the clock, which is read once for that, in microseconds; none has passed where the clock
/// can't be read.
pub fn microseconds<S: Stopwatch>(clock: &mut S, start: Option<Instant>) -> u64
    ensures { (now : Reading) × Adds (S.readings clock.old) (S.readings clock.new) (now ∷ [])
        × (result ≡ between start now) }
{
    let (Some(start), Some(now)) = (start, clock.read()) else {
        return 0;
    };
    let passed = now.duration_since(start).as_micros();
    passed.min(u128::from(u64::MAX)) as u64
}
