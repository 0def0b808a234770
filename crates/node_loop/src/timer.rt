//! What the loop asks to know when the clock ticks, and when what was sent is sent again: the trait [`Timer`].

ghost use Rattle.std.specs.Prelude.{◌≡◌, ℕ, Bool, List, [], ◌∷◌};
ghost use Rattle.px_transport.specs.Wires.{Adds};
ghost use Rattle.node_loop.specs.Timing.{IsShort, TimerEvent, is_tick};
ghost use Rattle.node_loop.specs.Timing.TimerEvent.{Looks, Sends, Repeats, Ends};

/// What is seen of a node when it is to be decided whether its clock ticks.
#[derive(Clone, Copy, PartialEq, Eq)]
pub struct View {
    /// How many commands wait to be proposed.
    pub waiting: usize,
    /// Whether an attempt is under way.
    pub is_attempting: bool,
    /// Whether a majority has promised: then what an attempt waits for is votes.
    pub is_leading: bool,
    /// The least position not learned.
    pub front: u32,
    /// Whether an entry that was asked for has come since the last look.
    pub has_learned: bool,
    /// A position below which another member has learned all, as far as is seen.
    pub reached: u32,
}

/// What a node does next.
#[derive(Clone, Copy, PartialEq, Eq)]
pub enum Action {
    /// Its clock ticks.
    Tick,
    /// It waits for a datagram, at most n milliseconds, 1 to 100.
    Wait(u32),
}

/// When a node's clock ticks, and when what was sent is sent again. It decides by what it is given here and by nothing
/// else. Times are in microseconds since the node started, and never go back.
pub trait Timer {
    // it was given this so far, in order
    ghost timer_events: { Self → List TimerEvent → Type 0 };

    // at this time the node accepts no command
    ghost listens: { Self → ℕ → Bool };

    /// What the node does next, at this time, where this is seen of it.
    fn action(&mut self, now: u64, view: View) -> Action
        ensures timer_events { Adds (timer_events self.old) (timer_events self.new)
            (Looks now view (is_tick result) ∷ []) }
        ensures short { IsShort result };

    /// Votes were sent for what another proposes at a position that isn't learned; they may be lost.
    fn sent(&mut self, now: u64)
        ensures timer_events { Adds (timer_events self.old) (timer_events self.new) (Sends now ∷ []) };

    /// Whether the accept requests and votes that were sent of the front's position are sent again now, since they may
    /// be lost. It is asked after [`Timer::action`], at the same time.
    fn repeats(&mut self, now: u64) -> bool
        ensures timer_events { Adds (timer_events self.old) (timer_events self.new) (Repeats now result ∷ []) };

    /// From now on the node accepts no command.
    fn end(&mut self)
        ensures timer_events { Adds (timer_events self.old) (timer_events self.new) (Ends ∷ []) };

    /// Whether the node listens, and accepts no command.
    fn is_listening(&self, now: u64) -> bool
        ensures { result ≡ listens self.now now };
}
