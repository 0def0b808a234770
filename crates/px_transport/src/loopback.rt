//! A wire that keeps what a member sends to itself.

ghost use Rattle.std.specs.Prelude.{◌≡◌, ◌≢◌, ◌⊎◌, ◌≤◌, ◌<◌, ◌++◌, [], ◌∷◌, None, OnOk, OnErr, IfSome, length};
ghost use Rattle.std.specs.Prelude.{option_map, take};
ghost use Rattle.px_transport.specs.Identities.{with_me};
ghost use Rattle.px_transport.specs.Wires.{Adds, Counts, IsQuiet, Handed, gives};
ghost use Rattle.px_transport.specs.Loopback.{below_of, me_of, kept_of, IsReturned, Looped, IsKept};

use crate::cutting::put_whole;
use crate::wire::Wire;
use std::alloc::{AllocError, Global};
use std::collections::VecDeque;

/// How many datagrams are kept at most.
const MOST_KEPT: usize = 64;

/// A wire that keeps what a member sends to itself, and gives that back before it asks the wire below. Where 64 are
/// kept or it is out of memory, a datagram goes to the wire below as any other. In place of one that is longer than the
/// slice an empty one is given, which is no member's.
#[derive(Drop)]
pub struct LoopbackWire<W> {
    below: W,
    me: u8,
    kept: VecDeque<Vec<u8>>,
}

impl<W: Wire> LoopbackWire<W> {
    /// The wire of the member `me`, which keeps nothing yet. Allocates nothing.
    pub fn new(alloc: Global, below: W, me: u8) -> LoopbackWire<W>
        ensures below { below_of result ≡ below }
        ensures me { me_of result ≡ me }
        ensures kept { kept_of result ≡ [] }
        ensures traffic { W.traffic below [] → Looped (W.traffic (below_of result)) result [] }
    {
        LoopbackWire {
            below,
            me,
            kept: VecDeque::new(alloc),
        }
    }

    /// The wire below. What is kept is lost.
    pub fn into_inner(self) -> W
        ensures { result ≡ below_of self }
    {
        self.below
    }

    /// The wire below, to be looked at.
    pub fn inner(&self) -> &W
        ensures { result.now ≡ below_of self.now }
    {
        &self.below
    }

    /// Takes the first that is kept.
    fn take_kept(&mut self, into: &mut [u8]) -> Option<usize>
        ensures next { IsReturned (kept_of self.old) (length into.old) (option_map (λ n. take n into.new) result)
            (kept_of self.new) }
        ensures fits { IfSome result (λ n. n ≤ length into.new) }
        ensures none { result ≡ None → (kept_of self.old ≡ []) × (kept_of self.new ≡ []) }
        ensures below { (below_of self.new ≡ below_of self.old) × (me_of self.new ≡ me_of self.old) }
    {
        let datagram = self.kept.pop_front()?;
        Some(put_whole(datagram.as_slice(), into))
    }

    /// Keeps a datagram.
    fn keep(&mut self, bytes: &[u8]) -> Result<(), AllocError>
        ensures kept { OnOk result (kept_of self.new ≡ kept_of self.old ++ bytes.now ∷ []) }
        ensures lost { OnErr result (kept_of self.new ≡ kept_of self.old) }
        ensures below { (below_of self.new ≡ below_of self.old) × (me_of self.new ≡ me_of self.old) }
    {
        let copy = Vec::from_slice(*self.kept.allocator(), bytes)?;
        Ok(self.kept.push_back(copy)?)
    }
}

impl<W: Wire> Wire for LoopbackWire<W> {
    ghost traffic = { λ w es. Looped (W.traffic w.below) w es };

    ghost failed = { λ w. W.failed w.below };

    ghost identity = { λ w. with_me w.me (W.identity w.below) };

    fn recv(&mut self, into: &mut [u8]) -> Option<usize>
        ensures own { kept_of self.old ≢ [] → (below_of self.new ≡ below_of self.old) × IsReturned (kept_of self.old)
            (length into.old) (option_map (λ n. take n into.new) result) (kept_of self.new) }
        ensures below { kept_of self.old ≡ [] → (kept_of self.new ≡ []) × Adds (W.traffic (below_of self.old))
            (W.traffic (below_of self.new)) (gives (option_map (λ n. take n into.new) result)) }
        ensures me { me_of self.new ≡ me_of self.old }
        ensures fits { IfSome result (λ n. n ≤ length into.new) }
        ensures gave { Adds (Looped (W.traffic (below_of self.old)) self.old)
            (Looped (W.traffic (below_of self.new)) self.new) (gives (option_map (λ n. take n into.new) result)) }
        ensures counts { W.failed (below_of self.old) ≤ W.failed (below_of self.new) }
        ensures same { with_me (me_of self.new) (W.identity (below_of self.new)) ≡
            with_me (me_of self.old) (W.identity (below_of self.old)) }
    {
        if let Some(n) = self.take_kept(into) {
            return Some(n);
        }
        self.below.recv(into)
    }

    fn poll(&mut self, into: &mut [u8]) -> Option<usize>
        ensures own { kept_of self.old ≢ [] → (below_of self.new ≡ below_of self.old) × IsReturned (kept_of self.old)
            (length into.old) (option_map (λ n. take n into.new) result) (kept_of self.new) }
        ensures below { kept_of self.old ≡ [] → (kept_of self.new ≡ []) × Adds (W.traffic (below_of self.old))
            (W.traffic (below_of self.new)) (gives (option_map (λ n. take n into.new) result)) }
        ensures me { me_of self.new ≡ me_of self.old }
        ensures fits { IfSome result (λ n. n ≤ length into.new) }
        ensures gave { Adds (Looped (W.traffic (below_of self.old)) self.old)
            (Looped (W.traffic (below_of self.new)) self.new) (gives (option_map (λ n. take n into.new) result)) }
        ensures counts { W.failed (below_of self.old) ≤ W.failed (below_of self.new) }
        ensures same { with_me (me_of self.new) (W.identity (below_of self.new)) ≡
            with_me (me_of self.old) (W.identity (below_of self.old)) }
    {
        if let Some(n) = self.take_kept(into) {
            return Some(n);
        }
        self.below.poll(into)
    }

    fn wait(&mut self, milliseconds: u32)
        ensures own { kept_of self.old ≢ [] → self.new ≡ self.old }
        ensures kept { (kept_of self.new ≡ kept_of self.old) × (me_of self.new ≡ me_of self.old) }
        ensures quiet { IsQuiet (Looped (W.traffic (below_of self.old)) self.old)
            (Looped (W.traffic (below_of self.new)) self.new) }
        ensures counts { W.failed (below_of self.old) ≤ W.failed (below_of self.new) }
        ensures same { with_me (me_of self.new) (W.identity (below_of self.new)) ≡
            with_me (me_of self.old) (W.identity (below_of self.old)) }
    {
        if self.kept.is_empty() {
            self.below.wait(milliseconds);
        }
    }

    fn due(&self, milliseconds: u32) -> u32
        ensures own { kept_of self.now ≢ [] → result ≡ 0 }
        ensures within { result ≤ milliseconds }
    {
        if !self.kept.is_empty() {
            return 0;
        }
        self.below.due(milliseconds)
    }

    fn send(&mut self, to: u8, bytes: &[u8]) -> bool
        ensures kept { IsKept self.old to bytes.now result self.new ⊎ ((kept_of self.new ≡ kept_of self.old) ×
            Adds (W.traffic (below_of self.old)) (W.traffic (below_of self.new)) (Handed to bytes.now ∷ []) ×
            Counts result (W.failed (below_of self.old)) (W.failed (below_of self.new))) }
        ensures me { me_of self.new ≡ me_of self.old }
        ensures handed { Adds (Looped (W.traffic (below_of self.old)) self.old)
            (Looped (W.traffic (below_of self.new)) self.new) (Handed to bytes.now ∷ []) }
        ensures counts { Counts result (W.failed (below_of self.old)) (W.failed (below_of self.new)) }
        ensures same { with_me (me_of self.new) (W.identity (below_of self.new)) ≡
            with_me (me_of self.old) (W.identity (below_of self.old)) }
    {
        if to == self.me && self.kept.len() < MOST_KEPT && self.keep(bytes).is_ok() {
            return true;
        }
        self.below.send(to, bytes)
    }

    fn failures(&self) -> u64 {
        self.below.failures()
    }
}
