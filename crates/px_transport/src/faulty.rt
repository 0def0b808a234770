//! A wire that fails at times.

ghost use Rattle.std.specs.Prelude.{◌≡◌, ◌<◌, ◌≤◌, ◌+◌, ℕ, List, [], ◌∷◌, None, false, IfSome, IsTrue, length};
ghost use Rattle.std.specs.Prelude.{option_map, take};
ghost use Rattle.px_transport.specs.Wires.{Adds, Counts, IsQuiet, WireEvent, Handed, gives, one_more};
ghost use Rattle.px_transport.specs.Faulty.{inner_of, recvs_left, sends_left, period_of, missed_of, failures_of};
ghost use Rattle.px_transport.specs.Faulty.{WentFaulty};

use crate::wire::Wire;

/// A wire of which each `k`-th receive and each `k`-th send fails, is counted, and doesn't reach the wire below; the
/// others are that wire's. A poll is a receive; what isn't one of the two never fails. For tests of what lost datagrams
/// do.
#[derive(Drop)]
pub struct FaultyWire<W> {
    inner: W,
    period: u64,
    /// How many receives are left up to the next that fails.
    recvs_left: u64,
    /// The same of sends.
    sends_left: u64,
    missed: u64,
}

impl<W: Wire> FaultyWire<W> {
    /// The wire over which each `k`-th receive and each `k`-th send fails.
    pub fn new(inner: W, k: u64) -> FaultyWire<W>
        requires { 0 < k }
        ensures inner { inner_of result ≡ inner }
        ensures period { period_of result ≡ k }
        ensures recvs { recvs_left result ≡ k }
        ensures sends { sends_left result ≡ k }
        ensures missed { missed_of result ≡ 0 }
        ensures traffic { W.traffic inner [] → WentFaulty (W.traffic (inner_of result)) [] }
    {
        FaultyWire {
            inner,
            period: k,
            recvs_left: k,
            sends_left: k,
            missed: 0,
        }
    }

    /// The wire below.
    pub fn into_inner(self) -> W
        ensures { result ≡ inner_of self }
    {
        self.inner
    }

    /// Counts a receive: whether it is one that fails.
    fn misses_recv(&mut self) -> bool
        ensures missed { IsTrue result → (recvs_left self.old ≤ 1) × (recvs_left self.new ≡ period_of self.old) ×
            (missed_of self.new ≡ one_more (missed_of self.old)) }
        ensures passed { result ≡ false → (recvs_left self.new + 1 ≡ recvs_left self.old) ×
            (1 < recvs_left self.old) × (missed_of self.new ≡ missed_of self.old) }
        ensures rest { (inner_of self.new ≡ inner_of self.old) × (sends_left self.new ≡ sends_left self.old) ×
            (period_of self.new ≡ period_of self.old) }
    {
        if self.recvs_left <= 1 {
            self.recvs_left = self.period;
            self.missed = self.missed.saturating_add(1);
            return true;
        }
        self.recvs_left -= 1;
        false
    }
}

impl<W: Wire> Wire for FaultyWire<W> {
    ghost traffic = { λ w es. WentFaulty (W.traffic w.inner) es };

    ghost failed = { λ w. failures_of (W.failed w.inner) w };

    ghost identity = { λ w. W.identity w.inner };

    fn recv(&mut self, into: &mut [u8]) -> Option<usize>
        ensures missed { recvs_left self.old ≤ 1 → (result ≡ None) × (inner_of self.new ≡ inner_of self.old) ×
            (recvs_left self.new ≡ period_of self.old) × (missed_of self.new ≡ one_more (missed_of self.old)) }
        ensures passed { 1 < recvs_left self.old → (recvs_left self.new + 1 ≡ recvs_left self.old) ×
            (missed_of self.new ≡ missed_of self.old) }
        ensures rest { (sends_left self.new ≡ sends_left self.old) × (period_of self.new ≡ period_of self.old) }
        ensures fits { IfSome result (λ n. n ≤ length into.new) }
        ensures gave { Adds (WentFaulty (W.traffic (inner_of self.old)))
            (WentFaulty (W.traffic (inner_of self.new))) (gives (option_map (λ n. take n into.new) result)) }
        ensures counts { failures_of (W.failed (inner_of self.old)) self.old ≤
            failures_of (W.failed (inner_of self.new)) self.new }
        ensures same { W.identity (inner_of self.new) ≡ W.identity (inner_of self.old) }
    {
        if self.misses_recv() {
            return None;
        }
        self.inner.recv(into)
    }

    fn poll(&mut self, into: &mut [u8]) -> Option<usize>
        ensures missed { recvs_left self.old ≤ 1 → (result ≡ None) × (inner_of self.new ≡ inner_of self.old) ×
            (recvs_left self.new ≡ period_of self.old) × (missed_of self.new ≡ one_more (missed_of self.old)) }
        ensures passed { 1 < recvs_left self.old → (recvs_left self.new + 1 ≡ recvs_left self.old) ×
            (missed_of self.new ≡ missed_of self.old) }
        ensures rest { (sends_left self.new ≡ sends_left self.old) × (period_of self.new ≡ period_of self.old) }
        ensures fits { IfSome result (λ n. n ≤ length into.new) }
        ensures gave { Adds (WentFaulty (W.traffic (inner_of self.old)))
            (WentFaulty (W.traffic (inner_of self.new))) (gives (option_map (λ n. take n into.new) result)) }
        ensures counts { failures_of (W.failed (inner_of self.old)) self.old ≤
            failures_of (W.failed (inner_of self.new)) self.new }
        ensures same { W.identity (inner_of self.new) ≡ W.identity (inner_of self.old) }
    {
        if self.misses_recv() {
            return None;
        }
        self.inner.poll(into)
    }

    fn wait(&mut self, milliseconds: u32)
        ensures rest { (sends_left self.new ≡ sends_left self.old) × (recvs_left self.new ≡ recvs_left self.old) ×
            (period_of self.new ≡ period_of self.old) × (missed_of self.new ≡ missed_of self.old) }
        ensures quiet { IsQuiet (WentFaulty (W.traffic (inner_of self.old)))
            (WentFaulty (W.traffic (inner_of self.new))) }
        ensures counts { failures_of (W.failed (inner_of self.old)) self.old ≤
            failures_of (W.failed (inner_of self.new)) self.new }
        ensures same { W.identity (inner_of self.new) ≡ W.identity (inner_of self.old) }
    {
        self.inner.wait(milliseconds);
    }

    fn due(&self, milliseconds: u32) -> u32 {
        self.inner.due(milliseconds)
    }

    fn send(&mut self, to: u8, bytes: &[u8]) -> bool
        ensures missed { sends_left self.old ≤ 1 → (result ≡ false) × (inner_of self.new ≡ inner_of self.old) ×
            (sends_left self.new ≡ period_of self.old) × (missed_of self.new ≡ one_more (missed_of self.old)) }
        ensures passed { 1 < sends_left self.old → (sends_left self.new + 1 ≡ sends_left self.old) ×
            (missed_of self.new ≡ missed_of self.old) ×
            Adds (W.traffic (inner_of self.old)) (W.traffic (inner_of self.new)) (Handed to bytes.now ∷ []) ×
            Counts result (W.failed (inner_of self.old)) (W.failed (inner_of self.new)) }
        ensures rest { (recvs_left self.new ≡ recvs_left self.old) × (period_of self.new ≡ period_of self.old) }
        ensures handed { Adds (WentFaulty (W.traffic (inner_of self.old)))
            (WentFaulty (W.traffic (inner_of self.new))) (Handed to bytes.now ∷ []) }
        ensures counts { Counts result (failures_of (W.failed (inner_of self.old)) self.old)
            (failures_of (W.failed (inner_of self.new)) self.new) }
        ensures same { W.identity (inner_of self.new) ≡ W.identity (inner_of self.old) }
    {
        if self.sends_left <= 1 {
            self.sends_left = self.period;
            self.missed = self.missed.saturating_add(1);
            return false;
        }
        self.sends_left -= 1;
        self.inner.send(to, bytes)
    }

    fn failures(&self) -> u64 {
        self.inner.failures().saturating_add(self.missed)
    }
}
