//! Where datagrams come from and go to.

ghost use Rattle.std.specs.Prelude.{◌≡◌, ◌≤◌, ℕ, List, [], ◌∷◌, IfSome, length, option_map, take};
ghost use Rattle.px_transport.specs.Identities.{Identity};
ghost use Rattle.px_transport.specs.Wires.{Adds, Counts, IsQuiet, WireEvent, Handed, gives};

/// Where datagrams come from and go to. Members are distinguished by their numbers; 255 is the sender of the datagram
/// that came last. A datagram that isn't sent is lost, as it may be on its way: nothing else follows from it. Of what
/// it is handed a wire sends nothing again of its own accord: node_loop hands it again. A wire of packets adds packets
/// that its layer needs.
pub trait Wire {
    // this went over it so far, in order: what `recv` and `poll` gave, and what `send` was handed
    ghost traffic: { Self → List WireEvent → Type 0 };

    // how many sends were not made, and how many faults were met
    ghost failed: { Self → ℕ };

    // whose wire it is, which no call changes
    ghost identity: { Self → Identity };

    /// Waits for a datagram: how many bytes it has, which are written from the slice's front on. `None` where none came
    /// in time, or for a fault. A datagram longer than the slice may be cut to it.
    fn recv(&mut self, into: &mut [u8]) -> Option<usize>
        ensures fits { IfSome result (λ n. n ≤ length into.new) }
        ensures gave { Adds (traffic self.old) (traffic self.new) (gives (option_map (λ n. take n into.new) result)) }
        ensures counts { failed self.old ≤ failed self.new }
        ensures same { identity self.new ≡ identity self.old };

    /// Takes a datagram that has come already, as `recv` does, and waits for none.
    fn poll(&mut self, into: &mut [u8]) -> Option<usize>
        ensures fits { IfSome result (λ n. n ≤ length into.new) }
        ensures gave { Adds (traffic self.old) (traffic self.new) (gives (option_map (λ n. take n into.new) result)) }
        ensures counts { failed self.old ≤ failed self.new }
        ensures same { identity self.new ≡ identity self.old };

    /// Waits until something has come or the given number of milliseconds has passed, and takes nothing.
    fn wait(&mut self, milliseconds: u32)
        ensures quiet { IsQuiet (traffic self.old) (traffic self.new) }
        ensures counts { failed self.old ≤ failed self.new }
        ensures same { identity self.new ≡ identity self.old };

    /// How many of the given number of milliseconds may be waited elsewhere before `poll` is to be called again: fewer
    /// where the wire has something of its own to send earlier.
    fn due(&self, milliseconds: u32) -> u32
        ensures { result ≤ milliseconds };

    /// Sends the bytes to a member, or with 255 to the sender of the datagram that came last. Whether they were sent.
    fn send(&mut self, to: u8, bytes: &[u8]) -> bool
        ensures handed { Adds (traffic self.old) (traffic self.new) (Handed to bytes.now ∷ []) }
        ensures counts { Counts result (failed self.old) (failed self.new) }
        ensures same { identity self.new ≡ identity self.old };

    /// How many sends were answered `false`, and how many faults the receives and waits met, up to 2^64 - 1.
    fn failures(&self) -> u64
        ensures { result ≡ failed self.now };
}
