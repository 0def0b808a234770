//! What the loop counts.

/// What the loop counted of a peer.
#[derive(Clone, Copy, PartialEq, Eq, Default)]
pub struct PeerCounters {
    /// The member's number.
    pub node: u8,
    /// Whole seconds since a datagram of it came, none if never.
    pub heard: Option<u64>,
    /// How many datagrams came from it.
    pub datagrams_in: u64,
    /// How many were handed to the wire for it.
    pub datagrams_out: u64,
    /// A position below which some member had learned all two seconds ago, as messages of this one show.
    pub shown: u32,
}

/// What the loop counted, by the clock that nobody sets.
#[derive(Drop)]
pub struct Counters {
    /// Whole seconds since the node started.
    pub up: u64,
    /// A row for each other member, by their numbers.
    pub peers: Vec<PeerCounters>,
    /// Whole seconds for which commands have waited, here or at a member that proposes one, while the front didn't
    /// move; 0 where none waits.
    pub stood: u64,
    /// How often a higher round refused one of this member's since the front moved last.
    pub outrun: u64,
    /// The bytes of the longest datagram that is longer than a packet and was sent since the front moved last; 0 where
    /// none is.
    pub large: u64,
    /// Where each member listens, by their numbers, with a blank between two.
    pub members: String,
    /// Datagrams that the system didn't take.
    pub unsent: u64,
    /// Datagrams with a wrong tag, or asks that came where there is a control socket.
    pub dropped: u64,
    /// Datagrams that pass and spell nothing.
    pub ignored: u64,
    /// How many turns and ticks the node made.
    pub turns: u64,
    /// See `turns`.
    pub ticks: u64,
    /// How many operators are connected.
    pub clients: u64,
    /// Requests that were answered 2xx, 4xx and 5xx.
    pub served: u64,
    /// See `served`.
    pub refused: u64,
    /// See `served`.
    pub unavailable: u64,
}
