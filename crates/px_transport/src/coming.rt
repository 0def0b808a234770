//! What a wire does with bytes that came: it gives a datagram, sends pieces again, or drops them.

use px_packet::PiecesHeld;

/// What comes of a packet.
pub(crate) enum Coming {
    /// A datagram of this many bytes is given.
    Given(usize),
    /// A member has these pieces of a datagram.
    Held(u8, PiecesHeld),
    /// It isn't heard.
    Dropped,
    /// It isn't heard: it is of a copied or restored machine.
    OtherMachine,
}
