//! What a receiver gives for a packet that was opened.

use px_packet::{Arrival, PiecesHeld};

/// What comes of a packet that a receiver took.
#[derive(Drop)]
pub enum PacketOutcome<'a> {
    /// A datagram that came in one packet: the body.
    Whole(&'a [u8]),
    /// A datagram of which the last piece came.
    Joined(Vec<u8>),
    /// Which pieces of a datagram the sender of the packet has.
    Held(PiecesHeld),
    /// Nothing is given: the packet is of kind state, or has a piece of an unfinished datagram, or a body that isn't
    /// that of its kind; or its sender is no member; or it was out of memory.
    Nothing,
    /// It isn't accepted.
    Dropped(Arrival),
}
