//! What became of a datagram.

use px_wire::WireFault;

/// What became of a datagram.
#[derive(Clone, Copy, PartialEq, Eq)]
pub enum Received {
    /// Its message was taken.
    Done,
    /// It spells nothing for this member; nothing changed.
    Ignored(WireFault),
}
