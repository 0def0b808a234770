//! How a member's run ended.

use px_replica::NodeFault;

/// How a member's run ended.
#[derive(Clone, Copy, PartialEq, Eq)]
pub enum Ended {
    /// All turns were made: how many positions are learned without a gap, and how many are applied.
    Front { front: u32, applied: u32 },
    /// An operator asked for the end before all turns were made: the same two numbers.
    Stopped { front: u32, applied: u32 },
    /// The record wasn't opened, it was out of memory before the first turn, or this fault ended the turns.
    Fault(NodeFault),
    /// There is no wire, and no turn was made.
    NoWire,
    /// There is no control socket, and no turn was made.
    NoControlSocket,
    /// There is no port for figures, and no turn was made.
    NoPort,
}
