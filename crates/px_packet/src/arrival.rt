//! Whether a packet is accepted.

/// Whether a packet is accepted; else the first reason why not.
#[derive(Clone, Copy, PartialEq, Eq)]
pub enum Arrival {
    /// It is accepted.
    Accepted,
    /// It is of a start below the sender's known one.
    OldStart,
    /// It is of a start with the number of the sender's known one and another salt: a copied or restored machine.
    OtherMachine,
    /// It was sealed for another start of the receiver, and isn't of kind state.
    OtherEcho,
    /// Its counter was accepted, or is behind the window.
    Repeated,
}
