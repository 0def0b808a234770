//! Starts of members.

/// A start of a member: each start of a store has a number that no earlier one had. The salt is random, so that two
/// machines that run copies of one store can be distinguished.
#[derive(Clone, Copy, PartialEq, Eq)]
pub struct Start {
    /// From 1 on; 0 where a member was never heard.
    pub number: u32,
    /// Chosen at random at each start.
    pub salt: u32,
}

impl Start {
    /// The start of a member that was never heard.
    pub const NEVER: Start = Start { number: 0, salt: 0 };
}
