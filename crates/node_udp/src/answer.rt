//! What a node answers to a command.

/// What a node answers to a command that was asked from outside.
#[derive(Clone, Copy, PartialEq, Eq)]
pub enum AskAnswer {
    /// The command was accepted as this request of the node.
    Asked(u64),
    /// The node refused it: 60 where 64 commands wait, 62 where every position or number is used.
    Refused(u8),
    /// No answer came. The command may have been accepted.
    NoAnswer,
}
