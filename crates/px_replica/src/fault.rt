//! Why a call of a node is refused.

ghost use Rattle.std.specs.Prelude.{◌≡◌};
ghost use Rattle.px_replica.specs.Codes.{node_fault_code};

use thiserror::Error;

/// Why a call of a node is refused. What is shown of a refusal is its number.
#[derive(Clone, Copy, Debug, PartialEq, Eq, Error)]
pub enum NodeFault {
    /// Out of memory. The record, the volatile part and what is to be sent are as they were.
    #[error("memory")]
    Memory,
    /// 41: no entry of the command has a spelling.
    #[error("41")]
    TooLong,
    /// 60: 64 entries wait.
    #[error("60")]
    Full,
    /// 61: every round is used.
    #[error("61")]
    BallotsSpent,
    /// 62: every position is learned, or every number is used.
    #[error("62")]
    PositionsSpent,
    /// 70: the store has failed. The node is failed from then on.
    #[error("70")]
    Store,
    /// 72: the store holds a bad row. The node is failed from then on.
    #[error("72")]
    BadStore,
    /// 80: the node has failed before.
    #[error("80")]
    Failed,
}

impl NodeFault {
    /// The number of the refusal; none when out of memory.
    pub fn code(self) -> Option<u8>
        ensures { result ≡ node_fault_code self }
    {
        match self {
            NodeFault::Memory => None,
            NodeFault::TooLong => Some(41),
            NodeFault::Full => Some(60),
            NodeFault::BallotsSpent => Some(61),
            NodeFault::PositionsSpent => Some(62),
            NodeFault::Store => Some(70),
            NodeFault::BadStore => Some(72),
            NodeFault::Failed => Some(80),
        }
    }
}
