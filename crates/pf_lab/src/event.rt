//! The events of a lab, as values.

use pf_node::Command;
use thiserror::Error;

/// What a member receives.
#[derive(Drop)]
pub enum LabAction {
    /// A command is asked of the member by a call.
    Ask(u8, Command),
    /// The member's clock ticks.
    Tick(u8),
    /// The message of this number is delivered to its addressee. Messages between members are numbered from 0 in the
    /// order in which they were sent.
    Deliver(usize),
}

/// An event. A member that stops loses all but its record, and the messages of the action.
#[derive(Drop)]
pub enum LabEvent {
    /// The action happens.
    Runs(LabAction),
    /// The member stops before the action changes anything.
    StopBefore(LabAction),
    /// The member stops after the action's change of the record.
    StopAfter(LabAction),
    /// The member starts anew with its record, stopped or not.
    Restart(u8),
}

/// What became of an event.
#[derive(Clone, Copy, PartialEq, Eq)]
pub enum Outcome {
    /// Nothing that is shown.
    Nothing,
    /// A command was accepted; its number at the member.
    Asked(u64),
    /// The number of a refusal: 41, 60 or 62 of an ask, 61 of a tick.
    Refused(u8),
    /// The member is stopped: nothing happened.
    Stopped,
}

/// What became of an event, or why it doesn't happen.
pub(crate) type Stepped = Result<Outcome, LabFault>;

/// Why an event doesn't happen. The lab is the same world as before.
#[derive(Clone, Copy, Debug, PartialEq, Eq, Error)]
pub enum LabFault {
    /// Out of memory.
    #[error("memory")]
    Memory,
    /// 81: the event names no member, or no message that was sent.
    #[error("81")]
    BadEvent,
}
