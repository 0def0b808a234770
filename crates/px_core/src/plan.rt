//! What a step gives, before any of it is done.
ghost use Rattle.std.specs.Prelude.{◌≡◌, None};

use px_model::{Change, Entry, Message, Proposal};
use std::alloc::AllocError;
use thiserror::Error;

/// A proposal that was accepted or reported, if there is one.
pub(crate) type Reported = Option<Proposal<Entry>>;

/// A plan, unless out of memory.
pub(crate) type PlanResult = Result<Plan, AllocError>;

/// Phase 1: who promised, the greatest top reported, the reported proposal of highest ballot. Phase 2: the entry
/// proposed.
///
/// Source: Paxos Made Simple, 2.2.
#[derive(Drop)]
pub enum Phase {
    Preparing([bool; 15], u32, Option<Proposal<Entry>>),
    Accepting(Entry),
}

/// A proposer's attempt to have an entry chosen at a position.
#[derive(Drop)]
pub struct Attempt {
    pub position: u32,
    pub ballot: u64,
    pub phase: Phase,
}

/// A ballot that a majority promised at all positions, and the first position that it may be used at.
#[derive(Clone, Copy)]
pub struct Lead {
    pub ballot: u64,
    pub from: u32,
}

/// What a plan makes of the volatile part, and of what is learned.
#[derive(Drop)]
pub enum Next {
    Same,
    /// An entry waits behind the others.
    Waits(Entry),
    /// A promise is counted.
    Counts(Attempt),
    /// Attempt and lead are these.
    Leads(Option<Attempt>, Option<Lead>),
    /// Attempt and lead are dropped where these are true, and this is the highest round heard of.
    Drops(bool, bool, u64),
    /// At a position a member's vote is kept, which is for this ballot.
    Keeps(u32, u8, u64),
    /// At a position an entry is learned.
    Learns(u32, Entry),
    /// At a position a member's vote for this ballot is kept, and by it an entry is learned.
    KeepsLearns(u32, u8, u64, Entry),
}

/// What is sent.
#[derive(Drop)]
pub enum Sends {
    /// Nothing.
    Nothing,
    /// A message to one: the member, or 255 for a client.
    One(u8, Message<Entry>),
    /// One message to every member, in the order of their numbers, the sender among them.
    All(Message<Entry>),
}

/// What a member does: it commits the change, if there is one, settles, and only then sends.
#[derive(Drop)]
pub struct Plan {
    /// The change of the record.
    pub change: Option<Change>,
    /// What is sent.
    pub sends: Sends,
    pub(crate) next: Next,
}

impl Plan {
    /// The plan of these parts.
    pub(crate) fn new(change: Option<Change>, sends: Sends, next: Next) -> Plan
        ensures { result ≡ record { change = change; sends = sends; next = next } }
    {
        Plan {
            change,
            sends,
            next,
        }
    }

    /// Nothing is done.
    pub(crate) fn idle() -> Plan
        ensures { result ≡ record { change = None; sends = Sends.Nothing; next = Next.Same } }
    {
        Plan::new(None, Sends::Nothing, Next::Same)
    }
}

/// Why there is no plan. All is as it was. What is shown of a refusal is its number.
#[derive(Debug, Drop, Error)]
pub enum CoreFault {
    /// 64 entries wait.
    #[error("60")]
    Full,
    /// Every round is used.
    #[error("61")]
    BallotsSpent,
    /// Every position is learned, or every number is used.
    #[error("62")]
    PositionsSpent,
    /// Out of memory. Only an event that isn't refused can meet it.
    #[error("memory")]
    Memory,
}

ghost use Rattle.px_core.specs.declared.plan.CoreFault.TheVariants.{Memory};

impl From<AllocError> for CoreFault {
    ghost from_gives = { λ _ e. e ≡ Memory };

    fn from(_: AllocError) -> CoreFault {
        CoreFault::Memory
    }
}
