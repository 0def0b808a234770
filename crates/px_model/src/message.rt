//! What a member receives, and what it sends.
use crate::entry::EntryView;
use crate::record::Proposal;

/// A message. `E` is how it holds an entry: an [`EntryView`] as it comes, an [`Entry`](crate::Entry) as it is sent. A
/// variant has its parts in the order in which its line names them. Ballots are `round * 256 + member`, positions below
/// 1,000,000, numbers and tokens below 2^48.
///
/// Source: Paxos Made Simple, 2.2, 2.3 and 3; the last three are this project's own.
pub enum Message<E> {
    /// A prepare request for one position: the sender's ballot, the position.
    Prepare(u64, u32),
    /// A promise for one position: the ballot of the request, the position, the sender's accepted proposal there.
    Promise(u64, u32, Option<Proposal<E>>),
    /// A prepare request for all positions: the sender's ballot, and where the sender has an entry to propose.
    PrepareAll(u64, u32),
    /// A promise for all positions: the ballot of the request, its position, from where on the sender has accepted
    /// nothing, at most 1,000,000, and its accepted proposal at the position.
    PromiseAll(u64, u32, u32, Option<Proposal<E>>),
    /// A proposal, to be accepted: the sender's ballot, the position, the entry proposed.
    Accept(u64, u32, E),
    /// The sender has accepted a proposal: its ballot, the position, the entry.
    Vote(u64, u32, E),
    /// A request is refused, since a ballot not below it is promised: the ballot of the request, its position, the
    /// ballot promised.
    Nack(u64, u32, u64),
    /// What was learned at a position is asked for.
    Need(u32),
    /// An entry was chosen: the position, the entry.
    Learned(u32, E),
    /// A command is asked from outside. The entry's number is the client's token.
    Ask(E),
    /// A command was accepted: the client's token, the number that the entry got.
    Asked(u64, u64),
    /// A command was refused: the client's token, and 60 or 62.
    AskRefused(u64, u8),
}

impl<E: Drop> Drop for Message<E> {
    fn drop(self) {
        match self {
            Message::Prepare(_, _) => {}
            Message::Promise(_, _, _) => {}
            Message::PrepareAll(_, _) => {}
            Message::PromiseAll(_, _, _, _) => {}
            Message::Accept(_, _, _) => {}
            Message::Vote(_, _, _) => {}
            Message::Nack(_, _, _) => {}
            Message::Need(_) => {}
            Message::Learned(_, _) => {}
            Message::Ask(_) => {}
            Message::Asked(_, _) => {}
            Message::AskRefused(_, _) => {}
        }
    }
}

/// What a member takes a step on.
#[derive(Drop)]
pub enum Event<'a> {
    /// A command is asked by a call. Of the entry only the command counts: the member gives it origin and number.
    Asks(EntryView<'a>),
    /// The clock ticks.
    Ticks,
    /// A message comes, from the member that sent it, or from 255, somebody outside.
    Comes(u8, Message<EntryView<'a>>),
}

/// What a step reads of the record beside its numbers.
#[derive(Clone, Copy)]
pub enum Reads {
    /// No slot and no top.
    Nothing,
    /// The slot of one position.
    Slot(u32),
    /// The slot of one position, and the top of all slots.
    SlotAndTop(u32),
}
