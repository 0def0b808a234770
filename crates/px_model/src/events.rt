//! Messages lent as they come, and what an event reads of the record.
ghost use Rattle.std.specs.Prelude.{◌≡◌, option_map};
ghost use Rattle.px_model.specs.Seen.{message_of, come_of, input_of, proposal_of, report_of, message_reads, reads_of};

use crate::entry::{Entry, EntryView};
use crate::message::{Event, Message, Reads};
use crate::record::Proposal;

/// The proposal with its entry lent.
fn lent(accepted: &Option<Proposal<Entry>>) -> Option<Proposal<EntryView<'_>>>
    ensures { option_map report_of result ≡ option_map proposal_of accepted.now }
{
    match accepted {
        None => None,
        Some(proposal) => Some(Proposal {
            ballot: proposal.ballot,
            entry: proposal.entry.view(),
        }),
    }
}

impl Message<Entry> {
    /// The message as its recipient gets it, its entry borrowed.
    pub fn view(&self) -> Message<EntryView<'_>>
        ensures { come_of result ≡ message_of self.now }
    {
        match self {
            Message::Prepare(ballot, position) => Message::Prepare(*ballot, *position),
            Message::Promise(ballot, position, accepted) => Message::Promise(
                *ballot,
                *position,
                lent(accepted),
            ),
            Message::PrepareAll(ballot, position) => Message::PrepareAll(*ballot, *position),
            Message::PromiseAll(ballot, position, top, accepted) => Message::PromiseAll(
                *ballot,
                *position,
                *top,
                lent(accepted),
            ),
            Message::Accept(ballot, position, entry) => Message::Accept(
                *ballot,
                *position,
                entry.view(),
            ),
            Message::Vote(ballot, position, entry) => Message::Vote(
                *ballot,
                *position,
                entry.view(),
            ),
            Message::Nack(ballot, position, promised) => Message::Nack(
                *ballot, *position, *promised,
            ),
            Message::Need(position) => Message::Need(*position),
            Message::Learned(position, entry) => Message::Learned(*position, entry.view()),
            Message::Ask(entry) => Message::Ask(entry.view()),
            Message::Asked(token, number) => Message::Asked(*token, *number),
            Message::AskRefused(token, code) => Message::AskRefused(*token, *code),
        }
    }
}

impl Event<'_> {
    /// What a step on this event reads of the record beside its numbers. What it doesn't read may be anything
    /// ([`laws::reads_suffice`](crate::laws::reads_suffice)).
    pub fn reads(&self) -> Reads
        ensures { result ≡ reads_of (input_of self.now) }
    {
        match self {
            Event::Comes(_, Message::Prepare(_, position) | Message::Accept(_, position, _)) =>
                Reads::Slot(*position),
            Event::Comes(_, Message::PrepareAll(_, position)) => Reads::SlotAndTop(*position),
            _ => Reads::Nothing,
        }
    }
}
