//! One datagram of each kind.
use crate::bytes::{
    ACCEPT, ADD, ASK, ASK_REFUSED, ASKED, LEARNED, NACK, NEED, PREPARE, PREPARE_ALL, PROMISE,
    PROMISE_ALL, VOTE,
};
use crate::party::{is_written, party};
use px_wire::{EntryView, Message, MessageView, Proposal, decode};
use std::alloc::Global;

/// A datagram of each kind, and for whom it is.
static EACH_KIND: [(u8, &[u8]); 12] = [
    (1, PREPARE),
    (0, PROMISE),
    (1, ACCEPT),
    (1, VOTE),
    (0, NACK),
    (0, NEED),
    (0, LEARNED),
    (0, ASK),
    (255, ASKED),
    (255, ASK_REFUSED),
    (1, PREPARE_ALL),
    (0, PROMISE_ALL),
];

/// Whether it is written as it was read.
fn is_written_for(alloc: Global, row: &(u8, &[u8])) -> bool {
    let (to, bytes) = *row;
    match party(to) {
        Some(reader) => is_written(alloc, &reader, bytes),
        None => false,
    }
}

#[test]
fn each_kind_is_written_as_it_was_read(rt: HostRuntime) {
    for row in &EACH_KIND {
        assert!(rt; is_written_for(rt.alloc(), row));
    }
}

/// An entry's origin, its number and its bytes.
type Entry = (u8, u64, &'static [u8]);

/// For whom a datagram is, its bytes, from whom it is, its kind and the numbers in it, and the entry in it.
pub type Row = (u8, &'static [u8], u8, [u64; 4], Option<Entry>);

/// The ballot in which an entry was accepted, or 0.
fn ballot_of(accepted: &Option<Proposal<EntryView>>) -> u64 {
    match accepted {
        Some(proposal) => proposal.ballot,
        None => 0,
    }
}

/// The number of a message's kind, as a datagram has it, and the numbers in the message.
fn numbers_of(message: &MessageView) -> [u64; 4] {
    match message {
        Message::Prepare(ballot, position) => [1, *ballot, u64::from(*position), 0],
        Message::Promise(ballot, position, accepted) => [
            2,
            *ballot,
            u64::from(*position),
            ballot_of(accepted),
        ],
        Message::Accept(ballot, position, ..) => [3, *ballot, u64::from(*position), 0],
        Message::Vote(ballot, position, ..) => [4, *ballot, u64::from(*position), 0],
        Message::Nack(ballot, position, promised) => [5, *ballot, u64::from(*position), *promised],
        Message::Need(position) => [6, u64::from(*position), 0, 0],
        Message::Learned(position, ..) => [7, u64::from(*position), 0, 0],
        Message::Ask(..) => [8, 0, 0, 0],
        Message::Asked(token, number) => [9, *token, *number, 0],
        Message::AskRefused(token, code) => [10, *token, u64::from(*code), 0],
        Message::PrepareAll(ballot, position) => [11, *ballot, u64::from(*position), 0],
        Message::PromiseAll(ballot, position, top, ..) => [
            12,
            *ballot,
            u64::from(*position),
            u64::from(*top),
        ],
    }
}

/// Whether it is that entry.
fn is_entry(entry: &EntryView, wanted: Option<Entry>) -> bool {
    match wanted {
        Some((origin, number, bytes)) => {
            entry.origin() == origin && entry.number() == number && entry.bytes() == bytes
        }
        None => false,
    }
}

/// Whether that entry is in the message, or none.
fn has_entry(message: &MessageView, wanted: Option<Entry>) -> bool {
    match message {
        Message::Accept(_, _, entry)
        | Message::Vote(_, _, entry)
        | Message::Learned(_, entry)
        | Message::Ask(entry) => is_entry(entry, wanted),
        Message::Promise(_, _, Some(proposal)) | Message::PromiseAll(_, _, _, Some(proposal)) =>
            is_entry(&proposal.entry, wanted),
        _ => wanted.is_none(),
    }
}

/// Whether the datagram is read so.
pub fn is_read(row: &Row) -> bool {
    let (to, bytes, sender, numbers, entry) = *row;
    let Some(reader) = party(to) else {
        return false;
    };
    match decode(&reader, bytes) {
        Ok((from, message)) => {
            from == sender && numbers_of(&message) == numbers && has_entry(&message, entry)
        }
        Err(_) => false,
    }
}

/// A Promise of member 1 for round 2 of 0 at position 5: it accepted the entry of [`ADD`] in round 1 of 1.
static PROMISED: Row = (0, PROMISE, 1, [2, 512, 5, 257], Some((0, 0, ADD)));

#[test]
fn a_promise_reports_what_was_accepted(rt: HostRuntime) {
    assert!(rt; is_read(&PROMISED));
}

/// The entry of [`ADD`] at position 5: an Accept and a Vote for round 1 of 0, and what was learned.
static WITH_ENTRIES: [Row; 3] = [
    (1, ACCEPT, 0, [3, 256, 5, 0], Some((0, 0, ADD))),
    (1, VOTE, 2, [4, 256, 5, 0], Some((0, 0, ADD))),
    (0, LEARNED, 2, [7, 5, 0, 0], Some((0, 0, ADD))),
];

#[test]
fn entries_of_proposals_votes_and_tellings(rt: HostRuntime) {
    for row in &WITH_ENTRIES {
        assert!(rt; is_read(row));
    }
}

/// A Nack of member 1 for round 1 of 0 at position 5, which has promised round 2 of 1.
static REFUSED: Row = (0, NACK, 1, [5, 256, 5, 513], None);

/// A PromiseAll of member 1 for round 1 of 0 and the first position, with nothing accepted.
static PROMISED_ALL: Row = (0, PROMISE_ALL, 1, [12, 256, 0, 0], None);

#[test]
fn a_nack_and_a_promise_of_all_positions(rt: HostRuntime) {
    assert!(rt; is_read(&REFUSED) && is_read(&PROMISED_ALL));
}

/// The entry of [`ASK`].
const ASKED_ENTRY: &[u8] = b"\x01\xff\0\0\0\0\0\0\0\x09\x05\0\x03bad\0\x01\0\x04\x20\x0a\0\0\x01";

/// An Ask of 255 with token 9, which member 0 accepted as number 4, or refuses by 60.
static OF_CLIENTS: [Row; 3] = [
    (0, ASK, 255, [8, 0, 0, 0], Some((255, 9, ASKED_ENTRY))),
    (255, ASKED, 0, [9, 9, 4, 0], None),
    (255, ASK_REFUSED, 0, [10, 9, 60, 0], None),
];

#[test]
fn clients_and_their_answers(rt: HostRuntime) {
    for row in &OF_CLIENTS {
        assert!(rt; is_read(row));
    }
}
