//! Single datagrams, and the first fault of others.
use crate::bytes::{ACCEPT, ASK, NEED, PREPARE, PREPARE_ALL, PROMISE, PROMISE_ALL, VOTE};
use crate::kinds::{self, is_read};
use crate::party::{changed, is_refused, party, written_again};
use px_wire::{Ballot, Entry, Membership, Message, address, decode, encode_sent};
use std::alloc::Global;
use std::panic::Expect;

/// A reader, a datagram, a place in it and other bytes that are put there, and by which code it is then refused, and
/// where.
type Row = (u8, &'static [u8], usize, &'static [u8], u8, usize);

/// Whether it is refused so.
fn has_fault(alloc: Global, row: &Row) -> bool {
    let (me, bytes, at, put, code, offset) = *row;
    let Some(reader) = party(me) else {
        return false;
    };
    match changed(alloc, bytes, at, put) {
        Ok(other) => is_refused(&reader, &other, code, offset),
        Err(_) => false,
    }
}

/// A Prepare of member 0 for its first round and the first position.
static PREPARED: kinds::Row = (1, PREPARE, 0, [1, 256, 0, 0], None);

static NO_KIND: Row = (1, PREPARE, 12, &[13], 55, 12);

#[test]
fn a_datagram_vector(rt: HostRuntime) {
    let reader = party(1).expect(&rt, "a member");
    assert!(rt; is_read(&PREPARED) && has_fault(rt.alloc(), &NO_KIND));
    assert!(rt; is_refused(&reader, &PREPARE[..20], 50, 13) && is_refused(&reader, &[], 50, 0));
}

/// A Need of member 2 for position 5.
static NEEDED: kinds::Row = (0, NEED, 2, [6, 5, 0, 0], None);

static NO_NEEDS: [Row; 3] = [
    (0, NEED, 9, &[4], 54, 9),
    (0, NEED, 10, &[3], 54, 10),
    (0, NEED, 14, &[0x0f, 0x42, 0x40], 57, 13),
];

#[test]
fn a_need_and_its_faults(rt: HostRuntime) {
    let reader = party(0).expect(&rt, "a member");
    assert!(rt; is_read(&NEEDED) && is_refused(&reader, &NEED[..16], 50, 13));
    for row in &NO_NEEDS {
        assert!(rt; has_fault(rt.alloc(), row));
    }
}

/// A PrepareAll of member 0 for its first round and the first position.
static PREPARED_ALL: kinds::Row = (1, PREPARE_ALL, 0, [11, 256, 0, 0], None);

static NO_TOP: Row = (0, PROMISE_ALL, 26, &[0x0f, 0x42, 0x41], 57, 25);

#[test]
fn one_prepare_for_all_positions(rt: HostRuntime) {
    assert!(rt; is_read(&PREPARED_ALL) && has_fault(rt.alloc(), &NO_TOP));
}

static NO_VALUES: [Row; 7] = [
    (1, ACCEPT, 19, &[0], 57, 13),
    (1, ACCEPT, 20, &[2], 57, 13),
    (0, PROMISE, 31, &[2], 57, 25),
    (1, VOTE, 30, &[3], 57, 29),
    (0, ASK, 18, &[0], 57, 17),
    (1, VOTE, 28, &[26], 50, 29),
    (1, VOTE, 28, &[24], 57, 29),
];

#[test]
fn values_that_are_not_allowed(rt: HostRuntime) {
    for row in &NO_VALUES {
        assert!(rt; has_fault(rt.alloc(), row));
    }
}

/// Whether the bytes are to this member of fifteen, an Accept of member 0 for position 5.
fn is_accept(to: u8, bytes: &[u8]) -> bool {
    match Membership::new(7, 15, to) {
        Some(reader) => matches!(decode(&reader, bytes), Ok((0, Message::Accept(_, 5, ..)))),
        None => false,
    }
}

/// Whether the bytes, addressed to member `to`, are those written by hand for it.
fn is_addressed(to: u8, bytes: &mut [u8], by_hand: &mut [u8]) -> bool {
    if bytes.len() > 11 {
        address(bytes, to);
    }
    if let Some(addressee) = by_hand.get_mut(11) {
        *addressee = to;
    }
    *bytes == *by_hand && is_accept(to, bytes)
}

#[test]
fn one_encoding_for_fifteen_members(rt: HostRuntime) {
    let mut by_hand = changed(rt.alloc(), ACCEPT, 9, &[15]).expect(&rt, "memory");
    let reader = Membership::new(7, 15, 1).expect(&rt, "a member");
    let mut bytes = written_again(rt.alloc(), &reader, &by_hand).expect(&rt, "a datagram");
    for to in 0..15u8 {
        assert!(rt; is_addressed(to, &mut bytes, &mut by_hand));
    }
}

#[test]
fn a_member_sends_a_need(rt: HostRuntime) {
    let m = Membership::new(7, 3, 2).expect(&rt, "a member");
    let message: Message<Entry> = Message::Need(5);
    let encoded = encode_sent(rt.alloc(), &m, 0, &message);
    drop(message);
    let bytes = encoded.expect(&rt, "memory");
    assert!(rt; bytes.as_slice() == NEED);
}

#[test]
fn a_ballot_is_one_number(rt: HostRuntime) {
    let ballot = Ballot { round: 1, node: 0 };
    assert!(rt; ballot.number() == 256 && Ballot::from_number(256) == Some(ballot));
    assert!(rt;
        Ballot::from_number(255).is_none() && Ballot::from_number(0x0100_0000_0000_0000).is_none()
    );
}
