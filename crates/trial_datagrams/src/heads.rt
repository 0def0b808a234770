//! The heads of datagrams.
use crate::bytes::{
    ACCEPT, ASK, ASK_REFUSED, ASKED, LEARNED, NACK, NEED, PREPARE, PREPARE_ALL, PROMISE,
    PROMISE_ALL, VOTE,
};
use crate::party::joined;
use px_wire::{Head, Kind};
use std::alloc::Global;

/// A datagram, and its head: from whom it is, for whom and of which kind, its ballot, position and number.
type Row = (
    &'static [u8],
    u8,
    u8,
    Kind,
    Option<u64>,
    Option<u32>,
    Option<u64>,
);

static HEADS: [Row; 12] = [
    (PREPARE, 0, 1, Kind::Prepare, Some(256), Some(0), None),
    (PROMISE, 1, 0, Kind::Promise, Some(512), Some(5), None),
    (ACCEPT, 0, 1, Kind::Accept, Some(256), Some(5), None),
    (VOTE, 2, 1, Kind::Vote, Some(256), Some(5), None),
    (NACK, 1, 0, Kind::Nack, Some(256), Some(5), None),
    (
        PREPARE_ALL,
        0,
        1,
        Kind::PrepareAll,
        Some(256),
        Some(0),
        None,
    ),
    (
        PROMISE_ALL,
        1,
        0,
        Kind::PromiseAll,
        Some(256),
        Some(0),
        None,
    ),
    (NEED, 2, 0, Kind::Need, None, Some(5), None),
    (LEARNED, 2, 0, Kind::Learned, None, Some(5), None),
    (ASK, 255, 0, Kind::Ask, None, None, None),
    (ASKED, 0, 255, Kind::Asked, None, None, Some(4)),
    (ASK_REFUSED, 0, 255, Kind::AskRefused, None, None, None),
];

/// Whether the datagram has that head.
fn has_head(row: &Row) -> bool {
    let (bytes, from, to, kind, ballot, position, number) = *row;
    let head = Head {
        from,
        to,
        kind,
        ballot,
        position,
        number,
    };
    Head::read(bytes) == Some(head)
}

#[test]
fn a_head_has_what_the_message_has(rt: HostRuntime) {
    for row in &HEADS {
        assert!(rt; has_head(row));
    }
}

/// Whether the bytes have this head with others behind them.
fn has_before_a_tag(alloc: Global, bytes: &[u8], head: Option<Head>) -> bool {
    match joined(alloc, bytes, b"a tag") {
        Ok(long) => Head::read(long.as_slice()) == head,
        Err(_) => false,
    }
}

/// Whether the bytes have the same head with others behind them, and none where the last one of it is missing.
fn ends_there(alloc: Global, row: &(&[u8], usize)) -> bool {
    let (bytes, end) = *row;
    let head = Head::read(bytes);
    let (front, _) = bytes.split_at(end.min(bytes.len()));
    let (short, _) = front.split_at(front.len().saturating_sub(1));
    let is_end = Head::read(front) == head && Head::read(short).is_none();
    head.is_some() && is_end && has_before_a_tag(alloc, bytes, head)
}

/// Where the head of a datagram ends.
static ENDS: [(&[u8], usize); 4] = [(VOTE, 25), (LEARNED, 17), (ASKED, 29), (ASK, 13)];

/// Another format, another version and a thirteenth kind.
static NO_HEADS: [&[u8]; 3] = [
    b"PFXS\x01\0\0\0\x07\x03\xff\0\x08",
    b"PFXR\x02\0\0\0\x07\x03\xff\0\x08",
    b"PFXR\x01\0\0\0\x07\x03\xff\0\x0d",
];

#[test]
fn a_head_ends_before_the_entry(rt: HostRuntime) {
    for row in &ENDS {
        assert!(rt; ends_there(rt.alloc(), row));
    }
    for bytes in &NO_HEADS {
        assert!(rt; Head::read(bytes).is_none());
    }
}
