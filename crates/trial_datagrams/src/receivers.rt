use crate::pieces::piece_of;
use px_packet::{Arrival, Header, Kind, PiecesHeld, Start};
use px_transport::{PacketOutcome, Receiver};
use std::panic::Expect;

const MINE: Start = Start {
    number: 4,
    salt: 40,
};

/// A datagram of two pieces.
static ZEROS: [u8; 1_161] = [0; 1_161];

/// A packet of a start of member 0 for this start of member 1.
fn packet(number: u32, kind: Kind, counter: u64) -> Header {
    Header {
        cluster: 7,
        members: 3,
        from: 0,
        to: 1,
        kind,
        start: Start { number, salt: 20 },
        echo: MINE,
        counter,
    }
}

/// Whether the body is given.
fn is_whole(receiver: &mut Receiver, header: &Header, body: &[u8]) -> bool {
    match receiver.take(header, body, 0) {
        PacketOutcome::Whole(given) => given == body,
        _ => false,
    }
}

/// Whether it was accepted before.
fn is_repeated(receiver: &mut Receiver, header: &Header, body: &[u8]) -> bool {
    match receiver.take(header, body, 1) {
        PacketOutcome::Dropped(arrival) => arrival == Arrival::Repeated,
        _ => false,
    }
}

/// Whether member 2, and 3, which is none, were never heard.
fn knows_no_other(receiver: &Receiver) -> bool {
    receiver.start_of(2) == Start::NEVER && receiver.start_of(3) == Start::NEVER
}

#[test]
fn a_datagram_is_given_once(rt: HostRuntime) {
    let mut receiver = Receiver::new(rt.alloc(), 3, MINE).expect(&rt, "memory");
    let header = packet(2, Kind::Whole, 1);
    assert!(rt; receiver.start() == MINE && receiver.start_of(0) == Start::NEVER);
    assert!(rt;
        is_whole(&mut receiver, &header, b"ab") && is_repeated(&mut receiver, &header, b"ab")
    );
    assert!(rt; receiver.start_of(0) == header.start && knows_no_other(&receiver));
}

/// Whether the piece is kept, and nothing given.
fn is_kept(receiver: &mut Receiver, header: &Header, piece: &[u8], now: u64) -> bool {
    matches!(receiver.take(header, piece, now), PacketOutcome::Nothing)
}

/// Whether the zeros are given.
fn is_joined(receiver: &mut Receiver, header: &Header, piece: &[u8], now: u64) -> bool {
    match receiver.take(header, piece, now) {
        PacketOutcome::Joined(datagram) => datagram.as_slice() == ZEROS.as_slice(),
        _ => false,
    }
}

/// Whether it is reported at 105, and then due at 155, that the last piece was kept.
fn is_reported(receiver: &mut Receiver) -> bool {
    let is_due = receiver.due() == Some(105) && receiver.report(1, 105).is_none();
    let is_held = receiver.report(0, 105) == Some(PiecesHeld { name: 9, bits: 2 });
    is_due && is_held && receiver.due() == Some(155)
}

#[test]
fn a_datagram_is_given_with_its_last_piece(rt: HostRuntime) {
    let mut receiver = Receiver::new(rt.alloc(), 3, MINE).expect(&rt, "memory");
    let last = piece_of(rt.alloc(), 9, &ZEROS, 1).expect(&rt, "memory");
    let first = piece_of(rt.alloc(), 9, &ZEROS, 0).expect(&rt, "memory");
    let is_kept = is_kept(&mut receiver, &packet(2, Kind::Piece, 1), &last, 100);
    assert!(rt; is_kept && is_reported(&mut receiver));
    assert!(rt; is_joined(&mut receiver, &packet(2, Kind::Piece, 2), &first, 130));
}

#[test]
fn a_start_anew_begins_without_pieces(rt: HostRuntime) {
    let mut receiver = Receiver::new(rt.alloc(), 3, MINE).expect(&rt, "memory");
    let last = piece_of(rt.alloc(), 9, &ZEROS, 1).expect(&rt, "memory");
    let first = piece_of(rt.alloc(), 9, &ZEROS, 0).expect(&rt, "memory");
    assert!(rt;
        is_kept(&mut receiver, &packet(2, Kind::Piece, 1), &last, 100)
            && is_kept(&mut receiver, &packet(3, Kind::Piece, 1), &first, 110)
    );
    assert!(rt; receiver.report(0, 130) == Some(PiecesHeld { name: 9, bits: 1 }));
}

/// Whether it is given which pieces the sender of the packet has.
fn is_held(receiver: &mut Receiver, header: &Header, body: &[u8], wanted: PiecesHeld) -> bool {
    match receiver.take(header, body, 0) {
        PacketOutcome::Held(held) => held == wanted,
        _ => false,
    }
}

#[test]
fn pieces_held_are_given(rt: HostRuntime) {
    let mut receiver = Receiver::new(rt.alloc(), 3, MINE).expect(&rt, "memory");
    let header = packet(2, Kind::PiecesHeld, 1);
    let body = [0, 0, 0, 9, 0, 0, 0, 2];
    assert!(rt;
        is_held(
            &mut receiver,
            &header,
            &body,
            PiecesHeld { name: 9, bits: 2 }
        )
    );
}
