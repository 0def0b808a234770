use px_packet::{Arrival, Header, Kind, Peer, Start};
use std::panic::Expect;

const MINE: Start = Start {
    number: 4,
    salt: 40,
};

/// An earlier start of the receiver.
const EARLIER: Start = Start {
    number: 3,
    salt: 30,
};

/// The start of the sender.
const KNOWN: Start = Start {
    number: 2,
    salt: 20,
};

/// A packet: its start's number and salt, for which start of the receiver it is, its kind and its counter; and whether
/// it is accepted.
type Row = (u32, u32, Start, Kind, u64, Arrival);

/// Packets of one start.
static OF_ONE_START: [Row; 6] = [
    (2, 20, MINE, Kind::Whole, 5, Arrival::Accepted),
    (2, 20, MINE, Kind::Whole, 5, Arrival::Repeated),
    (2, 20, MINE, Kind::Whole, 3, Arrival::Accepted),
    (2, 20, MINE, Kind::Whole, 2_051, Arrival::Accepted),
    (2, 20, MINE, Kind::Whole, 3, Arrival::Repeated),
    (2, 20, MINE, Kind::Whole, 4, Arrival::Accepted),
];

/// Packets for an earlier start.
static FOR_EARLIER: [Row; 2] = [
    (2, 20, EARLIER, Kind::Piece, 1, Arrival::OtherEcho),
    (2, 20, EARLIER, Kind::State, 1, Arrival::Accepted),
];

/// Packets of other starts, behind those.
static OF_OTHERS: [Row; 3] = [
    (2, 21, MINE, Kind::Whole, 2, Arrival::OtherMachine),
    (1, 10, MINE, Kind::Whole, 2, Arrival::OldStart),
    (5, 50, MINE, Kind::Whole, 1, Arrival::Accepted),
];

/// Whether the packet is taken so.
fn is_accepted(peer: &mut Peer, row: &Row) -> bool {
    let (number, salt, echo, kind, counter, wanted) = *row;
    let header = Header {
        cluster: 7,
        members: 3,
        from: 0,
        to: 1,
        kind,
        start: Start { number, salt },
        echo,
        counter,
    };
    peer.take(MINE, &header) == wanted
}

/// Whether each of the packets is taken so, one after the other.
fn are_accepted(peer: &mut Peer, rows: &[Row]) -> bool {
    for row in rows {
        if !is_accepted(peer, row) {
            return false;
        }
    }
    true
}

#[test]
fn a_packet_is_accepted_once(rt: HostRuntime) {
    let mut peer = Peer::new(rt.alloc(), Start::NEVER).expect(&rt, "memory");
    assert!(rt; are_accepted(&mut peer, &OF_ONE_START));
}

#[test]
fn a_packet_of_another_start_is_not_accepted(rt: HostRuntime) {
    let mut peer = Peer::new(rt.alloc(), Start::NEVER).expect(&rt, "memory");
    assert!(rt; are_accepted(&mut peer, &FOR_EARLIER) && peer.start() == KNOWN);
    assert!(rt; are_accepted(&mut peer, &OF_OTHERS));
}
