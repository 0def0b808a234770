//! A wire of packets counts its time from when it was made, however long that is ago, and sends however many.

use crate::bench::Bench;
use crate::sockets::waited;
use node_udp::UdpWire;
use px_packet::{PacketKeys, Start};
use px_transport::{MemoryWire, PacketWire, Wire};
use std::alloc::AllocError;
use std::cell::Cell;
use std::panic::Expect;

/// What the clock reads when the wire is made, in milliseconds.
const BEGAN: u64 = 5_000;

/// When a member of two polls, in milliseconds since its wire was made, and whether it then sends the other its state:
/// at once, and a second or more after the last time.
static POLLS: [(u64, bool); 5] = [
    (0, true),
    (999, false),
    (1_000, true),
    (1_999, false),
    (2_000, true),
];

/// How many packets the wire sent.
fn sent(wire: &PacketWire<MemoryWire, Bench>) -> Option<usize> {
    let sent = wire.inner().sent()?;
    Some(sent.len())
}

/// Whether a poll at this time sends a packet, or none.
fn polls(
    wire: &mut PacketWire<MemoryWire, Bench>,
    now: &Cell<u64>,
    row: &(u64, bool),
) -> Option<bool> {
    let before = sent(wire)?;
    now.set(BEGAN.saturating_add(row.0));
    let mut room = [0u8; 20];
    let came = wire.poll(&mut room);
    Some(came.is_none() && sent(wire)? == before.saturating_add(usize::from(row.1)))
}

/// The wire of the first member of two, over one that keeps what is sent.
fn wire_of<'a>(
    rt: HostRuntime,
    now: &'a Cell<u64>,
) -> Result<PacketWire<MemoryWire, Bench<'a>>, AllocError> {
    let bench = Bench {
        rt,
        now,
        step: Some(0),
    };
    let start = Start { number: 1, salt: 2 };
    let keys = PacketKeys::new(&[7; 32], None);
    let below = MemoryWire::new(rt.alloc(), Vec::new(rt.alloc()));
    PacketWire::new(rt.alloc(), below, bench, keys, 7, 2, 0, start)
}

#[test]
fn a_state_is_sent_each_second_after_years_too(rt: HostRuntime) {
    let now = Cell::new(BEGAN);
    let mut wire = wire_of(rt, &now).expect(&rt, "memory");
    for row in &POLLS {
        assert!(rt; polls(&mut wire, &now, row) == Some(true));
    }
    for doublings in 12..50u32 {
        let time = 2u64.saturating_pow(doublings);
        assert!(rt; polls(&mut wire, &now, &(time, true)) == Some(true));
        assert!(rt; polls(&mut wire, &now, &(time.saturating_add(999), false)) == Some(true));
    }
}

/// Whether this number of datagrams for the other member is sent, each as a packet.
fn sends(wire: &mut PacketWire<MemoryWire, Bench>, count: usize) -> Option<bool> {
    let before = sent(wire)?;
    for _ in 0..count {
        if !wire.send(1, b"a datagram") {
            return Some(false);
        }
    }
    Some(sent(wire)? == before.saturating_add(count))
}

#[test]
fn a_member_sends_70000_packets(rt: HostRuntime) {
    let now = Cell::new(BEGAN);
    let mut wire = wire_of(rt, &now).expect(&rt, "memory");
    assert!(rt; sends(&mut wire, 70_000) == Some(true));
}

#[test]
fn a_wait_ends_as_a_state_is_due(rt: HostRuntime) {
    let now = Cell::new(BEGAN);
    let mut wire = wire_of(rt, &now).expect(&rt, "memory");
    assert!(rt; polls(&mut wire, &now, &(0, true)) == Some(true));
    for (passed, due) in [(1, 100), (900, 100), (960, 40), (1_000, 0)] {
        now.set(BEGAN.saturating_add(passed));
        assert!(rt; wire.due(100) == due);
    }
}

#[test]
fn a_wait_over_udp_lasts(rt: HostRuntime) {
    let members = ["127.0.0.1:39437", "127.0.0.1:39438"];
    let below = UdpWire::bind(&rt, rt.alloc(), &members, 0, 1000).expect(&rt, "a socket");
    let start = Start { number: 1, salt: 2 };
    let keys = PacketKeys::new(&[7; 32], None);
    let mut wire = PacketWire::new(rt.alloc(), below, rt, keys, 7, 2, 0, start).expect(
        &rt, "memory",
    );
    let mut room = [0u8; 20];
    let came = wire.poll(&mut room);
    assert!(rt; came.is_none() && waited(&rt, &mut wire, 100).unwrap_or(0) >= 90);
}
