//! A run of a node, as the program makes it.

use crate::members::coming;
use node_control::{Observer, run_member};
use node_loop::{Ended, TickTimer};
use pf_node::Membership;
use px_records::MemoryRecords;
use px_transport::{LoopbackWire, MemoryWire};
use std::panic::Expect;

/// A client's request to member 0 of 1 of cluster 7, with token 9: `-t bad -T add 10.0.0.1`.
const ASK: [u8; 42] = [
    0x50, 0x46, 0x58, 0x52, 1, 0, 0, 0, 7, 1, 255, 0, 8, 0, 0, 0, 25, 1, 255, 0, 0, 0, 0, 0, 0, 0,
    9, 5, 0, 3, b'b', b'a', b'd', 0, 1, 0, 4, 0x20, 10, 0, 0, 1,
];

/// How a run of 30 turns ends over this wire.
fn ended(rt: &HostRuntime, m: Membership, wire: &mut LoopbackWire<MemoryWire>) -> Option<Ended> {
    if m.me() >= m.members() {
        return None;
    }
    let alloc = rt.alloc();
    let Ok(mut observer) = Observer::new(alloc, m, false, true) else {
        return None;
    };
    let mut timer = TickTimer::new(0);
    let records = MemoryRecords::new(alloc, m.members());
    let (ended, records) = run_member(
        rt,
        alloc,
        m,
        records,
        wire,
        &mut timer,
        &mut observer,
        true,
        None,
        30,
    );
    drop(records);
    Some(ended)
}

/// One command is applied, at the first position.
const APPLIED: Ended = Ended::Front {
    front: 1,
    applied: 1,
};

#[test]
fn a_run_takes_what_comes(rt: HostRuntime) {
    let alloc = rt.alloc();
    let m = Membership::new(7, 1, 0).expect(&rt, "a member");
    let below = MemoryWire::new(alloc, coming(alloc, &ASK).expect(&rt, "memory"));
    let mut wire = LoopbackWire::new(alloc, below, 0);
    assert!(rt; ended(&rt, m, &mut wire) == Some(APPLIED));
}
