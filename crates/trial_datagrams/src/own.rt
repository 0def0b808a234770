//! A wire that keeps what a member sends to itself.

use crate::party::memory_wire;
use crate::sockets::{has, has_none, hears};
use px_transport::{LoopbackWire, MemoryWire, Wire};
use std::panic::Expect;

/// Whether what member 2 sends to itself comes back before what comes from below, and is waited for only until then.
fn comes_back<W: Wire>(wire: &mut W) -> bool {
    let is_sent = wire.send(2, b"one") && wire.send(2, b"two") && wire.send(1, b"to another");
    let is_due = wire.due(60_000) == 0;
    wire.wait(60_000);
    let is_back = has(wire, b"one") && hears(wire, 20, b"two") && wire.due(60_000) == 60_000;
    is_sent && is_due && is_back && hears(wire, 20, b"from below") && has_none(wire)
}

/// Whether it sends itself one more than is kept.
fn sends_itself_65<W: Wire>(wire: &mut W) -> bool {
    for _ in 0..65 {
        if !wire.send(2, b"to itself") {
            return false;
        }
    }
    true
}

/// Whether the wire below was handed two datagrams, the last one for member 2.
fn is_handed_two(below: &MemoryWire) -> bool {
    let Some(sent) = below.sent() else {
        return false;
    };
    let Some(last) = sent.last() else {
        return false;
    };
    sent.len() == 2 && last.0 == 2
}

#[test]
fn what_a_member_sends_to_itself_comes_back_first(rt: HostRuntime) {
    let below = memory_wire(rt.alloc(), &[b"from below"]).expect(&rt, "memory");
    let mut wire = LoopbackWire::new(rt.alloc(), below, 2);
    assert!(rt; comes_back(&mut wire) && sends_itself_65(&mut wire));
    let below = wire.into_inner();
    assert!(rt; is_handed_two(&below));
}
