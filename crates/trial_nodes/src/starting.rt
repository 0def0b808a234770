//! What is asked of a node by datagrams.

use crate::members::{coming, member};
use node_loop::{TickTimer, TurnBuffers, round};
use pf_node::Node;
use px_records::MemoryRecords;
use px_transport::MemoryWire;
use std::alloc::Global;

/// An Ask of a flush of main's tables, with the token 1, for member 0 of 3 of cluster 7.
const ASK: [u8; 29] = [
    0x50, 0x46, 0x58, 0x52, 1, 0, 0, 0, 7, 3, 255, 0, 8, 0, 0, 0, 12, 1, 255, 0, 0, 0, 0, 0, 0, 0,
    1, 3, 0,
];

/// How many datagrams are dropped in a round in which the node is asked a command. None where there is no round.
fn dropped(alloc: Global, node: &mut Node<MemoryRecords>, hears_asks: bool) -> Option<u32> {
    let mut wire = MemoryWire::new(alloc, coming(alloc, &ASK).ok()?);
    let mut buffers = TurnBuffers::new(alloc, &node.membership(), hears_asks).ok()?;
    let mut timer = TickTimer::new(0);
    match round(node, &mut wire, &mut buffers, &mut timer, 0) {
        Ok(_) => Some(buffers.counts().dropped),
        Err(_) => None,
    }
}

/// How many commands wait at a new node then, and how many datagrams were dropped.
fn waits(alloc: Global, hears_asks: bool) -> Option<(usize, u32)> {
    let mut node = member(alloc, 3, 0)?;
    match dropped(alloc, &mut node, hears_asks) {
        Some(count) => Some((node.waiting(), count)),
        None => None,
    }
}

#[test]
fn an_ask_is_heard_or_dropped(rt: HostRuntime) {
    assert!(rt;
        waits(rt.alloc(), true) == Some((1, 0)) && waits(rt.alloc(), false) == Some((0, 1))
    );
}
