//! A datagram that comes again and again.

use crate::answer::node_of;
use crate::kept::Kept;
use crate::row::Row;
use pf_node::{Datagram, Node, Received};
use std::io;

/// How many of the first that many positions are learned.
fn learned(node: &Node<Kept>, positions: u32) -> u32 {
    let mut count = 0u32;
    for position in 0..positions {
        if node.learned(position).is_some() {
            count = count.saturating_add(1);
        }
    }
    count
}

/// Writes what the node does with them all.
fn write_received(rt: &HostRuntime, row: &Row, node: &mut Node<Kept>) -> io::Result<()> {
    let mut out: Vec<Datagram> = Vec::new(rt.alloc());
    let mut done = 0u32;
    let mut ignored = 0u32;
    for _ in 0..row.times {
        match node.receive(&row.bytes, &mut out) {
            Ok(Received::Done) => done = done.saturating_add(1),
            Ok(Received::Ignored(_)) => ignored = ignored.saturating_add(1),
            Err(_) => {}
        }
    }
    println!(rt;
        "taken {done}, ignored {ignored}, handed out {}, learned {}, front {}, applied {}",
        out.len(),
        learned(node, 1_000),
        node.front(),
        node.applied()
    )
}

/// Writes what a new node does with them all.
pub fn repeated(rt: &HostRuntime, row: &Row) -> io::Result<()> {
    match node_of(rt.alloc(), row.reader) {
        Some(mut node) => write_received(rt, row, &mut node),
        None => println!(rt; "no node"),
    }
}
