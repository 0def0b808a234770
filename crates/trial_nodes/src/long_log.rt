//! A node whose log is long: what came of its last commands, and its opening.

use crate::members::{ask, ask_load, member, runs};
use pf_node::{Command, Node, Outcome};
use pf_rules::Path;
use px_records::MemoryRecords;
use px_transport::{LoopbackWire, MemoryWire};
use std::alloc::Global;
use std::panic::Expect;

/// How many pairs of commands are asked at once.
const PAIRS: u32 = 16;

/// How many outcomes a node keeps.
const KEPT: u32 = 4_096;

/// Whether the node takes pairs of a command that is done and one that is refused.
fn takes(alloc: Global, node: &mut Node<MemoryRecords>) -> bool {
    for _ in 0..PAIRS {
        let path = Path::main(alloc);
        if !ask(node, Command::FlushTables(path)) || !ask_load(alloc, node, b"bogus\n") {
            return false;
        }
    }
    true
}

/// Whether the only member of a cluster applies this number of them.
fn applies(rt: &HostRuntime, node: &mut Node<MemoryRecords>, positions: u32) -> bool {
    let alloc = rt.alloc();
    let mut wire = LoopbackWire::new(alloc, MemoryWire::new(alloc, Vec::new(alloc)), 0);
    for _ in 0..positions / (2 * PAIRS) {
        if !takes(alloc, node) || !runs(rt, node, &mut wire) {
            return false;
        }
    }
    node.applied() == positions
}

/// What comes of the command at a position.
fn wanted(position: u32) -> Outcome {
    if position % 2 == 0 {
        Outcome::Done(0, 0)
    } else {
        Outcome::Refused(12, 1)
    }
}

/// Whether the outcomes of the last positions are there, and no others.
fn keeps_the_last(node: &Node<MemoryRecords>) -> bool {
    let applied = node.applied();
    for position in 0..applied {
        let is_kept = position >= applied.saturating_sub(KEPT);
        let wanted = if is_kept {
            Some(wanted(position))
        } else {
            None
        };
        if node.outcome(position) != wanted {
            return false;
        }
    }
    true
}

#[test]
fn outcomes_are_kept(rt: HostRuntime) {
    let mut node = member(rt.alloc(), 1, 0).expect(&rt, "a member");
    assert!(rt; applies(&rt, &mut node, 4_800) && keeps_the_last(&node));
}

#[test]
fn a_long_log_is_opened(rt: HostRuntime) {
    let alloc = rt.alloc();
    let mut node = member(alloc, 1, 0).expect(&rt, "a member");
    assert!(rt; applies(&rt, &mut node, 120_000));
    let m = node.membership();
    assert!(rt;
        match Node::open(alloc, m, node.close()) {
            Ok(node) => node.applied() == 120_000,
            Err((_, records)) => {
                drop(records);
                false
            }
        }
    );
}
