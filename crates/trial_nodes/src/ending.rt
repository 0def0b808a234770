//! What a node does when its turns are over.

use crate::echo::Echo;
use crate::members::{ask, member, runs};
use pf_node::{Command, Node};
use pf_rules::Path;
use px_records::MemoryRecords;
use px_transport::{LoopbackWire, MemoryWire};
use std::alloc::Global;
use std::panic::Expect;

/// Whether the node takes three commands.
fn takes_three(alloc: Global, node: &mut Node<MemoryRecords>) -> bool {
    for _ in 0..3 {
        let path = Path::main(alloc);
        if !ask(node, Command::FlushTables(path)) {
            return false;
        }
    }
    true
}

/// Whether the turns of the only member of a group are over at once, and all is worked off.
fn ends(rt: &HostRuntime, node: &mut Node<MemoryRecords>) -> bool {
    let alloc = rt.alloc();
    let mut wire = LoopbackWire::new(alloc, MemoryWire::new(alloc, Vec::new(alloc)), 0);
    runs(rt, node, &mut wire)
}

#[test]
fn what_waits_is_worked_off(rt: HostRuntime) {
    let mut node = member(rt.alloc(), 1, 0).expect(&rt, "a member");
    assert!(rt; takes_three(rt.alloc(), &mut node) && ends(&rt, &mut node));
    assert!(rt; node.waiting() == 0 && node.applied() == 3);
}

#[test]
fn at_its_end_a_node_waits_for_what_it_asked(rt: HostRuntime) {
    let mut node = member(rt.alloc(), 1, 0).expect(&rt, "a member");
    assert!(rt; takes_three(rt.alloc(), &mut node));
    assert!(rt; runs(&rt, &mut node, &mut Echo::new(rt.alloc())));
    assert!(rt; node.waiting() == 0 && node.applied() == 3);
}
