//! Members with wires of their own, and turns of them.

use crate::listing::are_equal;
use node_loop::{TurnBuffers, turn};
use pf_node::Node;
use px_records::MemoryRecords;
use px_transport::Wire;
use std::alloc::Global;

/// A member with its wire.
#[derive(Drop)]
pub(crate) struct Party<W> {
    pub(crate) node: Node<MemoryRecords>,
    pub(crate) wire: W,
}

impl<W: Drop> Party<W> {
    /// The member, without its wire.
    pub(crate) fn into_node(self) -> Node<MemoryRecords> {
        let Party { node, wire } = self;
        drop(wire);
        node
    }
}

/// Whether a turn of the member with this number is made.
pub(crate) fn turns<W: Wire>(
    parties: &mut [Party<W>],
    me: usize,
    buffers: &mut TurnBuffers,
) -> bool {
    match parties.get_mut(me) {
        Some(party) => turn(&mut party.node, &mut party.wire, buffers).is_ok(),
        None => false,
    }
}

/// Whether a turn of each is made.
fn all_turn<W: Wire>(parties: &mut [Party<W>], buffers: &mut TurnBuffers) -> bool {
    for me in 0..parties.len() {
        if !turns(parties, me, buffers) {
            return false;
        }
    }
    true
}

/// Whether each has applied that many commands.
pub(crate) fn have_applied<W>(parties: &[Party<W>], count: u32) -> bool {
    for party in parties {
        if party.node.applied() < count {
            return false;
        }
    }
    true
}

/// Turns of each member in order, until each has applied that many commands: whether all have, after 3,000 at most.
pub(crate) fn apply<W: Wire>(
    parties: &mut [Party<W>],
    buffers: &mut TurnBuffers,
    count: u32,
) -> bool {
    for _ in 0..3_000 {
        if !all_turn(parties, buffers) {
            return false;
        }
        if have_applied(parties, count) {
            return true;
        }
    }
    false
}

/// Whether two members have one configuration.
fn is_same<W>(alloc: Global, one: &Party<W>, other: &Party<W>) -> bool {
    are_equal(alloc, one.node.config(), other.node.config())
}

/// Whether all three have one configuration.
pub(crate) fn are_same<W>(alloc: Global, parties: &[Party<W>]) -> bool {
    match parties {
        [zero, one, two] => is_same(alloc, zero, one) && is_same(alloc, one, two),
        _ => false,
    }
}

/// Whether two members have one configuration, unless one of them has applied more than the other.
fn agree<W>(alloc: Global, one: &Party<W>, other: &Party<W>) -> bool {
    one.node.applied() != other.node.applied() || is_same(alloc, one, other)
}

/// Whether this holds of any two of the three.
pub(crate) fn all_agree<W>(alloc: Global, parties: &[Party<W>]) -> bool {
    match parties {
        [zero, one, two] => {
            agree(alloc, zero, one) && agree(alloc, one, two) && agree(alloc, zero, two)
        }
        _ => false,
    }
}
