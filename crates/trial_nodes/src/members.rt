//! Members with empty records in memory, and what is asked of them.

use node_loop::{SystemClock, TickTimer, TurnBuffers, finish, round};
use pf_entry::Profile;
use pf_node::{Command, Membership, Node};
use pf_rules::Path;
use px_records::MemoryRecords;
use px_transport::Wire;
use std::alloc::{AllocError, Global};
use std::time::Instant;

/// The member with this number, of n of cluster 7.
pub(crate) fn member(alloc: Global, members: u8, me: u8) -> Option<Node<MemoryRecords>> {
    let m = Membership::new(7, members, me)?;
    if m.me() >= m.members() {
        return None;
    }
    match Node::open(alloc, m, MemoryRecords::new(alloc, m.members())) {
        Ok(node) => Some(node),
        Err((_, records)) => {
            drop(records);
            None
        }
    }
}

/// Whether the node takes the command.
pub(crate) fn ask(node: &mut Node<MemoryRecords>, command: Command) -> bool {
    let asked = node.ask(&command);
    drop(command);
    asked.is_ok()
}

/// Whether the node takes a load of a ruleset at main.
pub(crate) fn ask_load(alloc: Global, node: &mut Node<MemoryRecords>, text: &[u8]) -> bool {
    match Vec::from_slice(alloc, text) {
        Ok(text) => ask(node, Command::Load(Path::main(alloc), Profile::Two, text)),
        Err(_) => false,
    }
}

/// The buffers of a member of this cluster of three: what they hold of one member nobody uses in a turn, so others
/// share them.
pub(crate) fn buffers(alloc: Global) -> Option<TurnBuffers> {
    let m = Membership::new(7, 3, 0)?;
    TurnBuffers::new(alloc, &m, true).ok()
}

/// A datagram that comes.
pub(crate) fn coming(alloc: Global, datagram: &[u8]) -> Result<Vec<Vec<u8>>, AllocError> {
    let mut all = Vec::new(alloc);
    all.push(Vec::from_slice(alloc, datagram)?)?;
    Ok(all)
}

/// Whether a round of member 0 is made, and what waits then is worked off.
pub(crate) fn runs<W: Wire>(
    rt: &HostRuntime,
    node: &mut Node<MemoryRecords>,
    wire: &mut W,
) -> bool {
    let Ok(mut buffers) = TurnBuffers::new(rt.alloc(), &node.membership(), true) else {
        return false;
    };
    let mut timer = TickTimer::new(0);
    let mut clock = SystemClock { clock: rt };
    round(node, wire, &mut buffers, &mut timer, 0).is_ok()
        && finish(
            node,
            wire,
            &mut buffers,
            &mut timer,
            &mut clock,
            Instant::now(rt).ok(),
        )
        .is_ok()
}
