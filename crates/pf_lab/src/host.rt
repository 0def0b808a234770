//! A member of a lab.

ghost use Rattle.std.specs.Prelude.{◌≡◌, false};
ghost use Rattle.px_replica.specs.Seen.{IsSound};
ghost use Rattle.pf_node.specs.Nodes.{has_failed, membership_of, state_in};
ghost use Rattle.pf_lab.specs.inner.Props.{sound_prop};

use pf_node::Node;
use px_records::MemoryRecords;

/// A node over a record in memory, running or stopped. It never fails.
#[derive(Drop)]
pub(crate) struct Host {
    pub(crate) node: Node<MemoryRecords>,
    pub(crate) is_up: bool,
    ghost works: { has_failed node ≡ false },
    ghost sound: { IsSound (membership_of node).members (state_in node).stored } by { sound_prop
        (membership_of node).members (state_in node).stored },
}
