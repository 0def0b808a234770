//! Nodes.

ghost use Rattle.std.specs.Prelude.{◌≡◌, ◌≤◌, OnOk};
ghost use Rattle.px_model.specs.Step.{front};
ghost use Rattle.pf_node.specs.Nodes.{applied_of, learned_by, records_of};

use pf_node::{Datagram, Node, NodeFault};
use px_records::Records;

/// [`Node::tick`]: what was learned is applied.
pub fn tick<R: Records>(node: &mut Node<R>, out: &mut Vec<Datagram>) -> Result<(), NodeFault>
    ensures { R.is_honest (records_of node.new) → OnOk result (applied_of node.new ≡ front (learned_by node.new)) }
{
    node.tick(out)
}

/// [`Node::applied`]: how many positions are applied, none past a gap.
pub fn applied<R: Records>(node: &Node<R>) -> u32
    ensures { result ≤ front (learned_by node.now) }
{
    node.applied()
}
