//! A member's run where there is no wire.

ghost use Rattle.std.specs.Prelude.{◌≡◌, ◌<◌, List};
ghost use Rattle.px_transport.specs.Wires.{WireEvent};
ghost use Rattle.node_loop.specs.Runs.{EndsWireless, Runs};

use crate::ended::Ended;
use pf_node::{Membership, Node};
use px_records::Records;
use std::alloc::Global;

/// The run of a member where there is no wire: its record is opened, no turn is made, and it is given back.
pub fn open_member<R: Records>(alloc: Global, m: Membership, records: R) -> (Ended, R)
    requires members { R.members records ≡ m.members }
    requires here { m.me < m.members }
    ensures ran { (w : List WireEvent) → Runs R.Records m records w w result.0 result.1 }
    ensures wireless { EndsWireless result.0 }
{
    match Node::open(alloc, m, records) {
        Ok(node) => (Ended::NoWire, node.close()),
        Err((fault, records)) => (Ended::Fault(fault), records),
    }
}
