//! A node from its record.

ghost use Rattle.std.specs.Prelude.{◌≡◌, ◌≢◌, ◌<◌, ◌≤◌, IfErr, IfOk, OnOk, false};
ghost use Rattle.px_model.specs.Node.{Record};
ghost use Rattle.px_model.specs.Spelling.{Bytes};
ghost use Rattle.px_model.specs.Step.{front};
ghost use Rattle.px_model.specs.World.{started};
ghost use Rattle.px_replica.specs.Calls.{HasBadEntry, OpenRefused};
ghost use Rattle.px_replica.specs.Replicas as replicas;
ghost use Rattle.pf_node.specs.Nodes.{records_of, learned_by, membership_of, has_failed, state_in, applied_of};

use crate::applying::take_up;
use crate::outcomes::Outcomes;
use crate::requests::Numbers;
use crate::state::Node;
use pf_config::Config;
use px_records::Records;
use px_replica::{Membership, NodeFault, Replica};
use std::alloc::{AllocError, Global};

/// A node of this member, whose configuration is empty.
fn joined<R: Records>(alloc: Global, replica: Replica<R>) -> Result<Node<R>, R>
    ensures replica { IfOk result (λ n. n.replica ≡ replica) }
    ensures kept { IfErr result (λ r. r ≡ replicas.records_of replica) }
{
    let me = replica.membership().me();
    match Config::new(alloc) {
        Ok(config) => Ok(Node {
            replica,
            config,
            applied: 0,
            outcomes: Outcomes::new(alloc),
            numbers: Numbers::new(alloc, me),
            alloc,
        }),
        Err(_) => Err(replica.close()),
    }
}

/// Applies all that is learned up to the first gap.
pub(crate) fn bring_up<R: Records>(node: &mut Node<R>) -> Result<(), AllocError>
    ensures replica { node.new.replica ≡ node.old.replica }
    ensures grown { applied_of node.old ≤ applied_of node.new }
    ensures done { OnOk result (applied_of node.new ≡ front (learned_by node.new)) }
{
    take_up(
        node.alloc,
        &node.replica,
        &mut node.config,
        &mut node.applied,
        &mut node.outcomes,
        &mut node.numbers,
    )
}

impl<R: Records> Node<R> {
    /// The node that a restart makes of its record, with all applied that is learned up to the first gap.
    ///
    /// A refusal gives the record back: `Store`, `BadStore` for a row that no commit writes or an entry that has no
    /// spelling, or `Memory`; but for `Store` the record is then as it was. A record isn't opened where a row that is
    /// read is bad.
    pub fn open(alloc: Global, m: Membership, records: R) -> Result<Node<R>, (NodeFault, R)>
        requires members { R.members records ≡ m.members }
        requires here { m.me < m.members }
        ensures state { IfOk result (λ n. R.is_honest (records_of n) → state_in n ≡ started (R.stored records)) }
        ensures learned { IfOk result (λ n. R.is_honest (records_of n) → learned_by n ≡
            (R.stored records).learned) }
        ensures applied { IfOk result (λ n. applied_of n ≡ front (learned_by n)) }
        ensures works { IfOk result (λ n. has_failed n ≡ false) }
        ensures membership { IfOk result (λ n. membership_of n ≡ m) }
        ensures was { IfOk result (λ n. R.is_honest (records_of n) → R.is_honest records) }
        ensures stop { IfOk result (λ n. R.is_honest (records_of n) → (left : Record Bytes) →
            R.may_leave (records_of n) left → R.may_leave records left) }
        ensures good { IfOk result (λ n. R.is_honest (records_of n) → HasBadEntry R.Records records m.members → ⊥) }
        ensures refused { IfErr result (λ e. OpenRefused R.Records m.members records e.0 e.1) }
    {
        let replica = Replica::open(alloc, m, records)?;
        let mut node = match joined(alloc, replica) {
            Ok(node) => node,
            Err(records) => return Err((NodeFault::Memory, records)),
        };
        match bring_up(&mut node) {
            Ok(()) => Ok(node),
            Err(_) => Err((NodeFault::Memory, node.close())),
        }
    }
}
