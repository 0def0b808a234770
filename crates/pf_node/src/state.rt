//! A member with its record and its configuration.

ghost use Rattle.std.specs.Prelude.{◌≡◌, ◌≤◌, ◌*◌, Some, length};
ghost use Rattle.std.specs.Coded.{Coded-set, coded_option};
ghost use Rattle.px_model.specs.Step.{front};
ghost use Rattle.px_replica.specs.Replicas.{learned_by};
ghost use Rattle.pf_node.specs.Applied.{after};
ghost use Rattle.pf_node.specs.inner.Outcomes.{outcomes_below};
ghost use Rattle.pf_node.specs.inner.Requests.{AreWithin, AreBounds};

use crate::outcomes::Outcomes;
use crate::requests::Numbers;
use pf_config::Config;
use px_records::Records;
use px_replica::Replica;
use std::alloc::Global;

/// A member of the cluster. Its configuration is always that after the first `applied` learned entries.
pub struct Node<R: Records> {
    pub(crate) replica: Replica<R>,
    pub(crate) config: Config,
    pub(crate) applied: u32,
    pub(crate) outcomes: Outcomes,
    pub(crate) numbers: Numbers,
    pub(crate) alloc: Global,
    ghost configured: { after (learned_by replica) applied ≡ Some config } by { Coded-set (coded_option config-code)
        (after (learned_by replica) applied) (Some config) },
    ghost behind: { applied ≤ front (learned_by replica) },
    ghost recorded: { outcomes.kept.items ≡ outcomes_below (learned_by replica) applied (length outcomes.kept.items) },
    ghost numbered: { AreWithin (learned_by replica) numbers.origin applied numbers.last },
    ghost bounded: { AreBounds (learned_by replica) numbers.origin numbers.bounds.items },
    ghost stretched: { 256 * length numbers.bounds.items ≤ applied },
}

impl<R: Records> Node<R> {
    ghost use Rattle.pf_node.specs.Nodes.{records_of};

    /// Gives the record back. Allocates nothing.
    pub fn close(self) -> R
        ensures { result ≡ records_of self }
    {
        let Node {
            replica,
            config: _,
            applied: _,
            outcomes: _,
            numbers: _,
            alloc: _,
        } = self;
        replica.close()
    }
}

impl<R: Records + Drop> Drop for Node<R> {
    fn drop(self) {
        let Node {
            replica: _,
            config: _,
            applied: _,
            outcomes: _,
            numbers: _,
            alloc: _,
        } = self;
    }
}
