//! A member with its record.

ghost use Rattle.std.specs.Prelude.{◌≡◌, false};
ghost use Rattle.px_replica.specs.Members.{log_of, group_of};
ghost use Rattle.px_replica.specs.inner.Props.{agree_prop};

use crate::member::Member;
use px_records::Records;
use std::alloc::Global;

/// A member of the agreement with its record. While no call on the record has failed, what the member has learned is
/// what its record has as learned.
///
/// Source: Paxos Made Simple, 2.5 and 3.
#[derive(Drop)]
pub struct Replica<R: Records> {
    pub(crate) records: R,
    pub(crate) member: Member,
    pub(crate) round: u64,
    pub(crate) is_failed: bool,
    pub(crate) alloc: Global,
    ghost works: { is_failed ≡ false → R.failed records ≡ 0 },
    ghost one_group: { R.members records ≡ (group_of member).members },
    ghost agrees: { is_failed ≡ false → R.is_honest records →
        (R.stored records).learned ≡ log_of member } by { agree_prop is_failed (R.is_honest records)
            (R.stored records).learned (log_of member) },
    ghost recorded: { is_failed ≡ false → R.is_honest records → round ≡ (R.stored records).meta.round },
}

impl<R: Records> Replica<R> {
    ghost use Rattle.px_replica.specs.Replicas.{records_of};

    /// Gives the record back. Allocates nothing.
    pub fn close(self) -> R
        ensures { result ≡ records_of self }
    {
        self.records
    }
}
