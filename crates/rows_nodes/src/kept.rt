//! The records of members: in memory, where one commit may fail.
ghost use Rattle.std.specs.Prelude.{◌≡◌};

use px_records::{FaultyRecords, MemoryRecords, Records, When};
use std::alloc::Global;

/// A record in memory.
pub type Kept = FaultyRecords<MemoryRecords>;

/// An empty record of one of three members, whose `k`-th commit fails; none with 0.
pub fn record(alloc: Global, k: u64, when: When) -> Kept
    ensures { ⟦<FaultyRecords<MemoryRecords> as Records>⟧.members result ≡ 3 }
{
    FaultyRecords::new(MemoryRecords::new(alloc, 3), k, when)
}

/// The same record, of which no commit fails any more.
pub fn mended(records: Kept) -> Kept
    ensures { ⟦<FaultyRecords<MemoryRecords> as Records>⟧.members result ≡
        ⟦<FaultyRecords<MemoryRecords> as Records>⟧.members records }
{
    FaultyRecords::new(records.into_inner(), 0, When::Before)
}
