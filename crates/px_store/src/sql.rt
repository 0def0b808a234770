//! [`Records`] of a store: its calls, by the reads of `looking` and the writes of `writing`. The SQL is in `calls` and
//! `making`.
ghost use Rattle.std.specs.Prelude.{◌≡◌};
ghost use Rattle.std.proofs.Common.{◌∙◌, ap, refl};
ghost use Rattle.sqlite.specs.Held.{state};
ghost use Rattle.sqlite.specs.State.{HasCleanDisk};
ghost use Rattle.sqlite.specs.Tree.{Trees};
ghost use Rattle.px_store.specs.Seen.{record_in};
ghost use Rattle.px_store.specs.Ready.{MayLeave, is_good};

use crate::keeper::SqlRecords;
use crate::reading::{entry_from, slot_from};
use px_model::{Change, Entry, Meta, Slot};
use px_records::{Records, StoreFault};
use sqlite::Alter;

impl<S: Alter> Records for SqlRecords<S> {
    // nothing of the keeper's own: the disk returned what was written
    ghost is_honest = { λ r. HasCleanDisk (state S.Store r.conn) };

    ghost is_trusted = { λ r. HasCleanDisk (state S.Store r.conn) };

    ghost stored = { λ r. record_in (state S.Store r.conn).committed.trees };

    ghost members = { λ r. r.identity.members };

    ghost may_leave = { λ r. MayLeave (state S.Store r.conn) };

    ghost failed = { λ r. r.failures };

    ghost may_fail = { λ r. Unit {0} };

    ghost is_good = { λ r. is_good r.identity.members (state S.Store r.conn).committed.trees };

    ghost settled = { λ r honest none d left. left.2 ∙ ap (λ (t : Trees). record_in t)
        (S.Store.settled r.conn.store left.0 (r.ready none honest).1.1.0 left.1) };

    ghost stays = { λ r honest none. (_, S.Store.stays r.conn.store (r.ready none honest).1.1.0, refl) };

    fn failures(&self) -> u64 {
        self.failures
    }

    #[tactic(auto, using(crate::proofs::Stored::numbers_are))]
    fn read_meta(&mut self) -> Result<Meta, StoreFault> {
        if self.failures > 0 {
            return Err(StoreFault::Failed);
        }
        Ok(self.meta)
    }

    fn read_slot(&mut self, position: u32) -> Result<Slot, StoreFault> {
        let slot = self.slot_at(position)?;
        slot_from(self.alloc, &slot, self.identity.members)
    }

    fn read_top(&mut self) -> Result<u32, StoreFault> {
        let top = self.top_at()?;
        if top == 0 {
            return Ok(0);
        }
        let _slot = self.slot_at(top - 1)?;
        Ok(top)
    }

    fn read_learned(&mut self, position: u32) -> Result<Option<Entry>, StoreFault> {
        let Some(bytes) = self.entry_at(position)? else {
            return Ok(None);
        };
        let members = self.identity.members;
        Ok(Some(entry_from(self.alloc, bytes.as_slice(), members)?))
    }

    fn read_learned_end(&mut self) -> Result<u32, StoreFault> {
        let end = self.end_at()?;
        if end == 0 {
            return Ok(0);
        }
        let _entry = self.entry_at(end - 1)?;
        Ok(end)
    }

    fn commit(&mut self, change: &Change) -> Result<(), StoreFault> {
        if self.failures > 0 {
            return Err(StoreFault::Failed);
        }
        self.make(change)
    }
}
