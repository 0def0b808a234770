//! Writes of one row each.
ghost use Rattle.std.specs.Prelude.{◌≡◌, ◌<◌, ◌≤◌, ◌^◌, ◌↔◌, true, Some, Err, OnOk, IfOk};
ghost use Rattle.px_model.specs.Bounds.{AnyCommand};
ghost use Rattle.px_model.specs.Fits.{IsBallot, ChangeFits};
ghost use Rattle.px_model.specs.Step.{commit as committed, positions};
ghost use Rattle.px_model.specs.Seen.{change_of};
ghost use Rattle.px_records.specs.Records.{Rises};
ghost use Rattle.px_records.specs.Records.Place.{SlotAt, EntryAt};
ghost use Rattle.px_store.specs.inner.Store.{with_meta, with_floor, with_slot, with_promise, with_entry};
ghost use Rattle.px_store.specs.inner.Store.{Changed, OnlyReads, StaysGood};
ghost use Rattle.px_store.specs.Entries.{is_entry};
ghost use Rattle.px_store.specs.Seen.{is_slot};
ghost use Rattle.px_store.specs.inner.Seen.{slot_with};
ghost use Rattle.px_store.specs.inner.Ready.{AreBounded};
ghost use Rattle.px_store.specs.View.{view_of};
ghost use Rattle.px_store.specs.inner.NewRows.{AreIntegers, HasFloor, Replaces, IsGoodRow, with_row, meta_with};
ghost use Rattle.px_store.specs.declared.reading.TheConstants.{NUMBERS, INTEGERS};

use crate::ahead::Ahead;
use crate::calls::{NewRow, Trouble, put};
use crate::keeper::SqlRecords;
use crate::reading::SlotRow;
use px_model::{Change, Meta};
use px_records::StoreFault;
use sqlite::Alter;

impl<S: Alter> SqlRecords<S> {
    /// Puts a row, after which the rows for the whole node have this `meta`.
    fn keep(&mut self, row: NewRow, bytes: &[u8], meta: Meta) -> Result<(), StoreFault>
        requires none { self.old.failures ≡ 0 }
        requires fits { AreIntegers row }
        requires agrees { meta ≡ meta_with row self.old.meta }
        requires bounds { AreBounded self.old.identity meta }
        requires floor { HasFloor row }
        ensures was { (view_of S.Store self.new).is_honest → (view_of S.Store self.old).is_honest }
        ensures changed { (view_of S.Store self.new).is_honest → Replaces row (view_of S.Store self.old) →
            Changed (with_row row bytes.now (view_of S.Store self.old).kept) result (view_of S.Store self.old)
            (view_of S.Store self.new) }
        ensures rows { (view_of S.Store self.new).is_honest → self.new.failures ≡ 0 →
            Replaces row (view_of S.Store self.old) →
            IsGoodRow self.old.identity.members row bytes.now (view_of S.Store self.old).kept →
            StaysGood (view_of S.Store self.old) (view_of S.Store self.new) }
        ensures bad { result ≡ Err StoreFault.BadStore → ⊥ }
        ensures counts { (result ≡ Err StoreFault.Failed) ↔ (0 < self.new.failures) }
        ensures same_identity { self.new.identity ≡ self.old.identity }
    {
        self.ahead = Ahead::none(self.alloc);
        match put(&mut self.conn, self.identity, row, bytes) {
            Ok(()) => {
                self.meta = meta;
                Ok(())
            }
            Err(Trouble::Memory) => Err(StoreFault::Memory),
            Err(Trouble::Failed) => {
                self.failures = 1;
                Err(StoreFault::Failed)
            }
        }
    }

    pub(crate) fn keep_meta(&mut self, round: u64, number: u64) -> Result<(), StoreFault>
        requires none { self.old.failures ≡ 0 }
        requires r0 { round < NUMBERS }
        requires r1 { number ≤ NUMBERS }
        ensures was { (view_of S.Store self.new).is_honest → (view_of S.Store self.old).is_honest }
        ensures changed { (view_of S.Store self.new).is_honest →
            Changed (with_meta (view_of S.Store self.old).kept round number) result (view_of S.Store self.old)
            (view_of S.Store self.new) }
        ensures rows { (view_of S.Store self.new).is_honest → self.new.failures ≡ 0 →
            StaysGood (view_of S.Store self.old) (view_of S.Store self.new) }
        ensures bad { result ≡ Err StoreFault.BadStore → ⊥ }
        ensures counts { (result ≡ Err StoreFault.Failed) ↔ (0 < self.new.failures) }
        ensures same_identity { self.new.identity ≡ self.old.identity }
    {
        let meta = Meta {
            round,
            number,
            floor: self.meta.floor,
        };
        self.keep(NewRow::Meta { round, number }, &[], meta)
    }

    pub(crate) fn keep_floor(&mut self, ballot: u64) -> Result<(), StoreFault>
        requires none { self.old.failures ≡ 0 }
        requires r0 { IsBallot self.old.identity.members ballot }
        requires r1 { ballot < INTEGERS }
        ensures was { (view_of S.Store self.new).is_honest → (view_of S.Store self.old).is_honest }
        ensures changed { (view_of S.Store self.new).is_honest →
            Changed (with_floor (view_of S.Store self.old).kept ballot) result (view_of S.Store self.old)
            (view_of S.Store self.new) }
        ensures rows { (view_of S.Store self.new).is_honest → self.new.failures ≡ 0 →
            StaysGood (view_of S.Store self.old) (view_of S.Store self.new) }
        ensures bad { result ≡ Err StoreFault.BadStore → ⊥ }
        ensures counts { (result ≡ Err StoreFault.Failed) ↔ (0 < self.new.failures) }
        ensures same_identity { self.new.identity ≡ self.old.identity }
    {
        let meta = Meta {
            floor: ballot,
            ..self.meta
        };
        self.keep(NewRow::Floor { ballot }, &[], meta)
    }

    /// The slot of a position whose row may be replaced. A bad row is a failure.
    fn good_slot(&mut self, position: u32) -> Result<SlotRow, StoreFault>
        ensures good { (view_of S.Store self.new).is_honest →
            OnOk result ((view_of S.Store self.new).is_good (SlotAt position)) }
        ensures value { (view_of S.Store self.new).is_honest →
            IfOk result (λ s. slot_with s.promised s.ballot s.entry.items ≡
            (view_of S.Store self.new).kept.slots position) }
        ensures fits { IfOk result (λ s. is_slot self.old.identity.members s.promised s.ballot s.entry.items ≡
            true) }
        ensures bad { result ≡ Err StoreFault.BadStore → ⊥ }
        ensures reads { OnlyReads (view_of S.Store self.old) (view_of S.Store self.new) }
        ensures counts { (result ≡ Err StoreFault.Failed) ↔ (0 < self.new.failures) }
        ensures same_identity { self.new.identity ≡ self.old.identity }
    {
        match self.slot_at(position) {
            Ok(slot) => Ok(slot),
            Err(StoreFault::BadStore) => {
                self.failures = 1;
                Err(StoreFault::Failed)
            }
            Err(StoreFault::Memory) => Err(StoreFault::Memory),
            Err(StoreFault::Failed) => Err(StoreFault::Failed),
        }
    }

    /// Whether the entry of a position may be replaced. A bad row is a failure.
    fn good_entry(&mut self, position: u32) -> Result<(), StoreFault>
        ensures good { (view_of S.Store self.new).is_honest →
            OnOk result ((view_of S.Store self.new).is_good (EntryAt position)) }
        ensures bad { result ≡ Err StoreFault.BadStore → ⊥ }
        ensures reads { OnlyReads (view_of S.Store self.old) (view_of S.Store self.new) }
        ensures counts { (result ≡ Err StoreFault.Failed) ↔ (0 < self.new.failures) }
        ensures same_identity { self.new.identity ≡ self.old.identity }
    {
        match self.entry_at(position) {
            Ok(_) => Ok(()),
            Err(StoreFault::BadStore) => {
                self.failures = 1;
                Err(StoreFault::Failed)
            }
            Err(StoreFault::Memory) => Err(StoreFault::Memory),
            Err(StoreFault::Failed) => Err(StoreFault::Failed),
        }
    }

    /// The row of a slot that is good is put anew, with what was accepted there.
    pub(crate) fn promise(&mut self, position: u32, ballot: u64) -> Result<(), StoreFault>
        requires none { self.old.failures ≡ 0 }
        requires range { ballot < INTEGERS }
        ensures was { (view_of S.Store self.new).is_honest → (view_of S.Store self.old).is_honest }
        ensures changed { (view_of S.Store self.new).is_honest →
            Changed (with_promise (view_of S.Store self.old).kept position ballot) result
            (view_of S.Store self.old) (view_of S.Store self.new) }
        ensures rows { (view_of S.Store self.new).is_honest → self.new.failures ≡ 0 → position < positions →
            IsBallot self.old.identity.members ballot →
            ((view_of S.Store self.old).kept.slots position).promised ≤ ballot →
            StaysGood (view_of S.Store self.old) (view_of S.Store self.new) }
        ensures bad { result ≡ Err StoreFault.BadStore → ⊥ }
        ensures counts { (result ≡ Err StoreFault.Failed) ↔ (0 < self.new.failures) }
        ensures same_identity { self.new.identity ≡ self.old.identity }
    {
        let slot = self.good_slot(position)?;
        let row = NewRow::Slot(position, ballot, slot.ballot);
        self.keep(row, slot.entry.as_slice(), self.meta)
    }

    /// A proposal takes the place of a slot that is good.
    pub(crate) fn accept(
        &mut self,
        position: u32,
        ballot: u64,
        entry: &[u8],
    ) -> Result<(), StoreFault>
        requires none { self.old.failures ≡ 0 }
        requires range { ballot < INTEGERS }
        ensures was { (view_of S.Store self.new).is_honest → (view_of S.Store self.old).is_honest }
        ensures changed { (view_of S.Store self.new).is_honest →
            Changed (with_slot (view_of S.Store self.old).kept position ballot ballot entry.now) result
            (view_of S.Store self.old) (view_of S.Store self.new) }
        ensures rows { (view_of S.Store self.new).is_honest → self.new.failures ≡ 0 → position < positions →
            IsBallot self.old.identity.members ballot → is_entry self.old.identity.members entry.now ≡ true →
            StaysGood (view_of S.Store self.old) (view_of S.Store self.new) }
        ensures bad { result ≡ Err StoreFault.BadStore → ⊥ }
        ensures counts { (result ≡ Err StoreFault.Failed) ↔ (0 < self.new.failures) }
        ensures same_identity { self.new.identity ≡ self.old.identity }
    {
        let _slot = self.good_slot(position)?;
        self.keep(NewRow::Slot(position, ballot, ballot), entry, self.meta)
    }

    /// An entry takes the place of a row that is good, or of none.
    pub(crate) fn learn(&mut self, position: u32, entry: &[u8]) -> Result<(), StoreFault>
        requires none { self.old.failures ≡ 0 }
        ensures was { (view_of S.Store self.new).is_honest → (view_of S.Store self.old).is_honest }
        ensures changed { (view_of S.Store self.new).is_honest →
            Changed (with_entry (view_of S.Store self.old).kept position entry.now) result
            (view_of S.Store self.old) (view_of S.Store self.new) }
        ensures rows { (view_of S.Store self.new).is_honest → self.new.failures ≡ 0 → position < positions →
            is_entry self.old.identity.members entry.now ≡ true →
            StaysGood (view_of S.Store self.old) (view_of S.Store self.new) }
        ensures bad { result ≡ Err StoreFault.BadStore → ⊥ }
        ensures counts { (result ≡ Err StoreFault.Failed) ↔ (0 < self.new.failures) }
        ensures same_identity { self.new.identity ≡ self.old.identity }
    {
        self.good_entry(position)?;
        self.keep(NewRow::Learned { position }, entry, self.meta)
    }

    /// Makes a change of the record.
    pub(crate) fn make(&mut self, change: &Change) -> Result<(), StoreFault>
        requires none { self.old.failures ≡ 0 }
        requires fits { ChangeFits AnyCommand self.old.identity.members (change_of change.now) }
        ensures was { (view_of S.Store self.new).is_honest → (view_of S.Store self.old).is_honest }
        ensures changed { (view_of S.Store self.new).is_honest →
            Changed (committed (Some (change_of change.now)) (view_of S.Store self.old).kept) result
            (view_of S.Store self.old) (view_of S.Store self.new) }
        ensures rows { (view_of S.Store self.new).is_honest → self.new.failures ≡ 0 →
            Rises (change_of change.now) (view_of S.Store self.old).kept →
            StaysGood (view_of S.Store self.old) (view_of S.Store self.new) }
        ensures bad { result ≡ Err StoreFault.BadStore → ⊥ }
        ensures counts { (result ≡ Err StoreFault.Failed) ↔ (0 < self.new.failures) }
        ensures same_identity { self.new.identity ≡ self.old.identity }
    {
        match change {
            Change::Round(round) => self.keep_meta(*round, self.meta.number),
            Change::Number(number) => self.keep_meta(self.meta.round, *number),
            Change::Floor(ballot) => self.keep_floor(*ballot),
            Change::Promised(position, ballot) => self.promise(*position, *ballot),
            Change::Accepted(position, ballot, entry) => self.accept(
                *position,
                *ballot,
                entry.bytes(),
            ),
            Change::Learned(position, entry) => self.learn(*position, entry.bytes()),
        }
    }
}
