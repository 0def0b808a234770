//! Reads by a position, and what is last.
ghost use Rattle.std.specs.Prelude.{◌≡◌, ◌≢◌, ◌<◌, ◌≤◌, ◌↔◌, true, Some, Ok, Err, OnOk, IfOk};
ghost use Rattle.sqlite.specs.Held.{state};
ghost use Rattle.px_model.specs.Step.{positions};
ghost use Rattle.px_records.specs.Records.Place.{SlotAt, EntryAt, LastSlot, LastEntry};
ghost use Rattle.px_store.specs.inner.Bytes.{read_in, is_entry_in};
ghost use Rattle.px_store.specs.inner.Questions.{Answers};
ghost use Rattle.px_store.specs.Seen.{is_slot, has_ballot, any_row};
ghost use Rattle.px_store.specs.inner.Seen.{slot_with, EndsAt};
ghost use Rattle.px_store.specs.inner.Store.{OnlyReads};
ghost use Rattle.px_store.specs.View.{view_of};

use crate::ahead::Ahead;
use crate::calls::{Question, Trouble, get};
use crate::keeper::SqlRecords;
use crate::reading::{Read, ReadFault, SlotRow, end_in_rows, entry_in_rows, slot_in_rows};
use px_records::StoreFault;
use sqlite::{Alter, Row};

/// How many positions one statement reads ahead.
const SPAN: u32 = 64;

/// What is read of a row, as a call of the record answers it.
fn stored<T>(read: Read<T>) -> Result<T, StoreFault>
    ensures ok { IfOk result (λ value. read ≡ Ok value) }
    ensures bad { result ≡ Err StoreFault.BadStore → read ≡ Err ReadFault.Bad }
    ensures works { result ≢ Err StoreFault.Failed }
{
    match read {
        Ok(value) => Ok(value),
        Err(ReadFault::Memory) => Err(StoreFault::Memory),
        Err(ReadFault::Bad) => Err(StoreFault::BadStore),
    }
}

impl<S: Alter> SqlRecords<S> {
    /// The rows that answer a question.
    fn look(&mut self, question: Question) -> Result<Vec<Row>, StoreFault>
        ensures rows { (view_of S.Store self.new).is_honest → IfOk result (λ rows.
            Answers question (state S.Store self.new.conn).committed.trees rows.items) }
        ensures reads { OnlyReads (view_of S.Store self.old) (view_of S.Store self.new) }
        ensures bad { result ≡ Err StoreFault.BadStore → ⊥ }
        ensures counts { (result ≡ Err StoreFault.Failed) ↔ (0 < self.new.failures) }
        ensures later { 0 < self.old.failures → self.new ≡ self.old }
        ensures same_identity { self.new.identity ≡ self.old.identity }
    {
        if self.failures > 0 {
            return Err(StoreFault::Failed);
        }
        match get(&mut self.conn, question) {
            Ok(rows) => Ok(rows),
            Err(Trouble::Memory) => Err(StoreFault::Memory),
            Err(Trouble::Failed) => {
                self.failures = 1;
                Err(StoreFault::Failed)
            }
        }
    }

    #[tactic(auto, using(crate::proofs::Stored::alike_slot, crate::proofs::Stored::not_alike_slot))]
    pub(crate) fn slot_at(&mut self, position: u32) -> Result<SlotRow, StoreFault>
        ensures good { (view_of S.Store self.new).is_honest →
            OnOk result ((view_of S.Store self.new).is_good (SlotAt position)) }
        ensures value { (view_of S.Store self.new).is_honest →
            IfOk result (λ s. slot_with s.promised s.ballot s.entry.items ≡
            (view_of S.Store self.new).kept.slots position) }
        ensures fits { IfOk result (λ s. is_slot self.old.identity.members s.promised s.ballot s.entry.items ≡
            true) }
        ensures bad { (view_of S.Store self.new).is_honest → result ≡ Err StoreFault.BadStore →
            (view_of S.Store self.old).is_good (SlotAt position) → ⊥ }
        ensures reads { OnlyReads (view_of S.Store self.old) (view_of S.Store self.new) }
        ensures counts { (result ≡ Err StoreFault.Failed) ↔ (0 < self.new.failures) }
        ensures later { 0 < self.old.failures → self.new ≡ self.old }
        ensures same_identity { self.new.identity ≡ self.old.identity }
    {
        let rows = self.look(Question::Slot { position })?;
        let slot = slot_in_rows(rows.as_slice(), self.identity.members, position, self.alloc);
        stored(slot)
    }

    /// Where this position comes next and the rows that were read ahead are passed, reads those of the positions from
    /// it on. Whether that is done shows in `failures` alone.
    fn read_ahead(&mut self, position: u32)
        ensures reads { OnlyReads (view_of S.Store self.old) (view_of S.Store self.new) }
        ensures later { 0 < self.old.failures → self.new ≡ self.old }
        ensures same_identity { self.new.identity ≡ self.old.identity }
    {
        if position != self.ahead.next || position != self.ahead.end {
            return;
        }
        let end = position.saturating_add(SPAN);
        let question = Question::Span {
            first: position,
            end,
        };
        if let Ok(rows) = self.look(question) {
            self.ahead = Ahead::of(self.alloc, position, end, rows);
        }
    }

    /// Where positions are asked in turn one statement reads the rows of several.
    #[tactic(auto, using(crate::proofs::Stored::alike_entry, crate::proofs::Stored::not_alike_entry))]
    pub(crate) fn entry_at(&mut self, position: u32) -> Result<Option<Vec<u8>>, StoreFault>
        ensures good { (view_of S.Store self.new).is_honest →
            OnOk result ((view_of S.Store self.new).is_good (EntryAt position)) }
        ensures value { (view_of S.Store self.new).is_honest →
            IfOk result (λ e. read_in e ≡ (view_of S.Store self.new).kept.learned position) }
        ensures fits { IfOk result (λ e. is_entry_in self.old.identity.members e ≡ true) }
        ensures bad { (view_of S.Store self.new).is_honest → result ≡ Err StoreFault.BadStore →
            (view_of S.Store self.old).is_good (EntryAt position) → ⊥ }
        ensures reads { OnlyReads (view_of S.Store self.old) (view_of S.Store self.new) }
        ensures counts { (result ≡ Err StoreFault.Failed) ↔ (0 < self.new.failures) }
        ensures later { 0 < self.old.failures → self.new ≡ self.old }
        ensures same_identity { self.new.identity ≡ self.old.identity }
    {
        let members = self.identity.members;
        self.read_ahead(position);
        if self.failures > 0 {
            return Err(StoreFault::Failed);
        }
        if position == self.ahead.next && position < self.ahead.end {
            let row = self.ahead.pass();
            return stored(entry_in_rows(row.as_slice(), members, position));
        }
        let rows = self.look(Question::Learned { position })?;
        stored(entry_in_rows(rows.as_slice(), members, position))
    }

    #[tactic(auto, using(crate::proofs::Ends::ends_at))]
    pub(crate) fn top_at(&mut self) -> Result<u32, StoreFault>
        ensures value { (view_of S.Store self.new).is_honest →
            IfOk result (λ t. EndsAt has_ballot ((state S.Store self.new.conn).committed.trees 1) t) }
        ensures bad { (view_of S.Store self.new).is_honest → result ≡ Err StoreFault.BadStore →
            (view_of S.Store self.old).is_good LastSlot → ⊥ }
        ensures within { IfOk result (λ t. t ≤ positions) }
        ensures reads { OnlyReads (view_of S.Store self.old) (view_of S.Store self.new) }
        ensures counts { (result ≡ Err StoreFault.Failed) ↔ (0 < self.new.failures) }
        ensures later { 0 < self.old.failures → self.new ≡ self.old }
        ensures same_identity { self.new.identity ≡ self.old.identity }
    {
        let rows = self.look(Question::Top)?;
        stored(end_in_rows(rows.as_slice()))
    }

    #[tactic(auto, using(crate::proofs::Ends::ends_at))]
    pub(crate) fn end_at(&mut self) -> Result<u32, StoreFault>
        ensures value { (view_of S.Store self.new).is_honest →
            IfOk result (λ t. EndsAt any_row ((state S.Store self.new.conn).committed.trees 3) t) }
        ensures bad { (view_of S.Store self.new).is_honest → result ≡ Err StoreFault.BadStore →
            (view_of S.Store self.old).is_good LastEntry → ⊥ }
        ensures within { IfOk result (λ t. t ≤ positions) }
        ensures reads { OnlyReads (view_of S.Store self.old) (view_of S.Store self.new) }
        ensures counts { (result ≡ Err StoreFault.Failed) ↔ (0 < self.new.failures) }
        ensures later { 0 < self.old.failures → self.new ≡ self.old }
        ensures same_identity { self.new.identity ≡ self.old.identity }
    {
        let rows = self.look(Question::End)?;
        stored(end_in_rows(rows.as_slice()))
    }
}
