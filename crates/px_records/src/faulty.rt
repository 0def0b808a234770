//! A record of which one commit fails.

ghost use Rattle.std.specs.Prelude.{◌≡◌, ◌⊎◌, ◌<◌, ◌≤◌, ◌-◌, ◌↔◌, Ok, Err, Some, IfOk, IfSome, OnOk, true, false};
ghost use Rattle.px_model.specs.Bounds.{AnyCommand};
ghost use Rattle.px_model.specs.Entries.{entry_of};
ghost use Rattle.px_model.specs.Fits.{MetaFits, SlotFits, EntryFits, ChangeFits};
ghost use Rattle.px_model.specs.Seen.{meta_of, slot_of, change_of};
ghost use Rattle.px_model.specs.Step.{commit as committed, top, positions};
ghost use Rattle.px_records.specs.Faulty.{inner_of, left_of, when_of, has_failed_of, failures_of, none_inside};
ghost use Rattle.px_records.specs.Faulty.{failed_in, IsDue, IsSpared, FailsAlike, ReadsBelow};
ghost use Rattle.px_records.specs.Records.{learned_of, Place, NamesGood, IsEnd, Rises};
ghost use Rattle.px_records.specs.Records.{LeavesOne};
ghost use Rattle.px_records.specs.Records.Place.{SlotAt, EntryAt, LastSlot, LastEntry};

use crate::records::{Records, StoreFault};
use px_model::{Change, Entry, Meta, Slot};

/// Whether the commit that fails does so before its change is made or after.
#[derive(Clone, Copy, PartialEq, Eq)]
pub enum When {
    /// The record is as it was.
    Before,
    /// The record has the change.
    After,
}

/// A record of which one commit fails, and then every call. It shows what a failure leaves: a test counts the commit
/// that fails upwards until none does. A commit that is to fail after its change, and is out of memory, answers that,
/// and is still to come.
#[derive(Drop)]
pub struct FaultyRecords<R> {
    inner: R,
    /// How many commits are left up to the one that fails, 0 where none will.
    left: u64,
    when: When,
    has_failed: bool,
}

impl<R: Records> FaultyRecords<R> {
    /// The record whose `k`-th commit from now on answers `Failed`, the first being 1; with 0 none does.
    pub fn new(inner: R, k: u64, when: When) -> FaultyRecords<R>
        ensures inner { inner_of result ≡ inner }
        ensures left { left_of result ≡ k }
        ensures when { when_of result ≡ when }
        ensures works { has_failed_of result ≡ false }
    {
        FaultyRecords {
            inner,
            left: k,
            when,
            has_failed: false,
        }
    }

    /// The record, to be opened again.
    pub fn into_inner(self) -> R
        ensures { result ≡ inner_of self }
    {
        self.inner
    }
}

impl<R: Records> Records for FaultyRecords<R> {
    ghost is_honest = { λ r. R.is_honest r.inner };

    ghost is_trusted = { λ r. R.is_trusted r.inner };

    ghost stored = { λ r. R.stored r.inner };

    ghost members = { λ r. R.members r.inner };

    ghost may_leave = { λ r. R.may_leave r.inner };

    ghost failed = { λ r. failures_of r.has_failed (R.failed r.inner) };

    ghost may_fail = { λ r. Unit {0} };

    ghost is_good = { λ r. R.is_good r.inner };

    ghost settled = { λ r honest none. R.settled r.inner honest (none_inside r.has_failed (R.failed r.inner) none) };

    ghost stays = { λ r honest none. R.stays r.inner honest (none_inside r.has_failed (R.failed r.inner) none) };

    fn failures(&self) -> u64 {
        if self.has_failed {
            return 1;
        }
        self.inner.failures()
    }

    fn read_meta(&mut self) -> Result<Meta, StoreFault>
        ensures ok { R.is_honest (inner_of self.new) →
            IfOk result (λ m. meta_of m ≡ (R.stored (inner_of self.new)).meta) }
        ensures fits { IfOk result (λ m. MetaFits (R.members (inner_of self.old)) (meta_of m)) }
        ensures bad { result ≡ Err StoreFault.BadStore → ⊥ }
        ensures counts { (result ≡ Err StoreFault.Failed) ↔ (0 < failed_in R.failed self.new) }
        ensures reads { ReadsBelow R.is_honest R.is_trusted R.stored R.members R.may_leave R.failed R.is_good self.old
            self.new }
    {
        if self.has_failed {
            return Err(StoreFault::Failed);
        }
        self.inner.read_meta()
    }

    fn read_slot(&mut self, position: u32) -> Result<Slot, StoreFault>
        ensures ok { R.is_honest (inner_of self.new) →
            IfOk result (λ s. slot_of s ≡ (R.stored (inner_of self.new)).slots position) }
        ensures fits { IfOk result (λ s. SlotFits AnyCommand (R.members (inner_of self.old)) (slot_of s)) }
        ensures good { R.is_honest (inner_of self.new) → OnOk result (R.is_good (inner_of self.new) (SlotAt position)) }
        ensures bad { R.is_honest (inner_of self.new) → result ≡ Err StoreFault.BadStore →
            R.is_good (inner_of self.old) (SlotAt position) → ⊥ }
        ensures counts { (result ≡ Err StoreFault.Failed) ↔ (0 < failed_in R.failed self.new) }
        ensures reads { ReadsBelow R.is_honest R.is_trusted R.stored R.members R.may_leave R.failed R.is_good self.old
            self.new }
    {
        if self.has_failed {
            return Err(StoreFault::Failed);
        }
        self.inner.read_slot(position)
    }

    fn read_top(&mut self) -> Result<u32, StoreFault>
        ensures ok { R.is_honest (inner_of self.new) →
            IfOk result (λ t. t ≡ top (R.stored (inner_of self.new)).slots) }
        ensures good { R.is_honest (inner_of self.new) → OnOk result (R.is_good (inner_of self.new) LastSlot) }
        ensures bad { R.is_honest (inner_of self.new) → result ≡ Err StoreFault.BadStore →
            R.is_good (inner_of self.old) LastSlot → ⊥ }
        ensures within { IfOk result (λ t. t ≤ positions) }
        ensures named { R.is_honest (inner_of self.new) →
            IfOk result (λ t. NamesGood (R.is_good (inner_of self.new)) SlotAt t) }
        ensures counts { (result ≡ Err StoreFault.Failed) ↔ (0 < failed_in R.failed self.new) }
        ensures reads { ReadsBelow R.is_honest R.is_trusted R.stored R.members R.may_leave R.failed R.is_good self.old
            self.new }
    {
        if self.has_failed {
            return Err(StoreFault::Failed);
        }
        self.inner.read_top()
    }

    fn read_learned(&mut self, position: u32) -> Result<Option<Entry>, StoreFault>
        ensures ok { R.is_honest (inner_of self.new) →
            IfOk result (λ e. learned_of e ≡ (R.stored (inner_of self.new)).learned position) }
        ensures fits { IfOk result (λ e.
            IfSome e (λ x. EntryFits AnyCommand (R.members (inner_of self.old)) (entry_of x))) }
        ensures good { R.is_honest (inner_of self.new) →
            OnOk result (R.is_good (inner_of self.new) (EntryAt position)) }
        ensures bad { R.is_honest (inner_of self.new) → result ≡ Err StoreFault.BadStore →
            R.is_good (inner_of self.old) (EntryAt position) → ⊥ }
        ensures counts { (result ≡ Err StoreFault.Failed) ↔ (0 < failed_in R.failed self.new) }
        ensures reads { ReadsBelow R.is_honest R.is_trusted R.stored R.members R.may_leave R.failed R.is_good self.old
            self.new }
    {
        if self.has_failed {
            return Err(StoreFault::Failed);
        }
        self.inner.read_learned(position)
    }

    fn read_learned_end(&mut self) -> Result<u32, StoreFault>
        ensures ok { R.is_honest (inner_of self.new) →
            IfOk result (λ end. IsEnd (R.stored (inner_of self.new)).learned end) }
        ensures good { R.is_honest (inner_of self.new) → OnOk result (R.is_good (inner_of self.new) LastEntry) }
        ensures bad { R.is_honest (inner_of self.new) → result ≡ Err StoreFault.BadStore →
            R.is_good (inner_of self.old) LastEntry → ⊥ }
        ensures within { IfOk result (λ end. end ≤ positions) }
        ensures named { R.is_honest (inner_of self.new) →
            IfOk result (λ end. NamesGood (R.is_good (inner_of self.new)) EntryAt end) }
        ensures counts { (result ≡ Err StoreFault.Failed) ↔ (0 < failed_in R.failed self.new) }
        ensures reads { ReadsBelow R.is_honest R.is_trusted R.stored R.members R.may_leave R.failed R.is_good self.old
            self.new }
    {
        if self.has_failed {
            return Err(StoreFault::Failed);
        }
        self.inner.read_learned_end()
    }

    // Which commit fails, and how much of it is made, is specified exactly: `before`, `after`, `spared`.
    fn commit(&mut self, change: &Change) -> Result<(), StoreFault>
        requires fits { ChangeFits AnyCommand (R.members (inner_of self.old)) (change_of change.now) }
        requires rises { R.is_honest (inner_of self.old) →
            Rises (change_of change.now) (R.stored (inner_of self.old)) }
        ensures before { IsDue R.failed self.old → when_of self.old ≡ When.Before →
            (result ≡ Err StoreFault.Failed) × (has_failed_of self.new ≡ true) ×
            (inner_of self.new ≡ inner_of self.old) }
        ensures after { IsDue R.failed self.old → when_of self.old ≡ When.After → has_failed_of self.new ≡ true →
            (R.failed (inner_of self.new) ≡ 0) × (R.is_honest (inner_of self.new) →
            R.stored (inner_of self.new) ≡ committed (Some (change_of change.now)) (R.stored (inner_of self.old))) }
        ensures fails { IsDue R.failed self.old → when_of self.old ≡ When.After → (result ≡ Ok tt → ⊥) ×
            (result ≡ Err StoreFault.Failed → (has_failed_of self.new ≡ true) ⊎ R.may_fail (inner_of self.old)) ×
            (result ≡ Err StoreFault.Memory → FailsAlike self.old self.new) }
        ensures spared { IsSpared R.failed self.old → (left_of self.new ≡ left_of self.old - 1) ×
            (has_failed_of self.new ≡ false) × (result ≡ Err StoreFault.Failed → R.may_fail (inner_of self.old)) }
        ensures when { when_of self.new ≡ when_of self.old }
        ensures was { R.is_honest (inner_of self.new) → R.is_honest (inner_of self.old) }
        ensures keeps { R.is_honest (inner_of self.old) → R.is_trusted (inner_of self.new) →
            R.is_honest (inner_of self.new) }
        ensures ok { R.is_honest (inner_of self.new) → OnOk result
            (R.stored (inner_of self.new) ≡ committed (Some (change_of change.now)) (R.stored (inner_of self.old))) }
        ensures memory { R.is_honest (inner_of self.new) → result ≡ Err StoreFault.Memory →
            R.stored (inner_of self.new) ≡ R.stored (inner_of self.old) }
        ensures rows { R.is_honest (inner_of self.new) → failed_in R.failed self.new ≡ 0 → (x : Place) →
            R.is_good (inner_of self.old) x → R.is_good (inner_of self.new) x }
        ensures bad { result ≡ Err StoreFault.BadStore → ⊥ }
        ensures stop { R.is_honest (inner_of self.new) → LeavesOne R.stored R.may_leave (inner_of self.old)
            (inner_of self.new) (change_of change.now) }
        ensures counts { (result ≡ Err StoreFault.Failed) ↔ (0 < failed_in R.failed self.new) }
        ensures later { 0 < failed_in R.failed self.old → self.new ≡ self.old }
        ensures same { R.members (inner_of self.new) ≡ R.members (inner_of self.old) }
    {
        if self.has_failed || self.inner.failures() > 0 {
            return Err(StoreFault::Failed);
        }
        if self.left != 1 {
            self.left = self.left.saturating_sub(1);
            return self.inner.commit(change);
        }
        if self.when == When::After {
            self.inner.commit(change)?;
        }
        self.has_failed = true;
        Err(StoreFault::Failed)
    }
}
