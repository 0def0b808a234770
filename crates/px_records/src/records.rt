//! What a node requires of the keeper of its record.

ghost use Rattle.std.specs.Prelude.{◌≡◌, ◌<◌, ◌≤◌, ◌↔◌, ℕ, Some, Err, IfOk, OnOk, IfSome};
ghost use Rattle.px_model.specs.Bounds.{AnyCommand};
ghost use Rattle.px_model.specs.Node.{Record};
ghost use Rattle.px_model.specs.Step.{commit as committed, top, positions};
ghost use Rattle.px_model.specs.Spelling.{Bytes};
ghost use Rattle.px_model.specs.Fits.{MetaFits, SlotFits, EntryFits, ChangeFits};
ghost use Rattle.px_model.specs.Entries.{entry_of};
ghost use Rattle.px_model.specs.Seen.{meta_of, slot_of, change_of};
ghost use Rattle.px_records.specs.Records.{learned_of, Place, NamesGood, IsEnd, Rises};
ghost use Rattle.px_records.specs.Records.{IsStoresFault, IsRead, LeavesOne};
ghost use Rattle.px_records.specs.Records.Place.{SlotAt, EntryAt, LastSlot, LastEntry};

use px_model::{Change, Entry, Meta, Slot};
use thiserror::Error;

/// Why a call on a record is refused.
#[derive(Clone, Copy, Debug, PartialEq, Eq, Error)]
pub enum StoreFault {
    /// Out of memory. Nothing has changed.
    #[error("out of memory")]
    Memory,
    /// 70: the store has failed, at this call or before. Every later call answers the same and changes nothing; a call
    /// that commits has made its change whole or not at all, and which of the two only the next opening shows.
    #[error("the store has failed")]
    Failed,
    /// 72: what is read is a row that no commit writes. Nothing has changed.
    #[error("the store holds a bad row")]
    BadStore,
}

/// What a node keeps over a restart: a round, a number, a floor, and for each position a slot and the learned entry.
///
/// The record is total: where a row is bad it has some reading, and the call that reads the row answers `BadStore`.
/// Clauses on values hold while the keeper is honest: it returns what was written and nobody else writes. No call
/// makes it dishonest: it stays honest while what it depends on can be trusted.
///
/// Source: Paxos Made Simple, 2.5.
pub trait Records {
    // What is stated about the record holds. It is required as the call ends, and was then true before.
    ghost is_honest: { Self → Type 0 };

    // What the keeper depends on and can't answer for, as a disk, has returned what was written. A call leaves an
    // honest keeper honest wherever this holds as it ends.
    ghost is_trusted: { Self → Type 0 };

    // The present record, while no call has failed.
    ghost stored: { Self → Record Bytes };

    // How many members the record speaks of.
    ghost members: { Self → ℕ };

    // What the next opening may find after a stop at this moment.
    ghost may_leave: { Self → Record Bytes → Type 0 };

    // How many calls have failed.
    ghost failed: { Self → ℕ };

    // A call may answer `Failed` or `BadStore`.
    ghost may_fail: { Self → Type 0 };

    // The row read there is one that a commit may have written.
    ghost is_good: { Self → Place → Type 0 };

    /// How many calls have failed, 0 at first. Once it is above 0 every other call answers `Failed`.
    fn failures(&self) -> u64
        ensures { result ≡ failed self.now };

    /// The round, the number and the floor. `BadStore` doesn't come.
    fn read_meta(&mut self) -> Result<Meta, StoreFault>
        ensures ok { is_honest self.new → IfOk result (λ m. meta_of m ≡ (stored self.new).meta) }
        ensures fits { IfOk result (λ m. MetaFits (members self.old) (meta_of m)) }
        ensures bad { result ≡ Err StoreFault.BadStore → ⊥ }
        ensures read { IsRead is_honest stored may_leave failed is_good self.old self.new }
        ensures keeps { is_honest self.old → is_trusted self.new → is_honest self.new }
        ensures counts { (result ≡ Err StoreFault.Failed) ↔ (0 < failed self.new) }
        ensures why { result ≡ Err StoreFault.Failed → may_fail self.old }
        ensures later { 0 < failed self.old → self.new ≡ self.old }
        ensures same { members self.new ≡ members self.old };

    /// The slot of a position. `BadStore` is for a row that no commit writes.
    fn read_slot(&mut self, position: u32) -> Result<Slot, StoreFault>
        ensures ok { is_honest self.new → IfOk result (λ s. slot_of s ≡ (stored self.new).slots position) }
        ensures fits { IfOk result (λ s. SlotFits AnyCommand (members self.old) (slot_of s)) }
        ensures good { is_honest self.new → OnOk result (is_good self.new (SlotAt position)) }
        ensures bad { is_honest self.new → result ≡ Err StoreFault.BadStore →
            is_good self.old (SlotAt position) → ⊥ }
        ensures read { IsRead is_honest stored may_leave failed is_good self.old self.new }
        ensures keeps { is_honest self.old → is_trusted self.new → is_honest self.new }
        ensures counts { (result ≡ Err StoreFault.Failed) ↔ (0 < failed self.new) }
        ensures why { IsStoresFault result → may_fail self.old }
        ensures later { 0 < failed self.old → self.new ≡ self.old }
        ensures same { members self.new ≡ members self.old };

    /// One more than the greatest position with an accepted proposal, else 0. `BadStore` is for a last such row that no
    /// commit writes, or one whose position isn't below 1,000,000.
    fn read_top(&mut self) -> Result<u32, StoreFault>
        ensures ok { is_honest self.new → IfOk result (λ t. t ≡ top (stored self.new).slots) }
        ensures good { is_honest self.new → OnOk result (is_good self.new LastSlot) }
        ensures bad { is_honest self.new → result ≡ Err StoreFault.BadStore → is_good self.old LastSlot → ⊥ }
        ensures within { IfOk result (λ t. t ≤ positions) }
        ensures named { is_honest self.new → IfOk result (λ t. NamesGood (is_good self.new) SlotAt t) }
        ensures read { IsRead is_honest stored may_leave failed is_good self.old self.new }
        ensures keeps { is_honest self.old → is_trusted self.new → is_honest self.new }
        ensures counts { (result ≡ Err StoreFault.Failed) ↔ (0 < failed self.new) }
        ensures why { IsStoresFault result → may_fail self.old }
        ensures later { 0 < failed self.old → self.new ≡ self.old }
        ensures same { members self.new ≡ members self.old };

    /// The entry learned at a position. `BadStore` is for a row that no commit writes.
    fn read_learned(&mut self, position: u32) -> Result<Option<Entry>, StoreFault>
        ensures ok { is_honest self.new → IfOk result (λ e. learned_of e ≡ (stored self.new).learned position) }
        ensures fits { IfOk result (λ e. IfSome e (λ x. EntryFits AnyCommand (members self.old) (entry_of x))) }
        ensures good { is_honest self.new → OnOk result (is_good self.new (EntryAt position)) }
        ensures bad { is_honest self.new → result ≡ Err StoreFault.BadStore →
            is_good self.old (EntryAt position) → ⊥ }
        ensures read { IsRead is_honest stored may_leave failed is_good self.old self.new }
        ensures keeps { is_honest self.old → is_trusted self.new → is_honest self.new }
        ensures counts { (result ≡ Err StoreFault.Failed) ↔ (0 < failed self.new) }
        ensures why { IsStoresFault result → may_fail self.old }
        ensures later { 0 < failed self.old → self.new ≡ self.old }
        ensures same { members self.new ≡ members self.old };

    /// One more than the greatest position with a learned entry, else 0. `BadStore` is for a last row that no commit
    /// writes, or one whose position isn't below 1,000,000.
    fn read_learned_end(&mut self) -> Result<u32, StoreFault>
        ensures ok { is_honest self.new → IfOk result (λ end. IsEnd (stored self.new).learned end) }
        ensures good { is_honest self.new → OnOk result (is_good self.new LastEntry) }
        ensures bad { is_honest self.new → result ≡ Err StoreFault.BadStore → is_good self.old LastEntry → ⊥ }
        ensures within { IfOk result (λ end. end ≤ positions) }
        ensures named { is_honest self.new → IfOk result (λ end. NamesGood (is_good self.new) EntryAt end) }
        ensures read { IsRead is_honest stored may_leave failed is_good self.old self.new }
        ensures keeps { is_honest self.old → is_trusted self.new → is_honest self.new }
        ensures counts { (result ≡ Err StoreFault.Failed) ↔ (0 < failed self.new) }
        ensures why { IsStoresFault result → may_fail self.old }
        ensures later { 0 < failed self.old → self.new ≡ self.old }
        ensures same { members self.new ≡ members self.old };

    /// Makes one change, whole or not at all. After `Ok` the record has it and nothing else differs; after `Memory` it
    /// is as it was. After both a row that was good is good. `BadStore` doesn't come: a row that can't be replaced is a
    /// failure.
    fn commit(&mut self, change: &Change) -> Result<(), StoreFault>
        requires fits { ChangeFits AnyCommand (members self.old) (change_of change.now) }
        requires rises { is_honest self.old → Rises (change_of change.now) (stored self.old) }
        ensures was { is_honest self.new → is_honest self.old }
        ensures keeps { is_honest self.old → is_trusted self.new → is_honest self.new }
        ensures ok { is_honest self.new →
            OnOk result (stored self.new ≡ committed (Some (change_of change.now)) (stored self.old)) }
        ensures memory { is_honest self.new → result ≡ Err StoreFault.Memory → stored self.new ≡
            stored self.old }
        ensures rows { is_honest self.new → failed self.new ≡ 0 →
            (x : Place) → is_good self.old x → is_good self.new x }
        ensures bad { result ≡ Err StoreFault.BadStore → ⊥ }
        ensures stop { is_honest self.new → LeavesOne stored may_leave self.old self.new (change_of change.now) }
        ensures counts { (result ≡ Err StoreFault.Failed) ↔ (0 < failed self.new) }
        ensures why { result ≡ Err StoreFault.Failed → may_fail self.old }
        ensures later { 0 < failed self.old → self.new ≡ self.old }
        ensures same { members self.new ≡ members self.old };

    // While no call has failed a stop leaves the present record.
    ghost settled: { (r : Self) → is_honest r → failed r ≡ 0 → (d : Record Bytes) → may_leave r d →
        d ≡ stored r };

    // And it leaves that at the least.
    ghost stays: { (r : Self) → is_honest r → failed r ≡ 0 → may_leave r (stored r) };
}
