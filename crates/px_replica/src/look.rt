//! What a step reads of the record.

ghost use Rattle.std.specs.Prelude.{◌≡◌, ◌≤◌, ◌<◌, ◌^◌, ◌↔◌, ℕ, Err, IfOk, OnOk, IsTrue, true};
ghost use Rattle.pf_entry.specs.Entry.{is_origin};
ghost use Rattle.px_model.specs.Bounds.{AnyCommand};
ghost use Rattle.px_model.specs.Entries.{entry_of};
ghost use Rattle.px_model.specs.Fits.{Passes, EntryFits, SlotFits, MetaFits, RecordFits};
ghost use Rattle.px_model.specs.Seen.{meta_of, slot_of};
ghost use Rattle.px_model.specs.Node as node;
ghost use Rattle.px_model.specs.Spelling.{Bytes, spelled};
ghost use Rattle.px_model.specs.Step.{top, positions};
ghost use Rattle.px_model.specs.Seen as views;
ghost use Rattle.px_records.specs.Records.{IsRead, IsStoresFault};
ghost use Rattle.px_records.specs.Records.Place.{LastSlot};
ghost use Rattle.px_wire.specs.Sent.{is_command};
ghost use Rattle.px_replica.specs.Calls.{IsBadSlot, AreBad};
ghost use Rattle.px_replica.specs.Faults.{SomeFails};
ghost use Rattle.px_replica.specs.Seen.{IsSound};
ghost use Rattle.px_replica.specs.inner.Seen.{IsSeen, SeenFits};
ghost use Rattle.px_core.specs.declared.limits.TheConstants.{MEMBERS};

use pf_entry::decode;
use px_model::{Entry, Meta, Reads, Slot};
use px_records::{Records, StoreFault};

/// What is read of a record.
pub(crate) type Looked<T> = Result<T, StoreFault>;

/// A record, as far as a step reads it.
#[derive(Drop)]
pub(crate) struct Seen {
    pub(crate) meta: Meta,
    pub(crate) slot: Slot,
    pub(crate) top: u32,
}

/// Whether the bytes of an entry spell it.
fn is_decoded(bytes: &[u8]) -> bool
    ensures { (e : node.Entry Bytes) → bytes.now ≡ spelled e → IsTrue (is_origin e.origin) →
        e.number < 2 ^ 48 →
        result ≡ is_command e.command }
{
    decode(bytes).is_ok()
}

/// Whether the entry's command has a spelling.
pub(crate) fn is_spelled(entry: &Entry) -> bool
    requires origin { IsTrue (is_origin (entry_of entry.now).origin) }
    requires number { (entry_of entry.now).number < 2 ^ 48 }
    ensures { result ≡ is_command (entry_of entry.now).command }
{
    is_decoded(entry.bytes())
}

/// Whether what was accepted there has a spelling.
fn has_spelling(members: u8, slot: &Slot) -> bool
    requires few { members ≤ MEMBERS }
    requires fits { SlotFits AnyCommand members (slot_of slot.now) }
    ensures { IsTrue result ↔ SlotFits (Passes is_command) members (slot_of slot.now) }
{
    match &slot.accepted {
        None => true,
        Some(proposal) => is_spelled(&proposal.entry),
    }
}

/// The slot of a position, whose entry has a spelling.
fn slot_at<R: Records>(records: &mut R, members: u8, position: u32) -> Result<Slot, StoreFault>
    requires few { members ≤ MEMBERS }
    requires members { R.members records.old ≡ members }
    ensures ok { R.is_honest records.new → IfOk result (λ s. slot_of s ≡ (R.stored records.new).slots position) }
    ensures fits { IfOk result (λ s. SlotFits (Passes is_command) members (slot_of s)) }
    ensures read { IsRead R.is_honest R.stored R.may_leave R.failed R.is_good records.old records.new }
    ensures counts { (result ≡ Err StoreFault.Failed) ↔ (0 < R.failed records.new) }
    ensures why { R.is_honest records.new → IsSound members (R.stored records.old) →
        IsStoresFault result → SomeFails R.may_fail }
    ensures bad { R.is_honest records.new → result ≡ Err StoreFault.BadStore →
        IsBadSlot R.Records records.old members position }
    ensures good { R.is_honest records.new → OnOk result (IsBadSlot R.Records records.old members position → ⊥) }
    ensures same { R.members records.new ≡ R.members records.old }
{
    let slot = records.read_slot(position)?;
    if !has_spelling(members, &slot) {
        return Err(StoreFault::BadStore);
    }
    Ok(slot)
}

/// The top, which is at most 1,000,000.
fn top_of<R: Records>(records: &mut R) -> Result<u32, StoreFault>
    ensures ok { R.is_honest records.new → IfOk result (λ t. t ≡ top (R.stored records.new).slots) }
    ensures within { IfOk result (λ t. t ≤ positions) }
    ensures read { IsRead R.is_honest R.stored R.may_leave R.failed R.is_good records.old records.new }
    ensures counts { (result ≡ Err StoreFault.Failed) ↔ (0 < R.failed records.new) }
    ensures why { R.is_honest records.new → IsStoresFault result → SomeFails R.may_fail }
    ensures bad { R.is_honest records.new → result ≡ Err StoreFault.BadStore →
        R.is_good records.old LastSlot → ⊥ }
    ensures good { R.is_honest records.new → OnOk result (R.is_good records.old LastSlot) }
    ensures same { R.members records.new ≡ R.members records.old }
{
    records.read_top()
}

/// The slot and the top where they are read, else an empty slot and 0.
fn look_beside<R: Records>(records: &mut R, members: u8, reads: Reads) -> Looked<(Slot, u32)>
    requires works { R.failed records.old ≡ 0 }
    requires few { members ≤ MEMBERS }
    requires members { R.members records.old ≡ members }
    ensures ok { R.is_honest records.new →
        IfOk result (λ s. views.IsRead reads (R.stored records.old) (slot_of s.0) s.1) }
    ensures fits { IfOk result (λ s. SlotFits (Passes is_command) members (slot_of s.0) × (s.1 ≤ positions)) }
    ensures read { IsRead R.is_honest R.stored R.may_leave R.failed R.is_good records.old records.new }
    ensures counts { (result ≡ Err StoreFault.Failed) ↔ (0 < R.failed records.new) }
    ensures why { R.is_honest records.new → IsSound members (R.stored records.old) →
        IsStoresFault result → SomeFails R.may_fail }
    ensures bad { R.is_honest records.new → result ≡ Err StoreFault.BadStore →
        AreBad R.Records records.old members reads }
    ensures good { R.is_honest records.new → OnOk result (AreBad R.Records records.old members reads → ⊥) }
    ensures same { R.members records.new ≡ R.members records.old }
{
    match reads {
        Reads::Nothing => {
            let slot = Slot {
                promised: 0,
                accepted: None,
            };
            Ok((slot, 0))
        }
        Reads::Slot(position) => {
            let slot = slot_at(records, members, position)?;
            Ok((slot, 0))
        }
        Reads::SlotAndTop(position) => {
            let slot = slot_at(records, members, position)?;
            Ok((slot, top_of(records)?))
        }
    }
}

/// The numbers, and the slot and the top where they are read. `BadStore` also for an entry that has no spelling.
pub(crate) fn look<R: Records>(records: &mut R, members: u8, reads: Reads) -> Looked<Seen>
    requires few { members ≤ MEMBERS }
    requires members { R.members records.old ≡ members }
    ensures ok { R.is_honest records.new → IfOk result (λ s. IsSeen (R.stored records.old) reads s) }
    ensures fits { IfOk result (λ s. SeenFits members s) }
    ensures read { IsRead R.is_honest R.stored R.may_leave R.failed R.is_good records.old records.new }
    ensures counts { (result ≡ Err StoreFault.Failed) ↔ (0 < R.failed records.new) }
    ensures why { R.is_honest records.new → IsSound members (R.stored records.old) →
        IsStoresFault result → SomeFails R.may_fail }
    ensures bad { R.is_honest records.new → result ≡ Err StoreFault.BadStore →
        AreBad R.Records records.old members reads }
    ensures good { R.is_honest records.new → OnOk result (AreBad R.Records records.old members reads → ⊥) }
    ensures same { R.members records.new ≡ R.members records.old }
{
    let meta = records.read_meta()?;
    let (slot, top) = look_beside(records, members, reads)?;
    Ok(Seen { meta, slot, top })
}
