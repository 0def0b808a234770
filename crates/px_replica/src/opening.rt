//! A replica from its record.

ghost use Rattle.std.specs.Prelude.{◌≡◌, ◌≢◌, ◌≤◌, ◌<◌, ◌+◌, ◌↔◌, ℕ, Err, IfErr};
ghost use Rattle.std.specs.Prelude.{IfOk, IfSome, OnOk, None, false};
ghost use Rattle.std.specs.Prelude.{option_map};
ghost use Rattle.px_model.specs.Fits.{Passes, EntryFits};
ghost use Rattle.px_model.specs.Node.{Record};
ghost use Rattle.px_model.specs.Spelling.{Bytes};
ghost use Rattle.px_model.specs.Step.{nothing_volatile, positions};
ghost use Rattle.px_model.specs.World.{started};
ghost use Rattle.px_model.specs.Entries.{entry_of};
ghost use Rattle.px_records.specs.Records.{IsRead, IsEnd, IsStoresFault};
ghost use Rattle.px_records.specs.Records.Place.{LastEntry};
ghost use Rattle.px_wire.specs.Sent.{is_command};
ghost use Rattle.px_replica.specs.inner.Copied.{IsCopied};
ghost use Rattle.px_replica.specs.Calls.{IsBadEntry, HasBadEntry, OpenRefused};
ghost use Rattle.px_replica.specs.Faults.{IsOfStore, SomeFails};
ghost use Rattle.px_replica.specs.Members.{volatile_of, log_of, group_of};
ghost use Rattle.px_replica.specs.Replicas.{records_of, learned_by, membership_of, has_failed, state_in};
ghost use Rattle.px_replica.specs.Seen.{IsSound};
ghost use Rattle.px_core.specs.declared.limits.TheConstants.{MEMBERS};

use crate::act::store_fault;
use crate::fault::NodeFault;
use crate::look::{Looked, is_spelled};
use crate::member::Member;
use crate::state::Replica;
use px_model::Entry;
use px_records::{Records, StoreFault};
use px_wire::Membership;
use std::alloc::Global;

/// The entry that the record has as learned at a position, which has a spelling.
fn learned_at<R: Records>(records: &mut R, members: u8, position: u32) -> Looked<Option<Entry>>
    requires few { members ≤ MEMBERS }
    requires members { R.members records.old ≡ members }
    ensures ok { R.is_honest records.new →
        IfOk result (λ e. option_map entry_of e ≡ (R.stored records.new).learned position) }
    ensures fits { IfOk result (λ e. IfSome e (λ x. EntryFits (Passes is_command) members (entry_of x))) }
    ensures read { IsRead R.is_honest R.stored R.may_leave R.failed R.is_good records.old records.new }
    ensures counts { (result ≡ Err StoreFault.Failed) ↔ (0 < R.failed records.new) }
    ensures why { R.is_honest records.new → IsSound members (R.stored records.old) →
        IsStoresFault result → SomeFails R.may_fail }
    ensures bad { R.is_honest records.new → result ≡ Err StoreFault.BadStore →
        IsBadEntry R.Records records.old members position }
    ensures good { R.is_honest records.new → OnOk result (IsBadEntry R.Records records.old members position → ⊥) }
    ensures same { R.members records.new ≡ R.members records.old }
{
    let Some(entry) = records.read_learned(position)? else {
        return Ok(None);
    };
    if !is_spelled(&entry) {
        return Err(StoreFault::BadStore);
    }
    Ok(Some(entry))
}

/// What the record has as learned at a position joins the member's log.
#[tactic(auto, using(crate::proofs::Copied::copied_some, crate::proofs::Copied::copied_none))]
fn remember_at<R: Records>(records: &mut R, member: &mut Member, position: u32) -> Looked<()>
    requires members { R.members records.old ≡ (group_of member.old).members }
    requires within { position < positions }
    requires nothing { volatile_of member.old ≡ nothing_volatile }
    ensures copied { R.is_honest records.new →
        IsCopied (R.stored records.old).learned (log_of member.old) position →
        OnOk result (IsCopied (R.stored records.old).learned (log_of member.new) (position + 1)) }
    ensures read { IsRead R.is_honest R.stored R.may_leave R.failed R.is_good records.old records.new }
    ensures counts { (result ≡ Err StoreFault.Failed) ↔ (0 < R.failed records.new) }
    ensures why { R.is_honest records.new → IsSound (group_of member.old).members (R.stored records.old) →
        IsStoresFault result → SomeFails R.may_fail }
    ensures bad { R.is_honest records.new → result ≡ Err StoreFault.BadStore →
        IsBadEntry R.Records records.old (group_of member.old).members position }
    ensures good { R.is_honest records.new →
        OnOk result (IsBadEntry R.Records records.old (group_of member.old).members position → ⊥) }
    ensures same { R.members records.new ≡ R.members records.old }
    ensures volatile { volatile_of member.new ≡ volatile_of member.old }
    ensures group { group_of member.new ≡ group_of member.old }
{
    match learned_at(records, member.group().members(), position) {
        Ok(Some(entry)) => match member.remember(position, entry) {
            Ok(()) => Ok(()),
            Err(_) => Err(StoreFault::Memory),
        },
        Ok(None) => Ok(()),
        Err(fault) => Err(fault),
    }
}

/// All that the record has as learned joins the log of a member that has learned nothing.
fn remember_below<R: Records>(records: &mut R, member: &mut Member, end: u32) -> Looked<()>
    requires works { R.failed records.old ≡ 0 }
    requires members { R.members records.old ≡ (group_of member.old).members }
    requires within { end ≤ positions }
    requires nothing { volatile_of member.old ≡ nothing_volatile }
    requires empty { (p : ℕ) → log_of member.old p ≡ None }
    ensures copied { R.is_honest records.new →
        OnOk result (IsCopied (R.stored records.old).learned (log_of member.new) end) }
    ensures read { IsRead R.is_honest R.stored R.may_leave R.failed R.is_good records.old records.new }
    ensures counts { (result ≡ Err StoreFault.Failed) ↔ (0 < R.failed records.new) }
    ensures why { R.is_honest records.new → IsSound (group_of member.old).members (R.stored records.old) →
        IsStoresFault result → SomeFails R.may_fail }
    ensures bad { R.is_honest records.new → result ≡ Err StoreFault.BadStore →
        (p : ℕ) × (p < end) × IsBadEntry R.Records records.old (group_of member.old).members p }
    ensures good { R.is_honest records.new → OnOk result ((p : ℕ) → p < end →
        IsBadEntry R.Records records.old (group_of member.old).members p → ⊥) }
    ensures same { R.members records.new ≡ R.members records.old }
    ensures volatile { volatile_of member.new ≡ volatile_of member.old }
    ensures group { group_of member.new ≡ group_of member.old }
{
    for position in 0..end {
        remember_at(records, member, position)?;
    }
    Ok(())
}

/// One more than the last learned position, at most 1,000,000.
fn learned_end<R: Records>(records: &mut R) -> Result<u32, StoreFault>
    ensures ok { R.is_honest records.new → IfOk result (λ end. (p : ℕ) → end ≤ p →
        (R.stored records.new).learned p ≡ None) }
    ensures within { IfOk result (λ end. end ≤ positions) }
    ensures read { IsRead R.is_honest R.stored R.may_leave R.failed R.is_good records.old records.new }
    ensures counts { (result ≡ Err StoreFault.Failed) ↔ (0 < R.failed records.new) }
    ensures why { (n : ℕ) → R.is_honest records.new → IsSound n (R.stored records.old) →
        IsStoresFault result → SomeFails R.may_fail }
    ensures bad { R.is_honest records.new → result ≡ Err StoreFault.BadStore → R.is_good records.old LastEntry → ⊥ }
    ensures good { R.is_honest records.new → OnOk result (R.is_good records.old LastEntry) }
    ensures last { R.is_honest records.new → IfOk result (λ end. IsEnd (R.stored records.new).learned end) }
    ensures same { R.members records.new ≡ R.members records.old }
{
    records.read_learned_end()
}

/// Reads the round and all that was learned. Answers the round.
#[tactic(auto, using(crate::proofs::Copied::copied_all))]
fn read_kept<R: Records>(records: &mut R, member: &mut Member) -> Result<u64, StoreFault>
    requires members { R.members records.old ≡ (group_of member.old).members }
    requires nothing { volatile_of member.old ≡ nothing_volatile }
    requires empty { (p : ℕ) → log_of member.old p ≡ None }
    ensures learned { R.is_honest records.new → OnOk result ((R.stored records.old).learned ≡ log_of member.new) }
    ensures round { R.is_honest records.new → IfOk result (λ r. r ≡ (R.stored records.old).meta.round) }
    ensures read { IsRead R.is_honest R.stored R.may_leave R.failed R.is_good records.old records.new }
    ensures counts { (result ≡ Err StoreFault.Failed) ↔ (0 < R.failed records.new) }
    ensures why { R.is_honest records.new → IsSound (group_of member.old).members (R.stored records.old) →
        IsStoresFault result → SomeFails R.may_fail }
    ensures bad { R.is_honest records.new → result ≡ Err StoreFault.BadStore →
        HasBadEntry R.Records records.old (group_of member.old).members }
    ensures good { R.is_honest records.new →
        OnOk result (HasBadEntry R.Records records.old (group_of member.old).members → ⊥) }
    ensures same { R.members records.new ≡ R.members records.old }
    ensures volatile { volatile_of member.new ≡ volatile_of member.old }
    ensures group { group_of member.new ≡ group_of member.old }
{
    let meta = match records.read_meta() {
        Ok(meta) => meta,
        Err(fault) => return Err(fault),
    };
    let end = match learned_end(records) {
        Ok(end) => end,
        Err(fault) => return Err(fault),
    };
    match remember_below(records, member, end) {
        Ok(()) => Ok(meta.round),
        Err(fault) => Err(fault),
    }
}

impl<R: Records> Replica<R> {
    /// The member that a restart makes of its record: it has what the record has as learned, and nothing else.
    ///
    /// A refusal gives the record back: `Store`, `BadStore` for a row that no commit writes or an entry that has no
    /// spelling, or `Memory`; but for `Store` the record is then as it was. A record of which a row that is read is
    /// such a one isn't opened.
    pub fn open(alloc: Global, m: Membership, records: R) -> Result<Replica<R>, (NodeFault, R)>
        requires members { R.members records ≡ m.members }
        requires here { m.me < m.members }
        ensures state { IfOk result (λ r. R.is_honest (records_of r) → state_in r ≡ started (R.stored records)) }
        ensures learned { IfOk result (λ r. R.is_honest (records_of r) → learned_by r ≡
            (R.stored records).learned) }
        ensures works { IfOk result (λ r. has_failed r ≡ false) }
        ensures membership { IfOk result (λ r. membership_of r ≡ m) }
        ensures was { IfOk result (λ r. R.is_honest (records_of r) → R.is_honest records) }
        ensures stop { IfOk result (λ r. R.is_honest (records_of r) → (left : Record Bytes) →
            R.may_leave (records_of r) left → R.may_leave records left) }
        ensures good { IfOk result (λ r. R.is_honest (records_of r) → HasBadEntry R.Records records m.members → ⊥) }
        ensures refused { IfErr result (λ e. OpenRefused R.Records m.members records e.0 e.1) }
    {
        let mut records = records;
        let mut member = match Member::new(alloc, m) {
            Ok(member) => member,
            Err(_) => return Err((NodeFault::Memory, records)),
        };
        match read_kept(&mut records, &mut member) {
            Ok(round) => Ok(Replica {
                records,
                member,
                round,
                is_failed: false,
                alloc,
            }),
            Err(fault) => Err((store_fault(fault), records)),
        }
    }
}
