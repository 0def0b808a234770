//! One step of a node: read, plan, spell, reserve, commit, settle, hand out.

ghost use Rattle.std.specs.Prelude.{◌≡◌, ◌≢◌, ◌⊎◌, ◌↔◌, ◌<◌, ◌≤◌, ℕ, Err, IfErr};
ghost use Rattle.std.specs.Prelude.{IfOk, IfSome, OnErr, OnOk};
ghost use Rattle.std.specs.Prelude.{◌+◌, length, option_map};
ghost use Rattle.px_model.specs.Bounds.{AnyCommand};
ghost use Rattle.px_model.specs.Node.{Record};
ghost use Rattle.px_model.specs.Step.{commit, front};
ghost use Rattle.px_model.specs.Fits.{Passes, ChangeFits, InputFits};
ghost use Rattle.px_model.specs.Spelling.{Bytes};
ghost use Rattle.px_model.specs.Seen.{change_of, input_of, reads_of};
ghost use Rattle.px_records.specs.Records.{Rises};
ghost use Rattle.px_wire.specs.Message.{group};
ghost use Rattle.px_wire.specs.Sent.{is_command};
ghost use Rattle.px_replica.specs.Calls.{AreBad};
ghost use Rattle.px_replica.specs.Faults.{fault_of, IsOfBadRow, IsOpenFault, IsRefusedBy};
ghost use Rattle.px_replica.specs.inner.Faults.{fault_of_store, fault_of_core, IsFromBelow, IsStoreFault};
ghost use Rattle.px_replica.specs.Faults.{SomeFails};
ghost use Rattle.px_replica.specs.Made.{answer, running, Makes, LeavesOne};
ghost use Rattle.px_replica.specs.Members.{volatile_of, log_of, group_of};
ghost use Rattle.px_replica.specs.Seen.{IsSound};
ghost use Rattle.px_core.specs.declared.limits.TheConstants.{MEMBERS};

use crate::datagram::Datagram;
use crate::fault::NodeFault;
use crate::look::look;
use crate::member::Member;
use crate::spelling::{hand_out, spelled};
use px_core::CoreFault;
use px_model::{Change, Event};
use px_records::{Records, StoreFault};
use std::alloc::Global;

pub(crate) fn store_fault(fault: StoreFault) -> NodeFault
    ensures value { result ≡ fault_of_store fault }
    ensures own { IsFromBelow result }
    ensures read { IsOpenFault result }
{
    match fault {
        StoreFault::Memory => NodeFault::Memory,
        StoreFault::Failed => NodeFault::Store,
        StoreFault::BadStore => NodeFault::BadStore,
    }
}

fn core_fault(fault: CoreFault) -> NodeFault
    ensures value { result ≡ fault_of_core fault }
    ensures own { IsFromBelow result }
{
    match fault {
        CoreFault::Memory => NodeFault::Memory,
        CoreFault::Full => NodeFault::Full,
        CoreFault::BallotsSpent => NodeFault::BallotsSpent,
        CoreFault::PositionsSpent => NodeFault::PositionsSpent,
    }
}

/// What a step reports of the record: the next number before it, the round after it.
#[derive(Clone, Copy)]
pub(crate) struct Acted {
    pub(crate) number: u64,
    pub(crate) round: u64,
}

/// The round after a change.
fn round_after(round: u64, change: &Option<Change>) -> u64
    ensures { (d : Record Bytes) → round ≡ d.meta.round →
        result ≡ (commit (option_map change_of change.now) d).meta.round }
{
    match change {
        Some(Change::Round(next)) => *next,
        _ => round,
    }
}

/// Commits the change, if there is one.
fn commit_change<R: Records>(records: &mut R, change: &Option<Change>) -> Result<(), StoreFault>
    requires works { R.failed records.old ≡ 0 }
    requires fits { IfSome (option_map change_of change.now) (λ x. ChangeFits AnyCommand (R.members records.old) x) }
    requires rises { R.is_honest records.old →
        IfSome (option_map change_of change.now) (λ x. Rises x (R.stored records.old)) }
    ensures was { R.is_honest records.new → R.is_honest records.old }
    ensures ok { R.is_honest records.new →
        OnOk result (R.stored records.new ≡ commit (option_map change_of change.now) (R.stored records.old)) }
    ensures memory { R.is_honest records.new →
        result ≡ Err StoreFault.Memory → R.stored records.new ≡ R.stored records.old }
    ensures stop { R.is_honest records.new → (d : Record Bytes) → R.may_leave records.new d →
        R.may_leave records.old d ⊎ (d ≡ commit (option_map change_of change.now) (R.stored records.old)) }
    ensures counts { (result ≡ Err StoreFault.Failed) ↔ (0 < R.failed records.new) }
    ensures why { result ≡ Err StoreFault.Failed → SomeFails R.may_fail }
    ensures bad { result ≡ Err StoreFault.BadStore → ⊥ }
    ensures same { R.members records.new ≡ R.members records.old }
{
    match change {
        None => Ok(()),
        Some(change) => records.commit(change),
    }
}

/// One step of the model from bytes to bytes. All memory is taken before the commit.
pub(crate) fn act<R: Records>(
    alloc: Global,
    records: &mut R,
    member: &mut Member,
    event: &Event,
    out: &mut Vec<Datagram>,
) -> Result<Acted, NodeFault>
    requires works { R.failed records.old ≡ 0 }
    requires members { R.members records.old ≡ (group_of member.old).members }
    requires agrees { R.is_honest records.old → (R.stored records.old).learned ≡ log_of member.old }
    requires event { InputFits (Passes is_command) (group_of member.old).members (group_of member.old).me
        (input_of event.now) }
    ensures was { R.is_honest records.new → R.is_honest records.old }
    ensures made { R.is_honest records.new → OnOk result (Makes (group (group_of member.old)) (group_of member.old).me
        (running (R.stored records.old) (volatile_of member.old))
        (running (R.stored records.new) (volatile_of member.new))
        (input_of event.now) out.old.items out.new.items) }
    ensures refused { R.is_honest records.new → IfErr result (λ e. IsRefusedBy e
        (answer (group_of member.old).members (group_of member.old).me
        (running (R.stored records.old) (volatile_of member.old)) (input_of event.now))) }
    ensures number { R.is_honest records.new → IfOk result (λ a. a.number ≡ (R.stored records.old).meta.number) }
    ensures round { R.is_honest records.new → IfOk result (λ a. a.round ≡ (R.stored records.new).meta.round) }
    ensures own { IfErr result IsFromBelow }
    ensures stays { R.is_honest records.new →
        OnErr result (result ≢ Err NodeFault.Store → R.stored records.new ≡ R.stored records.old) }
    ensures volatile { OnErr result (volatile_of member.new ≡ volatile_of member.old) }
    ensures log { OnErr result (log_of member.new ≡ log_of member.old) }
    ensures out { OnErr result (out.new.items ≡ out.old.items) }
    ensures few { OnOk result (length out.new.items ≤ length out.old.items + MEMBERS) }
    ensures agrees { R.is_honest records.new → OnOk result ((R.stored records.new).learned ≡ log_of member.new) }
    ensures below { (p : ℕ) → p < front (log_of member.old) → log_of member.new p ≡ log_of member.old p }
    ensures front { front (log_of member.old) ≤ front (log_of member.new) }
    ensures stop { R.is_honest records.new → (left : Record Bytes) → R.may_leave records.new left →
        LeavesOne (group_of member.old).members (group_of member.old).me
        (running (R.stored records.old) (volatile_of member.old)) (input_of event.now) left }
    ensures counts { (result ≡ Err NodeFault.Store) ↔ (0 < R.failed records.new) }
    ensures why { R.is_honest records.new → IsSound (group_of member.old).members (R.stored records.old) →
        IsStoreFault result → SomeFails R.may_fail }
    ensures bad { R.is_honest records.new → result ≡ Err NodeFault.BadStore →
        AreBad R.Records records.old (group_of member.old).members (reads_of (input_of event.now)) }
    ensures reported { R.is_honest records.new →
        AreBad R.Records records.old (group_of member.old).members (reads_of (input_of event.now)) →
        IsOfBadRow (fault_of result) }
    ensures sound { R.is_honest records.new → IsSound (group_of member.old).members (R.stored records.old) →
        OnOk result (IsSound (group_of member.old).members (R.stored records.new)) }
    ensures same { R.members records.new ≡ R.members records.old }
    ensures group { group_of member.new ≡ group_of member.old }
{
    let m = member.group();
    let seen = match look(records, m.members(), event.reads()) {
        Ok(seen) => seen,
        Err(fault) => return Err(store_fault(fault)),
    };
    let plan = match member.plan(&seen, event) {
        Ok(plan) => plan,
        Err(fault) => return Err(core_fault(fault)),
    };
    let mut staged = match spelled(alloc, &m, &plan.sends) {
        Ok(staged) => staged,
        Err(_) => return Err(NodeFault::Memory),
    };
    if out.reserve(staged.len()).is_err() {
        return Err(NodeFault::Memory);
    }
    if let Err(fault) = commit_change(records, &plan.change) {
        return Err(store_fault(fault));
    }
    let acted = Acted {
        number: seen.meta.number,
        round: round_after(seen.meta.round, &plan.change),
    };
    let _sends = member.settle(plan);
    hand_out(out, &mut staged);
    Ok(acted)
}
