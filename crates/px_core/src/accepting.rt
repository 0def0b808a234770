//! The acceptor's answers (Paxos Made Simple, 2.2, phases 1b and 2b; section 3 for a promise at all positions).
ghost use Rattle.std.specs.Prelude.{◌≡◌, ℕ, IfOk, option_map};
ghost use Rattle.px_model.specs.Node.{Volatile, Log};
ghost use Rattle.px_model.specs.Step.{on_accept, on_prepare, on_prepare_all, promised_at};
ghost use Rattle.px_model.specs.Spelling.{Bytes};
ghost use Rattle.px_model.specs.Entries.{entry_of, view_of};
ghost use Rattle.px_core.specs.declared.state.Core.{Core};
ghost use Rattle.px_model.specs.Seen.{proposal_of, slot_of, meta_of};
ghost use Rattle.px_core.specs.Planning.{IsFor};
ghost use Rattle.px_core.specs.inner.Seen.{plan_of};

use crate::plan::{Next, Plan, PlanResult, Reported, Sends};
use px_model::{Change, Entry, EntryView, Message, Meta, Proposal, Slot};
use std::alloc::{AllocError, Global};

/// A copy of an accepted or reported proposal, which shares the entry's bytes.
pub(crate) fn share_proposal(accepted: &Reported) -> Result<Reported, AllocError>
    ensures { IfOk result (λ x. option_map proposal_of x ≡ option_map proposal_of accepted.now) }
{
    let Some(proposal) = accepted else {
        return Ok(None);
    };
    let entry = proposal.entry.share()?;
    Ok(Some(Proposal { entry, ..*proposal }))
}

/// The acceptor at one position, as it is in the record, and the top of the whole record.
#[derive(Clone, Copy)]
pub(crate) struct Acceptor<'a> {
    pub(crate) meta: &'a Meta,
    pub(crate) slot: &'a Slot,
    pub(crate) top: u32,
}

/// The answer that refuses: the ballot promised already.
fn refusal(to: u8, ballot: u64, position: u32, promised: u64) -> Plan
    ensures { result ≡ record {
      change = None;
      sends = Sends.One to (Message.Nack ballot position promised);
      next = Next.Same;
    } }
{
    let message = Message::Nack(ballot, position, promised);
    Plan::new(None, Sends::One(to, message), Next::Same)
}

impl Acceptor<'_> {
    /// The greatest ballot promised, at the position or at all.
    fn promised(&self) -> u64
        ensures { result ≡ promised_at (meta_of self.now.meta.now) (slot_of self.now.slot.now) }
    {
        self.meta.floor.max(self.slot.promised)
    }

    /// A prepare request for one position.
    #[tactic(auto, unfolding(px_model::specs::Step::on_prepare))]
    pub(crate) fn prepare(&self, to: u8, ballot: u64, position: u32) -> PlanResult
        ensures room { IfOk result (λ plan. (core : Core) → IsFor plan core) }
        ensures step { IfOk result (λ plan. (n me : ℕ) (log : Log Bytes) (v : Volatile Bytes) →
            plan_of n me log v plan ≡
            on_prepare me (meta_of self.now.meta.now) (slot_of self.now.slot.now) v to ballot position) }
    {
        let promised = self.promised();
        if ballot <= promised {
            return Ok(refusal(to, ballot, position, promised));
        }
        let accepted = share_proposal(&self.slot.accepted)?;
        let message = Message::Promise(ballot, position, accepted);
        let change = Some(Change::Promised(position, ballot));
        Ok(Plan::new(change, Sends::One(to, message), Next::Same))
    }

    /// A prepare request for all positions. From the top on nothing is accepted.
    #[tactic(auto, unfolding(px_model::specs::Step::on_prepare_all))]
    pub(crate) fn prepare_all(&self, to: u8, ballot: u64, position: u32) -> PlanResult
        ensures room { IfOk result (λ plan. (core : Core) → IsFor plan core) }
        ensures step { IfOk result (λ plan. (n me : ℕ) (log : Log Bytes) (v : Volatile Bytes) →
            plan_of n me log v plan ≡
            on_prepare_all me (meta_of self.now.meta.now) (slot_of self.now.slot.now) self.now.top v to ballot
            position) }
    {
        let promised = self.promised();
        if ballot <= promised {
            return Ok(refusal(to, ballot, position, promised));
        }
        let accepted = share_proposal(&self.slot.accepted)?;
        let message = Message::PromiseAll(ballot, position, self.top, accepted);
        let change = Some(Change::Floor(ballot));
        Ok(Plan::new(change, Sends::One(to, message), Next::Same))
    }

    /// An accept request.
    #[tactic(auto, unfolding(px_model::specs::Step::on_accept))]
    pub(crate) fn accept(
        &self,
        alloc: Global,
        to: u8,
        ballot: u64,
        position: u32,
        entry: &EntryView,
    ) -> PlanResult
        ensures room { IfOk result (λ plan. (core : Core) → IsFor plan core) }
        ensures step { IfOk result (λ plan. (n me : ℕ) (log : Log Bytes) (v : Volatile Bytes) →
            plan_of n me log v plan ≡
            on_accept n me (meta_of self.now.meta.now) (slot_of self.now.slot.now) v to ballot position
            (view_of entry.now)) }
    {
        let promised = self.promised();
        if ballot < promised {
            return Ok(refusal(to, ballot, position, promised));
        }
        let accepted = Entry::from_view(alloc, entry)?;
        let message = Message::Vote(ballot, position, accepted.share()?);
        let change = Some(Change::Accepted(position, ballot, accepted));
        Ok(Plan::new(change, Sends::All(message), Next::Same))
    }
}
