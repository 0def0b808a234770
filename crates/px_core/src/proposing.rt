//! The proposer goes on: promises are counted, and at a majority its accept requests go out (Paxos Made Simple, 2.2,
//! phase 2a).
ghost use Rattle.std.specs.Prelude.{◌≡◌, ℕ, ◌+◌, ◌<◌, ◌≤◌, IfOk, option_map, map, true, max};
ghost use Rattle.std.specs.Prelude.{Some, None, if◌then◌else◌};
ghost use Rattle.px_model.specs.Node.{Volatile, Log};
ghost use Rattle.px_model.specs.Step.{on_promise_all, on_nack, gathered, phase_two, idle, put, better, choice};
ghost use Rattle.px_model.specs.Step.{is_majority, drop_attempt, drop_lead, positions};
ghost use Rattle.px_model.specs.Spelling.{Bytes};
ghost use Rattle.px_model.specs.Entries.{entry_of, view_of};
ghost use Rattle.px_core.specs.Logs.{learned_in};
ghost use Rattle.px_core.specs.declared.state.Core.{Core};
ghost use Rattle.px_model.specs.Seen.{proposal_of, report_of};
ghost use Rattle.px_core.specs.Planning.{IsFor};
ghost use Rattle.px_core.specs.Seen.{counted_of, volatile_in, log_in, attempt_of, lead_of};
ghost use Rattle.px_core.specs.inner.Seen.{plan_of, plan_in};
ghost use Rattle.px_core.specs.declared.limits.TheConstants.{MEMBERS};

use crate::accepting::share_proposal;
use crate::plan::{Attempt, Lead, Next, Phase, Plan, PlanResult, Reported, Sends};
use crate::state::{Core, Proposer};
use px_model::{Entry, EntryView, Message, Proposal};
use std::alloc::{AllocError, Global};

/// Whether more than half of the members are marked.
#[tactic(auto, unfolding(crate::specs::Seen::counted_of))]
fn majority(members: u8, counted: &[bool; 15]) -> bool
    requires { members ≤ MEMBERS }
    ensures { result ≡ is_majority members (counted_of counted.now) }
{
    let mut votes: usize = 0;
    for member in 0..members {
        if counted[member as usize] {
            votes += 1;
        }
    }
    (members as usize) < 2 * votes
}

/// The members with one more.
#[tactic(auto, using(crate::proofs::Counted::counted_set))]
fn marked(counted: &[bool; 15], member: u8) -> [bool; 15]
    requires { member < MEMBERS }
    ensures { counted_of result ≡ put (counted_of counted.now) member true }
{
    let mut next = *counted;
    next[member as usize] = true;
    next
}

/// The greatest top reported, with this one; a member's counts once.
#[tactic(auto, unfolding(crate::specs::Seen::counted_of))]
fn greatest_top(counted: &[bool; 15], member: u8, highest: u32, top: u32) -> u32
    requires { member < MEMBERS }
    ensures { result ≡ (if counted_of counted.now member then highest else max highest top) }
{
    if counted[member as usize] {
        return highest;
    }
    highest.max(top)
}

/// The proposal of the higher ballot, the first of two equal ones.
fn better_of(
    alloc: Global,
    best: &Reported,
    report: &Option<Proposal<EntryView>>,
) -> Result<Reported, AllocError>
    ensures { IfOk result (λ x.
        option_map proposal_of x ≡
        better (option_map proposal_of best.now) (option_map report_of report.now)) }
{
    match (best, report) {
        (_, None) => share_proposal(best),
        (Some(x), Some(y)) if x.ballot >= y.ballot => share_proposal(best),
        (_, Some(y)) => Ok(Some(Proposal {
            ballot: y.ballot,
            entry: Entry::from_view(alloc, &y.entry)?,
        })),
    }
}

/// The entry of the best proposal reported, else the first that waits.
fn first_choice(best: &Reported, waiting: &[Entry]) -> Result<Option<Entry>, AllocError>
    ensures { IfOk result (λ x.
        option_map entry_of x ≡ choice (option_map proposal_of best.now) (map entry_of waiting.now)) }
{
    match (best, waiting) {
        (Some(x), _) => Ok(Some(x.entry.share()?)),
        (None, [first, ..]) => Ok(Some(first.share()?)),
        (None, []) => Ok(None),
    }
}

/// Phase 2 with this entry, by a ballot that may next be used where `lead` has it.
pub(crate) fn phase_two_plan(position: u32, lead: Lead, entry: Entry) -> PlanResult
    ensures room { IfOk result (λ plan. (core : Core) → IsFor plan core) }
    ensures step { IfOk result (λ plan. (n me : ℕ) (log : Log Bytes) (v : Volatile Bytes) →
        plan_of n me log v plan ≡
        phase_two n me v lead.ballot position lead.from (Some (entry_of entry))) }
{
    let ballot = lead.ballot;
    let message = Message::Accept(ballot, position, entry.share()?);
    let phase = Phase::Accepting(entry);
    let attempt = Attempt {
        position,
        ballot,
        phase,
    };
    let next = Next::Leads(Some(attempt), Some(lead));
    Ok(Plan::new(None, Sends::All(message), next))
}

impl Core {
    /// With these members counted, this greatest top and this best report: phase 2 at a majority.
    #[tactic(auto, unfolding(px_model::specs::Step::gathered))]
    fn gather(
        &self,
        ballot: u64,
        position: u32,
        counted: [bool; 15],
        top: u32,
        best: Reported,
    ) -> PlanResult
        requires position { position < positions }
        ensures room { IfOk result (λ plan. IsFor plan self.now) }
        ensures step { IfOk result (λ plan.
            plan_in self.now plan ≡
            gathered self.now.members self.now.me (volatile_in self.now) ballot position (counted_of counted) top
            (option_map proposal_of best)) }
    {
        if !majority(self.members, &counted) {
            let next = Next::Counts(Attempt {
                position,
                ballot,
                phase: Phase::Preparing(counted, top, best),
            });
            return Ok(Plan::new(None, Sends::Nothing, next));
        }
        let from = top.max(position + 1);
        let lead = Lead { ballot, from };
        let Some(entry) = first_choice(&best, &self.proposer.waiting)? else {
            let next = Next::Leads(None, Some(lead));
            return Ok(Plan::new(None, Sends::Nothing, next));
        };
        phase_two_plan(position, lead, entry)
    }

    /// A promise for all positions.
    #[tactic(auto, unfolding(px_model::specs::Step::on_promise_all))]
    pub(crate) fn promise_all(
        &self,
        from: u8,
        ballot: u64,
        position: u32,
        top: u32,
        report: &Option<Proposal<EntryView>>,
    ) -> PlanResult
        requires from { from < self.now.members }
        requires position { position < positions }
        ensures room { IfOk result (λ plan. IsFor plan self.now) }
        ensures step { IfOk result (λ plan.
            plan_in self.now plan ≡
            on_promise_all self.now.members self.now.me (volatile_in self.now) from ballot position top
            (option_map report_of report.now)) }
    {
        let Some(attempt) = &self.proposer.attempt else {
            return Ok(Plan::idle());
        };
        if attempt.ballot != ballot || attempt.position != position {
            return Ok(Plan::idle());
        }
        match &attempt.phase {
            Phase::Accepting(_) => Ok(Plan::idle()),
            Phase::Preparing(counted, highest, best) => {
                let top = greatest_top(counted, from, *highest, top);
                let best = better_of(self.alloc, best, report)?;
                self.gather(ballot, position, marked(counted, from), top, best)
            }
        }
    }
}

impl Proposer {
    /// Whether the attempt is the refused one.
    fn is_refused(&self, ballot: u64, position: u32) -> bool
        ensures { (if result then None else option_map attempt_of self.now.attempt) ≡
            drop_attempt ballot position (option_map attempt_of self.now.attempt) }
    {
        let attempt = self.attempt.as_ref();
        attempt.is_some_and(|x| x.ballot == ballot && x.position == position)
    }

    /// Whether the lead is of the refused ballot.
    fn leads_by(&self, ballot: u64) -> bool
        ensures { (if result then None else option_map lead_of self.now.lead) ≡
            drop_lead ballot (option_map lead_of self.now.lead) }
    {
        self.lead.is_some_and(|x| x.ballot == ballot)
    }

    /// A refusal, with the ballot that was promised.
    #[tactic(auto, unfolding(px_model::specs::Step::on_nack))]
    pub(crate) fn nack(&self, ballot: u64, position: u32, promised: u64) -> Plan
        ensures room { (core : Core) → IsFor result core }
        ensures step { (n me : ℕ) (log : Log Bytes) (v : Volatile Bytes) →
            v.attempt ≡ option_map attempt_of self.now.attempt → v.lead ≡ option_map lead_of self.now.lead →
            v.seen ≡ self.now.seen → plan_of n me log v result ≡ on_nack v ballot position promised }
    {
        let next = Next::Drops(
            self.is_refused(ballot, position),
            self.leads_by(ballot),
            self.seen.max(promised / 256),
        );
        Plan::new(None, Sends::Nothing, next)
    }
}
