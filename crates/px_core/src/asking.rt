//! What waits, and the clock that begins proposals for it (Paxos Made Simple, 2.2, phase 1a; section 3 for the lead).
ghost use Rattle.std.specs.Prelude.{◌≡◌, ◌≢◌, Err, false, ℕ, ◌+◌, ◌*◌, ◌^◌, ◌<◌, ◌≤◌, IfOk, option_map};
ghost use Rattle.std.specs.Prelude.{map, Some, None, length};
ghost use Rattle.std.specs.Vec.{vec_len};
ghost use Rattle.px_model.specs.Node.{Volatile, Log, Answer};
ghost use Rattle.px_model.specs.Step.{on_ask, on_tick, new_round, use_lead, propose, front, ask_answered, positions};
ghost use Rattle.px_model.specs.Spelling.{Bytes};
ghost use Rattle.px_model.specs.Entries.{entry_of, view_of};
ghost use Rattle.px_core.specs.Logs.{learned_in};
ghost use Rattle.px_core.specs.declared.state.Core.{Core};
ghost use Rattle.px_model.specs.Seen.{meta_of};
ghost use Rattle.px_core.specs.Planning.{IsFor, has_lead};
ghost use Rattle.px_core.specs.inner.Planning.{IsAnswer};
ghost use Rattle.px_core.specs.Seen.{front_in, volatile_in, log_in, attempt_of, lead_of};
ghost use Rattle.px_core.specs.inner.Seen.{plan_of, plan_in};

use crate::limits::{NUMBERS, POSITIONS, WAITING};
use crate::plan::{Attempt, CoreFault, Lead, Next, Phase, Plan, PlanResult, Sends};
use crate::proposing::phase_two_plan;
use crate::state::Core;
use px_model::{Change, Entry, EntryView, Message, Meta};
use std::alloc::AllocError;

impl Core {
    /// A ballot above each round used or heard of, and a prepare request with it to every member.
    #[tactic(auto, using(crate::proofs::Counted::none_counted), unfolding(px_model::specs::Step::new_round))]
    fn begin_round(&self, meta: &Meta) -> Result<Plan, CoreFault>
        ensures room { IfOk result (λ plan. IsFor plan self.now) }
        ensures step { IsAnswer self.now result
            (new_round self.now.members self.now.me (meta_of meta.now) (front_in self.now) (volatile_in self.now)) }
        ensures enough { result ≢ Err CoreFault.Memory }
    {
        let highest = meta.round.max(self.proposer.seen);
        if highest >= NUMBERS - 1 {
            return Err(CoreFault::BallotsSpent);
        }
        let round = highest + 1;
        let ballot = round * 256 + self.me as u64;
        let position = self.learner.votes.front;
        let attempt = Attempt {
            position,
            ballot,
            phase: Phase::Preparing([false; 15], 0, None),
        };
        let message = Message::PrepareAll(ballot, position);
        let next = Next::Leads(Some(attempt), None);
        let change = Some(Change::Round(round));
        Ok(Plan::new(change, Sends::All(message), next))
    }

    /// The entry is proposed by the lead, which needs no phase 1, if it has reached the front, else a round begins.
    #[tactic(auto, unfolding(px_model::specs::Step::use_lead))]
    fn propose(&self, meta: &Meta, entry: &Entry) -> Result<Plan, CoreFault>
        requires { front_in self.now < positions }
        ensures room { IfOk result (λ plan. IsFor plan self.now) }
        ensures step { IsAnswer self.now result
            (propose self.now.members self.now.me (meta_of meta.now) (front_in self.now) (volatile_in self.now)
            (entry_of entry.now) (option_map lead_of self.now.proposer.lead)) }
        ensures enough { has_lead self.now ≡ false → result ≢ Err CoreFault.Memory }
    {
        let position = self.learner.votes.front;
        match self.proposer.lead {
            Some(lead) if lead.from <= position => {
                let next = Lead {
                    from: position + 1,
                    ..lead
                };
                Ok(phase_two_plan(position, next, entry.share()?)?)
            }
            _ => self.begin_round(meta),
        }
    }

    /// The clock ticks.
    #[tactic(auto, unfolding(px_model::specs::Step::on_tick))]
    pub(crate) fn tick(&self, meta: &Meta) -> Result<Plan, CoreFault>
        ensures room { IfOk result (λ plan. IsFor plan self.now) }
        ensures step { IsAnswer self.now result
            (on_tick self.now.members self.now.me (meta_of meta.now) (log_in self.now) (volatile_in self.now)) }
        ensures enough { has_lead self.now ≡ false → result ≢ Err CoreFault.Memory }
    {
        let position = self.learner.front();
        if position == POSITIONS {
            return Ok(Plan::idle());
        }
        let [first, ..] = self.proposer.waiting.as_slice() else {
            let message = Message::Need(position);
            return Ok(Plan::new(None, Sends::All(message), Next::Same));
        };
        self.propose(meta, first)
    }

    /// A command is asked: it gets the next number, which is recorded, and waits.
    #[tactic(auto, unfolding(px_model::specs::Step::on_ask))]
    pub(crate) fn ask(&self, meta: &Meta, entry: &EntryView) -> Result<Plan, CoreFault>
        ensures room { IfOk result (λ plan. IsFor plan self.now) }
        ensures step { IsAnswer self.now result
            (on_ask self.now.me (meta_of meta.now) (log_in self.now) (volatile_in self.now)
            (view_of entry.now).command) }
    {
        if self.proposer.waiting.len() >= WAITING {
            return Err(CoreFault::Full);
        }
        if self.learner.votes.front == POSITIONS || meta.number >= NUMBERS {
            return Err(CoreFault::PositionsSpent);
        }
        let entry = Entry::named(self.alloc, entry, self.me, meta.number)?;
        let number = meta.number + 1;
        let change = Some(Change::Number(number));
        Ok(Plan::new(change, Sends::Nothing, Next::Waits(entry)))
    }

    /// A command is asked from outside: the client is answered with the number, or the refusal.
    pub(crate) fn ask_from(&self, meta: &Meta, entry: &EntryView) -> PlanResult
        ensures room { IfOk result (λ plan. IsFor plan self.now) }
        ensures step { IfOk result (λ plan.
            plan_in self.now plan ≡
            ask_answered self.now.me (view_of entry.now).number (meta_of meta.now).number (volatile_in self.now)
            (on_ask self.now.me (meta_of meta.now) (log_in self.now) (volatile_in self.now)
            (view_of entry.now).command)) }
    {
        let token = entry.number();
        let number = meta.number;
        let code = match self.ask(meta, entry) {
            Ok(plan) => {
                let message = Message::Asked(token, number);
                let sends = Sends::One(255, message);
                return Ok(Plan { sends, ..plan });
            }
            Err(CoreFault::Memory) => return Err(AllocError),
            Err(CoreFault::Full) => 60,
            Err(CoreFault::BallotsSpent) => 61,
            Err(CoreFault::PositionsSpent) => 62,
        };
        let message = Message::AskRefused(token, code);
        Ok(Plan::new(None, Sends::One(255, message), Next::Same))
    }
}
