//! One step of a member: what it gives, before any of it is done.
ghost use Rattle.std.specs.Prelude.{◌≡◌, ◌≢◌, Err, false, ◌<◌, IfOk, OnOk, MatchResult, length, nat_eq, Bool};
ghost use Rattle.std.specs.Cmp.Lexicographic.{pointwise};
ghost use Rattle.px_model.specs.Node.Answer.{Planned};
ghost use Rattle.px_model.specs.Step.{on_message};
ghost use Rattle.px_model.specs.Spelling.{Bytes};
ghost use Rattle.px_model.specs.Seen.{meta_of, slot_of, come_of};
ghost use Rattle.px_core.specs.Planning.{state_in, state_of, planned, step_with, IsFor, IsRefusal, MayCome};
ghost use Rattle.px_core.specs.Planning.{MayComeFrom, has_lead};
ghost use Rattle.px_core.specs.Fitting.{CoreFits, HandedFits, PlanFits};
ghost use Rattle.px_core.specs.Seen.{volatile_in, log_in};
ghost use Rattle.px_core.specs.inner.Seen.{plan_in, RoomToLearn};

use crate::accepting::Acceptor;
use crate::plan::{CoreFault, Plan, PlanResult};
use crate::state::Core;
use px_model::{EntryView, Event, Message, Meta, Slot};
use std::alloc::AllocError;

impl Core {
    /// Reserves room for an entry that the message may have learned. What the core stands for doesn't change.
    fn make_room(&mut self, message: &Message<EntryView>) -> Result<(), AllocError>
        ensures room { OnOk result (RoomToLearn message.now self.new) }
        ensures volatile { volatile_in self.new ≡ volatile_in self.old }
        ensures learned { log_in self.new ≡ log_in self.old }
        ensures members { (self.new.members ≡ self.old.members) × (self.new.me ≡ self.old.me) }
    {
        match message {
            Message::Vote(_, position, _) | Message::Learned(position, _) => {
                if !self.learner.is_in_window(*position) {
                    return Ok(());
                }
                self.learner.make_room(*position)
            }
            _ => Ok(()),
        }
    }

    /// What a message gives.
    fn plan_message(&self, acceptor: Acceptor, from: u8, message: &Message<EntryView>) -> PlanResult
        requires may_come { MayComeFrom self.now.members from message.now }
        requires room { RoomToLearn message.now self.now }
        ensures room { IfOk result (λ plan. IsFor plan self.now) }
        ensures step { IfOk result (λ plan.
            plan_in self.now plan ≡
            on_message (pointwise nat_eq) self.now.members self.now.me (meta_of acceptor.entry.meta.now)
            (slot_of acceptor.entry.slot.now) acceptor.entry.top (log_in self.now) (volatile_in self.now) from
            (come_of message.now)) }
    {
        match message {
            Message::Prepare(ballot, position) => acceptor.prepare(from, *ballot, *position),
            Message::PrepareAll(ballot, position) => {
                acceptor.prepare_all(from, *ballot, *position)
            }
            Message::Accept(ballot, position, entry) => acceptor.accept(
                self.alloc, from, *ballot, *position, entry,
            ),
            Message::PromiseAll(ballot, position, top, accepted) => self.promise_all(
                from, *ballot, *position, *top, accepted,
            ),
            Message::Nack(ballot, position, promised) => Ok(
                self.proposer.nack(*ballot, *position, *promised),
            ),
            Message::Vote(ballot, position, entry) => self.vote(from, *ballot, *position, entry),
            Message::Learned(position, entry) => self.learned_from(*position, entry),
            Message::Need(position) => self.need(from, *position),
            Message::Ask(entry) => self.ask_from(acceptor.meta, entry),
            Message::Promise(_, _, _) | Message::Asked(_, _) | Message::AskRefused(_, _) => {
                Ok(Plan::idle())
            }
        }
    }

    /// What the event gives, by its kind.
    #[tactic(auto, unfolding(px_model::specs::Step::step))]
    fn plan_event(&mut self, acceptor: Acceptor, event: &Event) -> Result<Plan, CoreFault>
        requires { MayCome self.old.members event.now }
        ensures step { MatchResult result
            (λ plan. step_with (state_in self.old) acceptor.entry.meta.now acceptor.entry.slot.now acceptor.entry.top
            event.now ≡ Planned (plan_in self.new plan))
            (λ fault. IsRefusal fault
            (step_with (state_in self.old) acceptor.entry.meta.now acceptor.entry.slot.now acceptor.entry.top
            event.now)) }
        ensures room { IfOk result (λ plan. IsFor plan self.new) }
        ensures state { state_in self.new ≡ state_in self.old }
        ensures enough { event.now ≡ Event.Ticks → has_lead self.old ≡ false → result ≢ Err CoreFault.Memory }
    {
        match event {
            Event::Asks(entry) => self.ask(acceptor.meta, entry),
            Event::Ticks => self.tick(acceptor.meta),
            Event::Comes(sender, message) => {
                self.make_room(message)?;
                Ok(self.plan_message(acceptor, *sender, message)?)
            }
        }
    }

    /// What the member does on this event: the change to commit, and what is sent then. The slot is that of the event's
    /// position and the top that of the whole record, where `Event::reads` lists them; elsewhere any will do.
    ///
    /// Whatever the result, what the core stands for doesn't change. A command is refused with `Full` where 64 entries
    /// wait, else with `PositionsSpent` where every position is learned or every number used; a tick with
    /// `BallotsSpent` where it needs a round and every one is used. Every other fault is out of memory. All growths
    /// that `settle` will need are made.
    ///
    /// What is sent can be spelled as a datagram, where what the core keeps and what it is handed can.
    ///
    /// Source: Paxos Made Simple, 2.2, 2.3 and 3.
    #[tactic(auto, unfolding(crate::specs::Planning::state_of, crate::specs::Planning::volatile_after))]
    pub fn plan(
        &mut self,
        meta: &Meta,
        slot: &Slot,
        top: u32,
        event: &Event,
    ) -> Result<Plan, CoreFault>
        requires { MayCome (state_of self.old).members event.now }
        ensures step { MatchResult result
            (λ plan. step_with (state_of self.old) meta.now slot.now top event.now ≡ Planned (planned self.new plan))
            (λ fault. IsRefusal fault (step_with (state_of self.old) meta.now slot.now top event.now)) }
        ensures room { IfOk result (λ plan. IsFor plan self.new) }
        ensures state { state_of self.new ≡ state_of self.old }
        ensures fits { (test : Bytes → Bool) → CoreFits test (state_of self.old) →
            HandedFits test (state_of self.old) meta.now slot.now top event.now →
            IfOk result (λ plan. PlanFits test (state_of self.new) (planned self.new plan)) }
        // A tick without a lead allocates nothing.
        ensures enough { event.now ≡ Event.Ticks → has_lead self.old ≡ false → result ≢ Err CoreFault.Memory }
    {
        self.plan_event(Acceptor { meta, slot, top }, event)
    }
}
