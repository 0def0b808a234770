//! The learner (Paxos Made Simple, 2.3): votes are counted, and what was missed is sent.
ghost use Rattle.std.specs.Prelude.{◌≡◌, ℕ, ◌+◌, ◌<◌, ◌≤◌, IfOk, OnOk, is_none, ◌&&◌, length};
ghost use Rattle.std.specs.Prelude.{Some, None, option_map, true, nat_eq};
ghost use Rattle.std.specs.Cmp.Lexicographic.{pointwise};
ghost use Rattle.px_model.specs.Node.{Volatile, Log};
ghost use Rattle.px_model.specs.Step.{on_vote, with_vote, on_learned, on_need, learn, idle, in_window, front, put};
ghost use Rattle.px_model.specs.Step.{positions};
ghost use Rattle.px_model.specs.Spelling.{Bytes};
ghost use Rattle.px_core.specs.Cells.{kept_in};
ghost use Rattle.px_model.specs.Entries.{entry_of, view_of};
ghost use Rattle.px_core.specs.Logs.{learned_in};
ghost use Rattle.px_core.specs.Planning.{IsFor};
ghost use Rattle.px_core.specs.Seen.{volatile_in, log_in};
ghost use Rattle.px_core.specs.inner.Seen.{plan_of, plan_in, RoomAt};

use crate::limits::{POSITIONS, WINDOW};
use crate::plan::{Next, Plan, PlanResult, Sends};
use crate::state::{Core, Learner};
use px_model::{Change, Entry, EntryView, Message};
use std::alloc::AllocError;

/// What is learned at the position.
#[tactic(auto, unfolding(crate::specs::Logs::learned_in))]
pub(crate) fn learned_at(learned: &[Option<Entry>], position: u32) -> Option<&Entry>
    ensures { option_map (λ e. entry_of e.now) result ≡ learned_in learned.now position }
{
    match learned.get(position as usize) {
        Some(Some(entry)) => Some(entry),
        _ => None,
    }
}

impl Learner {
    /// The least position not learned.
    #[tactic(auto, using(px_model::proofs::Plans::front_within))]
    pub(crate) fn front(&self) -> u32
        ensures front { result ≡ front (learned_in self.now.learned.items) }
        ensures votes { result ≡ self.now.votes.front }
        ensures within { result ≤ positions }
    {
        self.votes.front
    }

    /// Whether votes are kept at the position.
    pub(crate) fn is_in_window(&self, position: u32) -> bool
        ensures { result ≡ in_window self.now.votes.front position }
    {
        let front = self.votes.front;
        front <= position && position - front < WINDOW && position < POSITIONS
    }

    /// Whether the position is in the window, and nothing is learned there.
    pub(crate) fn is_open(&self, position: u32) -> bool
        ensures { result ≡
            (is_none (learned_in self.now.learned.items position) && in_window self.now.votes.front position) }
    {
        learned_at(&self.learned, position).is_none() && self.is_in_window(position)
    }

    /// Makes room for a learned entry at the position, which changes nothing of what is learned.
    #[tactic(auto, using(crate::proofs::Front::learned_push))]
    pub(crate) fn make_room(&mut self, position: u32) -> Result<(), AllocError>
        ensures room { OnOk result (position < length self.new.learned.items) }
        ensures learned { learned_in self.new.learned.items ≡ learned_in self.old.learned.items }
        ensures votes { self.new.votes ≡ self.old.votes }
    {
        while self.learned.len() <= position as usize {
            self.learned.push(None)?;
        }
        Ok(())
    }
}

impl Core {
    /// A vote of a member.
    #[tactic(auto, unfolding(px_model::specs::Step::on_vote, px_model::specs::Step::with_vote, px_model::specs::Step::learn))]
    pub(crate) fn vote(&self, from: u8, ballot: u64, position: u32, entry: &EntryView) -> PlanResult
        requires from { from < self.now.members }
        requires room { RoomAt position self.now }
        ensures room { IfOk result (λ plan. IsFor plan self.now) }
        ensures step { IfOk result (λ plan.
            plan_in self.now plan ≡
            on_vote (pointwise nat_eq) self.now.members (log_in self.now) (volatile_in self.now) from ballot position
            (view_of entry.now)) }
    {
        if !self.learner.is_open(position) {
            return Ok(Plan::idle());
        }
        let votes = &self.learner.votes;
        if !votes.would_agree(self.members, position, from, ballot) {
            let next = Next::Keeps(position, from, ballot);
            return Ok(Plan::new(None, Sends::Nothing, next));
        }
        let learned = Entry::from_view(self.alloc, entry)?;
        let entry = learned.share()?;
        let change = Some(Change::Learned(position, entry));
        let next = Next::KeepsLearns(position, from, ballot, learned);
        Ok(Plan::new(change, Sends::Nothing, next))
    }

    /// Learns an entry that was chosen.
    #[tactic(auto, unfolding(px_model::specs::Step::on_learned, px_model::specs::Step::learn))]
    pub(crate) fn learned_from(&self, position: u32, entry: &EntryView) -> PlanResult
        requires room { RoomAt position self.now }
        ensures room { IfOk result (λ plan. IsFor plan self.now) }
        ensures step { IfOk result (λ plan.
            plan_in self.now plan ≡
            on_learned (pointwise nat_eq) (log_in self.now) (volatile_in self.now) position (view_of entry.now)) }
    {
        if !self.learner.is_open(position) {
            return Ok(Plan::idle());
        }
        let learned = Entry::from_view(self.alloc, entry)?;
        let entry = learned.share()?;
        let change = Some(Change::Learned(position, entry));
        let next = Next::Learns(position, learned);
        Ok(Plan::new(change, Sends::Nothing, next))
    }

    /// Asked for what is learned at the position.
    #[tactic(auto, unfolding(px_model::specs::Step::on_need))]
    pub(crate) fn need(&self, to: u8, position: u32) -> PlanResult
        ensures step { IfOk result (λ plan. (v : Volatile Bytes) →
            plan_of self.now.members self.now.me (log_in self.now) v plan ≡
            on_need self.now.me (log_in self.now) v to position) }
        ensures room { IfOk result (λ plan. IsFor plan self.now) }
    {
        let Some(entry) = learned_at(&self.learner.learned, position) else {
            return Ok(Plan::idle());
        };
        let entry = entry.share()?;
        let message = Message::Learned(position, entry);
        Ok(Plan::new(None, Sends::One(to, message), Next::Same))
    }
}
