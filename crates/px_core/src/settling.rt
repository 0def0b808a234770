//! The volatile part is brought up to a plan whose change is committed. Nothing here takes memory.
ghost use Rattle.std.specs.Prelude.{◌≡◌, ℕ, ◌<◌, ◌≤◌, option_map, map, Some, None, filter, not};
ghost use Rattle.std.specs.Prelude.{is_some, length, if◌then◌else◌, nat_lt, nat_eq, ◌++◌, ◌∷◌, []};
ghost use Rattle.std.specs.Prelude.{Bool};
ghost use Rattle.std.specs.Vec.{vec_capacity};
ghost use Rattle.std.specs.Cmp.Lexicographic.{pointwise};
ghost use Rattle.px_model.specs.Node.{same_entry};
ghost use Rattle.px_model.specs.Step.{front, not_below, without, put, positions};
ghost use Rattle.px_core.specs.Cells.{kept_in};
ghost use Rattle.px_core.specs.inner.Cells.{forgotten_below};
ghost use Rattle.px_model.specs.Entries.{entry_of};
ghost use Rattle.px_core.specs.Logs.{learned_in};
ghost use Rattle.px_model.specs.Spelling.{Bytes};
ghost use Rattle.px_core.specs.Fitting.{CoreFits, PlanFits};
ghost use Rattle.px_core.specs.Planning.{state_of, planned, settles, IsFor};
ghost use Rattle.px_core.specs.Seen.{attempt_of, volatile_in, log_in, settled, learning, with_learned, HasRoom};
ghost use Rattle.px_core.specs.declared.limits.TheConstants.{WAITING};

use crate::learning::learned_at;
use crate::limits::POSITIONS;
use crate::plan::{Next, Plan, Sends};
use crate::state::{Core, Learner, Proposer};
use px_model::Entry;

/// The least position from this one on where nothing is learned.
#[tactic(auto, using(crate::proofs::Front::past, crate::proofs::Front::here, crate::proofs::Front::end))]
fn next_front(learned: &[Option<Entry>], from: u32) -> u32
    requires within { from ≤ positions }
    requires below { from ≤ front (learned_in learned.now) }
    ensures { result ≡ front (learned_in learned.now) }
{
    for position in from..POSITIONS {
        if learned_at(learned, position).is_none() {
            return position;
        }
    }
    POSITIONS
}

impl Learner {
    /// The entry is learned at a position that there is room for, and the front moves up over what is learned.
    pub(crate) fn learn(&mut self, position: u32, entry: Entry)
        requires room { position < length self.old.learned.items }
        requires within { position < positions }
        ensures learned { learned_in self.new.learned.items ≡
            put (learned_in self.old.learned.items) position (Some (entry_of entry)) }
        ensures kept { kept_in self.new.votes.front self.new.votes.cells.items ≡
            forgotten_below (front (put (learned_in self.old.learned.items) position (Some (entry_of entry))))
            (kept_in self.old.votes.front self.old.votes.cells.items) }
        ensures front { self.new.votes.front ≡
            front (put (learned_in self.old.learned.items) position (Some (entry_of entry))) }
    {
        self.learned[position as usize] = Some(entry);
        let front = next_front(&self.learned, self.votes.front);
        self.votes.advance(front);
    }
}

impl Proposer {
    /// The entry waits behind the others. There is room for it.
    fn wait(&mut self, entry: Entry)
        requires { length self.old.waiting.items < WAITING }
        ensures waiting { self.new.waiting.items ≡ self.old.waiting.items ++ entry ∷ [] }
        ensures attempt { self.new.attempt ≡ self.old.attempt }
        ensures lead { self.new.lead ≡ self.old.lead }
        ensures seen { self.new.seen ≡ self.old.seen }
    {
        drop(self.waiting.push(entry));
    }

    /// Attempt and lead are dropped where these are true, and this is the highest round heard of.
    fn drop_refused(&mut self, attempt: bool, lead: bool, seen: u64)
        ensures waiting { self.new.waiting.items ≡ self.old.waiting.items }
        ensures attempt { self.new.attempt ≡ (if attempt then None else self.old.attempt) }
        ensures lead { self.new.lead ≡ (if lead then None else self.old.lead) }
        ensures seen { self.new.seen ≡ seen }
    {
        if attempt {
            self.attempt = None;
        }
        if lead {
            self.lead = None;
        }
        self.seen = seen;
    }

    /// The entry waits no more, and an attempt below the front is let go.
    pub(crate) fn let_go(&mut self, entry: &Entry, front: u32)
        ensures waiting { map entry_of self.new.waiting.items ≡
            without (pointwise nat_eq) (entry_of entry.now) (map entry_of self.old.waiting.items) }
        ensures attempt { option_map attempt_of self.new.attempt ≡
            not_below front (option_map attempt_of self.old.attempt) }
        ensures lead { self.new.lead ≡ self.old.lead }
        ensures seen { self.new.seen ≡ self.old.seen }
    {
        self.waiting.retain(|w| !w.is_same(entry));
        if self.attempt.as_ref().is_some_and(|x| x.position < front) {
            self.attempt = None;
        }
    }
}

impl Core {
    /// An entry is learned: it waits no more, and what is below the front is let go.
    fn learn(&mut self, position: u32, entry: Entry)
        requires room { position < length self.old.learner.learned.items }
        requires within { position < positions }
        ensures learned { log_in self.new ≡ put (log_in self.old) position (Some (entry_of entry)) }
        ensures volatile { volatile_in self.new ≡
            with_learned (log_in self.old) position (entry_of entry) (volatile_in self.old) }
        ensures members { (self.new.members ≡ self.old.members) × (self.new.me ≡ self.old.me) }
    {
        self.learner.learn(position, entry);
        if let Some(learned) = learned_at(&self.learner.learned, position) {
            self.proposer.let_go(learned, self.learner.votes.front);
        }
    }

    /// What the plan makes of the volatile part and of what is learned.
    fn take_over(&mut self, next: Next)
        requires { HasRoom next self.old }
        ensures volatile { volatile_in self.new ≡ settled (log_in self.old) next (volatile_in self.old) }
        ensures learned { log_in self.new ≡ learning next (log_in self.old) }
        ensures members { (self.new.members ≡ self.old.members) × (self.new.me ≡ self.old.me) }
    {
        match next {
            Next::Same => {}
            Next::Waits(entry) => self.proposer.wait(entry),
            Next::Counts(attempt) => self.proposer.attempt = Some(attempt),
            Next::Leads(attempt, lead) => {
                self.proposer.attempt = attempt;
                self.proposer.lead = lead;
            }
            Next::Drops(attempt, lead, seen) => self.proposer.drop_refused(attempt, lead, seen),
            Next::Keeps(position, member, ballot) => {
                self.learner.votes.keep(position, member, ballot)
            }
            Next::Learns(position, entry) => self.learn(position, entry),
            Next::KeepsLearns(position, member, ballot, entry) => {
                self.learner.votes.keep(position, member, ballot);
                self.learn(position, entry);
            }
        }
    }

    /// Takes over a plan that this core made in its present state, and whose change is committed, and hands out what
    /// may be sent then. It always succeeds and allocates nothing. What was learned below the front stays, and the
    /// front doesn't move back.
    ///
    /// Source: Paxos Made Simple, 2.5: what a member does depends on what it has recorded.
    #[tactic(auto, unfolding(crate::specs::Planning::state_of, crate::specs::Planning::volatile_after))]
    pub fn settle(&mut self, plan: Plan) -> Sends
        requires { IsFor plan self.old }
        ensures sends { result ≡ plan.sends }
        ensures state { state_of self.new ≡ settles (state_of self.old) (planned self.old plan) }
        ensures below { (p : ℕ) → p < front (state_of self.old).learned →
            (state_of self.new).learned p ≡ (state_of self.old).learned p }
        ensures front { front (state_of self.old).learned ≤ front (state_of self.new).learned }
        ensures fits { (test : Bytes → Bool) → PlanFits test (state_of self.old) (planned self.old plan) →
            CoreFits test (state_of self.new) }
    {
        let Plan { next, sends, .. } = plan;
        self.take_over(next);
        sends
    }
}
