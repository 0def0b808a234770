//! A core at its beginning, what a restart brings back and takes, and what is asked of a core.
ghost use Rattle.std.specs.Prelude.{◌≡◌, ◌≤◌, ◌<◌, IfOk, OnOk, OnErr, IsTrue, ◌↔◌, option_map};
ghost use Rattle.std.specs.Prelude.{Some, None, [], Bool, length, is_some};
ghost use Rattle.px_model.specs.Step.{nothing_volatile, front, put, positions};
ghost use Rattle.px_model.specs.Entries.{entry_of};
ghost use Rattle.px_core.specs.Cells.{kept_in};
ghost use Rattle.px_core.specs.Logs.{learned_in};
ghost use Rattle.px_model.specs.Fits.{Passes, EntryFits};
ghost use Rattle.px_model.specs.Spelling.{Bytes};
ghost use Rattle.px_core.specs.Fitting.{CoreFits};
ghost use Rattle.px_core.specs.Planning.{state_of, empty_state, MayCome, MayComeFrom};
ghost use Rattle.px_core.specs.declared.limits.TheConstants.{MEMBERS};

use crate::learning::learned_at;
use crate::limits::{POSITIONS, WAITING};
use crate::state::{Core, Learner, Proposer};
use crate::votes::Votes;
use px_model::{Entry, Event, Message};
use std::alloc::{AllocError, Global};

impl Proposer {
    /// All is let go; the room stays.
    fn forget(&mut self)
        ensures waiting { self.new.waiting.items ≡ [] }
        ensures attempt { self.new.attempt ≡ None }
        ensures lead { self.new.lead ≡ None }
        ensures seen { self.new.seen ≡ 0 }
    {
        self.waiting.clear();
        self.attempt = None;
        self.lead = None;
        self.seen = 0;
    }
}

impl Learner {
    /// Nothing is learned, and no vote is kept.
    #[tactic(auto, using(crate::proofs::Front::front_nothing, crate::proofs::Front::learned_nothing))]
    fn new(alloc: Global) -> Result<Learner, AllocError>
        ensures learned { IfOk result (λ l. learned_in l.learned.items ≡ (λ p. None)) }
        ensures kept { IfOk result (λ l. kept_in l.votes.front l.votes.cells.items ≡ (λ p m. 0)) }
    {
        Ok(Learner {
            votes: Votes::new(alloc)?,
            learned: Vec::new(alloc),
        })
    }
}

impl Core {
    /// The member `me` of a cluster, as it starts with an empty record. There are 1 to 15 members. Fails only when out
    /// of memory.
    #[tactic(auto, unfolding(crate::specs::Planning::state_of))]
    pub fn new(alloc: Global, members: u8, me: u8) -> Result<Core, AllocError>
        requires some { 1 ≤ members }
        requires few { members ≤ MEMBERS }
        requires member { me < members }
        ensures state { IfOk result (λ core. state_of core ≡ empty_state members me) }
        ensures fits { (test : Bytes → Bool) → IfOk result (λ core. CoreFits test (state_of core)) }
    {
        Ok(Core {
            alloc,
            members,
            me,
            proposer: Proposer {
                waiting: Vec::with_capacity(alloc, WAITING)?,
                attempt: None,
                lead: None,
                seen: 0,
            },
            learner: Learner::new(alloc)?,
        })
    }

    /// As a member starts: its record has this entry as learned at the position. Out of memory leaves all as it was.
    #[tactic(auto, unfolding(crate::specs::Planning::state_of))]
    pub fn remember(&mut self, position: u32, entry: Entry) -> Result<(), AllocError>
        requires position { position < positions }
        requires nothing { (state_of self.old).volatile ≡ nothing_volatile }
        ensures ok { OnOk result (state_of self.new ≡
            record (state_of self.old) { learned = put (state_of self.old).learned position (Some (entry_of entry)) }) }
        ensures err { OnErr result (state_of self.new ≡ state_of self.old) }
        ensures fits { (test : Bytes → Bool) → CoreFits test (state_of self.old) →
            EntryFits (Passes test) (state_of self.old).members (entry_of entry) → CoreFits test (state_of self.new) }
    {
        self.learner.make_room(position)?;
        self.learner.learn(position, entry);
        Ok(())
    }

    /// A restart in place: all is let go but what is learned. Allocates nothing.
    #[tactic(auto, unfolding(crate::specs::Planning::state_of))]
    pub fn forget(&mut self)
        ensures state { state_of self.new ≡ record (state_of self.old) { volatile = nothing_volatile } }
        ensures fits { (test : Bytes → Bool) → CoreFits test (state_of self.old) →
            CoreFits test (state_of self.new) }
    {
        self.proposer.forget();
        self.learner.votes.forget();
    }

    /// The least position not learned, 1,000,000 if there is none.
    #[tactic(auto, unfolding(crate::specs::Planning::state_of))]
    pub fn front(&self) -> u32
        ensures front { result ≡ front (state_of self.now).learned }
        ensures within { result ≤ positions }
    {
        self.learner.front()
    }

    /// The entry learned at the position.
    #[tactic(auto, unfolding(crate::specs::Planning::state_of))]
    pub fn learned(&self, position: u32) -> Option<&Entry>
        ensures { option_map (λ e. entry_of e.now) result ≡ (state_of self.now).learned position }
    {
        learned_at(&self.learner.learned, position)
    }

    /// How many commands wait to be proposed, 64 at most.
    #[tactic(auto, unfolding(crate::specs::Planning::state_of))]
    pub fn waiting(&self) -> usize
        ensures { result ≡ length (state_of self.now).volatile.waiting }
    {
        self.proposer.waiting.len()
    }

    /// Whether an attempt is under way: a command is being proposed, and its outcome isn't known yet.
    #[tactic(auto, unfolding(crate::specs::Planning::state_of))]
    pub fn is_attempting(&self) -> bool
        ensures { result ≡ is_some (state_of self.now).volatile.attempt }
    {
        self.proposer.attempt.is_some()
    }

    /// Whether the member has the lead: a majority has promised it all positions from one on.
    #[tactic(auto, unfolding(crate::specs::Planning::state_of))]
    pub fn is_leading(&self) -> bool
        ensures { result ≡ is_some (state_of self.now).volatile.lead }
    {
        self.proposer.lead.is_some()
    }

    /// How many members there are, 1 to 15.
    #[tactic(auto, unfolding(crate::specs::Planning::state_of))]
    pub fn members(&self) -> u8
        ensures members { result ≡ (state_of self.now).members }
        ensures some { 1 ≤ result }
        ensures few { result ≤ MEMBERS }
    {
        self.members
    }

    /// The member's number.
    #[tactic(auto, unfolding(crate::specs::Planning::state_of))]
    pub fn me(&self) -> u8
        ensures me { result ≡ (state_of self.now).me }
        ensures member { result < (state_of self.now).members }
    {
        self.me
    }

    /// Whether `plan` takes the event: promises and votes come from members, and promises are for positions that there
    /// are. What a datagram to this member spells is always such an event.
    #[tactic(auto, unfolding(crate::specs::Planning::state_of))]
    pub fn takes(&self, event: &Event) -> bool
        ensures { IsTrue result ↔ MayCome (state_of self.now).members event.now }
    {
        let Event::Comes(sender, message) = event else {
            return true;
        };
        match message {
            Message::PromiseAll(_, position, _, _) => {
                *sender < self.members && *position < POSITIONS
            }
            Message::Vote(_, _, _) => *sender < self.members,
            _ => true,
        }
    }
}
