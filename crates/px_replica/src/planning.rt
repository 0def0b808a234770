//! What a member does on an event, and what it keeps.

ghost use Rattle.std.specs.Prelude.{◌≡◌, ◌≤◌, ◌<◌, ℕ, IfOk, IfSome, OnOk, OnErr, MatchResult};
ghost use Rattle.std.specs.Prelude.{option_map, Some, None, length, is_some};
ghost use Rattle.px_model.specs.Node.{Record};
ghost use Rattle.px_model.specs.Node.Answer.{Planned};
ghost use Rattle.px_model.specs.Step.{front, put, positions, nothing_volatile};
ghost use Rattle.px_model.specs.Entries.{entry_of};
ghost use Rattle.px_model.specs.Fits.{Passes, EntryFits, InputFits, ChangeFits, SendsFit};
ghost use Rattle.px_model.specs.Spelling.{Bytes};
ghost use Rattle.px_model.specs.Seen.{change_of, input_of, reads_of};
ghost use Rattle.px_core.specs.Planning.{state_of, volatile_after, learned_after, IsRefusal};
ghost use Rattle.px_core.specs.Seen.{sends_of};
ghost use Rattle.px_wire.specs.Sent.{is_command};
ghost use Rattle.px_replica.specs.Made.{answer, running};
ghost use Rattle.px_replica.specs.Members.{volatile_of, log_of, group_of};
ghost use Rattle.px_replica.specs.inner.Members.{planned_by, IsReady};
ghost use Rattle.px_replica.specs.inner.Seen.{IsSeen, SeenFits};
ghost use Rattle.px_core.specs.declared.limits.TheConstants.{MEMBERS};

use crate::look::Seen;
use crate::member::Member;
use px_core::{Core, CoreFault, Plan, Sends};
use px_model::{Entry, Event};
use px_wire::Membership;
use std::alloc::{AllocError, Global};

impl Member {
    /// A member that has nothing yet.
    pub(crate) fn new(alloc: Global, group: Membership) -> Result<Member, AllocError>
        requires { group.me < group.members }
        ensures volatile { IfOk result (λ m. volatile_of m ≡ nothing_volatile) }
        ensures learned { IfOk result (λ m. (p : ℕ) → log_of m p ≡ None) }
        ensures group { IfOk result (λ m. group_of m ≡ group) }
    {
        let core = Core::new(alloc, group.members(), group.me())?;
        Ok(Member { core, group })
    }

    /// Its group.
    pub(crate) fn group(&self) -> Membership
        ensures group { result ≡ group_of self.now }
        ensures few { result.members ≤ MEMBERS }
        ensures here { result.me < result.members }
    {
        self.group
    }

    /// What the member does on this event, where what was read is the record's.
    pub(crate) fn plan(&mut self, seen: &Seen, event: &Event) -> Result<Plan, CoreFault>
        requires seen { SeenFits (group_of self.old).members seen.now }
        requires event { InputFits (Passes is_command) (group_of self.old).members (group_of self.old).me
            (input_of event.now) }
        ensures answer { (d : Record Bytes) → d.learned ≡ log_of self.old →
            IsSeen d (reads_of (input_of event.now)) seen.now →
            MatchResult result
            (λ plan. answer (group_of self.old).members (group_of self.old).me (running d (volatile_of self.old))
            (input_of event.now) ≡ Planned (planned_by self.new plan))
            (λ fault. IsRefusal fault (answer (group_of self.old).members (group_of self.old).me
            (running d (volatile_of self.old)) (input_of event.now))) }
        ensures change { IfOk result (λ plan. IfSome (option_map change_of plan.change)
            (λ x. ChangeFits (Passes is_command) (group_of self.old).members x)) }
        ensures sends { IfOk result (λ plan. SendsFit (Passes is_command) (group_of self.old).members
            (group_of self.old).me (sends_of (group_of self.old).members (group_of self.old).me plan.sends)) }
        ensures ready { IfOk result (λ plan. IsReady plan self.new) }
        ensures volatile { volatile_of self.new ≡ volatile_of self.old }
        ensures log { log_of self.new ≡ log_of self.old }
        ensures group { group_of self.new ≡ group_of self.old }
    {
        self.core.plan(&seen.meta, &seen.slot, seen.top, event)
    }

    /// Takes over the plan that it made in its present state, whose change is committed. Allocates nothing.
    pub(crate) fn settle(&mut self, plan: Plan) -> Sends
        requires { IsReady plan self.old }
        ensures volatile { volatile_of self.new ≡ volatile_after self.old.core plan }
        ensures log { log_of self.new ≡ learned_after (option_map change_of plan.change) (log_of self.old) }
        ensures below { (p : ℕ) → p < front (log_of self.old) → log_of self.new p ≡ log_of self.old p }
        ensures front { front (log_of self.old) ≤ front (log_of self.new) }
        ensures group { group_of self.new ≡ group_of self.old }
    {
        self.core.settle(plan)
    }

    /// As a member starts: its record has this entry as learned at the position. Out of memory leaves all as it was.
    pub(crate) fn remember(&mut self, position: u32, entry: Entry) -> Result<(), AllocError>
        requires position { position < positions }
        requires nothing { volatile_of self.old ≡ nothing_volatile }
        requires fits { EntryFits (Passes is_command) (group_of self.old).members (entry_of entry) }
        ensures ok { OnOk result (log_of self.new ≡ put (log_of self.old) position (Some (entry_of entry))) }
        ensures err { OnErr result (log_of self.new ≡ log_of self.old) }
        ensures volatile { volatile_of self.new ≡ volatile_of self.old }
        ensures group { group_of self.new ≡ group_of self.old }
    {
        self.core.remember(position, entry)
    }
}
