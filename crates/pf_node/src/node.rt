//! The calls of a node.

ghost use Rattle.std.specs.Prelude.{◌≡◌, ◌≢◌, ◌⊎◌, ◌<◌, ◌≤◌, ◌+◌, ◌↔◌, true, false, Err, IfOk, OnOk, OnErr, IsTrue, Some, []};
ghost use Rattle.std.specs.Prelude.{option_map, length, is_some, IsSome, IfSome};
ghost use Rattle.pf_entry.specs.Owned.{is_over};
ghost use Rattle.pf_eval.specs.Seen.{judgement_of};
ghost use Rattle.pf_eval.specs.Verdicts.{judgement};
ghost use Rattle.px_model.specs.Node.Input.{Asks, Ticks};
ghost use Rattle.px_model.specs.Step.{front, nothing_volatile, positions};
ghost use Rattle.px_model.specs.Spelling.{spelled};
ghost use Rattle.px_model.specs.Entries.{entry_of, view_of};
ghost use Rattle.px_wire.specs.Sent.{is_command};
ghost use Rattle.px_replica.specs.Calls.{Call, Receives};
ghost use Rattle.px_replica.specs.Faults.{fault_of};
ghost use Rattle.px_replica.specs.Replicas.{MatchReceived};
ghost use Rattle.pf_node.specs.Applied.{after};
ghost use Rattle.pf_node.specs.Asked.{unnamed, bytes_of};
ghost use Rattle.pf_node.specs.Nodes.{records_of, learned_by, membership_of, has_failed, state_in, config_of};
ghost use Rattle.pf_node.specs.Nodes.{applied_of, replica_of, kept_of};
ghost use Rattle.pf_node.specs.Outcomes.{outcome_at};
ghost use Rattle.pf_node.specs.Requests.{place_below};

use crate::asking::{asked_bytes, asked_entry};
use crate::opening::bring_up;
use crate::outcomes::Outcome;
use crate::requests::place_below;
use crate::state::Node;
use pf_config::Config;
use pf_entry::Command;
use pf_eval::{Packet, Verdict, verdict};
use px_model::{Entry, EntryView};
use px_records::Records;
use px_replica::{Datagram, Membership, NodeFault, Received};

impl<R: Records> Node<R> {
    /// Takes a command in: the number that its entry got. Nothing is sent.
    ///
    /// `TooLong` where no entry of the command has a spelling, else `Full` where 64 entries wait, else `PositionsSpent`
    /// where every position is learned or every number used: then, and when out of memory, all is as it was.
    /// `Store` and `BadStore` are the record's; after either the node is failed, and answers `Failed` before all else.
    pub fn ask(&mut self, command: &Command) -> Result<u64, NodeFault>
        ensures call { Call (replica_of self.old) (replica_of self.new) (Asks (bytes_of command.now)) [] []
            (fault_of result) }
        ensures number { R.is_honest (records_of self.new) →
            IfOk result (λ k. k ≡ (R.stored (records_of self.old)).meta.number) }
        ensures long { result ≡ Err NodeFault.TooLong → IsTrue (is_over (unnamed command.now)) }
        ensures short { has_failed self.old ≡ false → IsTrue (is_over (unnamed command.now)) →
            (result ≡ Err NodeFault.TooLong) ⊎ (result ≡ Err NodeFault.Memory) }
        ensures applied { applied_of self.new ≡ applied_of self.old }
        ensures config { config_of self.new ≡ config_of self.old }
    {
        if self.replica.has_failed() {
            return Err(NodeFault::Failed);
        }
        let bytes = asked_bytes(self.alloc, command)?;
        match asked_entry(command, bytes.as_slice()) {
            Some(entry) => self.ask_entry(&entry),
            None => unreachable!(),
        }
    }

    /// The same of a command as it is spelled; the entry's origin and number don't count.
    pub fn ask_entry(&mut self, entry: &EntryView) -> Result<u64, NodeFault>
        requires { is_command (view_of entry.now).command ≡ true }
        ensures call { Call (replica_of self.old) (replica_of self.new) (Asks (view_of entry.now).command) [] []
            (fault_of result) }
        ensures number { R.is_honest (records_of self.new) →
            IfOk result (λ k. k ≡ (R.stored (records_of self.old)).meta.number) }
        ensures long { result ≢ Err NodeFault.TooLong }
        ensures applied { applied_of self.new ≡ applied_of self.old }
        ensures config { config_of self.new ≡ config_of self.old }
    {
        self.replica.ask(entry)
    }

    /// What was learned is applied first; that is no part of the clock's event and stays done. Then the clock ticks.
    /// What is sent is appended after the commit.
    ///
    /// `Memory` also where what was learned can't be applied: then there was no event. `BallotsSpent` where a round is
    /// needed and every one is used; the rest is as for `ask`.
    pub fn tick(&mut self, out: &mut Vec<Datagram>) -> Result<(), NodeFault>
        ensures call { Call (replica_of self.old) (replica_of self.new) Ticks out.old.items out.new.items
            (fault_of result) }
        ensures long { result ≢ Err NodeFault.TooLong }
        ensures log { R.is_honest (records_of self.new) → learned_by self.new ≡ learned_by self.old }
        ensures grows { applied_of self.old ≤ applied_of self.new }
        ensures applied { R.is_honest (records_of self.new) →
            OnOk result (applied_of self.new ≡ front (learned_by self.new)) }
    {
        if self.replica.has_failed() {
            return Err(NodeFault::Failed);
        }
        if bring_up(self).is_err() {
            return Err(NodeFault::Memory);
        }
        self.replica.tick(out)
    }

    /// Takes a datagram, and applies what it lets the node learn as far as memory serves; the next tick applies the
    /// rest. A datagram that spells nothing for this member is ignored, and then nothing changes. What is asked from
    /// outside is answered, a refusal with `AskRefused`. `Memory`, `Store`, `BadStore` and `Failed` are as for `ask`;
    /// no other fault comes.
    pub fn receive(&mut self, bytes: &[u8], out: &mut Vec<Datagram>) -> Result<Received, NodeFault>
        ensures received { Receives (replica_of self.old) (replica_of self.new) bytes.now out.old.items out.new.items
            result }
        ensures ignored { IfOk result (λ r. MatchReceived r (Unit {0})
            ((config_of self.new ≡ config_of self.old) × (applied_of self.new ≡ applied_of self.old))) }
        ensures refused { OnErr result
            ((config_of self.new ≡ config_of self.old) × (applied_of self.new ≡ applied_of self.old)) }
        ensures grows { applied_of self.old ≤ applied_of self.new }
    {
        match self.replica.receive(bytes, out) {
            Ok(Received::Done) => {
                let _outcome = bring_up(self);
                Ok(Received::Done)
            }
            Ok(Received::Ignored(fault)) => Ok(Received::Ignored(fault)),
            Err(fault) => Err(fault),
        }
    }
}

impl<R: Records> Node<R> {
    /// The least position not learned, 1,000,000 if there is none.
    pub fn front(&self) -> u32
        ensures front { result ≡ front (learned_by self.now) }
        ensures within { result ≤ positions }
    {
        self.replica.front()
    }

    /// How many commands wait to be proposed, 64 at most.
    pub fn waiting(&self) -> usize
        ensures { result ≡ length (state_in self.now).volatile.waiting }
    {
        self.replica.waiting()
    }

    /// Whether an attempt is under way: a command is being proposed, and its outcome isn't known yet.
    pub fn is_attempting(&self) -> bool
        ensures { result ≡ is_some (state_in self.now).volatile.attempt }
    {
        self.replica.is_attempting()
    }

    /// Whether the node has the lead: a majority has promised it all positions from one on.
    pub fn is_leading(&self) -> bool
        ensures { result ≡ is_some (state_in self.now).volatile.lead }
    {
        self.replica.is_leading()
    }

    /// How many positions are applied, at most `front`.
    pub fn applied(&self) -> u32
        ensures applied { result ≡ applied_of self.now }
        ensures behind { result ≤ front (learned_by self.now) }
        ensures configured { after (learned_by self.now) result ≡ Some (config_of self.now) }
    {
        self.applied
    }

    /// The configuration after the first `applied` learned entries.
    pub fn config(&self) -> &Config
        ensures config { result.now ≡ config_of self.now }
        ensures configured { after (learned_by self.now) (applied_of self.now) ≡ Some result.now }
    {
        &self.config
    }

    /// What becomes of a packet in that configuration.
    pub fn verdict(&self, packet: &Packet) -> Verdict<'_>
        ensures { judgement_of result ≡ judgement (config_of self.now) packet.now }
    {
        verdict(&self.config, packet)
    }

    /// What came of the command at a position that is applied; none of another position, nor where it isn't kept any
    /// more: of the last 4,096 positions it is, as far as memory serves.
    #[tactic(auto, using(crate::proofs::Recording::recorded_at))]
    pub fn outcome(&self, position: u32) -> Option<Outcome>
        ensures kept { IsSome result ↔
            ((position < applied_of self.now) × (applied_of self.now ≤ position + kept_of self.now)) }
        ensures value { IfSome result (λ o. o ≡ outcome_at (learned_by self.now) position) }
    {
        if position >= self.applied {
            return None;
        }
        self.outcomes.before((self.applied - 1 - position) as usize)
    }

    /// The last position below the front at which a request was learned: that of this member with this number.
    pub fn position_of(&self, origin: u8, number: u64) -> Option<u32>
        ensures { result ≡ place_below (learned_by self.now) origin number (front (learned_by self.now)) }
    {
        let end = self.replica.front();
        place_below(&self.replica, &self.numbers, end, origin, number)
    }

    /// The entry learned at the position.
    pub fn entry(&self, position: u32) -> Option<&Entry>
        ensures { option_map (λ e. entry_of e.now) result ≡ learned_by self.now position }
    {
        self.replica.learned(position)
    }

    /// The bytes of the entry learned at the position.
    pub fn learned(&self, position: u32) -> Option<&[u8]>
        ensures { option_map (λ b. b.now) result ≡ option_map spelled (learned_by self.now position) }
    {
        self.replica.learned(position).map(|entry| entry.bytes())
    }

    /// The round that the record has, as last committed; of a failed node as last known.
    pub fn round(&self) -> u64
        ensures { has_failed self.now ≡ false → R.is_honest (records_of self.now) →
            result ≡ (R.stored (records_of self.now)).meta.round }
    {
        self.replica.round()
    }

    /// Who takes part, and which member this is.
    pub fn membership(&self) -> Membership
        ensures membership { result ≡ membership_of self.now }
        ensures here { result.me < result.members }
    {
        self.replica.membership()
    }

    /// Whether a call on the record has failed.
    pub fn has_failed(&self) -> bool
        ensures { result ≡ has_failed self.now }
    {
        self.replica.has_failed()
    }

    /// A restart in place: all is let go but the record, what is learned and what is applied. Allocates nothing.
    pub fn forget(&mut self)
        ensures volatile { (state_in self.new).volatile ≡ nothing_volatile }
        ensures records { records_of self.new ≡ records_of self.old }
        ensures learned { learned_by self.new ≡ learned_by self.old }
        ensures failed { has_failed self.new ≡ has_failed self.old }
        ensures applied { applied_of self.new ≡ applied_of self.old }
        ensures config { config_of self.new ≡ config_of self.old }
        ensures membership { membership_of self.new ≡ membership_of self.old }
    {
        self.replica.forget();
    }
}
