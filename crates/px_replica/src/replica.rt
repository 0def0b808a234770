//! The calls of a member with its record.

ghost use Rattle.std.specs.Prelude.{◌≡◌, ◌≢◌, ◌<◌, ◌≤◌, true, false, Err, IfErr, IfOk, OnErr, []};
ghost use Rattle.std.specs.Prelude.{option_map, length, is_some};
ghost use Rattle.px_model.specs.Node.Input.{Asks, Ticks};
ghost use Rattle.px_model.specs.Step.{front, nothing_volatile, positions};
ghost use Rattle.px_model.specs.Entries.{entry_of, view_of};
ghost use Rattle.px_model.specs.Fits.{Passes, InputFits};
ghost use Rattle.px_model.specs.Seen.{input_of};
ghost use Rattle.px_wire.specs.Sent.{is_command};
ghost use Rattle.px_replica.specs.Calls.{Call, Receives};
ghost use Rattle.px_replica.specs.Faults.{fault_of};
ghost use Rattle.px_replica.specs.inner.Faults.{IsFromBelow};
ghost use Rattle.px_replica.specs.Replicas.{records_of, learned_by, membership_of, has_failed, state_in};

use crate::act::act;
use crate::datagram::Datagram;
use crate::fault::NodeFault;
use crate::receiving::Received;
use crate::state::Replica;
use px_model::{Entry, EntryView, Event};
use px_records::Records;
use px_wire::{Membership, decode};

impl<R: Records> Replica<R> {
    /// One step of the model; answers the next number before it. After a failure of the store the replica is failed.
    fn step(&mut self, event: &Event, out: &mut Vec<Datagram>) -> Result<u64, NodeFault>
        requires works { has_failed self.old ≡ false }
        requires event { InputFits (Passes is_command) (membership_of self.old).members (membership_of self.old).me
            (input_of event.now) }
        ensures call { Call self.old self.new (input_of event.now) out.old.items out.new.items
            (fault_of result) }
        ensures number { R.is_honest (records_of self.new) →
            IfOk result (λ k. k ≡ (R.stored (records_of self.old)).meta.number) }
        ensures own { IfErr result IsFromBelow }
        ensures log { OnErr result (learned_by self.new ≡ learned_by self.old) }
    {
        match act(self.alloc, &mut self.records, &mut self.member, event, out) {
            Ok(acted) => {
                self.round = acted.round;
                Ok(acted.number)
            }
            Err(fault) => {
                self.is_failed = fault == NodeFault::Store || fault == NodeFault::BadStore;
                Err(fault)
            }
        }
    }
}

impl<R: Records> Replica<R> {
    /// Takes a command in: the number that it got. Nothing is sent. The entry's origin and number don't count.
    ///
    /// Refused with `Full` where 64 entries wait, else with `PositionsSpent` where every position is learned or every
    /// number used: then, and when out of memory, all is as it was. `Store` and `BadStore` are the record's; after
    /// either the replica is failed, and answers `Failed` to every call.
    pub fn ask(&mut self, entry: &EntryView) -> Result<u64, NodeFault>
        requires { is_command (view_of entry.now).command ≡ true }
        ensures call { Call self.old self.new (Asks (view_of entry.now).command) [] [] (fault_of result) }
        ensures number { R.is_honest (records_of self.new) →
            IfOk result (λ k. k ≡ (R.stored (records_of self.old)).meta.number) }
        ensures long { result ≢ Err NodeFault.TooLong }
    {
        if self.is_failed {
            return Err(NodeFault::Failed);
        }
        let mut nothing = Vec::new(self.alloc);
        self.step(&Event::Asks(*entry), &mut nothing)
    }

    /// The clock ticks. What is sent is appended after the commit. Refused with `BallotsSpent` where a round is needed
    /// and every one is used; the rest is as for `ask`.
    pub fn tick(&mut self, out: &mut Vec<Datagram>) -> Result<(), NodeFault>
        ensures call { Call self.old self.new Ticks out.old.items out.new.items (fault_of result) }
        ensures long { result ≢ Err NodeFault.TooLong }
        ensures log { R.is_honest (records_of self.new) → learned_by self.new ≡ learned_by self.old }
    {
        if self.is_failed {
            return Err(NodeFault::Failed);
        }
        match self.step(&Event::Ticks, out) {
            Ok(_) => Ok(()),
            Err(fault) => Err(fault),
        }
    }

    /// Takes a datagram. One that spells nothing for this member is ignored, and then nothing changes. What is asked
    /// from outside is answered, a refusal with `AskRefused`. `Memory`, `Store`, `BadStore` and `Failed` are as for
    /// `ask`; no other fault comes.
    pub fn receive(&mut self, bytes: &[u8], out: &mut Vec<Datagram>) -> Result<Received, NodeFault>
        ensures received { Receives self.old self.new bytes.now out.old.items out.new.items result }
    {
        if self.is_failed {
            return Err(NodeFault::Failed);
        }
        match decode(&self.member.group(), bytes) {
            Err(fault) => Ok(Received::Ignored(fault)),
            Ok((sender, message)) => match self.step(&Event::Comes(sender, message), out) {
                Ok(_) => Ok(Received::Done),
                Err(fault) => Err(fault),
            },
        }
    }
}

impl<R: Records> Replica<R> {
    /// The least position not learned, 1,000,000 if there is none.
    pub fn front(&self) -> u32
        ensures front { result ≡ front (learned_by self.now) }
        ensures within { result ≤ positions }
    {
        self.member.core.front()
    }

    /// The entry learned at the position.
    pub fn learned(&self, position: u32) -> Option<&Entry>
        ensures { option_map (λ e. entry_of e.now) result ≡ learned_by self.now position }
    {
        self.member.core.learned(position)
    }

    /// The round that the record has, as last committed; of a failed replica as last known.
    pub fn round(&self) -> u64
        ensures { has_failed self.now ≡ false → R.is_honest (records_of self.now) →
            result ≡ (R.stored (records_of self.now)).meta.round }
    {
        self.round
    }

    /// How many commands wait to be proposed, 64 at most.
    pub fn waiting(&self) -> usize
        ensures { result ≡ length (state_in self.now).volatile.waiting }
    {
        self.member.core.waiting()
    }

    /// Whether an attempt is under way: a command is being proposed, and its outcome isn't known yet.
    pub fn is_attempting(&self) -> bool
        ensures { result ≡ is_some (state_in self.now).volatile.attempt }
    {
        self.member.core.is_attempting()
    }

    /// Whether the member has the lead: a majority has promised it all positions from one on.
    pub fn is_leading(&self) -> bool
        ensures { result ≡ is_some (state_in self.now).volatile.lead }
    {
        self.member.core.is_leading()
    }

    /// Who takes part, and which member this is.
    pub fn membership(&self) -> Membership
        ensures membership { result ≡ membership_of self.now }
        ensures here { result.me < result.members }
    {
        self.member.group()
    }

    /// Whether a call on the record has failed.
    pub fn has_failed(&self) -> bool
        ensures { result ≡ has_failed self.now }
    {
        self.is_failed
    }

    /// A restart in place: all is let go but the record and what is learned. Allocates nothing.
    pub fn forget(&mut self)
        ensures volatile { (state_in self.new).volatile ≡ nothing_volatile }
        ensures records { records_of self.new ≡ records_of self.old }
        ensures learned { learned_by self.new ≡ learned_by self.old }
        ensures failed { has_failed self.new ≡ has_failed self.old }
        ensures membership { membership_of self.new ≡ membership_of self.old }
    {
        self.member.core.forget();
    }
}
