//! A call of a member's node for what an event brings, and its stop or restart.

ghost use Rattle.std.specs.Prelude.{◌≡◌, ◌≤◌, ℕ, [], length, false, Err, IfOk, OnOk, OnErr};
ghost use Rattle.px_model.specs.Node.{Answer, Input, Message, Meta};
ghost use Rattle.px_model.specs.Node.Answer.{Refused};
ghost use Rattle.px_model.specs.Node.Input.{Asks, Ticks, Comes};
ghost use Rattle.px_model.specs.Spelling.{Bytes};
ghost use Rattle.px_model.specs.Step.{nothing_volatile};
ghost use Rattle.px_wire.specs.Members.{as_sent, Passing};
ghost use Rattle.px_wire.specs.Message.{group, DatagramBytes};
ghost use Rattle.px_replica.specs.Faults.{IsRefusedBy};
ghost use Rattle.px_replica.specs.Made.{answer};
ghost use Rattle.px_replica.specs.Seen.{IsSound};
ghost use Rattle.pf_node.specs.Nodes.{state_in, membership_of, has_failed};
ghost use Rattle.pf_lab.specs.inner.Coming.{IsInput, IsAskable};
ghost use Rattle.pf_lab.specs.Outcomes.{outcome_of};
ghost use Rattle.pf_lab.specs.Labs.{state_of, group_of};
ghost use Rattle.pf_lab.specs.inner.Labs.{IsAnswered, IsLabs};
ghost use Rattle.px_core.specs.declared.limits.TheConstants.{MEMBERS};

use crate::coming::What;
use crate::event::{LabFault, Outcome, Stepped};
use crate::host::Host;
use pf_node::Node;
use px_records::MemoryRecords;
use px_replica::{Datagram, NodeFault};

/// The outcome of a refusal.
fn refused(fault: NodeFault) -> Stepped
    requires { IsLabs fault }
    ensures refused { (a : Answer Bytes) → IsRefusedBy fault a →
        OnOk result ((code : ℕ) × (a ≡ Refused code)) }
    ensures asks { (a : Answer Bytes) (meta : Meta) (c : Bytes) → IsRefusedBy fault a →
        IfOk result (λ o. o ≡ outcome_of meta (Asks c) a) }
    ensures ticks { (a : Answer Bytes) (meta : Meta) → IsRefusedBy fault a →
        IfOk result (λ o. o ≡ outcome_of meta Ticks a) }
    ensures memory { OnErr result (result ≡ Err LabFault.Memory) }
{
    match fault {
        NodeFault::Full => Ok(Outcome::Refused(60)),
        NodeFault::BallotsSpent => Ok(Outcome::Refused(61)),
        NodeFault::PositionsSpent => Ok(Outcome::Refused(62)),
        NodeFault::Memory => Err(LabFault::Memory),
        _ => unreachable!(),
    }
}

/// A datagram arrives at a node over a record in memory.
fn receive(node: &mut Node<MemoryRecords>, bytes: &[u8], out: &mut Vec<Datagram>) -> Stepped
    requires empty { out.old.items ≡ [] }
    requires works { has_failed node.old ≡ false }
    requires sound { IsSound (membership_of node.old).members (state_in node.old).stored }
    ensures went { (from : ℕ) (message : Message Bytes) →
        Passing (membership_of node.old).members from (membership_of node.old).me message →
        DatagramBytes (group (membership_of node.old)) from (membership_of node.old).me (as_sent message) bytes.now →
        OnOk result (IsAnswered (group (membership_of node.old))
        (answer (membership_of node.old).members (membership_of node.old).me (state_in node.old) (Comes from message))
        (state_in node.old) (state_in node.new) out.new.items) }
    ensures reported { IfOk result (λ o. o ≡ Outcome.Nothing) }
    ensures stays { OnErr result (state_in node.new ≡ state_in node.old) }
    ensures memory { OnErr result (result ≡ Err LabFault.Memory) }
    ensures few { OnOk result (length out.new.items ≤ MEMBERS) }
    ensures works { has_failed node.new ≡ false }
    ensures sound { IsSound (membership_of node.new).members (state_in node.new).stored }
    ensures group { membership_of node.new ≡ membership_of node.old }
{
    match node.receive(bytes, out) {
        Ok(_) => Ok(Outcome::Nothing),
        Err(_) => Err(LabFault::Memory),
    }
}

impl Host {
    /// What the member receives is answered as the model answers it.
    pub(crate) fn take(&mut self, what: What, out: &mut Vec<Datagram>) -> Stepped
        requires empty { out.old.items ≡ [] }
        requires askable { IsAskable what }
        ensures went { (x : Input Bytes) → IsInput (group (group_of self.old)) (group_of self.old).me what.entry x →
            OnOk result (IsAnswered (group (group_of self.old))
            (answer (group_of self.old).members (group_of self.old).me (state_in self.old.node) x)
            (state_in self.old.node) (state_in self.new.node) out.new.items) }
        ensures reported { (x : Input Bytes) → IsInput (group (group_of self.old)) (group_of self.old).me what.entry x →
            IfOk result (λ o. o ≡ outcome_of (state_in self.old.node).stored.meta x
            (answer (group_of self.old).members (group_of self.old).me (state_in self.old.node) x)) }
        ensures stays { OnErr result (state_in self.new.node ≡ state_in self.old.node) }
        ensures memory { OnErr result (result ≡ Err LabFault.Memory) }
        ensures few { OnOk result (length out.new.items ≤ MEMBERS) }
        ensures group { group_of self.new ≡ group_of self.old }
        ensures up { self.new.is_up ≡ self.old.is_up }
    {
        match what {
            What::Ask(entry) => match self.node.ask_entry(&entry) {
                Ok(number) => Ok(Outcome::Asked(number)),
                Err(fault) => refused(fault),
            },
            What::Tick => match self.node.tick(out) {
                Ok(()) => Ok(Outcome::Nothing),
                Err(fault) => refused(fault),
            },
            What::Datagram(bytes) => receive(&mut self.node, bytes, out),
        }
    }

    /// The member loses all but its record, and goes on or stops.
    pub(crate) fn empty(&mut self, up: bool)
        ensures state { state_of self.new ≡
            record { is_up = up; stored = (state_of self.old).stored; volatile = nothing_volatile } }
        ensures group { group_of self.new ≡ group_of self.old }
    {
        self.node.forget();
        self.is_up = up;
    }
}
