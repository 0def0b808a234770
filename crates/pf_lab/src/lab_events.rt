//! A lab's steps: what each event does.

ghost use Rattle.std.specs.Prelude.{◌≡◌, ◌≤◌, ◌<◌, ◌+◌, ◌++◌, IfOk, OnOk, OnErr, Err, true, false};
ghost use Rattle.std.specs.List.{flat_map};
ghost use Rattle.std.specs.Vec.{vec_len, vec_capacity};
ghost use Rattle.px_model.specs.Spelling.{Bytes};
ghost use Rattle.px_model.specs.World.{World, happens, run, start};
ghost use Rattle.px_model.specs.World.Event.{Runs, StopBefore, StopAfter, Restart};
ghost use Rattle.px_wire.specs.Message.{Group};
ghost use Rattle.px_replica.specs.Made.{same};
ghost use Rattle.px_replica.specs.Spelled.{for_members};
ghost use Rattle.pf_lab.specs.Coming.{action_of, model_events};
ghost use Rattle.pf_lab.specs.inner.Coming.{IsNamed, IsOf};
ghost use Rattle.pf_lab.specs.Outcomes.{Reports, is_unknown, outcome_in, is_bad, becomes, are_known};
ghost use Rattle.pf_lab.specs.Ever.{ever_of, IsEver, IsAgreed};
ghost use Rattle.pf_lab.specs.Same.{AreEqual};
ghost use Rattle.pf_lab.specs.Labs.{IsHost, IsWorld, cluster_of, state_of, group_of};
ghost use Rattle.px_core.specs.declared.limits.TheConstants.{MEMBERS};

use crate::coming::{named, what_comes};
use crate::event::{LabAction, LabEvent, LabFault, Outcome, Stepped};
use crate::host::Host;
use crate::state::Lab;
use pf_entry::CLIENT;
use pf_node::{Membership, Node};
use px_records::MemoryRecords;
use px_replica::Datagram;
use std::alloc::Global;

/// How many messages a member sends in a step at most.
const MESSAGES: usize = px_core::MEMBERS as usize;

/// What goes to members joins what was sent, where there is room.
fn send_on(sent: &mut Vec<Datagram>, out: &mut Vec<Datagram>)
    requires { vec_len sent.old + vec_len out.old ≤ vec_capacity sent.old }
    ensures { sent.new.items ≡ sent.old.items ++ for_members out.old.items }
{
    out.retain(|d| d.to != CLIENT);
    let _moved = sent.append(out);
}

impl Lab {
    /// The action happens in the world.
    fn run(&mut self, action: &LabAction, bytes: &[u8]) -> Stepped
        requires { IsNamed action.now bytes.now }
        ensures happens { (g : Group) (w : World Bytes) → IsWorld self.old g w →
            OnOk result (IsWorld self.new g (happens same g.members w (Runs (action_of action.now)))) }
        ensures reported { (g : Group) (w : World Bytes) → IsWorld self.old g w →
            Reports result (is_unknown g.members w (Runs (action_of action.now)))
            (outcome_in g.members w (Runs (action_of action.now))) }
        ensures stays { (g : Group) (w : World Bytes) → IsWorld self.old g w → OnErr result (IsWorld self.new g w) }
    {
        self.sent.reserve(MESSAGES).map_err(|_| LabFault::Memory)?;
        let (m, what) = what_comes(self.sent.as_slice(), action, bytes).ok_or(LabFault::BadEvent)?;
        let host = self.hosts.get_mut(m as usize).ok_or(LabFault::BadEvent)?;
        if !host.is_up {
            return Ok(Outcome::Stopped);
        }
        let mut out = Vec::new(self.alloc);
        let outcome = host.take(what, &mut out)?;
        send_on(&mut self.sent, &mut out);
        Ok(outcome)
    }

    /// A member stops before the action changes anything.
    fn stop_before(&mut self, action: &LabAction, bytes: &[u8]) -> Stepped
        requires { IsNamed action.now bytes.now }
        ensures happens { (g : Group) (w : World Bytes) → IsWorld self.old g w →
            OnOk result (IsWorld self.new g (happens same g.members w (StopBefore (action_of action.now)))) }
        ensures reported { (g : Group) (w : World Bytes) → IsWorld self.old g w →
            Reports result (is_unknown g.members w (StopBefore (action_of action.now)))
            (outcome_in g.members w (StopBefore (action_of action.now))) }
        ensures stays { (g : Group) (w : World Bytes) → IsWorld self.old g w → OnErr result (IsWorld self.new g w) }
    {
        let (m, _) = what_comes(self.sent.as_slice(), action, bytes).ok_or(LabFault::BadEvent)?;
        let host = self.hosts.get_mut(m as usize).ok_or(LabFault::BadEvent)?;
        if !host.is_up {
            return Ok(Outcome::Stopped);
        }
        host.empty(false);
        Ok(Outcome::Nothing)
    }

    /// A member stops after the action's change is recorded.
    fn stop_after(&mut self, action: &LabAction, bytes: &[u8]) -> Stepped
        requires { IsNamed action.now bytes.now }
        ensures happens { (g : Group) (w : World Bytes) → IsWorld self.old g w →
            OnOk result (IsWorld self.new g (happens same g.members w (StopAfter (action_of action.now)))) }
        ensures reported { (g : Group) (w : World Bytes) → IsWorld self.old g w →
            Reports result (is_unknown g.members w (StopAfter (action_of action.now)))
            (outcome_in g.members w (StopAfter (action_of action.now))) }
        ensures stays { (g : Group) (w : World Bytes) → IsWorld self.old g w → OnErr result (IsWorld self.new g w) }
    {
        let (m, what) = what_comes(self.sent.as_slice(), action, bytes).ok_or(LabFault::BadEvent)?;
        let host = self.hosts.get_mut(m as usize).ok_or(LabFault::BadEvent)?;
        if !host.is_up {
            return Ok(Outcome::Stopped);
        }
        let mut lost = Vec::new(self.alloc);
        let _outcome = host.take(what, &mut lost)?;
        host.empty(false);
        Ok(Outcome::Nothing)
    }

    /// A member starts anew, with its record alone.
    fn restart(&mut self, m: u8) -> Stepped
        ensures happens { (g : Group) (w : World Bytes) → IsWorld self.old g w →
            OnOk result (IsWorld self.new g (happens same g.members w (Restart m))) }
        ensures reported { (g : Group) (w : World Bytes) → IsWorld self.old g w →
            Reports result (is_unknown g.members w (Restart m)) (outcome_in g.members w (Restart m)) }
        ensures stays { (g : Group) (w : World Bytes) → IsWorld self.old g w → OnErr result (IsWorld self.new g w) }
    {
        let host = self.hosts.get_mut(m as usize).ok_or(LabFault::BadEvent)?;
        host.empty(true);
        Ok(Outcome::Nothing)
    }

    /// The action happens, or the member stops before or after it; a command that is too long is refused.
    fn act(&mut self, event: &LabEvent, action: &LabAction) -> Stepped
        requires { IsOf event.now action.now }
        ensures happens { (g : Group) (w : World Bytes) → IsWorld self.old g w →
            OnOk result (IsWorld self.new g (run same g.members (model_events event.now) w)) }
        ensures reported { (g : Group) (w : World Bytes) → IsWorld self.old g w →
            Reports result (is_bad g.members w event.now) (becomes g.members w event.now) }
        ensures stays { (g : Group) (w : World Bytes) → IsWorld self.old g w → OnErr result (IsWorld self.new g w) }
    {
        let Some(bytes) = named(self.alloc, action)? else {
            return Ok(Outcome::Refused(41));
        };
        match event {
            LabEvent::Runs(_) => self.run(action, &bytes),
            LabEvent::StopBefore(_) => self.stop_before(action, &bytes),
            LabEvent::StopAfter(_) => self.stop_after(action, &bytes),
            LabEvent::Restart(_) => unreachable!(),
        }
    }

    /// The event happens as in the world. An ask whose command is too long is no event: it is refused with 41.
    ///
    /// `BadEvent` exactly where the event names no member or no message that was sent, unless out of memory first.
    /// It and `Memory` leave the same world: only what a tick applied before stays applied.
    pub fn step(&mut self, event: &LabEvent) -> Result<Outcome, LabFault>
        ensures happens { (g : Group) (w : World Bytes) → IsWorld self.old g w →
            OnOk result (IsWorld self.new g (run same g.members (model_events event.now) w)) }
        ensures reported { (g : Group) (w : World Bytes) → IsWorld self.old g w →
            Reports result (is_bad g.members w event.now) (becomes g.members w event.now) }
        ensures stays { (g : Group) (w : World Bytes) → IsWorld self.old g w → OnErr result (IsWorld self.new g w) }
    {
        match event {
            LabEvent::Runs(action) | LabEvent::StopBefore(action) | LabEvent::StopAfter(action) =>
                self.act(event, action),
            LabEvent::Restart(m) => self.restart(*m),
        }
    }
}

/// A member that starts with an empty record.
fn host(alloc: Global, members: u8, m: u8) -> Result<Host, LabFault>
    requires few { members ≤ MEMBERS }
    requires member { m < members }
    ensures host { IfOk result (λ s. IsHost start (cluster_of members) m (state_of s) (group_of s)) }
    ensures memory { OnErr result (result ≡ Err LabFault.Memory) }
{
    let Some(group) = Membership::new(0, members, m) else {
        unreachable!();
    };
    let records = MemoryRecords::new(alloc, members);
    match Node::open(alloc, group, records) {
        Ok(node) => Ok(Host { node, is_up: true }),
        Err(_) => Err(LabFault::Memory),
    }
}

impl Lab {
    /// The world as it begins: 1 to 15 members, each with an empty record, and nothing sent.
    pub fn new(alloc: Global, members: u8) -> Result<Lab, LabFault>
        requires some { 1 ≤ members }
        requires few { members ≤ MEMBERS }
        ensures world { IfOk result (λ lab. IsWorld lab (cluster_of members) start) }
        ensures memory { OnErr result (result ≡ Err LabFault.Memory) }
    {
        let mut hosts = Vec::new(alloc);
        for m in 0..members {
            let host = host(alloc, members, m)?;
            hosts.push(host).map_err(|_| LabFault::Memory)?;
        }
        let sent = Vec::new(alloc);
        Ok(Lab { hosts, sent, alloc })
    }
}

/// The world after these events, one after another: what was ever learned there satisfies the agreement, and members
/// that have applied equally many positions have one configuration, and give one verdict for every packet.
///
/// `BadEvent` exactly where one of the events, in its turn, names no member or no message that was sent, unless it is
/// out of memory first.
pub fn lab(alloc: Global, members: u8, events: &[LabEvent]) -> Result<Lab, LabFault>
    requires some { 1 ≤ members }
    requires few { members ≤ MEMBERS }
    ensures world { IfOk result (λ lab. IsWorld lab (cluster_of members)
        (run same members (flat_map model_events events.now) start)) }
    ensures ever { IfOk result (λ lab. IsEver (ever_of lab.hosts.items)
        (run same members (flat_map model_events events.now) start)) }
    ensures agreed { IfOk result (λ lab. IsAgreed members
        (run same members (flat_map model_events events.now) start) (ever_of lab.hosts.items)) }
    ensures equal { IfOk result (λ lab. AreEqual lab.hosts.items) }
    ensures known { OnOk result (are_known members events.now start ≡ true) }
    ensures unknown { result ≡ Err LabFault.BadEvent → are_known members events.now start ≡ false }
{
    let mut lab = Lab::new(alloc, members)?;
    for event in events {
        let _outcome = lab.step(event)?;
    }
    Ok(lab)
}
