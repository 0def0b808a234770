//! Three members, and the messages between them.

ghost use Rattle.std.specs.Prelude.{◌≡◌};

use crate::member::{Counters, Event, call, opened, take};
use crate::step::Step;
use pf_entry::decode;
use pf_node::{Command, Datagram, Node, NodeFault};
use pf_rules::Path;
use px_records::Records;
use std::alloc::Global;

/// How many messages there is room for.
const ROOM: usize = 128;

/// The members, all that was sent between them, in order, and what was refused.
#[derive(Drop)]
pub struct Run<R: Records> {
    alloc: Global,
    members: Vec<Node<R>>,
    /// All that was handed out, in order.
    pub sent: Vec<Datagram>,
    /// What was refused.
    pub counters: Counters,
    is_once: bool,
}

/// The command of the entry with these digits.
fn command(alloc: Global, digits: &str) -> Option<Command> {
    let bytes = hex::decode(alloc, digits).ok()?;
    let entry = decode(bytes.as_slice()).ok()?.to_entry(alloc).ok()?;
    Some(entry.command)
}

/// The member, started anew with its record.
fn reopened<R: Records + Drop>(alloc: Global, node: Node<R>) -> Option<Node<R>> {
    let m = node.membership();
    match Node::open(alloc, m, node.close()) {
        Ok(node) => Some(node),
        Err((_, records)) => {
            drop(records);
            None
        }
    }
}

/// Whether the call is refused as one of a node that has failed, and hands nothing out.
fn is_failed<R: Records>(node: &mut Node<R>, event: Event, out: &mut Vec<Datagram>) -> bool {
    call(node, event, out) == Err(NodeFault::Failed) && out.is_empty()
}

/// The first message, none where nothing was sent.
fn first(sent: &[Datagram]) -> &[u8] {
    match sent.first() {
        Some(datagram) => datagram.bytes.as_slice(),
        None => &[],
    }
}

/// Whether an asking, a tick and these bytes are refused so.
fn refuses_all<R: Records>(alloc: Global, node: &mut Node<R>, bytes: &[u8]) -> bool {
    let mut out = Vec::new(alloc);
    let command = Command::FlushRules(Path::main(alloc));
    let is_asked = is_failed(node, Event::Asks(&command), &mut out);
    drop(command);
    is_asked
        && is_failed(node, Event::Ticks, &mut out)
        && is_failed(node, Event::Comes(bytes), &mut out)
}

impl<R: Records + Drop> Run<R> {
    /// No members, and nothing sent. A refused call is made again, or ends the run.
    pub fn new(alloc: Global, is_once: bool) -> Run<R> {
        Run {
            alloc,
            members: Vec::new(alloc),
            sent: Vec::new(alloc),
            counters: Counters::new(),
            is_once,
        }
    }

    /// Makes room for three members and what they send. Whether there was memory for that.
    pub fn make_room(&mut self) -> bool {
        self.members.reserve(3).is_ok() && self.sent.reserve(ROOM).is_ok()
    }

    /// The member of this number joins with this record. Whether there was memory for that.
    pub fn join(&mut self, me: u8, records: R) -> bool
        requires { R.members records ≡ 3 }
    {
        match opened(self.alloc, me, records) {
            Some(node) => self.members.push(node).is_ok(),
            None => false,
        }
    }

    /// The member is asked the command.
    fn ask_command(
        &mut self,
        member: usize,
        command: &Command,
        out: &mut Vec<Datagram>,
    ) -> Option<bool> {
        let node = self.members.get_mut(member)?;
        Some(take(
            node,
            Event::Asks(command),
            out,
            &mut self.counters,
            self.is_once,
        ))
    }

    /// The member is asked the command of the entry with these digits.
    fn ask(&mut self, member: usize, digits: &str, out: &mut Vec<Datagram>) -> Option<bool> {
        let command = command(self.alloc, digits)?;
        let asked = self.ask_command(member, &command, out);
        drop(command);
        asked
    }

    /// The member's clock ticks.
    fn tick(&mut self, member: usize, out: &mut Vec<Datagram>) -> Option<bool> {
        let node = self.members.get_mut(member)?;
        Some(take(node, Event::Ticks, out, &mut self.counters, self.is_once))
    }

    /// The addressee receives the message.
    fn deliver(&mut self, number: usize, out: &mut Vec<Datagram>) -> Option<bool> {
        let datagram = self.sent.get(number)?;
        let node = self.members.get_mut(datagram.to as usize)?;
        let event = Event::Comes(datagram.bytes.as_slice());
        Some(take(node, event, out, &mut self.counters, self.is_once))
    }

    /// What was handed out is on its way.
    fn send(&mut self, out: Vec<Datagram>) -> bool {
        for datagram in out {
            if self.sent.push(datagram).is_err() {
                return false;
            }
        }
        true
    }

    /// The member starts anew with its record. None where there is none, or its record doesn't open.
    fn restart(&mut self, member: usize) -> Option<()> {
        if member >= self.members.len() {
            return None;
        }
        match reopened(self.alloc, self.members.remove(member)) {
            Some(node) => self.members.insert(member, node).ok(),
            None => None,
        }
    }

    /// The member's clock ticks, what it hands out is lost, and it starts anew.
    fn stop(&mut self, member: usize, lost: &mut Vec<Datagram>) -> Option<bool> {
        let is_done = self.tick(member, lost)?;
        lost.clear();
        if is_done {
            self.restart(member)?;
        }
        Some(is_done)
    }

    /// The step happens: whether it was done.
    fn take_step(&mut self, step: Step, out: &mut Vec<Datagram>) -> Option<bool> {
        match step {
            Step::Ask(member, digits) => self.ask(member, digits, out),
            Step::Tick(member) => self.tick(member, out),
            Step::Stop(member) => self.stop(member, out),
            Step::Deliver(number) => self.deliver(number, out),
        }
    }

    /// The step happens, and what it hands out is on its way: whether it was done. None where it is no step, or the
    /// program itself was out of memory.
    pub fn happen(&mut self, step: Step) -> Option<bool> {
        let mut out = Vec::new(self.alloc);
        let is_done = self.take_step(step, &mut out);
        if self.send(out) { is_done } else { None }
    }

    /// Whether the first member refuses each further call as one that has failed, and hands nothing out.
    pub fn is_closed(&mut self) -> bool {
        match self.members.first_mut() {
            Some(node) => refuses_all(self.alloc, node, first(&self.sent)),
            None => false,
        }
    }

    /// The members, in order.
    pub fn members(&self) -> &[Node<R>] {
        &self.members
    }

    /// The first member leaves, if there is one.
    pub fn leave(&mut self) -> Option<Node<R>> {
        if self.members.is_empty() {
            None
        } else {
            Some(self.members.remove(0))
        }
    }
}
