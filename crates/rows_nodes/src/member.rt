//! A member, and its state after a call of it that was out of memory.

ghost use Rattle.std.specs.Prelude.{◌≡◌};

use pf_node::{Command, Datagram, Membership, Node, NodeFault, Received};
use px_records::Records;
use std::alloc::Global;

/// How often a call is made again before it is given up.
const TRIES: u8 = 20;

/// The member of this number with this record.
pub fn opened<R: Records + Drop>(alloc: Global, me: u8, records: R) -> Option<Node<R>>
    requires { R.members records ≡ 3 }
{
    let m = Membership::new(7, 3, me)?;
    if m.me() >= m.members() {
        return None;
    }
    match Node::open(alloc, m, records) {
        Ok(node) => Some(node),
        Err((_, records)) => {
            drop(records);
            None
        }
    }
}

/// What a member receives.
#[derive(Clone, Copy)]
pub enum Event<'a> {
    /// It is asked a command.
    Asks(&'a Command),
    /// Its clock ticks.
    Ticks,
    /// A datagram comes.
    Comes(&'a [u8]),
}

/// What a member shows without taking memory.
#[derive(Clone, Copy, PartialEq)]
pub struct Seen {
    /// The round last recorded.
    pub round: u64,
    /// The least position not learned.
    pub front: u32,
    /// How many positions are applied.
    pub applied: u32,
    /// How many of the first 64 positions are learned.
    pub learned: u32,
    /// How many entries the table `t` of main has.
    pub entries: usize,
    /// Whether a call on the record has failed.
    pub has_failed: bool,
}

/// How many of the first 64 positions are learned.
fn learned<R: Records>(node: &Node<R>) -> u32 {
    let mut count = 0u32;
    for position in 0..64u32 {
        if node.learned(position).is_some() {
            count = count.saturating_add(1);
        }
    }
    count
}

/// How many entries the table `t` of main has.
fn entries<R: Records>(node: &Node<R>) -> usize {
    match node.config().table(&[], "t") {
        Some(table) => table.entry_count(),
        None => 0,
    }
}

/// What the member shows.
pub fn look<R: Records>(node: &Node<R>) -> Seen {
    Seen {
        round: node.round(),
        front: node.front(),
        applied: node.applied(),
        learned: learned(node),
        entries: entries(node),
        has_failed: node.has_failed(),
    }
}

/// What was refused so far.
#[derive(Clone, Copy)]
pub struct Counters {
    /// Datagrams that were refused since it was out of memory.
    pub datagrams: u32,
    /// Ticks that were.
    pub ticks: u32,
    /// Commands that were.
    pub commands: u32,
    /// Datagrams behind which less is applied than is learned.
    pub late: u32,
    /// Whether a commit failed, which ends the run.
    pub is_stopped: bool,
    /// Whether something else than what is promised was seen.
    pub is_wrong: bool,
}

/// The call, once.
pub fn call<R: Records>(
    node: &mut Node<R>,
    event: Event,
    out: &mut Vec<Datagram>,
) -> Result<(), NodeFault> {
    match event {
        Event::Asks(command) => match node.ask(command) {
            Ok(_) => Ok(()),
            Err(fault) => Err(fault),
        },
        Event::Ticks => node.tick(out),
        Event::Comes(bytes) => match node.receive(bytes, out) {
            Ok(Received::Done) => Ok(()),
            Ok(Received::Ignored(_)) => Err(NodeFault::TooLong),
            Err(fault) => Err(fault),
        },
    }
}

/// Whether a refused call left the member so: as it was, but that a tick may have applied what was learned.
fn is_kept(before: Seen, after: Seen, event: Event) -> bool {
    match event {
        Event::Ticks => {
            before.applied <= after.applied
                && before
                    == Seen {
                        applied: before.applied,
                        entries: before.entries,
                        ..after
                    }
        }
        _ => before == after,
    }
}

/// Whether a call that was done left what is applied so: all that is learned behind a tick, never more.
fn is_applied(after: Seen, event: Event) -> bool {
    match event {
        Event::Ticks => after.applied == after.front,
        _ => after.applied <= after.front,
    }
}

impl Counters {
    /// Nothing was refused.
    pub fn new() -> Counters {
        Counters {
            datagrams: 0,
            ticks: 0,
            commands: 0,
            late: 0,
            is_stopped: false,
            is_wrong: false,
        }
    }

    /// The call was done.
    fn done(&mut self, after: Seen, event: Event) {
        if after.applied < after.front {
            self.late = self.late.saturating_add(1);
        }
        if !is_applied(after, event) {
            self.is_wrong = true;
        }
    }

    /// The call was refused: out of memory.
    fn count(&mut self, event: Event) {
        match event {
            Event::Asks(_) => self.commands = self.commands.saturating_add(1),
            Event::Ticks => self.ticks = self.ticks.saturating_add(1),
            Event::Comes(_) => self.datagrams = self.datagrams.saturating_add(1),
        }
    }

    /// The call was refused, and handed something out or nothing. Whether it may be made again.
    fn refuse(
        &mut self,
        event: Event,
        fault: NodeFault,
        is_silent: bool,
        is_as_before: bool,
    ) -> bool {
        if fault == NodeFault::Store && is_silent {
            self.is_stopped = true;
            return false;
        }
        if fault != NodeFault::Memory || !is_silent || !is_as_before {
            self.is_wrong = true;
            return false;
        }
        self.count(event);
        true
    }
}

/// Makes the call, again as often as it is out of memory, or once: whether it was done.
pub fn take<R: Records>(
    node: &mut Node<R>,
    event: Event,
    out: &mut Vec<Datagram>,
    counters: &mut Counters,
    is_once: bool,
) -> bool {
    for _ in 0..TRIES {
        let before = look(node);
        match call(node, event, out) {
            Ok(()) => {
                counters.done(look(node), event);
                return true;
            }
            Err(fault) => {
                let is_as_before = is_kept(before, look(node), event);
                if !counters.refuse(event, fault, out.is_empty(), is_as_before) || is_once {
                    return false;
                }
            }
        }
    }
    false
}
