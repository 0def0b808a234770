//! A member that hears something in each round: its clock ticks when that is due, no later and no earlier.

use crate::members::{ask, coming, member};
use node_loop::{TickTimer, TurnBuffers, round};
use pf_node::{Command, Node};
use pf_rules::Path;
use px_records::MemoryRecords;
use px_transport::MemoryWire;
use std::alloc::Global;

/// The time from one round to the next, in microseconds.
const STEP: u64 = 1_000;

/// The kinds of a request for promises at one position, and at all from one on, and of a need.
const PREPARE: u8 = 1;

const PREPARE_ALL: u8 = 11;

const NEED: u8 = 6;

/// A need of member 1 of 3 of cluster 7, for member 0: the first position.
const HEARD: [u8; 17] = [
    0x50, 0x46, 0x58, 0x52, 1, 0, 0, 0, 7, 3, 1, 0, 6, 0, 0, 0, 0,
];

/// The same of another cluster, which is ignored.
const IGNORED: [u8; 17] = [
    0x50, 0x46, 0x58, 0x52, 1, 0, 0, 0, 8, 3, 1, 0, 6, 0, 0, 0, 0,
];

/// How many datagrams of these kinds were sent to member 1.
fn count(wire: &MemoryWire, kinds: &[u8]) -> usize {
    let mut sum = 0usize;
    for (to, bytes) in wire.sent().unwrap_or(&[]) {
        if *to == 1 && kinds.contains(bytes.get(12).unwrap_or(&0)) {
            sum = sum.saturating_add(1);
        }
    }
    sum
}

/// Member 0, its buffers and its timer.
#[derive(Drop)]
struct Busy {
    alloc: Global,
    node: Node<MemoryRecords>,
    buffers: TurnBuffers,
    timer: TickTimer,
    now: u64,
}

impl Busy {
    /// A member of 3 that starts, at which nothing waits.
    fn new(alloc: Global) -> Option<Busy> {
        let node = member(alloc, 3, 0)?;
        let buffers = TurnBuffers::new(alloc, &node.membership(), true).ok()?;
        Some(Busy {
            alloc,
            node,
            buffers,
            timer: TickTimer::new(0),
            now: 0,
        })
    }

    /// How many datagrams of these kinds it sends member 1 in a round for which this one has come. None where it fails.
    fn round(&mut self, datagram: &[u8], kinds: &[u8]) -> Option<usize> {
        let mut wire = MemoryWire::new(self.alloc, coming(self.alloc, datagram).ok()?);
        let made = round(
            &mut self.node,
            &mut wire,
            &mut self.buffers,
            &mut self.timer,
            self.now,
        );
        self.now = self.now.saturating_add(STEP);
        match made {
            Ok(_) => Some(count(&wire, kinds)),
            Err(_) => None,
        }
    }

    /// The same in as many rounds, in each of which this datagram comes.
    fn rounds(&mut self, rounds: u32, datagram: &[u8], kinds: &[u8]) -> Option<usize> {
        let mut sum = 0usize;
        for _ in 0..rounds {
            sum = sum.saturating_add(self.round(datagram, kinds)?);
        }
        Some(sum)
    }
}

/// Whether a command waits at the member then.
fn takes_one(busy: &mut Busy) -> bool {
    let path = Path::main(busy.alloc);
    ask(&mut busy.node, Command::FlushTables(path))
}

/// A command is proposed at once, and not again before 100 ms are over, in which nobody answers; then it is.
fn proposes(alloc: Global, datagram: &[u8]) -> bool {
    let Some(mut busy) = Busy::new(alloc) else {
        return false;
    };
    let kinds = [PREPARE, PREPARE_ALL];
    takes_one(&mut busy)
        && busy.rounds(100, datagram, &kinds) == Some(1)
        && busy.rounds(20, datagram, &kinds) == Some(1)
}

#[test]
fn who_hears_something_in_each_round_proposes_when_it_is_due(rt: HostRuntime) {
    assert!(rt; proposes(rt.alloc(), &IGNORED));
    assert!(rt; proposes(rt.alloc(), &HEARD));
}

/// What it lacks is asked for at the start, and then once a second.
fn asks(alloc: Global, datagram: &[u8]) -> bool {
    let Some(mut busy) = Busy::new(alloc) else {
        return false;
    };
    busy.rounds(1_000, datagram, &[NEED]) == Some(1)
        && busy.rounds(1_000, datagram, &[NEED]) == Some(1)
}

#[test]
fn who_hears_something_in_each_round_asks_once_a_second(rt: HostRuntime) {
    assert!(rt; asks(rt.alloc(), &IGNORED));
    assert!(rt; asks(rt.alloc(), &HEARD));
}
