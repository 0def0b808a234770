//! Members that show how far they are, and what they are sent again; what is sent again where nothing comes.

ghost use Rattle.std.specs.Prelude.{⊤, false};

use crate::members::{coming, member};
use node_loop::{Action, TickTimer, Timer, TurnBuffers, View, round};
use pf_node::Node;
use px_records::MemoryRecords;
use px_transport::MemoryWire;
use std::alloc::{AllocError, Global};
use std::panic::Expect;

/// For whom a vote is, and its position, which is below 255.
type Vote = (u8, u8);

/// The vote that was sent, if it is one.
fn vote_of(sent: &(u8, Vec<u8>)) -> Option<Vote> {
    let (to, bytes) = sent;
    match bytes.get(12) {
        Some(4) => Some((*to, *bytes.get(24).unwrap_or(&255))),
        _ => None,
    }
}

/// The votes among what the wire was handed.
fn votes_of(alloc: Global, wire: &MemoryWire) -> Option<Vec<Vote>> {
    let mut votes = Vec::new(alloc);
    for sent in wire.sent()? {
        if let Some(vote) = vote_of(sent) {
            votes.push(vote).ok()?;
        }
    }
    Some(votes)
}

/// A round of a node with this timer at this time in microseconds, for which these datagrams have come: the votes that
/// it sends.
fn round_of<T: Timer>(
    alloc: Global,
    node: &mut Node<MemoryRecords>,
    buffers: &mut TurnBuffers,
    timer: &mut T,
    now: u64,
    coming: Vec<Vec<u8>>,
) -> Option<Vec<Vote>> {
    let mut wire = MemoryWire::new(alloc, coming);
    match round(node, &mut wire, buffers, timer, now) {
        Ok(_) => votes_of(alloc, &wire),
        Err(_) => None,
    }
}

/// The same with the timer that a node has.
fn round_with(
    alloc: Global,
    node: &mut Node<MemoryRecords>,
    buffers: &mut TurnBuffers,
    now: u64,
    coming: Vec<Vec<u8>>,
) -> Option<Vec<Vote>> {
    round_of(alloc, node, buffers, &mut TickTimer::new(0), now, coming)
}

/// Whether these are the votes that it sends where the datagram comes.
fn votes(
    alloc: Global,
    node: &mut Node<MemoryRecords>,
    buffers: &mut TurnBuffers,
    now: u64,
    datagram: &[u8],
    wanted: &[Vote],
) -> bool {
    let Ok(coming) = coming(alloc, datagram) else {
        return false;
    };
    match round_with(alloc, node, buffers, now, coming) {
        Some(votes) => votes.as_slice() == wanted,
        None => false,
    }
}

/// Requests to accept three commands, and then that they are learned.
fn three(alloc: Global) -> Result<Vec<Vec<u8>>, AllocError> {
    let mut coming = Vec::new(alloc);
    for position in 0..3u8 {
        coming.push(Vec::from_slice(alloc, &accept(position))?)?;
    }
    for position in 0..3u8 {
        coming.push(Vec::from_slice(alloc, &learned(position))?)?;
    }
    Ok(coming)
}

/// Whether the node votes for three commands, once for each of 15, and learns them.
fn learns_three(
    alloc: Global,
    node: &mut Node<MemoryRecords>,
    buffers: &mut TurnBuffers,
    now: u64,
) -> bool {
    let Ok(coming) = three(alloc) else {
        return false;
    };
    match round_with(alloc, node, buffers, now, coming) {
        Some(votes) => votes.len() == 45 && node.applied() >= 3,
        None => false,
    }
}

/// Whether these are the votes that member 0 of 15 sends again after those, where the datagram comes at this time.
fn reminds_at(alloc: Global, now: u64, datagram: &[u8], wanted: &[Vote]) -> bool {
    let Some(mut node) = member(alloc, 15, 0) else {
        return false;
    };
    let Ok(mut buffers) = TurnBuffers::new(alloc, &node.membership(), true) else {
        return false;
    };
    learns_three(alloc, &mut node, &mut buffers, now)
        && votes(alloc, &mut node, &mut buffers, now, datagram, wanted)
}

/// The same of a member that has just started, after an hour, and after 17,800 years.
fn reminds(alloc: Global, datagram: &[u8], wanted: &[Vote]) -> bool {
    for now in [0, 3_600_000_000, 1 << 59] {
        if !reminds_at(alloc, now, datagram, wanted) {
            return false;
        }
    }
    true
}

/// A flush of main's tables that member 1 proposes at the position, for member 0.
const fn accept(position: u8) -> [u8; 41] {
    accept_for(0, position)
}

/// The same for another member.
const fn accept_for(to: u8, position: u8) -> [u8; 41] {
    [
        0x50, 0x46, 0x58, 0x52, 1, 0, 0, 0, 7, 15, 1, to, 3, 0, 0, 0, 0, 0, 0, 1, 1, 0, 0, 0,
        position, 0, 0, 0, 12, 1, 1, 0, 0, 0, 0, 0, 0, 0, position, 3, 0,
    ]
}

/// A flush of main's tables that is learned at the position, from member 1 for member 0.
const fn learned(position: u8) -> [u8; 33] {
    [
        0x50, 0x46, 0x58, 0x52, 1, 0, 0, 0, 7, 15, 1, 0, 7, 0, 0, 0, position, 0, 0, 0, 12, 1, 1,
        0, 0, 0, 0, 0, 0, 0, position, 3, 0,
    ]
}

/// A need of the position, from this member for member 0.
const fn need(from: u8, position: u8) -> [u8; 17] {
    [
        0x50, 0x46, 0x58, 0x52, 1, 0, 0, 0, 7, 15, from, 0, 6, 0, 0, 0, position,
    ]
}

/// A request for promises at the position and all above, from member 2 for member 0.
const fn prepare_all(position: u8) -> [u8; 25] {
    [
        0x50, 0x46, 0x58, 0x52, 1, 0, 0, 0, 7, 15, 2, 0, 11, 0, 0, 0, 0, 0, 0, 1, 2, 0, 0, 0,
        position,
    ]
}

#[test]
fn who_needs_an_entry_is_sent_those_behind_it_again(rt: HostRuntime) {
    assert!(rt; reminds(rt.alloc(), &need(1, 0), &[(1, 1), (1, 2)]));
    assert!(rt; reminds(rt.alloc(), &need(14, 1), &[(14, 2)]));
}

#[test]
fn who_proposes_below_is_sent_from_there_on_again(rt: HostRuntime) {
    assert!(rt; reminds(rt.alloc(), &prepare_all(0), &[(2, 0), (2, 1), (2, 2)]));
    assert!(rt; reminds(rt.alloc(), &prepare_all(2), &[(2, 2)]));
}

/// Members that need a position: position 2 is known by its own entry and is the last; 15 and 255 are no members.
static NEEDS: [(u8, u8); 4] = [(1, 2), (1, 3), (255, 0), (15, 0)];

#[test]
fn who_lacks_nothing_behind_is_sent_nothing_again(rt: HostRuntime) {
    for (from, position) in &NEEDS {
        assert!(rt; reminds(rt.alloc(), &need(*from, *position), &[]));
    }
    assert!(rt; reminds(rt.alloc(), &prepare_all(3), &[]));
}

/// Whether the node at this time votes for a request once for each of 15, and then answers it by the vote alone.
fn answers_again(
    alloc: Global,
    node: &mut Node<MemoryRecords>,
    buffers: &mut TurnBuffers,
    now: u64,
) -> bool {
    let Ok(first) = coming(alloc, &accept(0)) else {
        return false;
    };
    let is_first = match round_with(alloc, node, buffers, now, first) {
        Some(votes) => votes.len() == 15,
        None => false,
    };
    is_first && votes(alloc, node, buffers, now, &accept(0), &[(1, 0)])
}

#[test]
fn a_request_that_comes_again_is_answered_by_the_vote(rt: HostRuntime) {
    for now in [0, 3_600_000_000, 1 << 59] {
        let mut node = member(rt.alloc(), 15, 0).expect(&rt, "a member");
        let mut buffers = TurnBuffers::new(rt.alloc(), &node.membership(), true).expect(
            &rt, "memory",
        );
        assert!(rt; answers_again(rt.alloc(), &mut node, &mut buffers, now));
    }
}

/// A timer by which what was sent is sent again in each round.
#[derive(Drop)]
struct Repeating;

impl Timer for Repeating {
    ghost timer_events = { λ _ _. ⊤ };

    ghost listens = { λ _ _. false };

    fn action(&mut self, _now: u64, _view: View) -> Action {
        Action::Wait(10)
    }

    fn sent(&mut self, _now: u64) {}

    fn repeats(&mut self, _now: u64) -> bool {
        true
    }

    fn end(&mut self) {}

    fn is_listening(&self, _now: u64) -> bool {
        false
    }
}

/// Whether member `me` of 15, which voted for a request, sends each other member that vote again at this time where
/// nothing comes.
fn repeats(alloc: Global, me: u8, now: u64) -> bool {
    let (Some(mut node), Ok(request)) = (member(alloc, 15, me), coming(alloc, &accept_for(me, 0)))
    else {
        return false;
    };
    let Ok(mut buffers) = TurnBuffers::new(alloc, &node.membership(), true) else {
        return false;
    };
    let first = round_with(alloc, &mut node, &mut buffers, now, request);
    let none = Vec::new(alloc);
    let Some(again) = round_of(alloc, &mut node, &mut buffers, &mut Repeating, now, none) else {
        return false;
    };
    let is_first = match first {
        Some(votes) => votes.len() == 15,
        None => false,
    };
    for to in 0..15u8 {
        if to != me && !again.contains(&(to, 0)) {
            return false;
        }
    }
    is_first
}

#[test]
fn a_vote_is_sent_again_to_each_other_member(rt: HostRuntime) {
    for now in [0, 3_600_000_000, 1 << 59] {
        assert!(rt; repeats(rt.alloc(), 0, now));
        assert!(rt; repeats(rt.alloc(), 2, now) && repeats(rt.alloc(), 14, now));
    }
}
