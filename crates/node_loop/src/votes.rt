//! The votes that a member sent, for those who lack them later.

ghost use Rattle.std.specs.Prelude.{◌≡◌, ◌≤◌, ◌<◌, ◌+◌, ◌++◌, [], ◌∷◌, OnOk, OnErr, length};
ghost use Rattle.node_loop.specs.Again.{AreAmong, HandsFor};
ghost use Rattle.node_loop.specs.Keeping.{votes_in};

use crate::latest::proposal_of;
use crate::packet::{MEMBERS, PACKET};
use crate::state::{ResendProgress, Sent, Votes};
use px_transport::Wire;
use px_wire::{Head, Kind};
use std::alloc::{AllocError, Global};
use std::collections::VecDeque;

/// How many votes are kept at most, and how many bytes of them.
const MOST_VOTES: usize = 131_072;

const MOST_BYTES: usize = 16 * 1_024 * 1_024;

/// For how many positions, from the first that it lacks on, a member is sent votes. The entry of the position below is
/// sent to it by a member that learned it, so that is one less than the 64 of its window.
const WINDOW: u32 = 63;

/// How often a member comes on by just one before it is assumed to lack what it was sent.
const STEPS: u8 = 3;

/// How long nothing is sent a second time to the same member, in microseconds.
const PAUSE: u64 = 20_000;

/// How often this member's part of a socket may be filled, in microseconds.
const FILLING: u64 = 10_000;

/// How many bytes a member's socket buffers before they are read, as Linux counts them, where nobody set another size
/// (212,992) and with some left free.
const ROOM: usize = 196_608;

/// What such a socket counts for a datagram beside twice its bytes, over loopback and most devices, and twice a tag.
const OVERHEAD: usize = 1_088;

impl ResendProgress {
    /// Nothing, with all of this room. Whatever it lacks, it is assumed to have gone back.
    fn new(room: usize) -> ResendProgress {
        ResendProgress {
            from: u32::MAX,
            room,
            ..ResendProgress::default()
        }
    }

    /// The same with all of this room again, if it is time.
    fn emptied(self, room: usize, now: u64) -> ResendProgress {
        if now < self.filled.saturating_add(FILLING) {
            return self;
        }
        ResendProgress {
            room,
            filled: now,
            ..self
        }
    }

    /// How many times in a row the member has come on by just one, if it lacks this position now.
    fn steps(self, from: u32) -> u8 {
        if self.from.checked_add(1) == Some(from) {
            self.steps.saturating_add(1)
        } else {
            0
        }
    }

    /// The position from which on votes are sent to the member, if it lacks this one and what comes after: none where
    /// it doesn't come on, and it isn't time yet to send all again.
    fn start(self, from: u32, now: u64) -> Option<u32> {
        if from > self.from && self.steps(from) < STEPS {
            return Some(from.max(self.end));
        }
        if now < self.again { None } else { Some(from) }
    }

    /// The same after votes up to before this position were sent, if any were.
    fn after(self, from: u32, votes: Stretch, now: u64) -> ResendProgress {
        let mut seen = self;
        seen.from = from;
        seen.steps = self.steps(from);
        if let Some(end) = votes.position {
            seen.end = end;
            seen.again = now.saturating_add(PAUSE);
            seen.room = votes.room;
        }
        seen
    }
}

/// Votes in a row, among which a member's are sent to it.
#[derive(Clone, Copy, Default)]
pub(crate) struct Stretch {
    /// The number of the first.
    begin: usize,
    /// One past the number of the last.
    end: usize,
    /// One past the last position that is the member's; none where none of them is.
    pub(crate) position: Option<u32>,
    /// What they leave of the room in its socket.
    room: usize,
}

impl Votes {
    /// Nothing is kept, of a group of that many members. Allocates nothing.
    pub(crate) fn new(alloc: Global, members: u8) -> Votes
        ensures { votes_in result ≡ [] }
    {
        let room = ROOM / usize::from(members.saturating_sub(1).max(1));
        Votes {
            votes: VecDeque::new(alloc),
            size: 0,
            resent: [ResendProgress::new(room); MEMBERS],
            room,
        }
    }

    /// Lets go what is kept of this position in another ballot.
    fn clear(&mut self, position: u32, ballot: u64)
        ensures { AreAmong (votes_in self.new) (votes_in self.old) }
    {
        for _vote in 0..self.votes.len() {
            match self.votes.back() {
                Some(last) if last.position == position && last.ballot != ballot => {}
                _ => return,
            }
            if let Some(last) = self.votes.pop_back() {
                self.size = self.size.saturating_sub(last.bytes.len());
            }
        }
    }

    /// Whether this member's vote at the position is kept, which is that of the last.
    fn has(&self, position: u32, to: u8) -> bool {
        let last = self.votes.iter().rev();
        let mut votes = last.take_while(|vote| vote.position == position);
        votes.any(|vote| vote.to == to)
    }

    /// Lets the oldest go, as long as there is no room for one more of that many bytes.
    fn make_room(&mut self, bytes: usize)
        ensures kept { AreAmong (votes_in self.new) (votes_in self.old) }
        ensures few { length self.new.votes.items < 131072 }
        ensures small { bytes ≤ 1200 → self.new.size + bytes ≤ 16777216 }
    {
        for _vote in 0..self.votes.len() {
            if self.votes.len() < MOST_VOTES && self.size.saturating_add(bytes) <= MOST_BYTES {
                return;
            }
            if let Some(first) = self.votes.pop_front() {
                self.size = self.size.saturating_sub(first.bytes.len());
            }
        }
    }

    /// Keeps a vote of a packet, where there is room for it.
    fn push(&mut self, position: u32, ballot: u64, to: u8, bytes: &[u8]) -> Result<(), AllocError>
        requires few { length self.old.votes.items < 131072 }
        requires small { self.old.size + length bytes.now ≤ 16777216 }
        ensures kept { OnOk result (votes_in self.new ≡ votes_in self.old ++ (to, bytes.now) ∷ []) }
        ensures lost { OnErr result (votes_in self.new ≡ votes_in self.old) }
    {
        let copy = Vec::from_slice(*self.votes.allocator(), bytes)?;
        self.votes.push_back(Sent {
            position,
            ballot,
            to,
            bytes: copy,
        })?;
        self.size += bytes.len();
        Ok(())
    }

    /// Keeps a datagram that was sent to a member, if it is a vote that fits into a packet and isn't of a lower
    /// position than the last; of its position what is of another ballot is let go. When out of memory it isn't
    /// kept.
    pub(crate) fn keep(&mut self, to: u8, head: &Head, bytes: &[u8])
        ensures { AreAmong (votes_in self.new) (votes_in self.old ++ (to, bytes.now) ∷ []) }
    {
        if head.kind != Kind::Vote || bytes.len() > PACKET {
            return;
        }
        let Some((ballot, position)) = proposal_of(head) else {
            return;
        };
        let last = self.votes.back();
        if last.is_some_and(|last| position < last.position) {
            return;
        }
        self.clear(position, ballot);
        if !self.has(position, to) {
            self.make_room(bytes.len());
            let _kept = self.push(position, ballot, to, bytes);
        }
    }

    /// Hands the vote with this number to the wire, if it is this member's.
    fn hand<W: Wire>(&self, wire: &mut W, to: u8, i: usize)
        ensures again { HandsFor to (votes_in self.entry.now) (W.traffic wire.old) (W.traffic wire.new) }
        ensures same { W.identity wire.new ≡ W.identity wire.old }
    {
        let Some(vote) = self.votes.get(i) else {
            return;
        };
        if vote.to == to {
            let _sent = wire.send(vote.to, vote.bytes.as_slice());
        }
    }

    /// Hands those of these votes to the wire that are this member's.
    pub(crate) fn send<W: Wire>(&self, wire: &mut W, to: u8, votes: Stretch)
        ensures again { HandsFor to (votes_in self.entry.now) (W.traffic wire.old) (W.traffic wire.new) }
        ensures same { W.identity wire.new ≡ W.identity wire.old }
    {
        for i in votes.begin..votes.end {
            self.hand(wire, to, i);
        }
    }

    /// The votes from this number on, before a position, that are the member's and fit into so much of its socket.
    fn reach(&self, to: u8, begin: usize, before: u32, room: usize) -> Stretch {
        let mut all = Stretch {
            begin,
            end: begin,
            position: None,
            room,
        };
        for i in begin..self.votes.len() {
            let vote = self.votes.get(i);
            let Some(vote) = vote.filter(|vote| vote.position < before) else {
                return all;
            };
            if vote.to == to {
                let cost = vote.bytes.len().saturating_mul(2).saturating_add(OVERHEAD);
                if cost > all.room {
                    return all;
                }
                all.room = all.room.saturating_sub(cost);
                all.end = i + 1;
                all.position = Some(vote.position.saturating_add(1));
            }
        }
        all
    }

    /// The votes that are sent again to a member that lacks the entry of this position and those after it, at this time
    /// in microseconds.
    pub(crate) fn walk(&mut self, to: u8, from: u32, now: u64) -> Stretch
        ensures { votes_in self.new ≡ votes_in self.old }
    {
        let mut all = Stretch::default();
        let resent = match self.resent.get(usize::from(to)) {
            Some(resent) => resent.emptied(self.room, now),
            None => return all,
        };
        if let Some(start) = resent.start(from, now) {
            let before = from.saturating_add(WINDOW);
            let begin = self.votes.partition_point(|vote| vote.position < start);
            all = self.reach(to, begin, before, resent.room);
        }
        if let Some(place) = self.resent.get_mut(usize::from(to)) {
            *place = resent.after(from, all, now);
        }
        all
    }
}
