//! What is sent again, above the seal.

ghost use Rattle.std.specs.Prelude.{◌≡◌, ◌≢◌, ◌≤◌, ◌<◌, ◌++◌, [], ◌∷◌, ℕ, IsTrue, OnOk, Some, false, length};
ghost use Rattle.px_model.specs.Law.{Among};
ghost use Rattle.px_transport.specs.Wires.{IsQuiet};
ghost use Rattle.node_loop.specs.Again.{AreAmong, HandsAgain, HandsFor, HandsShort};
ghost use Rattle.px_wire.specs.Heads.{head_of};
ghost use Rattle.px_wire.specs.Message.{Group, Message, DatagramBytes};
ghost use Rattle.node_loop.specs.Proposals.{proposal_of};
ghost use Rattle.node_loop.specs.Resends.{HandsVote, IsBounded, kept_of, latest_of, me_of, members_of, position_of};
ghost use Rattle.node_loop.specs.Resends.{requests_of, time_of};

use crate::state::{Latest, Votes};
use px_transport::Wire;
use px_wire::{Head, Kind};
use std::alloc::{AllocError, Global};

/// Keeps what a member sent and may be lost, and hands it to a wire again: bytes as they were sent, to whom they were
/// sent, and nothing else. It is shown what the member sends, by [`Resender::keep`], and what it took, by
/// [`Resender::took`], and looks at these through their heads alone.
///
/// The accept requests and votes of one ballot at one position that were sent last are kept, 30 at most, and handed
/// over again by [`Resender::repeat`]; those longer than a packet no faster than 131 bytes a millisecond to each
/// member, since their pieces fill its room for pieces where some are lost. The accept request that was taken last,
/// where it comes again and the vote for it is kept, is answered by that ([`Resender::answers`]).
///
/// Of the votes that fit into a packet the last 131,072 are kept, and 16 MiB at most. [`Resender::repeat_to`] sends a
/// member those that it lacks, at 63 positions at most and in 10 ms no more than this member's part of what its socket
/// accepts: those that it wasn't sent again yet where it comes on, and all where it doesn't, or comes on by just one
/// three times in a row, each 20 ms at most. The votes that the member sent to itself are among these, since it drops
/// those outside its window: [`Resender::repeat_own`] hands it those again that its window has reached.
#[derive(Drop)]
pub struct Resender {
    me: u8,
    members: u8,
    /// The time, in microseconds since the member started.
    now: u64,
    latest: Latest,
    votes: Votes,
}

impl Resender {
    /// Keeps nothing yet, of a member of a group of that many. Allocates nothing.
    pub fn new(alloc: Global, members: u8, me: u8) -> Resender
        ensures kept { kept_of result ≡ [] }
        ensures request { requests_of result ≡ [] }
        ensures of { (me_of result ≡ me) × (members_of result ≡ members) }
    {
        Resender {
            me,
            members,
            now: 0,
            latest: Latest::new(alloc, members),
            votes: Votes::new(alloc, members),
        }
    }

    /// It is this time now, in microseconds since the member started.
    pub fn set_time(&mut self, now: u64)
        ensures kept { kept_of self.new ≡ kept_of self.old }
        ensures request { requests_of self.new ≡ requests_of self.old }
        ensures of { (me_of self.new ≡ me_of self.old) × (members_of self.new ≡ members_of self.old) }
        ensures time { time_of self.new ≡ now }
    {
        self.now = now;
    }

    /// Keeps a datagram that was sent to a member, if it is a vote, or an accept request to another. When out of
    /// memory, a vote may be kept all the same for a member that lacks it later.
    pub fn keep(&mut self, to: u8, bytes: &[u8]) -> Result<(), AllocError>
        // Such a one that isn't below the last is kept.
        ensures keeps { OnOk result ((g : Group) (from b p : ℕ) (message : Message) →
            DatagramBytes g from to message bytes.now → proposal_of (head_of from to message) ≡ Some (b, p) →
            to ≢ me_of self.old → to < members_of self.old → position_of self.old ≤ p →
            length (latest_of self.old) < 30 → Among (kept_of self.new) (to, bytes.now)) }
        ensures kept { AreAmong (kept_of self.new) (kept_of self.old ++ (to, bytes.now) ∷ []) }
        ensures bounded { IsBounded self.new }
        ensures request { requests_of self.new ≡ requests_of self.old }
        ensures of { (me_of self.new ≡ me_of self.old) × (members_of self.new ≡ members_of self.old) }
        ensures time { time_of self.new ≡ time_of self.old }
    {
        if to >= self.members {
            return Ok(());
        }
        let Some(head) = Head::read(bytes) else {
            return Ok(());
        };
        if to == self.me {
            self.votes.keep(to, &head, bytes);
            return Ok(());
        }
        let kept = self.latest.keep(to, &head, bytes);
        self.votes.keep(to, &head, bytes);
        if head.kind == Kind::Accept || head.kind == Kind::Vote {
            self.latest.pass(to, bytes.len(), self.now);
        }
        kept
    }

    /// Remembers a datagram that the member took, if it is an accept request of another.
    pub fn took(&mut self, head: &Head, bytes: &[u8])
        ensures kept { kept_of self.new ≡ kept_of self.old }
        ensures request { AreAmong (requests_of self.new) (requests_of self.old ++ bytes.now ∷ []) }
        ensures others { (head.now.kind ≡ Kind.Accept → head.now.from ≡ me_of self.old) →
            requests_of self.new ≡ requests_of self.old }
        ensures of { (me_of self.new ≡ me_of self.old) × (members_of self.new ≡ members_of self.old) }
        ensures time { time_of self.new ≡ time_of self.old }
    {
        if head.kind == Kind::Accept && head.from != self.me {
            self.latest.remember(head, bytes);
        }
    }

    /// Whether these bytes, which have come, are the accept request that was taken last, and its vote is kept: then
    /// that is handed over again, unless it is longer than a packet and too early.
    pub fn answers<W: Wire>(&mut self, wire: &mut W, bytes: &[u8]) -> bool
        ensures answered { IsTrue result → Among (requests_of self.old) bytes.now }
        ensures again { HandsAgain (kept_of self.old) (W.traffic wire.old) (W.traffic wire.new) }
        ensures vote { IsTrue result → HandsVote self.old (W.traffic wire.old) (W.traffic wire.new) }
        ensures others { result ≡ false → IsQuiet (W.traffic wire.old) (W.traffic wire.new) }
        ensures kept { kept_of self.new ≡ kept_of self.old }
        ensures request { requests_of self.new ≡ requests_of self.old }
        ensures same { W.identity wire.new ≡ W.identity wire.old }
        ensures of { (me_of self.new ≡ me_of self.old) × (members_of self.new ≡ members_of self.old) }
        ensures time { time_of self.new ≡ time_of self.old }
    {
        let Some(i) = self.latest.vote_for(bytes) else {
            return false;
        };
        self.latest.send(wire, i, self.now);
        true
    }

    /// The accept requests and votes of the last proposal are handed over again, if that is of a position from this one
    /// on: those longer than a packet where it isn't too early.
    pub fn repeat<W: Wire>(&mut self, wire: &mut W, front: u32)
        ensures again { HandsAgain (kept_of self.old) (W.traffic wire.old) (W.traffic wire.new) }
        ensures all { front ≤ position_of self.old →
            HandsShort (latest_of self.old) (W.traffic wire.old) (W.traffic wire.new) }
        ensures none { position_of self.old < front → IsQuiet (W.traffic wire.old) (W.traffic wire.new) }
        ensures kept { kept_of self.new ≡ kept_of self.old }
        ensures request { requests_of self.new ≡ requests_of self.old }
        ensures same { W.identity wire.new ≡ W.identity wire.old }
        ensures of { (me_of self.new ≡ me_of self.old) × (members_of self.new ≡ members_of self.old) }
        ensures time { time_of self.new ≡ time_of self.old }
    {
        for i in 0..self.latest.count(front) {
            self.latest.send(wire, i, self.now);
        }
    }

    /// The votes that were sent to this member are handed over again, which lacks the entry of this position and those
    /// after it.
    pub fn repeat_to<W: Wire>(&mut self, wire: &mut W, to: u8, from: u32)
        ensures again { HandsAgain (kept_of self.old) (W.traffic wire.old) (W.traffic wire.new) }
        ensures own { HandsFor to (kept_of self.old) (W.traffic wire.old) (W.traffic wire.new) }
        ensures kept { kept_of self.new ≡ kept_of self.old }
        ensures request { requests_of self.new ≡ requests_of self.old }
        ensures same { W.identity wire.new ≡ W.identity wire.old }
        ensures of { (me_of self.new ≡ me_of self.old) × (members_of self.new ≡ members_of self.old) }
        ensures time { time_of self.new ≡ time_of self.old }
    {
        let votes = self.votes.walk(to, from, self.now);
        self.votes.send(wire, to, votes);
    }

    /// The votes that the member sent to itself are handed over again, where it lacks the entry of this position and
    /// those after it. Returns whether there were any.
    pub fn repeat_own<W: Wire>(&mut self, wire: &mut W, front: u32) -> bool
        ensures again { HandsAgain (kept_of self.old) (W.traffic wire.old) (W.traffic wire.new) }
        ensures own { HandsFor (me_of self.old) (kept_of self.old) (W.traffic wire.old) (W.traffic wire.new) }
        ensures kept { kept_of self.new ≡ kept_of self.old }
        ensures request { requests_of self.new ≡ requests_of self.old }
        ensures same { W.identity wire.new ≡ W.identity wire.old }
        ensures of { (me_of self.new ≡ me_of self.old) × (members_of self.new ≡ members_of self.old) }
        ensures time { time_of self.new ≡ time_of self.old }
    {
        let votes = self.votes.walk(self.me, front, self.now);
        self.votes.send(wire, self.me, votes);
        votes.position.is_some()
    }
}
