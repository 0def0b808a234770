//! The proposal that a member sent last, and the request that it answered last.

ghost use Rattle.std.specs.Prelude.{◌≡◌, ◌≤◌, ◌<◌, ◌++◌, [], ◌∷◌, ℕ, List, OnOk, OnErr, IfSome, Some, length};
ghost use Rattle.px_model.specs.Law.{Among};
ghost use Rattle.node_loop.specs.Again.{AreAmong, HandsAt};
ghost use Rattle.node_loop.specs.Keeping.{IsVoteAt, client_in, sent_in, requests_in};
ghost use Rattle.node_loop.specs.Proposals.{proposal_of};

use crate::packet::{MEMBERS, PACKET};
use crate::state::{Kept, Latest};
use px_transport::Wire;
use px_wire::{Head, Kind};
use std::alloc::{AllocError, Global};

/// How many datagrams are kept at most: an accept request and a vote for each of 15 members.
const MOST_KEPT: usize = 30;

/// How many bytes a millisecond go to a member again from all others together in datagrams longer than a packet. The
/// system cuts these, and of one of which a piece is lost the other pieces take the receiver's room for pieces, 4 MiB
/// on Linux, for 30 s: at 139 bytes a millisecond that would be full.
const LARGE_RATE: u64 = 131;

/// The ballot and the position of an accept request or a vote; none of another datagram.
pub(crate) fn proposal_of(head: &Head) -> Option<(u64, u32)>
    ensures { result ≡ proposal_of head.now }
{
    match head.kind {
        Kind::Accept | Kind::Vote => Some((head.ballot?, head.position?)),
        _ => None,
    }
}

impl Latest {
    /// Nothing is kept, of a group of that many members. Allocates nothing.
    pub(crate) fn new(alloc: Global, members: u8) -> Latest
        ensures kept { sent_in result ≡ [] }
        ensures request { requests_in result ≡ [] }
    {
        Latest {
            ballot: 0,
            position: 0,
            kept: Vec::new(alloc),
            head: None,
            request: Vec::new(alloc),
            large: [0; MEMBERS],
            others: u64::from(members.saturating_sub(1).max(1)),
        }
    }

    /// Makes room for one more datagram of this ballot and position: what is of another is let go.
    fn begin(&mut self, ballot: u64, position: u32)
        ensures kept { AreAmong (sent_in self.new) (sent_in self.old) }
        ensures fewer { length self.new.kept.items ≤ length self.old.kept.items }
        ensures request { requests_in self.new ≡ requests_in self.old }
    {
        if position != self.position || ballot != self.ballot {
            self.kept.clear();
            self.ballot = ballot;
            self.position = position;
        }
    }

    fn push(&mut self, to: u8, kind: Kind, bytes: &[u8]) -> Result<(), AllocError>
        requires { length self.old.kept.items < 30 }
        ensures kept { OnOk result (sent_in self.new ≡ sent_in self.old ++ (to, bytes.now) ∷ []) }
        ensures lost { OnErr result (sent_in self.new ≡ sent_in self.old) }
        ensures request { requests_in self.new ≡ requests_in self.old }
    {
        let bytes = Vec::from_slice(*self.kept.allocator(), bytes)?;
        Ok(self.kept.push(Kept { to, kind, bytes })?)
    }

    /// Keeps a datagram that was sent, if it is an accept request or a vote that isn't below the position of the last;
    /// what is of another ballot or position is let go. Beyond 30 it isn't kept.
    pub(crate) fn keep(&mut self, to: u8, head: &Head, bytes: &[u8]) -> Result<(), AllocError>
        ensures keeps { OnOk result ((b p : ℕ) → proposal_of head.now ≡ Some (b, p) → self.old.position ≤ p →
            length self.old.kept.items < 30 → Among (sent_in self.new) (to, bytes.now)) }
        ensures kept { AreAmong (sent_in self.new) (sent_in self.old ++ (to, bytes.now) ∷ []) }
        ensures request { requests_in self.new ≡ requests_in self.old }
    {
        let Some((ballot, position)) = proposal_of(head) else {
            return Ok(());
        };
        if position < self.position {
            return Ok(());
        }
        self.begin(ballot, position);
        if self.kept.len() < MOST_KEPT {
            return self.push(to, head.kind, bytes);
        }
        Ok(())
    }

    /// How many there are of the positions from this one on.
    pub(crate) fn count(&self, front: u32) -> usize
        ensures all { front ≤ self.now.position → result ≡ length (sent_in self.now) }
        ensures none { self.now.position < front → result ≡ 0 }
    {
        if self.position < front {
            0
        } else {
            self.kept.len()
        }
    }

    /// Remembers a request that was taken. When out of memory none is remembered.
    pub(crate) fn remember(&mut self, head: &Head, request: &[u8])
        ensures kept { sent_in self.new ≡ sent_in self.old }
        ensures request { AreAmong (requests_in self.new) (request.now ∷ []) }
    {
        self.request.clear();
        self.head = None;
        if self.request.extend_from_slice(request).is_ok() {
            self.head = Some(*head);
        }
    }

    /// The number of the vote that is kept for this member.
    fn place_of_vote(&self, member: u8) -> Option<usize>
        ensures { IfSome result (λ i. IsVoteAt self.now member i) }
    {
        for i in 0..self.kept.len() {
            let kept = self.kept.get(i)?;
            if kept.to == member && matches!(kept.kind, Kind::Vote) {
                return Some(i);
            }
        }
        None
    }

    /// The number of the vote that answers these bytes, if they are the request that was taken last, byte for byte, and
    /// its vote is kept.
    pub(crate) fn vote_for(&self, bytes: &[u8]) -> Option<usize>
        ensures known { IfSome result (λ i. Among (requests_in self.now) bytes.now) }
        ensures vote { IfSome result (λ i. (m : ℕ) × (client_in self.now ≡ Some m) × IsVoteAt self.now m i) }
    {
        if bytes.is_empty() {
            return None;
        }
        let head = self.head?;
        if self.request.as_slice() != bytes
            || proposal_of(&head) != Some((self.ballot, self.position))
        {
            return None;
        }
        self.place_of_vote(head.from)
    }

    /// Whether a datagram longer than a packet may go to this member again, at this time in microseconds.
    fn is_large_due(&self, to: u8, now: u64) -> bool {
        let due = self.large.get(usize::from(to));
        due.is_some_and(|due| now >= *due)
    }

    /// Notes that a datagram of that many bytes was sent to this member at this time. Where these are more than a
    /// packet's, the next such goes to it again when this one's bytes have had their time.
    pub(crate) fn pass(&mut self, to: u8, length: usize, now: u64)
        ensures kept { sent_in self.new ≡ sent_in self.old }
        ensures request { requests_in self.new ≡ requests_in self.old }
    {
        if length <= PACKET {
            return;
        }
        let length = (length as u64).saturating_mul(self.others);
        let time = length.saturating_mul(1_000) / LARGE_RATE;
        if let Some(due) = self.large.get_mut(usize::from(to)) {
            *due = now.max(*due).saturating_add(time);
        }
    }

    /// Hands the datagram with this number to the wire, unless it is longer than a packet and it is too early for that,
    /// and notes what was handed over.
    pub(crate) fn send<W: Wire>(&mut self, wire: &mut W, i: usize, now: u64)
        ensures again { HandsAt i (sent_in self.old) (W.traffic wire.old) (W.traffic wire.new) }
        ensures kept { sent_in self.new ≡ sent_in self.old }
        ensures request { requests_in self.new ≡ requests_in self.old }
        ensures same { W.identity wire.new ≡ W.identity wire.old }
    {
        let Some(kept) = self.kept.get(i) else {
            return;
        };
        let (to, length) = (kept.to, kept.bytes.len());
        if length > PACKET && !self.is_large_due(to, now) {
            return;
        }
        let _sent = wire.send(to, kept.bytes.as_slice());
        self.pass(to, length, now);
    }
}
