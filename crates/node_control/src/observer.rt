//! What is seen of a node as it runs.

ghost use Rattle.std.specs.Prelude.{◌≡◌, ◌==◌, ◌||◌, not, if◌then◌else◌, map, length, IfOk, string_bytes};
ghost use Rattle.node_loop.specs.Progress.{counts_in, heads_in};
ghost use Rattle.node_control.specs.Observers.{HasSeenNothing, first_rows, has_packets_of, is_quiet_of};
ghost use Rattle.node_control.specs.inner.Watching.{proposed_by, proposed_after, proposed_then};
ghost use Rattle.node_control.specs.inner.Watching.{is_proposed, stood_since, seconds_since};
ghost use Rattle.node_control.specs.inner.Observing.{IsShown, begun, counted, in_all, noted, seen_of};
ghost use Rattle.node_control.specs.inner.Observing.{listened, stood_at};
ghost use Rattle.node_control.specs.inner.Rows.{is_due, sampled, reported, sent_more, heard_from, rows_after};

use crate::hearing::Hearing;
use crate::service::Made;
use node_loop::{Progress, RoundCounts, TurnBuffers};
use node_requests::{Counters, PeerCounters};
use px_wire::{Head, Membership};
use std::alloc::Global;
use std::io::Eprint;

/// How long another member's proposal counts, in microseconds: it is made again after some 4 seconds at most.
pub const PROPOSED: u64 = 6_000_000;

/// How often what members show is kept to be compared later, in microseconds.
const SAMPLED: u64 = 1_000_000;

/// From how many bytes on a datagram doesn't fit a packet.
const LARGE: usize = 1_401;

/// What was counted of another member; times in microseconds.
#[derive(Clone, Copy)]
struct Row {
    node: u8,
    /// When it was heard last.
    heard: Option<u64>,
    datagrams_in: u64,
    datagrams_out: u64,
    /// A position below which some member has learned all, as its messages show; and as they had shown when that was
    /// looked at last, and the two times before.
    shown: u32,
    earlier: [u32; 3],
}

/// What is seen of a node as it runs: counters of what went over its wire, by other member and in all, since when it
/// has waited for its front to move, and who is heard. After each round it is shown the heads of the messages that the
/// node took and what went over the wire; it looks at no datagram.
#[derive(Drop)]
pub struct Observer {
    rows: Vec<Row>,
    unsent: u64,
    dropped: u64,
    ignored: u64,
    /// How many datagrams came in this round.
    came: u32,
    now: u64,
    /// When what members showed was kept last.
    sampled: u64,
    /// The node's front after the last round.
    front: u32,
    /// Since when commands have waited and the front didn't move.
    since: Option<u64>,
    /// The position that another member proposed at last, and when.
    proposed: Proposed,
    outrun: u64,
    large: usize,
    has_packets: bool,
    hearing: Hearing,
}

/// The position that another member proposed at last, and when.
type Proposed = Option<(u32, u64)>;

/// The proposal at the front or beyond it that is known, with one that comes now.
fn proposed_then(front: u32, now: u64, proposal: Option<u32>, was: Proposed) -> Proposed
    ensures { result ≡ proposed_then front now proposal was }
{
    match proposal {
        Some(position) if front <= position => Some((position, now)),
        _ => was,
    }
}

/// Whether another member proposes a command at the front or beyond it.
fn is_proposed(front: u32, now: u64, proposed: Proposed) -> bool
    ensures { result ≡ is_proposed front now proposed }
{
    proposed.is_some_and(|(position, at)| front <= position && now.saturating_sub(at) < PROPOSED)
}

/// Since when commands have waited while the front didn't move.
fn stood_since(has_moved: bool, waits: bool, since: Option<u64>, now: u64) -> Option<u64>
    ensures { result ≡ stood_since has_moved waits since now }
{
    let stood = if has_moved { now } else { since.unwrap_or(now) };
    waits.then_some(stood)
}

/// How many whole seconds have passed since then.
fn seconds_since(since: Option<u64>, now: u64) -> u64
    ensures { result ≡ seconds_since since now }
{
    since.map_or(0, |since| now.saturating_sub(since) / 1_000_000)
}

/// Keeps what members have shown by now.
fn sample(rows: &mut Vec<Row>)
    ensures { rows.new.items ≡ map sampled rows.old.items }
{
    for row in rows.iter_mut() {
        row.sample();
    }
}

/// Counts what was handed over for each other member.
fn count_sent(rows: &mut Vec<Row>, counts: &RoundCounts)
    ensures { rows.new.items ≡ map (sent_more counts.now.sent) rows.old.items }
{
    for row in rows.iter_mut() {
        row.count_sent(counts);
    }
}

/// A row for each member but this one.
fn first_rows(alloc: Global, m: Membership) -> Made<Vec<Row>>
    ensures { IfOk result (λ rows. rows.items ≡ first_rows m.me m.members) }
{
    let mut rows = Vec::new(alloc);
    for node in 0..m.members() {
        if node != m.me() {
            rows.push(Row {
                node,
                heard: None,
                datagrams_in: 0,
                datagrams_out: 0,
                shown: 0,
                earlier: [0; 3],
            })?;
        }
    }
    Ok(rows)
}

impl Row {
    /// What is reported of the member, at this time.
    fn peer_counters(&self, now: u64) -> PeerCounters
        ensures { result ≡ reported now self.now }
    {
        let [_, _, shown] = self.earlier;
        PeerCounters {
            node: self.node,
            heard: self.heard.map(|_| seconds_since(self.heard, now)),
            datagrams_in: self.datagrams_in,
            datagrams_out: self.datagrams_out,
            shown,
        }
    }

    /// Counts what was handed over for it.
    fn count_sent(&mut self, counts: &RoundCounts)
        ensures { self.new ≡ sent_more counts.now.sent self.old }
    {
        if let Some(sent) = counts.sent.get(usize::from(self.node)) {
            self.datagrams_out = self.datagrams_out.saturating_add(u64::from(*sent));
        }
    }

    /// Keeps what the member has shown by now.
    #[tactic(auto, unfolding(crate::specs::inner::Rows::sampled))]
    fn sample(&mut self)
        ensures { self.new ≡ sampled self.old }
    {
        let [last, before, _] = self.earlier;
        self.earlier = [self.shown, last, before];
    }

    /// Counts a datagram of a member, with the position that it shows, if it is this one's.
    fn count_from(&mut self, from: u8, shown: u32, now: u64)
        ensures { self.new ≡ heard_from from shown now self.old }
    {
        if self.node == from {
            self.heard = Some(now);
            self.datagrams_in = self.datagrams_in.saturating_add(1);
            self.shown = self.shown.max(shown);
        }
    }
}

impl Observer {
    /// The observer of this member, which has seen nothing; whether datagrams go in packets, so that none is too long
    /// for one, and whether it warns alone, and reports nothing else, on standard error.
    pub fn new(alloc: Global, m: Membership, has_packets: bool, is_quiet: bool) -> Made<Observer>
        ensures new { IfOk result (HasSeenNothing m) }
        ensures packets { IfOk result (λ o. has_packets_of o ≡ has_packets) }
        ensures quiet { IfOk result (λ o. is_quiet_of o ≡ is_quiet) }
    {
        let rows = first_rows(alloc, m)?;
        Ok(Observer {
            rows,
            unsent: 0,
            dropped: 0,
            ignored: 0,
            came: 0,
            now: 0,
            sampled: 0,
            front: 0,
            since: None,
            proposed: None,
            outrun: 0,
            large: 0,
            has_packets,
            hearing: Hearing::new(m, is_quiet),
        })
    }

    /// What is counted as a node starts: a row for each other member, and nothing that came. The members listen there.
    pub(crate) fn first_counters(&self, alloc: Global, members: &str) -> Made<Counters>
        ensures stood { IfOk result (λ t. t.stood ≡ 0) }
        ensures members { IfOk result (λ t. string_bytes t.members ≡ members.now) }
        ensures peers { IfOk result (λ t. t.peers.items ≡ map (reported 0) self.entry.now.rows.items) }
    {
        let mut peers = Vec::new(alloc);
        for row in &self.rows {
            peers.push(row.peer_counters(0))?;
        }
        Ok(Counters {
            up: 0,
            peers,
            stood: 0,
            outrun: 0,
            large: 0,
            members: String::from_str(alloc, members)?,
            unsent: 0,
            dropped: 0,
            ignored: 0,
            turns: 0,
            ticks: 0,
            clients: 0,
            served: 0,
            refused: 0,
            unavailable: 0,
        })
    }

    /// A round begins, at this time in microseconds since the start, of a node with this front, at which commands wait
    /// or don't.
    pub(crate) fn begin(&mut self, now: u64, front: u32, is_waiting: bool)
        ensures now { self.new.now ≡ now }
        ensures front { self.new.front ≡ front }
        ensures since { self.new.since ≡ stood_since (not (front == self.old.front))
            (is_waiting || is_proposed front now self.old.proposed) self.old.since now }
        ensures proposed { self.new.proposed ≡ self.old.proposed }
        ensures sampled { self.new.sampled ≡ (if is_due self.old.sampled now then now else self.old.sampled) }
        ensures rows { self.new.rows.items ≡
            (if is_due self.old.sampled now then map sampled self.old.rows.items else self.old.rows.items) }
        ensures seen { seen_of self.new ≡ begun now front is_waiting (seen_of self.old) }
    {
        self.now = now;
        if now >= self.sampled.saturating_add(SAMPLED) {
            self.sampled = now;
            sample(&mut self.rows);
        }
        self.note_front(front, is_waiting);
    }

    /// Notes the node's front, and whether commands wait.
    fn note_front(&mut self, front: u32, is_waiting: bool)
        ensures front { self.new.front ≡ front }
        ensures since { self.new.since ≡ stood_since (not (front == self.old.front))
            (is_waiting || is_proposed front self.old.now self.old.proposed) self.old.since self.old.now }
        ensures rest { (self.new.now ≡ self.old.now) × (self.new.proposed ≡ self.old.proposed) ×
            (self.new.sampled ≡ self.old.sampled) × (self.new.rows ≡ self.old.rows) }
        ensures seen { seen_of self.new ≡ stood_at front is_waiting (seen_of self.old) }
    {
        let has_moved = front != self.front;
        if has_moved {
            self.front = front;
            self.outrun = 0;
            self.large = 0;
        }
        let waits = is_waiting || is_proposed(front, self.now, self.proposed);
        self.since = stood_since(has_moved, waits, self.since, self.now);
    }

    /// Gives what was counted of the other members.
    fn report_peers(&self, peers: &mut Vec<PeerCounters>)
        ensures { length peers.old.items ≡ length self.entry.now.rows.items →
            peers.new.items ≡ map (reported self.entry.now.now) self.entry.now.rows.items }
    {
        for (i, peer) in peers.iter_mut().enumerate() {
            if let Some(row) = self.rows.get(i) {
                *peer = row.peer_counters(self.now);
            }
        }
    }

    /// Sets the counters for clients, after a round with this result. A turn that neither received a datagram nor is to
    /// be followed by a wait was a tick.
    pub(crate) fn report(&self, counters: &mut Counters, made: Progress)
        ensures shown { IsShown (seen_of self.entry.now) made counters.old counters.new }
        ensures stood { counters.new.stood ≡ seconds_since self.entry.now.since self.entry.now.now }
        ensures outrun { counters.new.outrun ≡ self.entry.now.outrun }
        ensures large { counters.new.large ≡ self.entry.now.large }
        ensures peers { length counters.old.peers.items ≡ length self.entry.now.rows.items →
            counters.new.peers.items ≡ map (reported self.entry.now.now) self.entry.now.rows.items }
    {
        counters.up = self.now / 1_000_000;
        counters.stood = seconds_since(self.since, self.now);
        counters.outrun = self.outrun;
        counters.large = self.large as u64;
        counters.unsent = self.unsent;
        counters.dropped = self.dropped;
        counters.ignored = self.ignored;
        counters.turns = counters.turns.saturating_add(u64::from(made.turns));
        if made.wait == 0 && made.turns > self.came {
            counters.ticks = counters.ticks.saturating_add(1);
        }
        self.report_peers(&mut counters.peers);
    }

    /// Counts a datagram of a member, with the position that it shows.
    fn count_from(&mut self, from: u8, shown: u32)
        ensures round { (self.new.front ≡ self.old.front) × (self.new.now ≡ self.old.now) }
        ensures proposed { self.new.proposed ≡ self.old.proposed }
        ensures rows { self.new.rows.items ≡ map (heard_from from shown self.old.now) self.old.rows.items }
        ensures seen { seen_of self.new ≡ record (seen_of self.old) {
          rows = map (heard_from from shown self.old.now) self.old.rows.items;
        } }
    {
        for row in self.rows.iter_mut() {
            row.count_from(from, shown, self.now);
        }
    }

    /// Notes what a member's message shows of proposals: another's, or that this one's was refused by a higher round.
    fn note(&mut self, head: &Head)
        ensures round { (self.new.front ≡ self.old.front) × (self.new.now ≡ self.old.now) }
        ensures proposed { self.new.proposed ≡ proposed_by self.old.front self.old.now head.now self.old.proposed }
        ensures rows { self.new.rows ≡ self.old.rows }
        ensures seen { seen_of self.new ≡ noted head.now (seen_of self.old) }
    {
        if head.from == head.to {
            return;
        }
        self.proposed = proposed_then(self.front, self.now, head.proposal(), self.proposed);
        if head.kind.is_nack() {
            self.outrun = self.outrun.saturating_add(1);
        }
    }

    /// Counts what went over the wire in a round.
    fn count_round(&mut self, datagrams: usize, counts: &RoundCounts)
        ensures round { (self.new.front ≡ self.old.front) × (self.new.now ≡ self.old.now) }
        ensures proposed { self.new.proposed ≡ self.old.proposed }
        ensures rows { self.new.rows ≡ self.old.rows }
        ensures seen { seen_of self.new ≡ in_all datagrams counts.now (seen_of self.old) }
    {
        self.came = counts.came;
        self.unsent = self.unsent.saturating_add(u64::from(counts.unsent));
        self.dropped = self.dropped.saturating_add(u64::from(counts.dropped));
        let known = u64::from(counts.dropped)
            .saturating_add(u64::from(counts.answered))
            .saturating_add(datagrams as u64);
        let ignored = u64::from(counts.came).saturating_sub(known);
        self.ignored = self.ignored.saturating_add(ignored);
        if counts.longest >= LARGE && !self.has_packets {
            self.large = self.large.max(counts.longest);
        }
    }

    /// Counts what went over the wire in a round, in which the node took the messages with these heads.
    pub(crate) fn count(&mut self, heads: &[Head], counts: &RoundCounts)
        ensures proposed { self.new.proposed ≡ proposed_after self.old.front self.old.now heads.now self.old.proposed }
        ensures rows { self.new.rows.items ≡
            rows_after self.old.now heads.now (map (sent_more counts.now.sent) self.old.rows.items) }
        ensures seen { seen_of self.new ≡ counted heads.now counts.now (seen_of self.old) }
    {
        self.count_round(heads.len(), counts);
        count_sent(&mut self.rows, counts);
        for head in heads {
            self.count_from(head.from, head.learned_below());
            self.note(head);
        }
    }

    /// Writes on standard error what is to be reported of the members that were heard in a round, after which the node
    /// lacks entries that others have, or not.
    pub(crate) fn hear<RT: Eprint>(&mut self, rt: &RT, buffers: &TurnBuffers, is_lacking: bool)
        ensures { seen_of self.new ≡
            listened is_lacking (heads_in buffers.now) (counts_in buffers.now) (seen_of self.old) }
    {
        let (heads, counts) = (buffers.heads(), buffers.counts());
        self.hearing.look(rt, heads, counts, self.now);
        self.hearing.note_lack(rt, is_lacking, self.now);
    }
}
