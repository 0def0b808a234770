//! A node's health.

ghost use Rattle.std.specs.Prelude.{◌≡◌, ◌≤◌, ◌+◌, IfOk, length, take, if◌then◌else◌};
ghost use Rattle.node_requests.specs.Answers.{answer_value};
ghost use Rattle.node_requests.specs.Health.{is_recent, is_shown, health_word};
ghost use Rattle.node_requests.specs.Health.{counted, health};
ghost use Rattle.pf_scripts.specs.Lines.{line};

use crate::answer::{Answer, Answered};
use crate::counters::{Counters, PeerCounters};
use pf_node::Node;
use px_records::Records;
use std::alloc::Global;

/// For how many seconds commands may wait while the front doesn't move, before that is reported.
pub const STUCK: u64 = 10;

/// A node's health.
#[derive(Clone, Copy, PartialEq, Eq)]
pub enum Health {
    /// It hears a majority, has applied what it could, and what waits is learned.
    Works,
    /// Positions are learned, here or elsewhere, that it hasn't applied.
    Behind,
    /// It hears fewer than a majority of the members, itself counted.
    Alone,
    /// Commands have waited for ten seconds, here or at a member that proposes one, while the front didn't move.
    Stuck,
    /// Its store failed.
    Failed,
}

/// Whether a datagram came in the last three seconds.
fn is_recent(heard: Option<u64>) -> bool
    ensures { result ≡ is_recent heard }
{
    heard.is_some_and(|seconds| seconds < 3)
}

/// How many of the rows are of members that were heard in the last three seconds.
pub fn counted(peers: &[PeerCounters]) -> usize
    ensures { result ≡ counted peers.now }
{
    peers.iter().filter(|p| is_recent(p.heard)).count()
}

/// Whether a member showed, two seconds ago or earlier, that a position is learned which isn't applied here.
fn is_shown(applied: u32, peers: &[PeerCounters]) -> bool
    ensures { result ≡ is_shown applied peers.now }
{
    peers.iter().any(|p| applied < p.shown)
}

impl Health {
    /// A node's health: failed where its store failed, else stuck where commands have waited for ten seconds while the
    /// front didn't move, else alone where fewer than a majority were heard in the last three seconds, this one
    /// counted, else behind where not everything is applied that is learned here, or was learned two seconds ago as a
    /// member shows, else it works. A row for each member but this one has what was heard of it.
    pub fn of<R: Records>(node: &Node<R>, counters: &Counters) -> Health
        ensures { result ≡ health node.now counters.now }
    {
        let applied = node.applied();
        let heard = counted(&counters.peers);
        let members = node.membership().members();
        if node.has_failed() {
            return Health::Failed;
        }
        if STUCK <= counters.stood {
            return Health::Stuck;
        }
        if heard < (members / 2) as usize {
            return Health::Alone;
        }
        if applied < node.front() || is_shown(applied, &counters.peers) {
            return Health::Behind;
        }
        Health::Works
    }

    /// Its name, as answers have it.
    pub fn word(self) -> &'static str
        ensures { result.now ≡ health_word self }
    {
        match self {
            Health::Works => "ok",
            Health::Behind => "behind",
            Health::Alone => "alone",
            Health::Stuck => "stuck",
            Health::Failed => "failed",
        }
    }

    /// Its name, with 200 where that is good, else 503: to whom asks whether the node works at all, each is good but
    /// `Failed`; to whom asks whether it is up with the others, `Works` alone.
    pub(crate) fn answer(self, alloc: Global, is_good: bool) -> Answered
        ensures { IfOk result (λ a. answer_value a ≡ record {
          code = if is_good then 200 else 503;
          body = line (health_word self);
        }) }
    {
        let body = format!(in alloc; "{}\n", self.word())?;
        let code = if is_good { 200 } else { 503 };
        Ok(Answer { code, body })
    }
}
