//! The volatile part of a member, and its copy of what it learned.
ghost use Rattle.std.specs.Prelude.{◌≡◌, ◌≤◌, ◌<◌};
ghost use Rattle.std.specs.Vec.{vec_capacity};
ghost use Rattle.px_model.specs.Step.{front};
ghost use Rattle.px_core.specs.Logs.{learned_in};

use crate::plan::{Attempt, Lead};
use crate::votes::Votes;
use px_model::Entry;
use std::alloc::Global;

/// What waits to be proposed (64 entries at most, for which there is room), the attempt, the lead, and the highest
/// round heard of.
#[derive(Drop)]
pub struct Proposer {
    pub(crate) waiting: Vec<Entry>,
    pub(crate) attempt: Option<Attempt>,
    pub(crate) lead: Option<Lead>,
    pub(crate) seen: u64,
    ghost room: { 64 ≤ vec_capacity waiting },
}

/// The kept votes from the front on, and what is learned at each position. Behind the list's end nothing is learned.
#[derive(Drop)]
pub struct Learner {
    pub(crate) votes: Votes,
    pub(crate) learned: Vec<Option<Entry>>,
    ghost front_is: { front (learned_in learned.items) ≡ votes.front },
}

/// One member of the replicated log without its record: proposer and learner, with a copy of what is learned. The
/// acceptor has nothing but the record.
///
/// Source: Paxos Made Simple, 2.2, 2.3 and 3.
#[derive(Drop)]
pub struct Core {
    pub(crate) alloc: Global,
    pub(crate) members: u8,
    pub(crate) me: u8,
    pub(crate) proposer: Proposer,
    pub(crate) learner: Learner,
    ghost some: { 1 ≤ members },
    ghost few: { members ≤ 15 },
    ghost member: { me < members },
}
