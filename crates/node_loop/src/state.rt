//! What the resender keeps of the requests and votes that a member sent.

ghost use Rattle.std.specs.Prelude.{◌≡◌, ◌≤◌, length, map};
ghost use Rattle.node_loop.specs.Total.{total};

use crate::packet::MEMBERS;
use px_wire::{Head, Kind};
use std::collections::VecDeque;

/// An accept request or a vote that was sent.
#[derive(Drop)]
pub(crate) struct Kept {
    pub(crate) to: u8,
    pub(crate) kind: Kind,
    pub(crate) bytes: Vec<u8>,
}

/// The accept requests and votes of one ballot at one position that were sent last, with for whom; and the accept
/// request of another member that was taken last.
#[derive(Drop)]
pub(crate) struct Latest {
    pub(crate) ballot: u64,
    pub(crate) position: u32,
    pub(crate) kept: Vec<Kept>,
    /// The request's head; none where there is no request, or it was out of memory.
    pub(crate) head: Option<Head>,
    pub(crate) request: Vec<u8>,
    /// For each member, before when nothing longer than a packet goes to it again, in microseconds.
    pub(crate) large: [u64; MEMBERS],
    /// How many other members there are, 1 at least.
    pub(crate) others: u64,
    ghost few: { length kept.items ≤ 30 },
}

/// A vote that was sent.
#[derive(Drop)]
pub(crate) struct Sent {
    pub(crate) position: u32,
    pub(crate) ballot: u64,
    pub(crate) to: u8,
    pub(crate) bytes: Vec<u8>,
}

/// What was sent to a member of the votes.
#[derive(Clone, Copy, Default)]
pub(crate) struct ResendProgress {
    /// The first position that it lacked when it was looked at last.
    pub(crate) from: u32,
    /// How many times in a row it has come on by just one since.
    pub(crate) steps: u8,
    /// One past the last position that was sent to it.
    pub(crate) end: u32,
    /// Before when nothing is sent to it a second time, in microseconds.
    pub(crate) again: u64,
    /// What is left of this member's part of its socket, and when that was all of it.
    pub(crate) room: usize,
    pub(crate) filled: u64,
}

/// The votes that were sent last, in ascending order of position, those of one ballot at each position; and what each
/// member was sent them again.
#[derive(Drop)]
pub(crate) struct Votes {
    pub(crate) votes: VecDeque<Sent>,
    /// How many bytes they have.
    pub(crate) size: usize,
    pub(crate) resent: [ResendProgress; MEMBERS],
    /// What of a member's socket is this member's to fill.
    pub(crate) room: usize,
    ghost few: { length votes.items ≤ 131072 },
    ghost sized: { size ≡ total (map (λ s. s.bytes.items) votes.items) },
    ghost small: { size ≤ 16777216 },
}
