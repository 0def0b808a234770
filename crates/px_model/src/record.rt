//! What a member keeps in stable storage, as far as a step reads and changes it.
use crate::entry::Entry;

/// The numbers of a record.
#[derive(Clone, Copy)]
pub struct Meta {
    /// The highest round that the member used, 0 for none.
    pub round: u64,
    /// The number of its next request, 2^48 where all are used.
    pub number: u64,
    /// The ballot promised at all positions, 0 for none.
    pub floor: u64,
}

/// A ballot and the entry that it carries. A ballot is `round * 256 + member`, and compared as that number.
///
/// Source: Paxos Made Simple, 2.2.
pub struct Proposal<E> {
    /// The ballot, from 256 on.
    pub ballot: u64,
    /// The entry.
    pub entry: E,
}

impl<E: Drop> Drop for Proposal<E> {
    fn drop(self) {
        let Proposal {
            ballot: _,
            entry: _,
        } = self;
    }
}

/// The acceptor at one position.
///
/// Source: Paxos Made Simple, 2.2 and 3.
pub struct Slot {
    /// The ballot promised there, 0 for none. That promised at all positions is in [`Meta`].
    pub promised: u64,
    /// The accepted proposal of highest ballot.
    pub accepted: Option<Proposal<Entry>>,
}

impl Drop for Slot {
    fn drop(self) {
        let Slot {
            promised: _,
            accepted: _,
        } = self;
    }
}

/// One change of the record. It is committed before anything that rests on it is sent. Positions are below 1,000,000.
#[derive(Drop)]
pub enum Change {
    /// The highest round used from now on.
    Round(u64),
    /// The number of the next request.
    Number(u64),
    /// A ballot is promised at all positions.
    Floor(u64),
    /// A ballot is promised at one position: the position, the ballot.
    Promised(u32, u64),
    /// A ballot is promised and its proposal accepted at one position: the position, the ballot, the entry that it
    /// carries.
    Accepted(u32, u64, Entry),
    /// An entry is learned: the position, the entry chosen there.
    Learned(u32, Entry),
}
