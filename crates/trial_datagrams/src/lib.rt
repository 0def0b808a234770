//! Tests of entries, datagrams, tags, packets and sockets: bytes written by hand from their formats, read and written
//! again. What no contract states is tried here: that the definitions spell what other programs send (the vectors of
//! RFC 4231), and that a call doesn't always answer out of memory; pieces in any order, which packets are accepted,
//! files of keys and starts, and a command asked over UDP.
//!
//! The tests are in a crate of their own, since a crate with tests is proved twice.
//!
//! Within: `bytes`, `party`, `bench`, `disk`, `own` and `memory_socket` are what tests share; `entries`, `datagrams`, `heads`, `kinds`
//! and `largest` are of messages, `seals`, `packets`, `arrivals`, `pieces`, `receivers` and `clocks` of packets, `keys`
//! and `starts` of files, `sockets` and `asking` of UDP.
#![tactic(auto)]

#[cfg(test)]
mod arrivals;
#[cfg(test)]
mod asking;
#[cfg(test)]
mod bench;
#[cfg(test)]
mod bytes;
#[cfg(test)]
mod clocks;
#[cfg(test)]
mod datagrams;
#[cfg(test)]
mod disk;
#[cfg(test)]
mod entries;
#[cfg(test)]
mod heads;
#[cfg(test)]
mod keys;
#[cfg(test)]
mod kinds;
#[cfg(test)]
mod largest;
pub mod memory_socket;
#[cfg(test)]
mod own;
#[cfg(test)]
mod packets;
#[cfg(test)]
mod party;
#[cfg(test)]
mod pieces;
#[cfg(test)]
mod receivers;
#[cfg(test)]
mod seals;
#[cfg(test)]
mod sockets;
#[cfg(test)]
mod starts;
