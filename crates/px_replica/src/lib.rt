//! A member of the agreement with its record, from datagrams to datagrams.
//!
//! # Organization
//!
//! - [`Replica`]: `ask`, `tick` and `receive` read the record, plan, spell what is sent, commit, settle, and hand out.
//! - `specs/Made` defines what a call does, in the terms of px_model's world; `specs/Spelled` how messages are spelled.
//!
//! Nothing leaves before the change that it rests on is committed, and all memory is allocated before the commit.
//!
//! Within: `replica` has the calls, `act` the order of what a call does, `look` what it reads of the record, `member`
//! and `planning` the core's plan, `spelling` the datagrams, `opening` a restart; `datagram`, `receiving` and `fault`
//! are what callers see.
//!
//! # Why
//!
//! - **Most instructions of an event apply what was learned**; then come the datagram's decoding, what is sent, the
//!   core's plan, and last the record in memory, a B-tree.
#![tactic(auto)]

mod act;
mod datagram;
mod fault;
mod look;
mod member;
mod opening;
mod planning;
mod receiving;
mod replica;
mod spelling;
mod state;

pub use datagram::Datagram;
pub use fault::NodeFault;
pub use px_wire::{Membership, WireFault};
pub use receiving::Received;
pub use state::Replica;
