//! A node of the cluster: a member of the agreement with its record, and the configuration that its entries make.
//!
//! # Organization
//!
//! - [`Node`]: `ask`, `tick` and `receive` are steps of the agreement, and apply what was learned; `verdict` answers
//!   packets; `outcome` returns what came of the command at a position, `position_of` where a request was learned.
//! - `specs/Applied` is the configuration of a log, `specs/Outcomes` what came of its commands; what a call does
//!   is in px_replica's `specs/Made`.
//!
//! The configuration is always that after the first `applied` learned entries. Learned without a gap are those below
//! the front, so `applied` is never above it.
//!
//! Within: `node` has the calls, `opening` a restart, `applying` what is done with learned entries, `outcomes` what
//! came of their commands, `requests` where requests were learned, `asking` a command as an entry.
//!
//! # Why
//!
//! - A request is sought from the front down. A client asks again and again for one that waits, so below each 256th
//!   position a bound on the numbers of this member's requests is kept (`requests`): what waits has a number above the
//!   bound, and the search ends there. An index of all requests would take more memory than it saves time.
#![tactic(auto)]

mod applying;
mod asking;
mod node;
mod opening;
mod outcomes;
mod requests;
mod state;

pub use asking::{asked_bytes, asked_entry};
pub use outcomes::Outcome;
pub use pf_config::Config;
pub use pf_entry::Command;
pub use pf_eval::{Packet, Verdict};
pub use px_replica::{Datagram, Membership, NodeFault, Received, WireFault};
pub use state::Node;
