//! What a running node answers operators, at the position that it is at.
//!
//! # Organization
//!
//! - [`RequestHandler`]: a node, and what is asked of it. Reads leave it as it is, and are answered from the
//!   configuration after its first `applied` positions; a change is one ask of the node, or a refusal with nothing
//!   changed.
//! - [`request_in`]: what HTTP's method, target and body ask for, a [`Request`]. [`Answer`]: HTTP's status and the
//!   body.
//! - [`push_positions`]: the lines of some positions of the log, `POSITION ORIGIN.NUMBER ARGUMENTS OUTCOME`.
//!   [`push_outcome`]: what came of a command, a line as a script prints it.
//! - [`laws`]: which requests change something, and with what others are refused; what a verdict meets is bounded.
//! - `specs/Routing` defines what HTTP's requests ask for, `specs/Answers` what is answered, `specs/Changing` what a
//!   change does, `specs/Positions` the lines of a log.
//!
//! Within: `routing` reads a request, by `target` (paths and methods), `query` (parameters) and `listing` (the action
//! that they ask for). `answering` answers it, and what became of a request: `changing` a change, `packets` and
//! `bounded` verdicts, `entries` the log; `figures` are a node's numbers, with three renderers: `status` (lines), `json`
//! and `metrics` (Prometheus).
//!
//! # Why
//!
//! - Nothing here knows of sockets: node_control moves the bytes, and hands in what it counted ([`Counters`]).
//! - **Reads are answered by the definitions that scripts have**, at the position that the node has applied; a change
//!   is one ask. A run with a control socket is a trace of the model, as one without is (`hosted_runs_are_traces`).
//! - **The verdicts of one request meet at most 10,000 rules together**, each anchor that is attached to another
//!   counted as one, since a node that computes a verdict does nothing else. `pfx ask test` asks for the others again,
//!   three times from the start where another position was applied meanwhile. Listings aren't cut: `docs/SPEED.md` has
//!   what the longest takes.
//! - **`stuck` goes by the front** (the least position not learned), not by a command. **`behind` goes by what was
//!   shown 2 seconds ago**: a sound node lacks the last positions while votes are on their way.
//! - **A carriage return before a newline is no part of an address or a packet**: bodies over HTTP may have such lines.
//!   In a change it is refused, as in pf.conf(5).
//! - **A change comes as an entry** (`pfx ask`), or as arguments (curl), which are read once, where they come in. What
//!   isn't understood is refused there; what is understood is a command from then on. A listing has none: its parameters
//!   give an action.
//! - **`sync` is a load that no configuration accepts**: it is learned and applied, and changes nothing.
//! - **A request is sought in the log whenever a client asks for it**, from the front down. One that waits has a number
//!   above all that this node's requests had a stretch before, so the search ends there (pf_node).
//! - **This socket lacks** counters of rules and states (pfctl), since there is no traffic here; certificates
//!   (unbound-control), since nothing leaves the machine; watches and reads through a leader (etcdctl), blocking
//!   queries and tokens (consul): `sync` and `--at` serve for these.
#![tactic(auto)]

mod answer;
mod answering;
mod bounded;
mod changing;
mod counters;
mod entries;
mod figures;
mod handler;
mod health;
mod json;
pub mod laws;
mod listing;
mod metrics;
mod outcome;
mod packets;
mod positions;
mod query;
mod request;
mod routing;
mod status;
mod target;

pub use answer::{Answer, status_of};
pub use bounded::MET_MAX;
pub use changing::Changed;
pub use counters::{Counters, PeerCounters};
pub use entries::{ENTRIES_BYTES, ENTRIES_MAX};
pub use figures::Figures;
pub use handler::RequestHandler;
pub use health::{Health, STUCK, counted};
pub use outcome::push_outcome;
pub use pf_arguments::Action;
pub use pf_node::Node;
pub use positions::push_positions;
pub use request::{Read, Request, Routed};
pub use routing::request_in;
