//! A member of the replicated log in code, for each event what it records and sends: proposer, learner, and the
//! acceptor's answers.
//!
//! # Organization
//!
//! - [`Core`]: a member without its record. `plan` computes a step, `settle` applies it to the core.
//! - `specs/Planning`: what a core stands for, and what its plans are. The steps themselves are px_model's definitions.
//! - [`laws`]: planning, committing and settling are one step of the model.
//!
//! Within: `planning` has the step for each event, by `asking` (commands and the clock), `proposing` (promises to the
//! proposer), `accepting` (the acceptor's answers), and `learning` with `voting` and `votes` (the learner);
//! `settling` applies a plan, `member` is a core at its beginning, and `limits` has the numbers. The first page of
//! px_model explains front, top, attempt and lead.
//!
//! # The caller's loop
//!
//! ```text
//! let (slot, top) = match event.reads() { .. };     // read just these of the record, and its meta
//! let plan = core.plan(&meta, &slot, top, &event)?; // 60 to 62, or out of memory: all is as it was
//! // make room for what is sent, for all of it: plan.sends
//! // commit plan.change, if there is one             a store that fails: the member ends here
//! let sends = core.settle(plan);                    // can't fail
//! // send
//! ```
//!
//! 1. The core's log is the record's: a caller that opens a record adds each learned entry of it (`Core::remember`).
//! 2. Nothing leaves before the change that it rests on is committed.
//! 3. A plan is settled by the core that made it, before that plans again.
//!
//! Source: Lamport, "Paxos Made Simple" (2001).
//!
//! # Why
//!
//! - An entry is kept as it is spelled, and a command is that spelling without its origin and number: so no message is
//!   decoded into a command to take a step, and one copy of the bytes serves the change, the messages, those that wait
//!   and the log.
//! - That bytes are an entry's is checked where they come from outside, of each datagram that has one and of each
//!   slot that is read, and the command is made of them once, where it is applied. A type that carries the answer
//!   would spare the checks of votes and slots, n and some for a command; it would have to be handed through
//!   px_model's messages, px_core, the record and the wire, all of which are proved over plain bytes. A vote for a
//!   load is decoded in 32 ns whatever its text's length (SPEED.md), of some 700 us that a command takes, so it
//!   isn't done; of a command for a table each check looks at each address.
//! - `EntryView::read` looks at the first ten bytes alone. That the rest is a command is checked by the code that reads
//!   datagrams, records and requests.
//! - A member asked by a call (`Event::Asks`) is handed an entry's spelling, of which only the command counts.
//! - Kept votes have a row for each of the 64 positions and fifteen columns whatever the cluster's size, 15,360
//!   bytes. A cell has its position, so none is written when the front moves.
//! - The log is a list by position, up to the last one learned; out of memory may leave empty places at its end,
//!   which have no meaning.
//! - A fault is shown as its number, 60, 61 or 62, as the product's other refusals are.
//! - That a call answers out of memory only where a growth was refused has no clause, since std's contracts have no
//!   term for that; that it answers so only where the step isn't refused has one, and the tests run every kind of event
//!   with ample memory.
//! - `plan` takes any event whose votes and promises come from members (`Core::takes` is the test), fitting or not.
//!   That what is sent can be spelled is a clause of its own, for any test of commands, and asks that what the core
//!   keeps and is handed can be.
#![tactic(auto)]

mod accepting;
mod asking;
pub mod laws;
mod learning;
mod limits;
mod member;
mod plan;
mod planning;
mod proposing;
mod settling;
mod state;
mod votes;
mod voting;

pub use limits::{MEMBERS, POSITIONS, WAITING, WINDOW};
pub use plan::{CoreFault, Plan, Sends};
pub use px_model::{Change, Meta, Slot};
pub use state::Core;
