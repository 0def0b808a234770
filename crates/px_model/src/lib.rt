//! The replicated log of a cluster of packet filters.
//!
//! # Organization
//!
//! - The definitions are in `specs/`: `Node` (what a member keeps and sends), `Step` (what it does with an input),
//!   `World` (the members, their messages and failures), `Law` (what holds in every run), `Reach` (how far a log
//!   goes), `Fits` (what can be spelled), `Worked`, `Cases`, `MoreCases` and `FitsCases` (runs, steps and messages,
//!   computed).
//! - [`laws`]: what holds of every run, proved of these definitions.
//! - [`worked`]: the runs, steps and messages, each the contract of a function.
//! - The plain types that a member's code, its record and its datagrams share: [`Entry`] as it is spelled, [`Meta`],
//!   [`Slot`] and [`Change`] of the record, [`Message`] and [`Event`]. `Spelling`, `Entries` and `Seen` in `specs/`
//!   define what each stands for.
//!
//! Within: `entry`, `message` and `record` have these types, `entries` and `events` what code needs of them, `bounds`
//! tests of ranges.
//!
//! # The protocol
//!
//! The log has 1,000,000 positions, at each of which one entry is chosen. A ballot is a round, from 1 on, and the
//! number of the member that began it. A member's front is the least position of which it hasn't learned the entry.
//! Where a command waits at a member and its clock ticks, it makes an attempt at its front: it begins a round, and asks
//! all for promises (phase 1, `PrepareAll`). A promise is for all positions. It reports what its sender accepted at the
//! front, and its sender's top, the position from which on it accepted nothing. With promises of a majority the member
//! has the lead: from the greatest top on, past its front, it may propose without phase 1, in the same ballot. It sends
//! accept requests (phase 2), and each acceptor sends its vote to all, which learn the entry from a majority of votes
//! in one ballot. A member that lacks an entry asks for it (`Need`). A stop ends a member and leaves its record: what
//! was committed before. A restart begins from that, without attempt and lead.
//!
//! Source: Lamport, "Paxos Made Simple" (2001).
//!
//! # Why
//!
//! - Where the paper of Lamport leaves a choice, or where two readings were possible, these are taken; the
//!   definitions are in `crates/px_model/specs/`.
//! - The type of commands is a parameter of all definitions and laws, and so is a test of their equality. The laws
//!   ask that the test be right. So entries can later be compared as bytes or as values, and no law changes.
//! - An entry leaves those that wait when an entry equal in origin, number and command is learned. One with the
//!   same origin and number and another command would stay; by the law `once` there is no such entry.
//! - A request's refusals come in the order 60 (64 entries wait), 62 (every position is learned), 62 (every number
//!   is used). That a command has no spelling is refused by the caller, before the step.
//! - A request that comes as a message, from outside the cluster, is a request like any other. The step answers it,
//!   `Asked` with the entry's number or `AskRefused` with 60 or 62, to 255. These two are in the step's messages
//!   and not in the world's list of messages, since no member ever gets them. In the world such a request is an
//!   action of its own, so every call of a node is an event of the world.
//! - Votes are kept at the 64 positions from the present front on. A vote elsewhere is forgotten, kept ballots
//!   below the front are dropped, and those of positions that come in are 0.
//! - What is kept of a vote is its ballot. The entry that is learned is that of the vote that completes the
//!   majority: no ballot carries two entries at a position, so it doesn't matter whose vote that is. A vote not
//!   above the kept ballot isn't kept, but it is still asked whether its own ballot has a majority.
//! - A member's promise counts once. If it comes again, its top isn't counted again, and a proposal that it reports
//!   is weighed like any other. Of two reported proposals with one ballot the earlier is kept.
//! - At a majority of promises the lead is set even where there is nothing to propose and the attempt ends.
//! - A tick uses a lead only where it begins at or below the front, and then moves it to the position after the
//!   front. Where it begins above, the tick drops it and begins a round; if no round is left (61), lead and attempt
//!   stay. With nothing waiting both stay, and only `Need` is sent.
//! - A refusal (`Nack`) always raises the highest round heard of, drops an attempt only if ballot and position are
//!   the attempt's, and drops a lead if the ballot is the lead's.
//! - `Prepare` and `PrepareAll` that come again are refused, since their ballot is then no longer above what is
//!   promised.
//! - No node sends `Prepare`: `PrepareAll` has taken its place. It is answered as ever; `Promise` does nothing.
//! - Acceptors answer at every position, without a window, and `Need` is answered at every learned position.
//! - What an acceptor promised at all positions (`floor`) and at one are kept apart, and the greater counts.
//! - A stop after an action without a change, or after one that is refused, stops the member and does nothing else.
//!   A restart of a running member empties its volatile part.
//! - An entry counts as chosen by the votes that were sent, as in the paper's 2.3, and not by what acceptors have
//!   recorded: a member that stops between its commit and its votes hasn't voted. What it accepted still binds
//!   every later ballot: the core of the proof speaks of all proposals ever accepted.
//! - A stop after an action that learns has learned: the entry is in the record and in the list of what was ever
//!   learned.
//! - The record's maps by position are functions and the world's lists are lists, not sets: "ever" is membership in
//!   a list, and the list of requests has no element twice.
//! - `laws` states two things more than the agreement and once: `kept`, which ties the list of what was ever learned
//!   to the members' records, and `same_state`, stated over any function and any two moments of a run.
//! - Whether messages can be spelled is stated for numbers, in px_model; whether a command can is a test that all these
//!   definitions take as an argument. So the protocol's definitions know no bytes, and a caller that spells commands
//!   puts in that the whole entry has 1 to 32,768 bytes.
//! - `RecordFits` also states that nothing was accepted or learned past the last position. The top is looked for
//!   below it, so a proposal accepted there would be left out; no run has one.
//! - The worked cases are contracts of functions without a body in `px_model::worked`, not tests: they are checked
//!   with the crate, without being run, and a crate with tests is proved twice.
//! - Functions of `laws` and `worked` have no body that an edit could turn: their contracts speak of definitions
//!   alone. So px_model has no must-fail edits, and what a wrong definition does is in proofs/Lib.antt.
#![tactic(auto)]

mod bounds;
mod entries;
mod entry;
mod events;
pub mod laws;
mod message;
mod record;
pub mod worked;

pub use entry::{Entry, EntryView};
pub use message::{Event, Message, Reads};
pub use record::{Change, Meta, Proposal, Slot};
