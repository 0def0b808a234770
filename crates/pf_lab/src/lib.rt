//! A lab: nodes in one place, their records in memory, with every message that they ever sent; and scripts of its
//! events.
//!
//! # Organization
//!
//! - [`Lab`]: `step` makes one event happen, [`lab`] a list of them. `sent`, `node` and `ever_learned` show it.
//! - [`lab_script`]: what a script of events prints.
//! - `specs/Labs` states which events of px_model's world these are, and when a lab is a world; `specs/Scripts` what a
//!   script prints.
//! - [`laws`]: what holds of every lab.
//!
//! Within: `state` and `host` are the lab and one of its members; `event` has its events as values, which `lab_events`
//! does: `coming` is what an event brings to a member, `running` makes the call of its node; `showing` and `ever` are
//! what a lab shows. Of scripts, `numbers`, `asking` and `reading` read a line, `fault` is why one is refused, `bench`
//! is the lab with what was delivered and shown, `events` does an event and prints what came of it, `passes` delivers
//! what waits, `messages` and `shown` print, `stepping` does a line, `script` all.
//!
//! # Why
//!
//! - A member with its record (px_replica) is separate from the node: it knows no filter, so its proofs don't wait
//!   for the grammar's.
//! - An entry that a record has and that has no spelling is answered with 72, at `open` and at each slot that is read:
//!   a store's clauses state nothing of commands, and what can't be spelled can't be sent.
//! - `open` reads every learned entry, up to one more than the last, so that it is a restart for any record; one
//!   past the last position is 72.
//! - **What was ever learned** is lent from the members' records, those of stopped members too: `Lab::ever_learned`
//!   shows which entry a member learned at a position. No list is kept beside them: what a member ever learned is in
//!   its record, and nothing else is there as learned (`Kept`), so a list would hold every entry twice.
//! - **A run of three nodes over databases is a row of rows_stores**, beside those of records: a crate that links
//!   SQLite pays for that before its first function, and a second one would pay it once more.
//! - A member of a lab restarts in place: nothing is read again, since its log is the record's, and no memory is
//!   taken.
//! - An ask whose command is too long is refused with 41 before it is an event, at a node that has failed with 80.
//!   In a lab it is refused before 81.
//! - A lab makes room for fifteen messages before it calls a node, which sends no more in a step.
//! - The configuration of an entry is the effect of what its own bytes spell, origin and number included.
//! - **What a call means is one definition** (`Call`), which the clauses of a member and of a node cite, and which a
//!   turn passes on as it is. So those who read one call have read all, and what happens to a node in any number of
//!   turns is a list of them.
//! - **What was asked of a cluster is known by its members' numbers**: a command that arrives was accepted where the
//!   member's next number went up, in a call that returned or in one that a stop cut short. So the law is about the
//!   history's own asks, and no node has to report what it was asked.
//! - `open` has no clause on when it returns 70 for a record of which a call had failed before: its callers have a
//!   fresh one.
//! - **What a script prints is a function of the script.** Which positions a node has applied is no part of the world:
//!   a datagram is accepted even where the application is out of memory. So a script in which a node is shown that has
//!   applied less than it learned ends, as any other does that is out of memory.
//! - The first line that isn't blank states how many members there are. Without one it is 40.
//! - Numbers are digits, leading zeros too. One that doesn't fit is read as the greatest that does, which names no
//!   node and no message, and so is 81. `members` with such a number is 40.
//! - A ruleset follows an ask's line with `-f -` whatever else is wrong with the line; its first argument may be no
//!   node. The arguments are then read as pfctl's, `ask` in its place. A line that isn't UTF-8 is one unknown line.
//! - Of an ask the faults of its arguments come before all else, those of an action that is no change last among them;
//!   then an unknown node, then that the node is stopped, then 60 and 62. Of `test` and `log`: an unknown node,
//!   `stopped`, 30.
//! - Arguments under a stop that make no event print their refusal, and nothing stops. No text may follow them, so a
//!   file is 40 there, and the lines that follow are lines of the script.
//! - A stop of an ask prints nothing, whatever becomes of the ask. `tick` at a stopped node prints nothing.
//! - **What was delivered is kept as a number below which all messages were, and a list of others.** A pass begins
//!   at that number and leaves the list empty, so a lab that runs after each event costs nothing for the messages that
//!   it has left behind.
//! - `log` asks the positions up to 64 past the front (the least position not learned), beyond which nothing is learned
//!   (`px_model::laws::in_reach`).
//! - A message that doesn't decode has no line in `sent`. None is among a lab's, whose messages are spelled
//!   (`IsWorld`).
//! - **An event that delivers a message for nobody among the members counts as naming none.** In a lab there is no
//!   such message, so 81 is exact for every world.
#![tactic(auto)]

mod asking;
mod bench;
mod coming;
mod event;
mod events;
mod ever;
mod fault;
mod host;
mod lab_events;
pub mod laws;
mod messages;
mod numbers;
mod passes;
mod reading;
mod running;
mod script;
mod showing;
mod shown;
mod state;
mod stepping;

pub use event::{LabAction, LabEvent, LabFault, Outcome};
pub use ever::EverLearned;
pub use lab_events::lab;
pub use script::lab_script;
pub use state::Lab;
