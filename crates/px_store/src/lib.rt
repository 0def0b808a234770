//! The record of a node in a SQLite database, which a person can read with `sqlite3`.
//!
//! # Organization
//!
//! - [`SqlRecords::adopt`] takes a store with the record of its rows: what it holds is read (`finding`) and judged,
//!   brought to format 3 (`making`, `adopt`) and read again (`opening`); [`SqlRecords::reopen`] takes one that isn't
//!   new, which must have its tables; [`SqlRecords::release`] gives its connection back (`taking`).
//! - [`SqlRecords`] keeps [`Records`](px_records::Records) (`sql`): reads by a position (`looking`), writes of one row
//!   each (`writing`), over one call that puts a row and one that asks for rows (`calls`). The decoding of rows is in
//!   `reading`; `ahead` has rows of learned entries for a reader that asks them in turn.
//! - [`examine`] and [`owner_in`] look at a store without changing it. [`Format`] is the format of a store, and
//!   [`format_in`] recognizes its schema (`tables`).
//! - Of px_records: [`Records`], what a node requires of its record's keeper, [`MemoryRecords`] and [`FaultyRecords`].
//! - `specs/Tables.antt` has the tables, `inner/Tables.antt` the statements, `Seen.antt` the record that rows show,
//!   `Formats.antt` that of an older format.
//!
//! # Why
//!
//! - What is stored is total: a bad row has some reading, and the call that reads it answers 72. So a commit's `Ok`
//!   is one equation with the definitions' `commit`. Of several rows with one key, which the library's contracts don't
//!   exclude, the promise is read from the first and the proposal from the first with a ballot; then `read_top` is
//!   exact over any rows.
//! - A commit that would replace a bad row is a failure (70), not 72: a node reads a slot before it writes it, so
//!   72 has been returned by then. The row is read before each promise, proposal and learned entry; each commit is
//!   still one statement that writes.
//! - A promise is written as the whole row, with the proposal that was read, not as an update of one column: all
//!   six changes are then one form of statement, `INSERT OR REPLACE .. VALUES`, and one proof.
//! - `StoreFault` has 70, 72 and out of memory, which calls of a record may answer; 73 and 71 belong to opening
//!   alone (`AdoptFault`).
//! - Ranges are asked of the caller of `commit` (`ChangeFits`, and that a promise isn't below the one there), so
//!   that what is read back can be spelled whatever the keeper. A keeper in memory keeps that of its whole record;
//!   one in a database tests each row that it reads.
//! - The format is given by the schema first, then by the row, which has to have the same. `adopt` compares the
//!   schema that it finds with those of the formats, field by field, since a schema has no test of equality, and
//!   before it reads or writes anything: any other is refused with 73. Before this test a store with as many tables
//!   as a format has, of which one was another, was refused with 70 where a statement failed, and else accepted with no
//!   clause about it.
//! - A connection within a transaction is 70 before anything is judged.
//! - So a database is honest where the disk returned what was written: that depends on nothing that the keeper holds.
//!   `is_trusted` of `Records` is a term of its own since a keeper's honesty might be more than what it depends on.
//! - A commit that is to fail after its change, and is out of memory, answers out of memory, and the failure is still
//!   to come: `FaultyRecords` then fails a commit just where the change was made, and its clause can state so.
//! - After a store was brought to format 3 its rows are read again; a row that isn't as it was put counts as a
//!   failure, not as a bad row.
//! - All that a store is judged by is read before the judging, and the judging is a function of what was read. So a
//!   store that is refused was only read.
//! - A store that is open already doesn't open a second time: the library locks its file, and the first goes on
//!   unharmed (`rows_stores`, line `twice`). That one node has one record stays a premise; a copy of a file has no
//!   lock.
//! - A last row is good where each row of the greatest position has a position below 1,000,000 and the rows there
//!   are those that a commit writes.
//! - What a stop in `adopt` (the process is killed, or the machine fails) leaves is stated for the rows: those that a
//!   stop left before, or the rows of format 3, whole, which show the record and which a member may start from again.
//!   sqlite's contracts state nothing about the schema that an opening finds after a stop: it finds the four tables or
//!   answers 73, where it finds any. That they exist then is tested by rows_stores, which stops at each file call and
//!   counts the tables.
//! - Whether a store is new isn't in the store: one that has lost all its tables looks as one that never had any, and
//!   one that has lost all its rows as one with tables that were just made. So the caller states it, by `adopt` or
//!   `reopen`; a node that forgets what it promised could vote twice. Tables and the row for the whole node are made in
//!   one transaction: no stop leaves the tables alone.
//! - A keeper of which a stop leaves nothing at all would meet every clause on stops. So `Records` has two laws:
//!   while no call has failed a stop leaves no more than what is stored (`settled`), and no less (`stays`).
//! - **`read_top` reads the last position with a ballot, `read_learned_end` the last learned one**, from the end of the
//!   table to the first row that serves; the search for a top (px_model) passes over slots that only promise. There is
//!   no index beside the keys.
//! - Round, number and floor are kept beside the connection, and read without a statement.
//! - **Learned entries that are asked in turn, from position 0 on, come of one statement for 64 positions**, as a node
//!   asks them when it starts. The rows are used if their keys rise, so that a position has one at most; else, or where
//!   it is out of memory, each position is asked alone. A bad row is refused when its position is asked, and a commit
//!   drops what was read ahead.
#![tactic(auto)]

mod adopt;
mod ahead;
mod calls;
mod examining;
mod fault;
mod finding;
mod formats;
mod keeper;
mod looking;
mod making;
mod opening;
mod reading;
mod sql;
mod tables;
mod taking;
mod writing;

pub use calls::Identity;
pub use examining::{examine, owner_in};
pub use fault::AdoptFault;
pub use formats::Format;
pub use keeper::SqlRecords;
pub use px_records::{FaultyRecords, MemoryRecords, Records, StoreFault, When};
pub use tables::format_in;
