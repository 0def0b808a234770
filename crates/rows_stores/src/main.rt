//! Records in databases, line by line: each line of the input is done by itself, as one process after the other would,
//! and prints what comes of it. The stored output has what each is to print.
//!
//! # Lines
//!
//! Each store is that of a member of 3, and a line's parts are between ` | `.
//!
//! - `in FILE | TASK | ..`: opens the store in the file, or in empty ones in memory, `in memory`, and does the tasks.
//! - `twice FILE | TASK | ..`: the same; opens the file once more, which must be refused; does the tasks again.
//! - `plain K WHEN | STEP, .. | STEP, ..`: steps over a record in memory whose `K`-th commit fails `before` or `after`
//!   its change (0: none does), then steps over the record itself.
//! - `stops BEFORE | SQL | RECORD | CHANGE | RECORD | ..`: a run in files that stop (see [`stops`]).
//! - `node-stops BEFORE | SQL | RECORD | STEP | RECORD | ..`: a node's run in files that stop.
//! - `nodes in memory`: a run of three nodes over empty stores in memory, one of which stops (see [`cluster`]).
//! - `text FILE`, `folder FILE`, `cut FILE BYTES`: writes a file, makes a folder, leaves the first bytes of the file.
//!
//! A task is one of these:
//!
//! - `take STEP, ..`: takes the store as member 0 of cluster 7, `other` as that of cluster 8, `second` as member 1;
//!   `again` as `take`, but as a store that isn't new.
//! - `node STEP, .. then STEP, ..`: a node's steps (see [`node`]) over the store of member 0, then those of its record,
//!   which the node gave back and which is taken again.
//! - `sql STATEMENTS`: runs statements that answer nothing.
//! - `count`: reads the format in its row, and counts its tables.
//!
//! The steps are those of [`record`]. Files that stop are made by `fused`: they refuse each call after the first n.
//! What no sync has confirmed stays then, as where a process ends, or is lost, as where power fails.
//!
//! Within: `step` reads steps, `change` changes of a record; `store` and `files` do tasks, `place` is a file or one in
//! memory, `said` what is printed.
//!
//! # Why
//!
//! - **Each line is done as one process after the other would leave its file.** A record is found again by the next
//!   opening; another cluster's is refused with 71. Stores of format 1 and 2 are brought to format 3 with their rows;
//!   an unknown format is 73, and 72 where a row is missing beside others. A store that isn't new is 73 without its
//!   tables, and 72 without the row for the whole node, though the tables are there. Positions, numbers and entries
//!   serve up to their bounds, and past them the opening or the read is 72. A file of text, a folder, a path in no
//!   folder and a store cut short don't open, which a node answers with 70. A store that is open doesn't open a second
//!   time, and the first goes on. Nor does a store open for a user who may not write it, and it isn't changed: that was
//!   run by hand, since the superuser may write it all the same.
//! - **Either file of a store in memory stops after 0, 1, 2 .. calls**, its tables are counted, and its format and,
//!   adopted again, its record are compared: while changes are made, while a store of format 1 or 2 is adopted, and
//!   while a node runs over the store, which a new node opens then. Each line prints how many calls on either file
//!   its run has.
//! - **Nodes run over stores in memory, too.** A node that reads a bad slot, or one whose entry can't be decoded, for
//!   a datagram answers 72 and from then on 80, and its record is as it was; a bad slot that no step reads hinders
//!   none, and a tick reads none. A node doesn't open, with 72, over a learned entry that can't be decoded, and gives
//!   back the record, which is adopted and read again. A node over a store of format 1 whose round is 5 records round
//!   6 as it is asked and its clock ticks; the store has format 3 then.
#![tactic(auto)]

mod change;
mod cluster;
mod files;
mod fused;
mod node;
mod place;
mod record;
mod said;
mod step;
mod stops;
mod store;

use crate::files::{cut, folder, in_file, text, twice};
use crate::fused::{in_memory, nodes_in_memory};
use crate::stops::{CHANGES, STEPS, stops};
use crate::store::plain;
use std::io;

/// Does what the line asks for, and appends what came of it. False when out of memory for that.
fn done(rt: &HostRuntime, line: &str, out: &mut String) -> bool {
    let (word, rest) = line.split_once(' ').unwrap_or((line, ""));
    let (file, tasks) = rest.split_once(" | ").unwrap_or((rest, ""));
    match word {
        "in" if file == "memory" => in_memory(rt.alloc(), tasks, out),
        "in" => in_file(rt, file, tasks, out),
        "twice" => twice(rt, file, tasks, out),
        "plain" => plain(rt.alloc(), file, tasks, out),
        "nodes" => nodes_in_memory(rt.alloc(), out),
        "stops" => stops(rt.alloc(), CHANGES, file, tasks, out),
        "node-stops" => stops(rt.alloc(), STEPS, file, tasks, out),
        "text" => text(rt, file, out),
        "folder" => folder(rt, file, out),
        "cut" => cut(rt, file, out),
        _ => crate::said::append(out, "unknown line"),
    }
}

/// Does what the line asks for, and prints what came of it.
fn print(rt: &HostRuntime, line: &str) -> io::Result<()> {
    let mut out = String::new(rt.alloc());
    let shown = if done(rt, line, &mut out) {
        out.as_str()
    } else {
        "memory"
    };
    println!(rt; "{line}: {shown}")
}

fn main(rt: HostRuntime) -> io::Result<()> {
    let input = io::read_to_string(rt.alloc(), rt.reader())?;
    for line in input.lines() {
        print(&rt, line)?;
    }
    Ok(())
}
