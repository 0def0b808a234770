//! Stores and what is done with them, whatever they are kept in.
ghost use Rattle.std.specs.Prelude.{◌≡◌, IfOk, IfSome};

use crate::node::walked;
use crate::said::{append, append_number};
use crate::step::follow;
use px_records::{FaultyRecords, MemoryRecords, Records, When};
use px_store::{AdoptFault, Identity, SqlRecords};
use sqlite::{Alter, Connection};
use std::alloc::Global;
use std::fmt::Write;

/// Whose store it is by the task's name: one of a member of three.
fn identity_of(word: &str) -> Option<Identity>
    ensures { IfSome result (λ i. i.members ≡ 3) }
{
    let (cluster, node) = match word {
        "take" | "again" => (7, 0),
        "other" => (8, 0),
        "second" => (7, 1),
        _ => return None,
    };
    Some(Identity {
        cluster,
        members: 3,
        node,
    })
}

/// The record in a store, else why not, and the store.
pub(crate) fn adopted<S: Alter + Drop>(
    alloc: Global,
    conn: Connection<S>,
    identity: Identity,
) -> Result<SqlRecords<S>, (AdoptFault, Connection<S>)>
    requires { identity.members ≡ 3 }
    ensures { IfOk result (λ r. ⟦<SqlRecords<S> as Records>⟧.members r ≡ 3) }
{
    SqlRecords::adopt(alloc, conn, identity)
}

/// The same, of a store that isn't new where it is taken `again`.
fn found<S: Alter + Drop>(
    alloc: Global,
    conn: Connection<S>,
    identity: Identity,
    word: &str,
) -> Result<SqlRecords<S>, (AdoptFault, Connection<S>)>
    requires { identity.members ≡ 3 }
    ensures { IfOk result (λ r. ⟦<SqlRecords<S> as Records>⟧.members r ≡ 3) }
{
    if word == "again" {
        return SqlRecords::reopen(alloc, conn, identity);
    }
    adopted(alloc, conn, identity)
}

/// Reports why a store isn't taken.
fn append_refused(out: &mut String, fault: AdoptFault) -> bool {
    match fault.code() {
        Some(code) => append_number(out, "refused", code as u64),
        None => append(out, "out of memory"),
    }
}

/// Takes the store, does the steps with its record, and gives it back.
fn take<S: Alter + Drop>(
    alloc: Global,
    conn: Connection<S>,
    identity: Identity,
    word: &str,
    steps: &str,
    out: &mut String,
) -> (bool, Connection<S>)
    requires { identity.members ≡ 3 }
{
    match found(alloc, conn, identity, word) {
        Ok(mut records) => {
            let is_written = follow(alloc, &mut records, steps, out);
            (is_written, records.release())
        }
        Err((fault, conn)) => (append_refused(out, fault), conn),
    }
}

/// Takes the store as member 0 of cluster 7, does a node's steps over its record, gives it back, takes it again and
/// does the record's steps, which are behind `then`.
fn take_node<S: Alter + Drop>(
    alloc: Global,
    conn: Connection<S>,
    line: &str,
    out: &mut String,
) -> (bool, Connection<S>) {
    let (steps, look) = line.split_once("then ").unwrap_or((line, ""));
    let identity = Identity {
        cluster: 7,
        members: 3,
        node: 0,
    };
    match adopted(alloc, conn, identity) {
        Ok(records) => {
            let (is_written, records) = walked(alloc, records, steps, out);
            let (is_shown, conn) = take(alloc, records.release(), identity, "take", look, out);
            (is_written && is_shown, conn)
        }
        Err((fault, conn)) => (append_refused(out, fault), conn),
    }
}

/// The format in the store's row.
fn format_of<S: Alter>(conn: &mut Connection<S>) -> Option<u32> {
    let row = conn.query_row("SELECT format FROM meta", &[]).ok()?;
    row.get::<u32>(0).ok()
}

/// Reports the format, and how many tables there are.
fn count<S: Alter>(conn: &mut Connection<S>, out: &mut String) -> bool {
    match format_of(conn) {
        Some(format) => {
            let tables = conn.schema().tables.len();
            write!(out, "format {format} of {tables} tables").is_ok()
        }
        None => append(out, "refused"),
    }
}

/// Runs statements that answer nothing.
fn run<S: Alter>(conn: &mut Connection<S>, sql: &str, out: &mut String) -> bool {
    let is_run = conn.execute_batch(sql).is_ok();
    append(out, if is_run { "done" } else { "refused" })
}

/// Does a task that isn't done with a record.
fn handle<S: Alter>(conn: &mut Connection<S>, word: &str, rest: &str, out: &mut String) -> bool {
    match word {
        "sql" => run(conn, rest, out),
        "count" => count(conn, out),
        _ => append(out, "no such task"),
    }
}

/// Does the task with a store, and gives it back.
fn do_task<S: Alter + Drop>(
    alloc: Global,
    mut conn: Connection<S>,
    task: &str,
    out: &mut String,
) -> (bool, Connection<S>) {
    let (word, rest) = task.split_once(' ').unwrap_or((task, ""));
    if word == "node" {
        return take_node(alloc, conn, rest, out);
    }
    match identity_of(word) {
        Some(identity) => take(alloc, conn, identity, word, rest, out),
        None => {
            let is_written = handle(&mut conn, word, rest, out);
            (is_written, conn)
        }
    }
}

/// Does one task after the other with a store, and gives it back.
pub(crate) fn work<S: Alter + Drop>(
    alloc: Global,
    conn: Connection<S>,
    tasks: &str,
    out: &mut String,
) -> (bool, Connection<S>) {
    let (first, rest) = tasks.split_once(" | ").unwrap_or((tasks, ""));
    let (mut is_written, mut conn) = do_task(alloc, conn, first, out);
    for task in rest.split_terminator(" | ") {
        is_written = is_written && append(out, "; ");
        let done = do_task(alloc, conn, task, out);
        is_written = is_written && done.0;
        conn = done.1;
    }
    (is_written, conn)
}

/// Does the tasks with a store that nobody uses behind them.
pub(crate) fn work_once<S: Alter + Drop>(
    alloc: Global,
    conn: Connection<S>,
    tasks: &str,
    out: &mut String,
) -> bool {
    let (is_written, conn) = work(alloc, conn, tasks, out);
    drop(conn);
    is_written
}

/// An empty record in memory of which the `K`-th commit fails `before` or `after` its change.
fn faulty(alloc: Global, fails: &str) -> FaultyRecords<MemoryRecords>
    ensures { ⟦<FaultyRecords<MemoryRecords> as Records>⟧.members result ≡ 3 }
{
    let inner = MemoryRecords::new(alloc, 3);
    match fails.split_once(' ') {
        Some((k, "after")) => FaultyRecords::new(inner, k.parse::<u64>().unwrap_or(0), When::After),
        Some((k, _)) => FaultyRecords::new(inner, k.parse::<u64>().unwrap_or(0), When::Before),
        None => FaultyRecords::new(inner, 0, When::Before),
    }
}

/// Steps over such a record, then steps over the record itself.
pub(crate) fn plain(alloc: Global, fails: &str, line: &str, out: &mut String) -> bool {
    let mut records = faulty(alloc, fails);
    let (steps, then) = line.split_once(" | ").unwrap_or((line, ""));
    let is_written = follow(alloc, &mut records, steps, out) && append(out, "; ");
    let mut inner = records.into_inner();
    is_written && follow(alloc, &mut inner, then, out)
}
