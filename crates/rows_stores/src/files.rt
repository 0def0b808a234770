//! Stores in files, and files that aren't stores.
use crate::fused::opened;
use crate::place::{Either, Place, Store};
use crate::said::append;
use crate::store::{work, work_once};
use sqlite::{Connection, Files, Options, Unknown};
use std::fs;
use std::hash::{BuildHasher, RandomState};

/// The database file of this name and its log.
fn pair(rt: &HostRuntime, file: &str) -> Option<Files<Either>> {
    match sqlite_std_file::open(rt, file, Unknown) {
        Ok(Files { log, db }) => Some(Files {
            log: Place::Real(log),
            db: Place::Real(db),
        }),
        Err(_) => None,
    }
}

/// The store in the file, opened as SQLite does it.
fn connected(rt: &HostRuntime, file: &str) -> Option<Connection<Store>> {
    let keys = RandomState::new(rt).ok()?;
    let options = Options::new(keys.hash_one(&0u8));
    match pair(rt, file) {
        Some(files) => opened(rt.alloc(), files, options).ok(),
        None => None,
    }
}

/// Opens the store in the file, and does the tasks with it.
pub(crate) fn in_file(rt: &HostRuntime, file: &str, tasks: &str, out: &mut String) -> bool {
    match connected(rt, file) {
        Some(conn) => work_once(rt.alloc(), conn, tasks, out),
        None => append(out, "doesn't open"),
    }
}

/// Reports whether the file opens while its store is open.
fn append_again(rt: &HostRuntime, file: &str, out: &mut String) -> bool {
    let is_open = connected(rt, file).is_some();
    append(
        out,
        if is_open {
            "; opens; "
        } else {
            "; doesn't open; "
        },
    )
}

/// Does the tasks twice with the store in the file, which must not open a second time between.
pub(crate) fn twice(rt: &HostRuntime, file: &str, tasks: &str, out: &mut String) -> bool {
    match connected(rt, file) {
        Some(conn) => {
            let (is_written, conn) = work(rt.alloc(), conn, tasks, out);
            let is_written = is_written && append_again(rt, file, out);
            work_once(rt.alloc(), conn, tasks, out) && is_written
        }
        None => append(out, "doesn't open"),
    }
}

/// Reports whether something was done with a file.
fn append_done(out: &mut String, is_done: bool) -> bool {
    append(out, if is_done { "done" } else { "no file" })
}

/// Writes a file of some thousand bytes.
pub(crate) fn text(rt: &HostRuntime, file: &str, out: &mut String) -> bool {
    match "pass in quick proto tcp from any to any port 22\n".repeat(rt.alloc(), 200) {
        Ok(text) => append_done(out, fs::write(rt, file, text.as_str()).is_ok()),
        Err(_) => false,
    }
}

/// Makes a folder.
pub(crate) fn folder(rt: &HostRuntime, file: &str, out: &mut String) -> bool {
    append_done(out, fs::create_dir(rt, file).is_ok())
}

/// Leaves the first bytes of a file, whose name and their number are between a blank.
pub(crate) fn cut(rt: &HostRuntime, words: &str, out: &mut String) -> bool {
    let (file, length) = words.split_once(' ').unwrap_or((words, ""));
    let Ok(bytes) = fs::read(rt, file) else {
        return append_done(out, false);
    };
    match bytes.get(..length.parse::<usize>().unwrap_or(0)) {
        Some(front) => append_done(out, fs::write(rt, file, front).is_ok()),
        None => append_done(out, false),
    }
}
