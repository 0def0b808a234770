//! Files in memory that stop.
use crate::cluster::append_run;
use crate::place::{Either, Place, Store};
use crate::said::append;
use crate::store::work;
use sqlite::{Connection, Files, Options};
use sqlite_disk::{Crash, Disk, Fuse, Memory};
use std::alloc::Global;

/// What two files hold: the database and its log.
#[derive(Drop)]
pub(crate) struct Held {
    log: Vec<u8>,
    db: Vec<u8>,
    /// Whether either file has refused a call, or would refuse one more.
    pub(crate) is_spent: bool,
    /// Whether there was memory for what they hold and for what is reported.
    pub(crate) is_whole: bool,
}

impl Held {
    /// Two empty files.
    pub(crate) fn new(alloc: Global) -> Held {
        Held {
            log: Vec::new(alloc),
            db: Vec::new(alloc),
            is_spent: false,
            is_whole: true,
        }
    }
}

/// Which of the two files stops, and what is lost then.
#[derive(Clone, Copy)]
pub(crate) struct Stop {
    /// After how many calls the log stops, and the database.
    pub(crate) log: u64,
    pub(crate) db: u64,
    /// What no sync has confirmed is lost, as where power fails; else what is written stays, as where a process ends.
    pub(crate) loses: bool,
}

/// No stop.
pub(crate) const NEVER: Stop = Stop {
    log: u64::MAX,
    db: u64::MAX,
    loses: false,
};

/// The store in the files, else the files.
pub(crate) fn opened(
    alloc: Global,
    files: Files<Either>,
    options: Options,
) -> Result<Connection<Store>, Files<Either>> {
    if !files.log.may_be_used() || !files.db.may_be_used() {
        return Err(files);
    }
    match Connection::open_files(alloc, files, options) {
        Ok(conn) => Ok(conn),
        Err((_, left)) => Err(left.into_files()),
    }
}

/// The store in files in memory, else the files. The log is copied into the database when it has eight pages.
fn opened_in_memory(
    alloc: Global,
    files: Files<Either>,
) -> Result<Connection<Store>, Files<Either>> {
    let options = Options {
        checkpoint_frames: 8,
        ..Options::new(1)
    };
    opened(alloc, files, options)
}

/// Does the tasks with the store in the files, and gives them back.
fn work_in(
    alloc: Global,
    files: Files<Either>,
    tasks: &str,
    out: &mut String,
) -> (bool, Files<Either>) {
    match opened_in_memory(alloc, files) {
        Ok(conn) => {
            let (is_written, conn) = work(alloc, conn, tasks, out);
            (is_written, conn.into_store().close())
        }
        Err(files) => (append(out, "refused"), files),
    }
}

/// A file that holds the bytes and stops after that many calls. `is_whole` becomes false where memory is out.
fn file(alloc: Global, bytes: &[u8], calls: u64, is_whole: &mut bool) -> Either {
    let mut memory = Memory::new(alloc);
    let is_held = memory.write_at(0, bytes).is_ok() && memory.sync().is_ok();
    *is_whole = *is_whole && is_held;
    Place::Fused(Fuse::new(memory, calls))
}

/// Whether a file has refused a call, or refuses one more.
fn is_spent(file: &mut Either) -> bool {
    if !file.may_be_used() {
        return true;
    }
    file.len().is_err()
}

/// What a file in memory holds after its stop. `is_whole` becomes false where memory is out.
fn left(alloc: Global, file: &mut Either, loses: bool, is_whole: &mut bool) -> Vec<u8> {
    let mut bytes = Vec::new(alloc);
    if let Place::Fused(file) = file {
        if loses {
            file.crash();
        }
        let is_copied = bytes.extend_from_slice(file.inner().bytes()).is_ok();
        *is_whole = *is_whole && is_copied;
    }
    bytes
}

/// Does the tasks with the store in files that hold this, and stop so: what they hold then.
pub(crate) fn attempt(
    alloc: Global,
    held: &Held,
    stop: Stop,
    tasks: &str,
    out: &mut String,
) -> Held {
    let mut is_whole = true;
    let log = file(alloc, &held.log, stop.log, &mut is_whole);
    let db = file(alloc, &held.db, stop.db, &mut is_whole);
    let (is_written, mut files) = work_in(alloc, Files { log, db }, tasks, out);
    let is_spent = is_spent(&mut files.log) || is_spent(&mut files.db);
    let log = left(alloc, &mut files.log, stop.loses, &mut is_whole);
    let db = left(alloc, &mut files.db, stop.loses, &mut is_whole);
    drop(files);
    Held {
        log,
        db,
        is_spent,
        is_whole: is_whole && is_written,
    }
}

/// Does the tasks with an empty store whose files are in memory. Whether there was memory for that.
pub(crate) fn in_memory(alloc: Global, tasks: &str, out: &mut String) -> bool {
    attempt(alloc, &Held::new(alloc), NEVER, tasks, out).is_whole
}

/// An empty store whose files are in memory.
fn empty(alloc: Global) -> Option<Connection<Store>> {
    let mut is_whole = true;
    let log = file(alloc, &[], NEVER.log, &mut is_whole);
    let db = file(alloc, &[], NEVER.db, &mut is_whole);
    opened_in_memory(alloc, Files { log, db }).ok()
}

/// Does the run of three nodes over this store, the second member's and an empty one.
fn with_two(
    alloc: Global,
    zero: Connection<Store>,
    one: Connection<Store>,
    out: &mut String,
) -> bool {
    match empty(alloc) {
        Some(two) => append_run(alloc, zero, one, two, out),
        None => {
            drop(zero);
            drop(one);
            false
        }
    }
}

/// The same over this store and empty ones.
fn with_one(alloc: Global, zero: Connection<Store>, out: &mut String) -> bool {
    match empty(alloc) {
        Some(one) => with_two(alloc, zero, one, out),
        None => {
            drop(zero);
            false
        }
    }
}

/// Does a run of three nodes over empty stores whose files are in memory, and reports what they show.
pub(crate) fn nodes_in_memory(alloc: Global, out: &mut String) -> bool {
    match empty(alloc) {
        Some(zero) => with_one(alloc, zero, out),
        None => false,
    }
}
