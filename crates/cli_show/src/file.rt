//! The store of a node is opened, as far as that changes nothing.

ghost use Rattle.std.specs.Prelude.{⊤, ℕ, Bool, List, Result, IfOk, IfErr};
ghost use Rattle.sqlite.specs.Effect.{Database};
ghost use Rattle.sqlite.specs.Files.{file_state};
ghost use Rattle.sqlite.specs.Held.{IsNew};
ghost use Rattle.sqlite.specs.State.{State};
ghost use Rattle.cli_show.specs.Stores.{AnswersIn};
ghost use Rattle.cli_show.specs.declared.shown.Shown.{Shown};
ghost use Rattle.cli_show.specs.declared.shown.Wanted.{Wanted};
ghost use Rattle.cli_show.specs.declared.store.Closed.{Closed};

use crate::shown::{Shown, Wanted};
use crate::store::{Closed, show_store};
use cli_io::{STORE_FAILED, UNKNOWN_STORE};
use px_records::Records;
use px_store::SqlRecords;
use sqlite::{Connection, Error, ErrorCode, File, FileStore};
use sqlite_trees::store::Store;
use std::alloc::Global;
use std::fs;

/// Whether a file has no byte, or isn't there.
fn is_empty(rt: &HostRuntime, path: &str) -> bool {
    fs::metadata(rt, path).map_or(true, |found| found.len() == 0)
}

/// The database in a file. Where there is no file 70 comes, and none is made; 73 where it has no byte and no log of
/// writes.
fn open_file(rt: &HostRuntime, path: &str) -> Result<Connection<FileStore<File>>, Closed>
    ensures fresh { IfOk result IsNew }
{
    if !fs::metadata(rt, path).is_ok_and(|found| found.is_file()) {
        return Err(Closed::Refused(STORE_FAILED));
    }
    let log = format!(in rt.alloc(); "{path}-wal").map_err(|_| Closed::Memory)?;
    if is_empty(rt, path) && is_empty(rt, log.as_str()) {
        return Err(Closed::Refused(UNKNOWN_STORE));
    }
    match Connection::open(rt, path) {
        Ok(conn) => Ok(conn),
        Err(Error::SqliteFailure(ErrorCode::OutOfMemory)) => Err(Closed::Memory),
        Err(_) => Err(Closed::Refused(STORE_FAILED)),
    }
}

/// Where a store is opened and closed.
pub trait Databases {
    // the file at this path has this database, within a transaction or not
    ghost holds: { Self → (path : List ℕ) → Database → (within : Bool) → Type 0 };

    // it isn't opened
    ghost refuses: { Self → (path : List ℕ) → Closed → Type 0 };

    // a database was closed in this state
    ghost closed: { Self → State → Type 0 };

    /// Opens the database in a file, as [`open_file`] does.
    fn open(&self, path: &str) -> Result<Connection<FileStore<File>>, Closed>
        ensures opened { IfOk result (λ c.
            holds self.now path.now (file_state c).now (file_state c).in_transaction) }
        ensures fresh { IfOk result IsNew }
        ensures refused { IfErr result (refuses self.now path.now) };

    /// Closes a database, without copying its log of writes.
    fn close(&self, conn: Connection<FileStore<File>>)
        ensures { closed self.now (file_state conn) };
}

impl Databases for HostRuntime {
    // no contract states what is in the file at a path
    ghost holds = { λ _ _ _ _. ⊤ };

    ghost refuses = { λ _ _ _. ⊤ };

    ghost closed = { λ _ _. ⊤ };

    fn open(&self, path: &str) -> Result<Connection<FileStore<File>>, Closed> {
        open_file(self, path)
    }

    fn close(&self, conn: Connection<FileStore<File>>)
        ensures { ⊤ }
    {
        drop(conn);
    }
}

/// Where stores are shown.
pub trait Stores {
    // this is shown of the store at a path, or it is refused
    ghost answers: { Self → (path : List ℕ) → Wanted → Result Shown Closed → Type 0 };

    /// Shows what is wanted of the store at a path.
    fn show_at(&self, alloc: Global, path: &str, wanted: Wanted<'_>) -> Result<Shown, Closed>
        ensures { answers self.now path.now wanted.entry result };
}

impl<D: Databases> Stores for D {
    ghost answers = { λ dbs. AnswersIn ⟦<FileStore<File> as Store>⟧ ⟦<SqlRecords<FileStore<File>> as Records>⟧
        (D.holds dbs) (D.refuses dbs) (D.closed dbs) };

    fn show_at(&self, alloc: Global, path: &str, wanted: Wanted<'_>) -> Result<Shown, Closed> {
        let conn = self.open(path)?;
        match show_store(alloc, conn, wanted) {
            Ok((shown, records)) => {
                self.close(records.release());
                Ok(shown)
            }
            Err((closed, conn)) => {
                self.close(conn);
                Err(closed)
            }
        }
    }
}
