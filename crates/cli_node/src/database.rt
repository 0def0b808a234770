//! The database of a node in its file: a new one has small pages.

ghost use Rattle.std.specs.Prelude.{◌≡◌, ⊤, ℕ, Bool, List, [], IsTrue, IfOk, IfErr, Ok, Err, true, codes};
ghost use Rattle.sqlite_trees.specs.Tree.{Trees};
ghost use Rattle.sqlite.specs.Effect.{Database};
ghost use Rattle.sqlite.specs.State.{State, HasCleanDisk};
ghost use Rattle.sqlite.specs.Held.{IsNew};
ghost use Rattle.sqlite.specs.Opening.{is_open_error};
ghost use Rattle.sqlite.specs.Files.{file_state, IsOpened, IsEmpty};
ghost use Rattle.cli_node.specs.declared.database.Seen.{Seen};

use sqlite::{Connection, Error, ErrorCode, File, FileStore, Files, Options, Unknown};
use sqlite_disk::Disk;
use sqlite_pager::Pager;
use sqlite_pool::probe_blank;
use sqlite_std_file::OpenError as PathError;
use sqlite_store::{OpenError, Unopened};
use sqlite_wal::PageSize;
use std::alloc::{AllocError, Global};
use std::fs;
use std::hash::{BuildHasher, RandomState};
use std::io::ErrorKind;

/// The bytes of a page of a new database. A commit writes whole pages, most often to put one row of some 50 bytes.
const PAGE: usize = 1_024;

const NO_MEMORY: Error = Error::SqliteFailure(ErrorCode::OutOfMemory);

const CANNOT_OPEN: Error = Error::SqliteFailure(ErrorCode::CannotOpen);

/// Why it isn't known what the files hold.
fn read_error(error: sqlite_wal::Error) -> Error
    ensures { IsTrue (is_open_error result) }
{
    Error::SqliteFailure(match error {
        sqlite_wal::Error::OutOfMemory => ErrorCode::OutOfMemory,
        sqlite_wal::Error::Io(_) => ErrorCode::SystemIoFailure,
        sqlite_wal::Error::Full => ErrorCode::DiskFull,
        _ => ErrorCode::NotADatabase,
    })
}

/// Why a database isn't made.
fn make_error(error: OpenError) -> Error
    ensures { IsTrue (is_open_error result) }
{
    Error::SqliteFailure(match error {
        OpenError::OutOfMemory => ErrorCode::OutOfMemory,
        OpenError::Io => ErrorCode::SystemIoFailure,
        OpenError::Full => ErrorCode::DiskFull,
        OpenError::Refused => ErrorCode::DatabaseCorrupt,
    })
}

/// A database that is opened or made in files.
type Made<D> = Result<Connection<FileStore<D>>, Error>;

/// Makes a database without tables in files that hold none.
fn make<D: Disk + Drop>(alloc: Global, files: Files<D>, size: PageSize, options: Options) -> Made<D>
    requires log { IsTrue (D.Disk.is_usable files.log) }
    requires db { IsTrue (D.Disk.is_usable files.db) }
    ensures named { IfErr result (λ e. IsTrue (is_open_error e)) }
    ensures opened { IfOk result (λ c. HasCleanDisk (file_state c) → IsOpened c) }
    ensures empty { IfOk result (λ c. HasCleanDisk (file_state c) → IsEmpty (file_state c).now.trees) }
    ensures fresh { IfOk result IsNew }
    ensures guarded { IfOk result (λ c. HasCleanDisk (file_state c) → (file_state c).IsShielded) }
{
    let Ok(pager) = Pager::new(alloc, files, size, options) else {
        return Err(NO_MEMORY);
    };
    let Ok(files) = Unopened::with_sums(alloc, pager, &[], false) else {
        return Err(NO_MEMORY);
    };
    let store = match files.create() {
        Ok(store) => store,
        Err((error, _files)) => return Err(make_error(error)),
    };
    match Connection::over(alloc, store) {
        Ok(conn) => Ok(conn),
        Err((error, _store)) => Err(error),
    }
}

/// The database that the files hold. Where they hold none, or one that a stop left half made, a new one of small pages.
fn open_files<D: Disk + Drop>(alloc: Global, mut files: Files<D>, options: Options) -> Made<D>
    requires log { IsTrue (D.Disk.is_usable files.log) }
    requires db { IsTrue (D.Disk.is_usable files.db) }
    ensures named { IfErr result (λ e. IsTrue (is_open_error e)) }
    ensures opened { IfOk result (λ c. HasCleanDisk (file_state c) → IsOpened c) }
    ensures fresh { IfOk result IsNew }
    ensures guarded { IfOk result (λ c. HasCleanDisk (file_state c) → (file_state c).IsShielded) }
{
    let size = PageSize::new(PAGE).unwrap();
    if probe_blank(alloc, &mut files, size, false).map_err(read_error)? {
        return make(alloc, files, size, options);
    }
    match Connection::open_files(alloc, files, options) {
        Ok(conn) => Ok(conn),
        Err((error, _left)) => Err(error),
    }
}

/// A database in its file.
pub(crate) type Opened = Connection<FileStore<File>>;

/// Opens the database in a file as [`Connection::open`] does, or makes one there, of pages of 1,024 bytes.
pub(crate) fn open_database(rt: &HostRuntime, path: &str) -> Result<Opened, Error>
    ensures memory { path.now ≡ codes ":memory:" → result ≡ Err (Error.SqliteFailure ErrorCode.CannotOpen) }
    ensures named { IfErr result (λ e. IsTrue (is_open_error e)) }
    ensures opened { IfOk result (λ c. HasCleanDisk (file_state c) → IsOpened c) }
    ensures fresh { IfOk result IsNew }
    ensures guarded { IfOk result (λ c. HasCleanDisk (file_state c) → (file_state c).IsShielded) }
{
    if path == ":memory:" || path.starts_with("file:") {
        return Err(CANNOT_OPEN);
    }
    let files = match sqlite_std_file::open(rt, path, Unknown) {
        Ok(files) => files,
        Err(PathError::OutOfMemory) => return Err(NO_MEMORY),
        Err(PathError::Busy) => return Err(Error::SqliteFailure(ErrorCode::DatabaseBusy)),
        Err(PathError::Io(error)) if error.kind() == ErrorKind::OutOfMemory => {
            return Err(NO_MEMORY);
        }
        Err(_) => return Err(CANNOT_OPEN),
    };
    let keys = RandomState::new(rt).map_err(|_| CANNOT_OPEN)?;
    open_files(rt.alloc(), files, Options::new(keys.hash_one(&0u8)))
}

/// What the system reports of a path.
#[derive(Clone, Copy)]
pub enum Seen {
    /// A regular file of this size.
    File(u64),
    /// Something else of this size.
    Another(u64),
    /// Nothing is there.
    Nothing,
    /// It isn't known.
    Unknown,
}

/// Where a node's store is found, opened and closed.
pub trait Databases {
    // this is seen at this path
    ghost is_seen: { Self → (path : List ℕ) → Seen → Type 0 };

    // the file at this path has this database, within a transaction or not
    ghost holds: { Self → (path : List ℕ) → Database → (within : Bool) → Type 0 };

    // a database was closed in this state
    ghost closed: { Self → State → Type 0 };

    /// What is at a path.
    fn see(&self, path: &str) -> Seen
        ensures { is_seen self.now path.now result };

    /// Opens the database in a file, or makes one there. Nothing was changed over the connection.
    fn open(&self, path: &str) -> Result<Connection<FileStore<File>>, Error>
        ensures held { IfOk result (λ c. holds self.now path.now (file_state c).now (file_state c).in_transaction) }
        ensures new { IfOk result IsNew };

    /// Closes a database.
    fn close(&self, conn: Connection<FileStore<File>>)
        ensures { closed self.now (file_state conn) };
}

impl Databases for HostRuntime {
    // no contract states what is in the file at a path
    ghost is_seen = { λ _ _ _. ⊤ };

    ghost holds = { λ _ _ _ _. ⊤ };

    ghost closed = { λ _ _. ⊤ };

    fn see(&self, path: &str) -> Seen {
        match fs::metadata(self, path) {
            Ok(found) if found.is_file() => Seen::File(found.len()),
            Ok(found) => Seen::Another(found.len()),
            Err(error) if error.kind() == ErrorKind::NotFound => Seen::Nothing,
            Err(_) => Seen::Unknown,
        }
    }

    fn open(&self, path: &str) -> Result<Connection<FileStore<File>>, Error> {
        open_database(self, path)
    }

    fn close(&self, conn: Connection<FileStore<File>>)
        ensures { ⊤ }
    {
        let _closed = conn.close();
    }
}

/// Where a database is opened to be looked at, and left as it is.
pub trait Inspection {
    // none is open, and the last one was left as it was found, unless the disk failed
    ghost is_over: { Self → Type 0 };

    // what an open after a stop could find in the one that is open, when it was opened
    ghost could_leave: { Self → Trees → Type 0 };

    // the file at this path has this database, within a transaction or not
    ghost holds: { Self → (path : List ℕ) → Database → (within : Bool) → Type 0 };

    // the one at this path can't be looked at: a node has it open, or it lacks its log of writes
    ghost is_unseen: { Self → (path : List ℕ) → Type 0 };

    /// Whether the database in a file lacks its log of writes, which an opening makes.
    fn lacks_log(&self, alloc: Global, path: &str) -> Result<bool, AllocError>
        ensures { result ≡ Ok true → is_unseen self.now path.now };

    /// Opens the database in a file. Nothing was changed over the connection.
    fn inspect(&mut self, path: &str) -> Result<Connection<FileStore<File>>, Error>
        ensures found { IfOk result (λ c. (db : Trees) → (file_state c).may_leave db → could_leave self.new db) }
        ensures new { IfOk result IsNew }
        ensures held { IfOk result (λ c.
            holds self.old path.now (file_state c).now (file_state c).in_transaction) }
        ensures busy { result ≡ Err (Error.SqliteFailure ErrorCode.DatabaseBusy) → is_unseen self.old path.now }
        ensures none { IfErr result (λ e. is_over self.old → is_over self.new) };

    /// Closes it without copying its log of writes.
    fn leave(&mut self, conn: Connection<FileStore<File>>)
        ensures { (HasCleanDisk (file_state conn) → (db : Trees) → (file_state conn).may_leave db →
            could_leave self.old db) → is_over self.new };
}

impl Inspection for HostRuntime {
    // no contract states what is in the file at a path
    ghost is_over = { λ _. ⊤ };

    ghost could_leave = { λ _ _. ⊤ };

    ghost holds = { λ _ _ _ _. ⊤ };

    ghost is_unseen = { λ _ _. ⊤ };

    fn lacks_log(&self, alloc: Global, path: &str) -> Result<bool, AllocError> {
        let log = format!(in alloc; "{path}-wal")?;
        Ok(!fs::exists(self, log.as_str()).unwrap_or(false))
    }

    fn inspect(&mut self, path: &str) -> Result<Connection<FileStore<File>>, Error> {
        open_database(&*self, path)
    }

    fn leave(&mut self, conn: Connection<FileStore<File>>)
        ensures { ⊤ }
    {
        drop(conn);
    }
}
