//! A node's store: opened where it is, and made where it may be.

ghost use Rattle.std.specs.Prelude.{◌≡◌, ◌≢◌, ◌⊎◌, None, Err, IfOk, IfSome, IfErr, OnErr, is_some, true, false};
ghost use Rattle.sqlite.specs.Held.{state};
ghost use Rattle.sqlite.specs.State.{HasCleanDisk};
ghost use Rattle.px_store.specs.Tables.{no_schema};
ghost use Rattle.px_store.specs.Formats.{record_at};
ghost use Rattle.px_store.specs.Adopting.{Began, IsBrought, IsMade, IsVerdict, IsSame, LeavesOr};
ghost use Rattle.px_store.specs.View.{connection_after, connection_of, IsOpened};
ghost use Rattle.cli_node.specs.declared.outcome.Outcome.TheVariants.{Memory, Refused};
ghost use Rattle.cli_io.specs.declared.numbers.TheConstants.{FILE_EXISTS, NO_STORE};
ghost use Rattle.cli_node.specs.Endings.{is_beyond};
ghost use Rattle.cli_node.specs.Stores.{identity_at, IsKeptIn, IsOpening, IsRefusal, IsStoreless, IsUnmade};
ghost use Rattle.cli_node.specs.Stores.{MayRun, is_made, refusal_at};
ghost use Rattle.cli_node.specs.Stores.{IsFoundAt, IsNone, found_by};

use crate::database::{Databases, Opened, Seen};
use crate::faults::{log_closed, log_judged, log_storeless, why_closed};
use crate::node::{MemberStart, NodeStart};
use crate::outcome::{Outcome, numbered};
use crate::sockets::try_sockets;
use cli_io::{FILE_EXISTS, NO_STORE, STORE_FAILED, make_private};
use node_loop::Membership;
use px_records::Records;
use px_store::{AdoptFault, Format, Identity, SqlRecords};
use sqlite::{Alter, Connection, Error, ErrorCode, File, FileStore};
use sqlite_trees::store::Store;
use std::alloc::Global;
use std::fs::Files;
use std::io::Eprint;

/// What is found at the path of a store.
#[derive(Clone, Copy)]
pub(crate) enum Found {
    /// Nothing.
    Nothing,
    /// A file without a byte, and without a log of writes.
    Empty,
    /// A file with bytes.
    Store,
    /// What is no file, or isn't known.
    Other,
}

/// What becomes of it.
#[derive(Clone, Copy)]
pub(crate) enum Opening {
    /// The store is opened.
    Opens,
    /// A store is made, of nothing or of a file without a byte.
    Makes,
    /// The number of the refusal.
    Refuses(u8),
}

/// What becomes of what is there. Where settings come from a file a store is made with `--new` alone (93), which
/// wants none there (94).
#[tactic(auto, using(crate::proofs::Stores::is_opening))]
pub(crate) fn opening_of(is_from_file: bool, is_new: bool, found: Found) -> Opening
    ensures { IsOpening is_from_file is_new found result }
{
    match found {
        Found::Nothing | Found::Empty if is_new || !is_from_file => Opening::Makes,
        Found::Nothing | Found::Empty => Opening::Refuses(NO_STORE),
        Found::Store if is_new => Opening::Refuses(FILE_EXISTS),
        Found::Store => Opening::Opens,
        Found::Other => Opening::Refuses(STORE_FAILED),
    }
}

/// What is found of a store, by what is seen of its file and of its log of writes.
fn found_by(file: Seen, log: Seen) -> Found
    ensures { result ≡ found_by file log }
{
    match (file, log) {
        (Seen::File(0), Seen::File(0) | Seen::Another(0)) => Found::Empty,
        (Seen::File(0), Seen::Nothing | Seen::Unknown) => Found::Empty,
        (Seen::File(_), _) => Found::Store,
        (Seen::Nothing, _) => Found::Nothing,
        (Seen::Another(_) | Seen::Unknown, _) => Found::Other,
    }
}

impl<F, D: Databases> NodeStart<'_, F, D> {
    /// What is found where the arguments name a store; none when out of memory.
    pub(crate) fn found_store(&self) -> Option<Found>
        ensures { IfSome result (IsFoundAt (D.is_seen self.now.dbs.now) self.now.arguments.store.now) }
    {
        let store = self.arguments.store;
        let log = format!(in self.rt.alloc(); "{store}-wal").ok()?;
        let file = self.dbs.see(store);
        Some(found_by(file, self.dbs.see(log.as_str())))
    }
}

/// Whom the store of a member belongs to.
pub(crate) fn identity_of(m: Membership) -> Identity
    ensures { result ≡ identity_at m }
{
    Identity {
        cluster: m.cluster(),
        members: m.members(),
        node: m.me(),
    }
}

/// The outcome of a database that the system or its own code doesn't open or read; why is logged on standard error.
pub(crate) fn failed_outcome<RT: Files + Eprint>(rt: &RT, path: &str, error: Error) -> Outcome
    ensures { (result ≡ Memory) ⊎ (result ≡ Refused 70) }
{
    if matches!(error, Error::SqliteFailure(ErrorCode::OutOfMemory)) {
        return Outcome::Memory;
    }
    log_closed(rt, path, &error);
    Outcome::Refused(STORE_FAILED)
}

/// Whether a start makes a store there, of nothing or of a file without a byte.
pub(crate) fn is_made(is_from_file: bool, is_new: bool, found: Found) -> bool
    ensures { result ≡ is_made is_from_file is_new found }
{
    matches!(found, Found::Nothing | Found::Empty) && (is_new || !is_from_file)
}

/// The record in a database: a store that was there before the start has its tables.
fn record_in<S: Alter>(
    alloc: Global,
    conn: Connection<S>,
    identity: Identity,
    found: Found,
) -> Result<SqlRecords<S>, (AdoptFault, Connection<S>)>
    ensures members { IfOk result (λ r. ⟦<SqlRecords<S> as Records>⟧.members r ≡ identity.members) }
    ensures begins { IfOk result (λ r. ⟦<SqlRecords<S> as Records>⟧.failed r ≡ 0) }
    ensures lost { found ≡ Found.Store → (state S.Store conn).now.schema ≡ no_schema →
        (state S.Store conn).in_transaction ≡ false → result ≡ Err (AdoptFault.StoreVersion, conn) }
    ensures rows { IfOk result (λ r. HasCleanDisk (state S.Store (connection_of r)) → (f : Format) →
        Began f (state S.Store conn) → IsOpened S.Store r (record_at f (state S.Store conn).now.trees)) }
    ensures owned { IfOk result (λ r. HasCleanDisk (state S.Store (connection_of r)) → (f : Format) →
        Began f (state S.Store conn) → refusal_at found f identity (state S.Store conn).now.trees ≡ None) }
    ensures made { HasCleanDisk (state S.Store (connection_after result)) →
        (state S.Store conn).now.schema ≡ no_schema → (state S.Store conn).in_transaction ≡ false →
        LeavesOr (IsMade identity) (state S.Store conn) (state S.Store (connection_after result)) }
    ensures brought { HasCleanDisk (state S.Store (connection_after result)) → (f : Format) →
        Began f (state S.Store conn) → LeavesOr (IsBrought f identity (state S.Store conn).now.trees)
        (state S.Store conn) (state S.Store (connection_after result)) }
    ensures as_it_was { IfErr result (λ e. HasCleanDisk (state S.Store e.1) → IsVerdict e.0 →
        IsSame (state S.Store conn) (state S.Store e.1)) }
{
    match found {
        Found::Store => SqlRecords::reopen(alloc, conn, identity),
        Found::Nothing | Found::Empty | Found::Other => SqlRecords::adopt(alloc, conn, identity),
    }
}

/// The record of a member in its file.
pub(crate) type Kept = SqlRecords<FileStore<File>>;

impl<F, D: Databases> MemberStart<'_, F, D> {
    /// The database in the store's file.
    fn open_file(&self) -> Result<Opened, Outcome>
        ensures refused { OnErr result ((result ≡ Err Memory) ⊎ (result ≡ Err (Refused 70))) }
        ensures held { IfOk result (λ c.
            D.holds self.now.start.dbs.now self.now.start.arguments.store.now
            (state ⟦<FileStore<File> as Store>⟧ c).now (state ⟦<FileStore<File> as Store>⟧ c).in_transaction) }
    {
        let store = self.start.arguments.store;
        let opened = self.start.dbs.open(store);
        opened.map_err(|error| failed_outcome(self.start.rt, store, error))
    }

    /// The database of a store that is made. Its file is made first (70), which its owner alone may read; an empty one
    /// that is there must be one that can be read and written. Then its node's sockets are tried (82, 84): a refusal
    /// leaves a file without a byte, which is no store.
    fn make_store(&self) -> Result<Opened, Outcome>
        ensures refused { IfErr result IsUnmade }
        ensures beyond { IfErr result (λ o. is_beyond false (is_some self.now.start.arguments.control) o ≡ false) }
        ensures held { IfOk result (λ c.
            D.holds self.now.start.dbs.now self.now.start.arguments.store.now
            (state ⟦<FileStore<File> as Store>⟧ c).now (state ⟦<FileStore<File> as Store>⟧ c).in_transaction) }
    {
        let rt = self.start.rt;
        let path = self.start.arguments.store;
        let made = match self.found {
            Found::Nothing => make_private(rt, path).map(drop),
            Found::Empty | Found::Store | Found::Other => why_closed(rt, path),
        };
        if let Err(error) = made {
            log_closed(rt, path, &error);
            return Err(Outcome::Refused(STORE_FAILED));
        }
        try_sockets(rt, self.start.arguments)?;
        self.open_file()
    }

    /// The database where a store is named, by what becomes of what is there.
    #[tactic(auto, using(crate::proofs::Stores::by_opening, crate::proofs::Stores::by_file, crate::proofs::Stores::by_making, crate::proofs::Stores::none_opened, crate::proofs::Stores::none_made, crate::proofs::Stores::none_at, crate::proofs::Stores::may_open, crate::proofs::Stores::may_make))]
    fn open_store(&self) -> Result<Opened, Outcome>
        ensures refused { IfErr result
            (IsStoreless self.now.start.arguments.is_from_file self.now.start.arguments.is_new) }
        ensures kind { IfErr result IsRefusal }
        ensures at { IfOk result (λ c.
            D.holds self.now.start.dbs.now self.now.start.arguments.store.now
            (state ⟦<FileStore<File> as Store>⟧ c).now (state ⟦<FileStore<File> as Store>⟧ c).in_transaction) }
        ensures lost { self.now.start.arguments.is_from_file ≡ true → self.now.start.arguments.is_new ≡ false →
            (self.now.found ≡ Found.Nothing) ⊎ (self.now.found ≡ Found.Empty) → result ≡ Err (Refused NO_STORE) }
        ensures may { IfOk result (λ c.
            MayRun self.now.start.arguments.is_from_file self.now.start.arguments.is_new self.now.found) }
        ensures held { self.now.start.arguments.is_new ≡ true → self.now.found ≡ Found.Store →
            result ≡ Err (Refused FILE_EXISTS) }
        ensures none { result ≡ Err (Refused NO_STORE) → IsNone self.now.found }
        ensures unfailed { OnErr result (result ≢ Err (Refused 80)) }
        ensures beyond { IfErr result (λ o. is_beyond false (is_some self.now.start.arguments.control) o ≡ false) }
    {
        let arguments = self.start.arguments;
        match opening_of(arguments.is_from_file, arguments.is_new, self.found) {
            Opening::Opens => self.open_file(),
            Opening::Makes => self.make_store(),
            Opening::Refuses(code) => {
                log_storeless(self.start.rt, arguments.store, code);
                Err(Outcome::Refused(code))
            }
        }
    }

    /// The record of a member in the store that its arguments name, where that was found: 93, 94, 70, 73, 72 and 71, in
    /// this order; where it is made 70, 82 and 84.
    pub(crate) fn opened_record(&self) -> Result<Kept, Outcome>
        ensures members { IfOk result (λ r.
            ⟦<SqlRecords<FileStore<File>> as Records>⟧.members r ≡ self.now.m.members) }
        ensures begins { IfOk result (λ r. ⟦<SqlRecords<FileStore<File>> as Records>⟧.failed r ≡ 0) }
        ensures rows { IfOk result (IsKeptIn ⟦<FileStore<File> as Store>⟧
            (D.holds self.now.start.dbs.now self.now.start.arguments.store.now) self.now.found
            (identity_at self.now.m)) }
        ensures may { IfOk result (λ r.
            MayRun self.now.start.arguments.is_from_file self.now.start.arguments.is_new self.now.found) }
        ensures refused { IfErr result
            (IsStoreless self.now.start.arguments.is_from_file self.now.start.arguments.is_new) }
        ensures kind { IfErr result IsRefusal }
        ensures none { result ≡ Err (Refused NO_STORE) → IsNone self.now.found }
        ensures unfailed { OnErr result (result ≢ Err (Refused 80)) }
        ensures beyond { IfErr result (λ o. is_beyond false (is_some self.now.start.arguments.control) o ≡ false) }
    {
        let rt = self.start.rt;
        let store = self.start.arguments.store;
        let conn = self.open_store()?;
        match record_in(rt.alloc(), conn, identity_of(self.m), self.found) {
            Ok(records) => Ok(records),
            Err((fault, mut conn)) => {
                log_judged(rt, store, self.m, fault, &mut conn);
                Err(numbered(fault.code()))
            }
        }
    }
}
