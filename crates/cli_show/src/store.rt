//! What is shown of the record in a database.

ghost use Rattle.std.specs.Prelude.{◌≡◌, ◌<◌, ◌↔◌, Ok, IfOk, IfErr, IsTrue, OnOk};
ghost use Rattle.sqlite.specs.Held.{state};
ghost use Rattle.sqlite.specs.State.{HasCleanDisk};
ghost use Rattle.px_store.specs.Adopting.{Began, IsSame, LeavesOld};
ghost use Rattle.px_store.specs.Judging.{owner_in};
ghost use Rattle.px_store.specs.Tables.{schema_3};
ghost use Rattle.px_store.specs.View.{connection_of};
ghost use Rattle.px_store.specs.declared.formats.Format.TheVariants.{Three};
ghost use Rattle.cli_show.specs.Stores.{identity_of, ShowsStore, LeavesRecord, closed_by};
ghost use Rattle.cli_show.specs.Stores.{IsClosed, IsOwned, IsUnowned};

use crate::showing::show_record;
use crate::shown::{Shown, Wanted};
use px_records::Records;
use px_replica::Membership;
use px_store::{AdoptFault, Format, Identity, SqlRecords, format_in, owner_in};
use sqlite::{Alter, Connection};
use std::alloc::Global;

/// Why nothing is shown of a store.
#[derive(Clone, Copy, PartialEq, Eq)]
pub enum Closed {
    /// Out of memory.
    Memory,
    /// The number of the refusal: 70 where there is no store, or one that is in use or that the system refuses, 73
    /// where it hasn't format 3, 72 for a bad row.
    Refused(u8),
}

/// What the number of a refusal gives; without one it was out of memory.
fn closed_by(code: Option<u8>) -> Closed
    ensures { result ≡ closed_by code }
{
    code.map_or(Closed::Memory, |code| Closed::Refused(code))
}

/// Whose record it is, as the store has it.
fn identity_of(m: Membership) -> Identity
    ensures { result ≡ identity_of m }
{
    Identity {
        cluster: m.cluster(),
        members: m.members(),
        node: m.me(),
    }
}

/// Whether a store has the tables of format 3, and nothing else.
fn is_three<S: Alter>(conn: &Connection<S>) -> bool
    ensures { IsTrue result ↔ ((state S.Store conn.now).now.schema ≡ schema_3) }
{
    matches!(format_in(conn.schema()), Some(Format::Three))
}

/// The member whose store it is: 73 unless it has the tables of format 3, and nothing else, then by [`owner_in`].
fn member_in<S: Alter>(conn: &mut Connection<S>) -> Result<Membership, Closed>
    ensures began { OnOk result (Began Three (state S.Store conn.old)) }
    ensures owner { HasCleanDisk (state S.Store conn.new) → IfOk result (λ m.
        owner_in Three (state S.Store conn.old).now.trees ≡ Ok (identity_of m)) }
    ensures none { HasCleanDisk (state S.Store conn.new) → IfErr result (IsUnowned S.Store conn.old) }
    ensures here { IfOk result (λ m. m.me < m.members) }
    ensures stays { HasCleanDisk (state S.Store conn.new) →
        OnOk result (IsSame (state S.Store conn.old) (state S.Store conn.new)) }
    ensures clean { HasCleanDisk (state S.Store conn.new) → HasCleanDisk (state S.Store conn.old) }
    ensures stop { HasCleanDisk (state S.Store conn.new) →
        LeavesOld (state S.Store conn.old) (state S.Store conn.new) }
{
    if !is_three(conn) {
        return Err(closed_by(AdoptFault::StoreVersion.code()));
    }
    let owner = match owner_in(conn) {
        Ok(owner) => owner,
        Err(fault) => return Err(closed_by(fault.code())),
    };
    let m = Membership::new(owner.cluster, owner.members, owner.node);
    m.ok_or(closed_by(AdoptFault::BadStore.code()))
}

/// What is shown of the record in a store of format 3, and the record, which is as it was: of the configuration after
/// the first learned entries, up to the first gap. Opening such a store writes nothing.
///
/// 73 where it hasn't format 3, 72 for a bad row, 70 where the database refuses, and the connection; a script is shown
/// as refused where there is none.
pub fn show_store<S: Alter + Drop>(
    alloc: Global,
    mut conn: Connection<S>,
    wanted: Wanted<'_>,
) -> Result<(Shown, SqlRecords<S>), (Closed, Connection<S>)>
    ensures shown { IfOk result (λ r. ⟦<SqlRecords<S> as Records>⟧.is_honest r.1 →
        ShowsStore ⟦<SqlRecords<S> as Records>⟧ (state S.Store conn) r.1 wanted.entry r.0) }
    ensures owned { IfOk result (λ r. ⟦<SqlRecords<S> as Records>⟧.is_honest r.1 → IsOwned (state S.Store conn)) }
    ensures closed { IfErr result (λ e. HasCleanDisk (state S.Store e.1) →
        IsClosed ⟦<SqlRecords<S> as Records>⟧ S.Store conn e.0) }
    ensures stop { IfOk result (λ r. ⟦<SqlRecords<S> as Records>⟧.is_honest r.1 →
        LeavesRecord (state S.Store conn) (state S.Store (connection_of r.1))) }
    ensures left { IfErr result (λ e. HasCleanDisk (state S.Store e.1) →
        LeavesRecord (state S.Store conn) (state S.Store e.1)) }
{
    let m = match member_in(&mut conn) {
        Ok(m) => m,
        Err(closed) => return Err((closed, conn)),
    };
    let records = match SqlRecords::reopen(alloc, conn, identity_of(m)) {
        Ok(records) => records,
        Err((fault, conn)) => return Err((closed_by(fault.code()), conn)),
    };
    let (shown, records) = show_record(alloc, m, records, wanted);
    match shown {
        Ok(shown) => Ok((shown, records)),
        Err(fault) => Err((closed_by(fault.code()), records.release())),
    }
}
