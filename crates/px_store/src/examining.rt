//! What a node would be refused for of a store, which is looked at and not changed.
ghost use Rattle.std.specs.Prelude.{◌≡◌, false, true, OnOk, IfOk, Ok, Err, IfErr, Some, None};
ghost use Rattle.sqlite.specs.Held.{state};
ghost use Rattle.sqlite.specs.State.{HasCleanDisk};
ghost use Rattle.px_store.specs.Formats.{schema_at};
ghost use Rattle.px_store.specs.Adopting.{Began, IsUnread, IsVerdict, IsSame, LeavesOld};
ghost use Rattle.px_store.specs.Judging.{refusal, reopen_refusal, owner_in, is_member_of};

use crate::calls::{Identity, Question};
use crate::fault::{Adopt, AdoptFault};
use crate::finding::{format_at, judge, look, owner_in_rows, read_store, refuse_lost, rows_in};
use crate::formats::Format;
use sqlite::{Alter, Connection};

/// A store that has the tables of a format.
fn examine_at<S: Alter>(conn: &mut Connection<S>, identity: Identity, format: Format) -> Adopt<()>
    ensures stays { HasCleanDisk (state S.Store conn.new) → Began format (state S.Store conn.old) →
        OnOk result (IsSame (state S.Store conn.old) (state S.Store conn.new)) }
    ensures as_it_was { HasCleanDisk (state S.Store conn.new) → Began format (state S.Store conn.old) →
        IfErr result (λ e. IsVerdict e → IsSame (state S.Store conn.old) (state S.Store conn.new)) }
    ensures clean { HasCleanDisk (state S.Store conn.new) → HasCleanDisk (state S.Store conn.old) }
    ensures stop { HasCleanDisk (state S.Store conn.new) → Began format (state S.Store conn.old) →
        LeavesOld (state S.Store conn.old) (state S.Store conn.new) }
    ensures adopted { HasCleanDisk (state S.Store conn.new) → Began format (state S.Store conn.old) →
        OnOk result (refusal format identity (state S.Store conn.old).now.trees ≡ None) }
    ensures judged { HasCleanDisk (state S.Store conn.new) → Began format (state S.Store conn.old) →
        IfErr result (λ e. IsVerdict e → refusal format identity (state S.Store conn.old).now.trees ≡ Some e) }
{
    let read = read_store(conn, format)?;
    let _found = judge(&read, format.number(), identity)?;
    Ok(())
}

/// What [`SqlRecords::reopen`](crate::SqlRecords::reopen) would refuse of a store, by its rows: 73, 72 and 71, in this
/// order. Nothing is changed.
pub fn examine<S: Alter>(conn: &mut Connection<S>, identity: Identity) -> Result<(), AdoptFault>
    ensures known { OnOk result ((f : Format) × Began f (state S.Store conn.old)) }
    ensures unknown { (state S.Store conn.old).in_transaction ≡ false →
        ((f : Format) → (state S.Store conn.old).now.schema ≡ schema_at f → ⊥) →
        (result ≡ Err AdoptFault.StoreVersion) × (conn.new ≡ conn.old) }
    ensures stays { HasCleanDisk (state S.Store conn.new) →
        OnOk result (IsSame (state S.Store conn.old) (state S.Store conn.new)) }
    ensures as_it_was { HasCleanDisk (state S.Store conn.new) →
        IfErr result (λ e. IsVerdict e → IsSame (state S.Store conn.old) (state S.Store conn.new)) }
    ensures clean { HasCleanDisk (state S.Store conn.new) → HasCleanDisk (state S.Store conn.old) }
    ensures stop { HasCleanDisk (state S.Store conn.new) →
        LeavesOld (state S.Store conn.old) (state S.Store conn.new) }
    ensures adopted { HasCleanDisk (state S.Store conn.new) → (f : Format) → Began f (state S.Store conn.old) →
        OnOk result (reopen_refusal f identity (state S.Store conn.old).now.trees ≡ None) }
    ensures judged { HasCleanDisk (state S.Store conn.new) → (f : Format) → Began f (state S.Store conn.old) →
        IfErr result (λ e. IsVerdict e → reopen_refusal f identity (state S.Store conn.old).now.trees ≡ Some e) }
{
    let format = refuse_lost(conn)?;
    examine_at(conn, identity, format)
}

/// Whose a store is, by its row for the whole node. 70 in a transaction, or where the database doesn't answer; 73 where
/// the tables aren't exactly those of a format, or the row has another format; 72 where the row is missing, or bad.
/// Nothing is changed.
pub fn owner_in<S: Alter>(conn: &mut Connection<S>) -> Result<Identity, AdoptFault>
    ensures known { OnOk result ((f : Format) × Began f (state S.Store conn.old)) }
    ensures unknown { (state S.Store conn.old).in_transaction ≡ false →
        ((f : Format) → (state S.Store conn.old).now.schema ≡ schema_at f → ⊥) →
        (result ≡ Err AdoptFault.StoreVersion) × (conn.new ≡ conn.old) }
    ensures owner { HasCleanDisk (state S.Store conn.new) → (f : Format) → Began f (state S.Store conn.old) →
        IfOk result (λ owner. owner_in f (state S.Store conn.old).now.trees ≡ Ok owner) }
    ensures refused { HasCleanDisk (state S.Store conn.new) → (f : Format) → Began f (state S.Store conn.old) →
        IfErr result (λ e. IsVerdict e → owner_in f (state S.Store conn.old).now.trees ≡ Err e) }
    ensures unread { HasCleanDisk (state S.Store conn.new) → (state S.Store conn.old).in_transaction ≡ false →
        result ≡ Err AdoptFault.Failed → IsUnread S.Store conn.old }
    ensures within { IfOk result (λ owner. is_member_of owner.cluster owner.members owner.node ≡ true) }
    ensures stays { HasCleanDisk (state S.Store conn.new) →
        OnOk result (IsSame (state S.Store conn.old) (state S.Store conn.new)) }
    ensures as_it_was { HasCleanDisk (state S.Store conn.new) →
        IfErr result (λ e. IsVerdict e → IsSame (state S.Store conn.old) (state S.Store conn.new)) }
    ensures clean { HasCleanDisk (state S.Store conn.new) → HasCleanDisk (state S.Store conn.old) }
    ensures stop { HasCleanDisk (state S.Store conn.new) →
        LeavesOld (state S.Store conn.old) (state S.Store conn.new) }
{
    let format = format_at(conn)?;
    let rows = look(conn, format, Question::Meta)?;
    owner_in_rows(rows_in(&rows), format.number())
}
