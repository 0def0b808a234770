//! Taking a store: what it holds is judged, and brought to format 3.
ghost use Rattle.std.specs.Prelude.{◌≡◌, ◌⊎◌, false, OnOk, Err, IfErr, Some, None};
ghost use Rattle.sqlite.specs.Held.{state};
ghost use Rattle.sqlite.specs.State.{HasCleanDisk};
ghost use Rattle.px_model.specs.World.{nothing_stored};
ghost use Rattle.px_store.specs.Tables.{no_schema, schema_3};
ghost use Rattle.px_store.specs.Adopting.{LeavesOld};
ghost use Rattle.px_store.specs.Formats.{record_at};
ghost use Rattle.px_store.specs.Adopting.{Began, IsKnown, IsVerdict, IsSame};
ghost use Rattle.px_store.specs.inner.Adopting.{IsRefused, Shows};
ghost use Rattle.px_store.specs.Adopting.{IsMade, IsBrought, LeavesOr};
ghost use Rattle.px_store.specs.Judging.{refusal, IsOwn};

use crate::calls::{Identity, Trouble, cause_of};
use crate::fault::{Adopt, AdoptFault};
use crate::finding::{format_at, judge, read_store};
use crate::formats::Format;
use crate::making::{make_anew, make_rest};
use crate::tables::has_none;
use sqlite::{Alter, Connection, Error};

fn fault_of<S: Alter>(conn: &mut Connection<S>, error: Error) -> AdoptFault
    ensures why { (result ≡ AdoptFault.Memory) ⊎ (result ≡ AdoptFault.Failed) }
    ensures clean { HasCleanDisk (state S.Store conn.new) → HasCleanDisk (state S.Store conn.old) }
    ensures crash { HasCleanDisk (state S.Store conn.new) →
        LeavesOld (state S.Store conn.old) (state S.Store conn.new) }
{
    match cause_of(conn, error) {
        Trouble::Memory => AdoptFault::Memory,
        Trouble::Failed => AdoptFault::Failed,
    }
}

/// A store without tables.
fn bring_none<S: Alter>(conn: &mut Connection<S>, identity: Identity) -> Result<(), AdoptFault>
    ensures clean { HasCleanDisk (state S.Store conn.new) → HasCleanDisk (state S.Store conn.old) }
    ensures made { HasCleanDisk (state S.Store conn.new) → (state S.Store conn.old).now.schema ≡ no_schema →
        (state S.Store conn.old).in_transaction ≡ false → OnOk result (Shows nothing_stored
        (state S.Store conn.new)) }
    ensures stop { HasCleanDisk (state S.Store conn.new) → (state S.Store conn.old).now.schema ≡ no_schema →
        (state S.Store conn.old).in_transaction ≡ false →
        LeavesOr (IsMade identity) (state S.Store conn.old) (state S.Store conn.new) }
    ensures never { IfErr result (λ e. IsVerdict e → ⊥) }
{
    if !conn.is_autocommit() {
        return Err(AdoptFault::Failed);
    }
    match make_anew(conn, identity) {
        Ok(()) => Ok(()),
        Err(error) => Err(fault_of(conn, error)),
    }
}

/// A store of a format is brought to format 3, or gets the row for the whole node if it lacks that alone.
fn bring_at<S: Alter>(conn: &mut Connection<S>, identity: Identity, format: Format) -> Adopt<()>
    ensures refused { HasCleanDisk (state S.Store conn.new) → Began format (state S.Store conn.old) →
        IsRefused result → IsSame (state S.Store conn.old) (state S.Store conn.new) }
    ensures clean { HasCleanDisk (state S.Store conn.new) → HasCleanDisk (state S.Store conn.old) }
    ensures made { HasCleanDisk (state S.Store conn.new) → Began format (state S.Store conn.old) →
        OnOk result (Shows (record_at format (state S.Store conn.old).now.trees) (state S.Store conn.new)) }
    ensures stop { HasCleanDisk (state S.Store conn.new) → Began format (state S.Store conn.old) →
        LeavesOr (IsBrought format identity (state S.Store conn.old).now.trees) (state S.Store conn.old)
        (state S.Store conn.new) }
    ensures adopted { HasCleanDisk (state S.Store conn.new) → Began format (state S.Store conn.old) →
        OnOk result (refusal format identity (state S.Store conn.old).now.trees ≡ None) }
    ensures judged { HasCleanDisk (state S.Store conn.new) → Began format (state S.Store conn.old) →
        IfErr result (λ e. IsVerdict e → refusal format identity (state S.Store conn.old).now.trees ≡ Some e) }
{
    let read = read_store(conn, format)?;
    let found = judge(&read, format.number(), identity)?;
    if found.has_row && format.has_table(3) {
        return Ok(());
    }
    if !conn.is_autocommit() {
        return Err(AdoptFault::Failed);
    }
    match make_rest(conn, identity, format, found.round, found.number) {
        Ok(()) => Ok(()),
        Err(error) => Err(fault_of(conn, error)),
    }
}

/// Brings a store to format 3, where it is this node's. A store that is refused with 71, 72 or 73 isn't written to.
pub(crate) fn bring<S: Alter>(conn: &mut Connection<S>, identity: Identity) -> Adopt<()>
    ensures refused { HasCleanDisk (state S.Store conn.new) → IsRefused result →
        IsSame (state S.Store conn.old) (state S.Store conn.new) }
    ensures clean { HasCleanDisk (state S.Store conn.new) → HasCleanDisk (state S.Store conn.old) }
    ensures known { OnOk result (IsKnown (state S.Store conn.old).now.schema ×
        ((state S.Store conn.old).in_transaction ≡ false)) }
    ensures unknown { (IsKnown (state S.Store conn.old).now.schema → ⊥) →
        (state S.Store conn.old).in_transaction ≡ false →
        (result ≡ Err AdoptFault.StoreVersion) × (conn.new ≡ conn.old) }
    ensures tables { HasCleanDisk (state S.Store conn.new) →
        OnOk result ((state S.Store conn.new).now.schema ≡ schema_3) }
    ensures unfound { HasCleanDisk (state S.Store conn.new) → IsOwn identity (state S.Store conn.old).now.trees →
        IfErr result (λ e. IsVerdict e → e ≡ AdoptFault.StoreVersion) }
    ensures empty { HasCleanDisk (state S.Store conn.new) → (state S.Store conn.old).now.schema ≡ no_schema →
        (state S.Store conn.old).in_transaction ≡ false → OnOk result (Shows nothing_stored
        (state S.Store conn.new)) }
    ensures made { HasCleanDisk (state S.Store conn.new) → (f : Format) → Began f (state S.Store conn.old) →
        OnOk result (Shows (record_at f (state S.Store conn.old).now.trees) (state S.Store conn.new)) }
    ensures stop_empty { HasCleanDisk (state S.Store conn.new) → (state S.Store conn.old).now.schema ≡ no_schema →
        (state S.Store conn.old).in_transaction ≡ false →
        LeavesOr (IsMade identity) (state S.Store conn.old) (state S.Store conn.new) }
    ensures stop { HasCleanDisk (state S.Store conn.new) → (f : Format) → Began f (state S.Store conn.old) →
        LeavesOr (IsBrought f identity (state S.Store conn.old).now.trees) (state S.Store conn.old)
        (state S.Store conn.new) }
    ensures never { (state S.Store conn.old).now.schema ≡ no_schema → IfErr result (λ e. IsVerdict e → ⊥) }
    ensures adopted { HasCleanDisk (state S.Store conn.new) → (f : Format) → Began f (state S.Store conn.old) →
        OnOk result (refusal f identity (state S.Store conn.old).now.trees ≡ None) }
    ensures judged { HasCleanDisk (state S.Store conn.new) → (f : Format) → Began f (state S.Store conn.old) →
        IfErr result (λ e. IsVerdict e → refusal f identity (state S.Store conn.old).now.trees ≡ Some e) }
{
    if !conn.is_autocommit() {
        return Err(AdoptFault::Failed);
    }
    if has_none(conn.schema()) {
        return bring_none(conn, identity);
    }
    let format = format_at(conn)?;
    bring_at(conn, identity, format)
}
