//! The numbers that a store of format 3 shows as it is opened.
ghost use Rattle.std.specs.Prelude.{◌≡◌, ◌<◌, ◌≤◌, ◌^◌, ◌⊎◌, Err, IfOk, OnOk, OnErr, true};
ghost use Rattle.std.specs.Prelude.{[], ◌∷◌};
ghost use Rattle.sqlite.specs.Held.{state};
ghost use Rattle.sqlite.specs.State.{HasCleanDisk};
ghost use Rattle.px_store.specs.Tables.{schema_3};
ghost use Rattle.px_store.specs.Seen.{seen, meta_columns, meta_row, floor_columns, is_none_or_ballot};
ghost use Rattle.px_store.specs.inner.Seen.{floor_rows};
ghost use Rattle.px_store.specs.inner.Effect.{IsStill};
ghost use Rattle.px_store.specs.Adopting.{LeavesOld};
ghost use Rattle.px_store.specs.Adopting.{Began};
ghost use Rattle.px_store.specs.inner.Ready.{IsReady, AreBounded};
ghost use Rattle.px_store.specs.declared.reading.TheConstants.{NUMBERS};

use crate::calls::{Identity, Question};
use crate::fault::{Adopt, AdoptFault};
use crate::finding::{look, rows_in};
use crate::formats::Format;
use crate::reading::{Found, ReadFault, floor_in_rows, meta_in_rows};
use px_model::Meta;
use sqlite::{Alter, Connection};

fn meta_of<S: Alter>(conn: &mut Connection<S>, identity: Identity) -> Adopt<Found>
    ensures why { OnErr result ((result ≡ Err AdoptFault.Memory) ⊎ (result ≡ Err AdoptFault.Failed)) }
    ensures rows { HasCleanDisk (state S.Store conn.new) → Began Format.Three (state S.Store conn.old) →
        IfOk result (λ m. seen meta_columns
        ((state S.Store conn.old).now.trees 0) 1 ≡ meta_row 3 identity.cluster identity.members identity.node m.round
        m.number ∷ []) }
    ensures still { HasCleanDisk (state S.Store conn.new) → Began Format.Three (state S.Store conn.old) →
        OnOk result (IsStill (state S.Store conn.old) (state S.Store conn.new)) }
    ensures round { IfOk result (λ m. m.round < NUMBERS) }
    ensures number { IfOk result (λ m. m.number ≤ NUMBERS) }
    ensures clean { HasCleanDisk (state S.Store conn.new) → HasCleanDisk (state S.Store conn.old) }
    ensures crash { HasCleanDisk (state S.Store conn.new) → Began Format.Three (state S.Store conn.old) →
        LeavesOld (state S.Store conn.old) (state S.Store conn.new) }
{
    let rows = look(conn, Format::Three, Question::Meta)?;
    match meta_in_rows(rows_in(&rows), identity) {
        Ok(numbers) => Ok(numbers),
        Err(ReadFault::Memory) => Err(AdoptFault::Memory),
        Err(ReadFault::Bad) => Err(AdoptFault::Failed),
    }
}

fn ballot_of<S: Alter>(conn: &mut Connection<S>, members: u8) -> Result<u64, AdoptFault>
    ensures why { OnErr result ((result ≡ Err AdoptFault.Memory) ⊎ (result ≡ Err AdoptFault.Failed)) }
    ensures fits { IfOk result (λ b. is_none_or_ballot members b ≡ true) }
    ensures rows { HasCleanDisk (state S.Store conn.new) → Began Format.Three (state S.Store conn.old) →
        IfOk result (λ b. seen floor_columns ((state S.Store conn.old).now.trees 2) 1 ≡ floor_rows b) }
    ensures still { HasCleanDisk (state S.Store conn.new) → Began Format.Three (state S.Store conn.old) →
        OnOk result (IsStill (state S.Store conn.old) (state S.Store conn.new)) }
    ensures clean { HasCleanDisk (state S.Store conn.new) → HasCleanDisk (state S.Store conn.old) }
    ensures crash { HasCleanDisk (state S.Store conn.new) → Began Format.Three (state S.Store conn.old) →
        LeavesOld (state S.Store conn.old) (state S.Store conn.new) }
{
    let rows = look(conn, Format::Three, Question::Floor)?;
    match floor_in_rows(rows_in(&rows), members) {
        Ok(ballot) => Ok(ballot),
        Err(ReadFault::Memory) => Err(AdoptFault::Memory),
        Err(ReadFault::Bad) => Err(AdoptFault::Failed),
    }
}

/// Reads the rows for the whole node, of a store with the four tables.
pub(crate) fn read_again<S: Alter>(conn: &mut Connection<S>, identity: Identity) -> Adopt<Meta>
    requires tables { HasCleanDisk (state S.Store conn.old) → (state S.Store conn.old).now.schema ≡ schema_3 }
    ensures why { OnErr result ((result ≡ Err AdoptFault.Memory) ⊎ (result ≡ Err AdoptFault.Failed)) }
    ensures ready { IfOk result (λ m. IsReady 0 identity m (state S.Store conn.new)) }
    ensures bounds { IfOk result (λ m. AreBounded identity m) }
    ensures clean { HasCleanDisk (state S.Store conn.new) → HasCleanDisk (state S.Store conn.old) }
    ensures stays { HasCleanDisk (state S.Store conn.new) →
        OnOk result ((state S.Store conn.new).committed ≡ (state S.Store conn.old).now) }
    ensures left { HasCleanDisk (state S.Store conn.new) →
        LeavesOld (state S.Store conn.old) (state S.Store conn.new) }
{
    if !conn.is_autocommit() {
        return Err(AdoptFault::Failed);
    }
    let numbers = meta_of(conn, identity)?;
    let floor = ballot_of(conn, identity.members)?;
    Ok(Meta {
        round: numbers.round,
        number: numbers.number,
        floor,
    })
}
