//! What a store holds as it is found.
ghost use Rattle.std.specs.Prelude.{◌≡◌, ◌≢◌, ◌<◌, ◌≤◌, ◌^◌, ℕ, false, [], ◌∷◌, length};
ghost use Rattle.std.specs.Prelude.{◌⊎◌, IfOk, OnOk, OnErr, IfErr, Ok, Err, Some, None, true, ◌&&◌, ◌||◌};
ghost use Rattle.sqlite.specs.Held.{state};
ghost use Rattle.sqlite.specs.State.{HasCleanDisk};
ghost use Rattle.sqlite_value.specs.Order.{column};
ghost use Rattle.px_store.specs.Seen.{seen, meta_columns, floor_columns, number_at, number_in};
ghost use Rattle.px_store.specs.inner.Effect.{IsAlike, IsStill};
ghost use Rattle.px_store.specs.Adopting.{LeavesOld};
ghost use Rattle.px_store.specs.Formats.{schema_at, trees_at, has_table};
ghost use Rattle.px_store.specs.Adopting.{Began, IsSame, IsVerdict};
ghost use Rattle.px_store.specs.Judging.{has_rows, has_format, names_member, has_numbers, is_member_of};
ghost use Rattle.px_store.specs.inner.Adopting.{IsRefused};
ghost use Rattle.px_store.specs.inner.Judging.{rows_in};
ghost use Rattle.px_store.specs.Judging.{is_owner, owner_in_rows, row_refusal, refusal_of};
ghost use Rattle.px_store.specs.inner.Questions.{Answers, IsUnanswered, table_of};
ghost use Rattle.px_store.specs.declared.reading.TheConstants.{NUMBERS};

use crate::calls::{Identity, Question, Trouble, get};
use crate::fault::{Adopt, AdoptFault};
use crate::formats::Format;
use crate::reading::{Found, ReadFault, floor_in_rows, found_in_row, number};
use crate::tables::format_in;
use sqlite::{Alter, Connection, Row};

/// The rows that answer a question, where the format has its table.
pub(crate) fn look<S: Alter>(
    conn: &mut Connection<S>,
    format: Format,
    question: Question,
) -> Result<Option<Vec<Row>>, AdoptFault>
    ensures why { OnErr result ((result ≡ Err AdoptFault.Memory) ⊎ (result ≡ Err AdoptFault.Failed)) }
    ensures unanswered { HasCleanDisk (state S.Store conn.new) →
        OnErr result (IsUnanswered S.Store question conn.old) }
    ensures rows { HasCleanDisk (state S.Store conn.new) → Began format (state S.Store conn.old) →
        IfOk result (λ rows. Answers question (trees_at format (state S.Store conn.old).now.trees) (rows_in rows)) }
    ensures clean { HasCleanDisk (state S.Store conn.new) → HasCleanDisk (state S.Store conn.old) }
    ensures stays { HasCleanDisk (state S.Store conn.new) → Began format (state S.Store conn.old) →
        OnOk result (IsSame (state S.Store conn.old) (state S.Store conn.new)) }
    ensures still { HasCleanDisk (state S.Store conn.new) → Began format (state S.Store conn.old) →
        has_table (table_of question) format ≡ true →
        OnOk result (IsStill (state S.Store conn.old) (state S.Store conn.new)) }
    ensures crash { HasCleanDisk (state S.Store conn.new) → Began format (state S.Store conn.old) →
        LeavesOld (state S.Store conn.old) (state S.Store conn.new) }
{
    if !format.has_table(question.table()) {
        return Ok(None);
    }
    match get(conn, question) {
        Ok(rows) => Ok(Some(rows)),
        Err(Trouble::Memory) => Err(AdoptFault::Memory),
        Err(Trouble::Failed) => Err(AdoptFault::Failed),
    }
}

/// The format of a store: 70 in a transaction, 73 where the tables aren't exactly those of a format.
pub(crate) fn format_at<S: Alter>(conn: &Connection<S>) -> Adopt<Format>
    ensures known { IfOk result (λ f. Began f (state S.Store conn.now)) }
    ensures one { (f : Format) → Began f (state S.Store conn.now) → IfOk result (λ format. format ≡ f) }
    ensures unknown { (state S.Store conn.now).in_transaction ≡ false →
        ((f : Format) → (state S.Store conn.now).now.schema ≡ schema_at f → ⊥) → result ≡ Err AdoptFault.StoreVersion }
    ensures settled { IsRefused result → (state S.Store conn.now).in_transaction ≡ false }
    ensures none { IsRefused result → (f : Format) → Began f (state S.Store conn.now) → ⊥ }
    ensures why { OnErr result ((result ≡ Err AdoptFault.Failed) ⊎ (result ≡ Err AdoptFault.StoreVersion)) }
    ensures version { IfErr result (λ e. IsVerdict e → e ≡ AdoptFault.StoreVersion) }
    ensures within { result ≡ Err AdoptFault.Failed → (state S.Store conn.now).in_transaction ≡ true }
{
    if !conn.is_autocommit() {
        return Err(AdoptFault::Failed);
    }
    match format_in(conn.schema()) {
        Some(format) => Ok(format),
        None => Err(AdoptFault::StoreVersion),
    }
}

/// Refuses a store that has lost what its node promised: 73 without the tables of a format, 72 without the row for the
/// whole node. Of any other it gives the format.
pub(crate) fn refuse_lost<S: Alter>(conn: &mut Connection<S>) -> Adopt<Format>
    ensures known { IfOk result (λ f. Began f (state S.Store conn.old)) }
    ensures one { (f : Format) → Began f (state S.Store conn.old) → IfOk result (λ format. format ≡ f) }
    ensures unknown { (state S.Store conn.old).in_transaction ≡ false →
        ((f : Format) → (state S.Store conn.old).now.schema ≡ schema_at f → ⊥) →
        (result ≡ Err AdoptFault.StoreVersion) × (conn.new ≡ conn.old) }
    ensures row { HasCleanDisk (state S.Store conn.new) →
        OnOk result (has_rows (seen meta_columns ((state S.Store conn.old).now.trees 0) 1) ≡ true) }
    ensures refused { HasCleanDisk (state S.Store conn.new) → IfErr result (λ e. IsVerdict e →
        ((e ≡ AdoptFault.StoreVersion) × ((f : Format) → Began f (state S.Store conn.old) → ⊥)) ⊎
        ((e ≡ AdoptFault.BadStore) × (has_rows (seen meta_columns ((state S.Store conn.old).now.trees 0) 1) ≡
        false))) }
    ensures as_it_was { HasCleanDisk (state S.Store conn.new) → IsRefused result →
        IsSame (state S.Store conn.old) (state S.Store conn.new) }
    ensures stays { HasCleanDisk (state S.Store conn.new) →
        OnOk result (IsSame (state S.Store conn.old) (state S.Store conn.new)) }
    ensures clean { HasCleanDisk (state S.Store conn.new) → HasCleanDisk (state S.Store conn.old) }
    ensures crash { HasCleanDisk (state S.Store conn.new) →
        LeavesOld (state S.Store conn.old) (state S.Store conn.new) }
{
    let format = format_at(conn)?;
    let rows = look(conn, format, Question::Meta)?;
    if !has_rows(rows_in(&rows)) {
        return Err(AdoptFault::BadStore);
    }
    Ok(format)
}

/// Whether the row has this format.
fn has_format(row: &Row, format: u64) -> Result<bool, AdoptFault>
    ensures value { IfOk result (λ b. b ≡ has_format format row.now) }
    ensures why { OnErr result (result ≡ Err AdoptFault.Memory) }
{
    match number(row, 1) {
        Ok(found) => Ok(found == format),
        Err(ReadFault::Memory) => Err(AdoptFault::Memory),
        Err(ReadFault::Bad) => Ok(false),
    }
}

/// Whether there is a row.
fn has_rows(rows: &[Row]) -> bool
    ensures { result ≡ has_rows rows.now }
{
    !rows.is_empty()
}

/// What a store holds, as far as taking it looks at that.
#[derive(Drop)]
pub(crate) struct Read {
    meta: Option<Vec<Row>>,
    floor: Option<Vec<Row>>,
    last_slot: Option<Vec<Row>>,
    last_entry: Option<Vec<Row>>,
}

/// Reads a store that has the tables of a format.
pub(crate) fn read_store<S: Alter>(conn: &mut Connection<S>, format: Format) -> Adopt<Read>
    ensures rows { HasCleanDisk (state S.Store conn.new) → Began format (state S.Store conn.old) →
        IfOk result (λ r. IsAlike (seen meta_columns ((state S.Store conn.old).now.trees 0) 1) (rows_in r.meta)) }
    ensures floors { HasCleanDisk (state S.Store conn.new) → Began format (state S.Store conn.old) →
        IfOk result (λ r. IsAlike (seen floor_columns (trees_at format (state S.Store conn.old).now.trees 2) 1)
        (rows_in r.floor)) }
    ensures slots { HasCleanDisk (state S.Store conn.new) → Began format (state S.Store conn.old) →
        IfOk result (λ r. has_rows (rows_in r.last_slot) ≡ has_rows ((state S.Store conn.old).now.trees 1)) }
    ensures entries { HasCleanDisk (state S.Store conn.new) → Began format (state S.Store conn.old) →
        IfOk result (λ r. has_rows (rows_in r.last_entry) ≡
        has_rows (trees_at format (state S.Store conn.old).now.trees 3)) }
    ensures why { OnErr result ((result ≡ Err AdoptFault.Memory) ⊎ (result ≡ Err AdoptFault.Failed)) }
    ensures clean { HasCleanDisk (state S.Store conn.new) → HasCleanDisk (state S.Store conn.old) }
    ensures stays { HasCleanDisk (state S.Store conn.new) → Began format (state S.Store conn.old) →
        OnOk result (IsSame (state S.Store conn.old) (state S.Store conn.new)) }
    ensures crash { HasCleanDisk (state S.Store conn.new) → Began format (state S.Store conn.old) →
        LeavesOld (state S.Store conn.old) (state S.Store conn.new) }
{
    let meta = look(conn, format, Question::Meta)?;
    let floor = look(conn, format, Question::Floor)?;
    let last_slot = look(conn, format, Question::LastSlot)?;
    let last_entry = look(conn, format, Question::End)?;
    Ok(Read {
        meta,
        floor,
        last_slot,
        last_entry,
    })
}

/// Why a store isn't taken in which a row isn't read.
fn bad_row(fault: ReadFault) -> AdoptFault
    ensures memory { fault ≡ ReadFault.Memory → result ≡ AdoptFault.Memory }
    ensures bad { fault ≡ ReadFault.Bad → result ≡ AdoptFault.BadStore }
{
    match fault {
        ReadFault::Memory => AdoptFault::Memory,
        ReadFault::Bad => AdoptFault::BadStore,
    }
}

/// Whether this owner of a row is the node that opens.
fn is_owner(owner: Identity, identity: Identity) -> bool
    ensures { result ≡ is_owner identity owner.cluster owner.members owner.node }
{
    owner == identity
}

/// Judges a store that has a row for the whole node: 73, 72, 71, in this order.
fn judge_row(row: &Row, floor: &[Row], format: u64, identity: Identity) -> Result<Found, AdoptFault>
    ensures adopted { OnOk result (row_refusal format identity floor.now row.now ≡ None) }
    ensures refused { IfErr result (λ e. IsVerdict e → row_refusal format identity floor.now row.now ≡ Some e) }
    ensures round { IfOk result (λ f. number_at 5 (row.now ∷ []) ≡ f.round) }
    ensures number { IfOk result (λ f. number_at 6 (row.now ∷ []) ≡ f.number) }
    ensures low { IfOk result (λ f. f.round < NUMBERS) }
    ensures most { IfOk result (λ f. f.number ≤ NUMBERS) }
{
    if !has_format(row, format)? {
        return Err(AdoptFault::StoreVersion);
    }
    let found = found_in_row(row).map_err(bad_row)?;
    let _floor = floor_in_rows(floor, found.owner.members).map_err(bad_row)?;
    if !is_owner(found.owner, identity) {
        return Err(AdoptFault::WrongNode);
    }
    Ok(found)
}

/// Whose a store is, by its rows for the whole node: 73, 72, in this order.
pub(crate) fn owner_in_rows(rows: &[Row], format: u64) -> Result<Identity, AdoptFault>
    ensures owner { IfOk result (λ owner. owner_in_rows format rows.now ≡ Ok owner) }
    ensures refused { IfErr result (λ e. IsVerdict e → owner_in_rows format rows.now ≡ Err e) }
    ensures read { result ≢ Err AdoptFault.Failed }
    ensures within { IfOk result (λ owner. is_member_of owner.cluster owner.members owner.node ≡ true) }
{
    let [row] = rows else {
        return Err(AdoptFault::BadStore);
    };
    if !has_format(row, format)? {
        return Err(AdoptFault::StoreVersion);
    }
    Ok(found_in_row(row).map_err(bad_row)?.owner)
}

/// The rows that were read, if that table was asked.
pub(crate) fn rows_in(rows: &Option<Vec<Row>>) -> &[Row]
    ensures { result.now ≡ rows_in rows.now }
{
    match rows {
        Some(rows) => rows.as_slice(),
        None => &[],
    }
}

/// Judges a store: 73, 72, 71, in this order.
pub(crate) fn judge(read: &Read, format: u64, identity: Identity) -> Result<Found, AdoptFault>
    ensures adopted { OnOk result (refusal_of format identity (rows_in read.now.meta) (rows_in read.now.floor)
        (has_rows (rows_in read.now.last_slot) || has_rows (rows_in read.now.last_entry)) ≡ None) }
    ensures refused { IfErr result (λ e. IsVerdict e →
        refusal_of format identity (rows_in read.now.meta) (rows_in read.now.floor)
        (has_rows (rows_in read.now.last_slot) || has_rows (rows_in read.now.last_entry)) ≡ Some e) }
    ensures few { IfOk result (λ f. length (rows_in read.now.meta) < 2) }
    ensures round { IfOk result (λ f. number_at 5 (rows_in read.now.meta) ≡ f.round) }
    ensures number { IfOk result (λ f. number_at 6 (rows_in read.now.meta) ≡ f.number) }
    ensures low { IfOk result (λ f. f.round < NUMBERS) }
    ensures most { IfOk result (λ f. f.number ≤ NUMBERS) }
{
    let floor = rows_in(&read.floor);
    match rows_in(&read.meta) {
        [] => {
            let has_slot = has_rows(rows_in(&read.last_slot));
            if has_rows(floor) || has_slot || has_rows(rows_in(&read.last_entry)) {
                return Err(AdoptFault::BadStore);
            }
            Ok(Found {
                has_row: false,
                owner: identity,
                round: 0,
                number: 0,
            })
        }
        [row] => judge_row(row, floor, format, identity),
        _ => Err(AdoptFault::BadStore),
    }
}
