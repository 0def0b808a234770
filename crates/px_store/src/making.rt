//! The SQL that makes a store, or brings one of an older format to format 3.
ghost use Rattle.std.specs.Prelude.{◌≡◌, ◌<◌, ◌^◌, false, [], IsTrue, OnOk};
ghost use Rattle.sqlite.specs.Held.{state};
ghost use Rattle.sqlite.specs.State.{HasCleanDisk, ExecutesInside, Survives};
ghost use Rattle.px_store.specs.Tables.{no_schema, schema_3};
ghost use Rattle.px_store.specs.inner.Tables.{put_meta, meta_params};
ghost use Rattle.px_store.specs.Adopting.{LeavesOld};
ghost use Rattle.px_store.specs.Formats.{schema_at, trees_at};
ghost use Rattle.px_store.specs.Adopting.{AreBrought, LeavesOr};
ghost use Rattle.px_store.specs.inner.Making.{text_of, schema_before, Grows, PutsMeta, Brought, Raised};
ghost use Rattle.px_store.specs.declared.reading.TheConstants.{INTEGERS};

use crate::calls::{Identity, signed};
use crate::formats::Format;
use sqlite::{Alter, Connection, Error, Transaction, params};

/// A table of format 3.
#[derive(Clone, Copy)]
pub(crate) enum NewTable {
    Meta,
    Slots,
    Floor,
    Learned,
}

impl NewTable {
    /// The statement that makes it.
    fn text(self) -> &'static str
        ensures { result.now ≡ text_of self }
    {
        match self {
            NewTable::Meta => {
                "CREATE TABLE meta (id INTEGER PRIMARY KEY CHECK (id = 1), format INTEGER NOT NULL, cluster INTEGER NOT NULL, members INTEGER NOT NULL, node INTEGER NOT NULL, round INTEGER NOT NULL, number INTEGER NOT NULL) STRICT"
            }
            NewTable::Slots => {
                "CREATE TABLE slots (position INTEGER PRIMARY KEY, promised INTEGER NOT NULL, ballot INTEGER NOT NULL, entry BLOB NOT NULL) STRICT"
            }
            NewTable::Floor => {
                "CREATE TABLE floor (id INTEGER PRIMARY KEY CHECK (id = 1), ballot INTEGER NOT NULL) STRICT"
            }
            NewTable::Learned => {
                "CREATE TABLE learned (position INTEGER PRIMARY KEY, entry BLOB NOT NULL) STRICT"
            }
        }
    }
}

/// Makes a table behind those that come before it.
fn make_table<S: Alter>(tx: &mut Transaction<'_, S>, table: NewTable) -> Result<(), Error>
    ensures same_reference { tx.new.conn.ghost_name ≡ tx.old.conn.ghost_name }
    ensures clean { HasCleanDisk (state S.Store tx.new.conn.now) → HasCleanDisk (state S.Store tx.old.conn.now) }
    ensures crash { HasCleanDisk (state S.Store tx.new.conn.now) →
        LeavesOld (state S.Store tx.old.conn.now) (state S.Store tx.new.conn.now) }
    ensures made { HasCleanDisk (state S.Store tx.new.conn.now) →
        IsTrue (state S.Store tx.old.conn.now).in_transaction →
        (state S.Store tx.old.conn.now).now.schema ≡ schema_before table →
        OnOk result (Grows table (state S.Store tx.old.conn.now) (state S.Store tx.new.conn.now)) }
{
    tx.execute(table.text(), &[])?;
    Ok(())
}

fn set_row<S: Alter>(
    tx: &mut Transaction<'_, S>,
    identity: Identity,
    round: u64,
    number: u64,
) -> Result<(), Error>
    requires round { round < INTEGERS }
    requires number { number < INTEGERS }
    ensures same_reference { tx.new.conn.ghost_name ≡ tx.old.conn.ghost_name }
    ensures clean { HasCleanDisk (state S.Store tx.new.conn.now) → HasCleanDisk (state S.Store tx.old.conn.now) }
    ensures crash { HasCleanDisk (state S.Store tx.new.conn.now) →
        LeavesOld (state S.Store tx.old.conn.now) (state S.Store tx.new.conn.now) }
    ensures put { HasCleanDisk (state S.Store tx.new.conn.now) →
        IsTrue (state S.Store tx.old.conn.now).in_transaction →
        (state S.Store tx.old.conn.now).now.schema ≡ schema_3 →
        OnOk result (PutsMeta identity round number (state S.Store tx.old.conn.now) (state S.Store tx.new.conn.now)) }
{
    tx.execute(
        "INSERT OR REPLACE INTO meta VALUES (1, 3, ?1, ?2, ?3, ?4, ?5)",
        params![
            identity.cluster,
            u32::from(identity.members),
            u32::from(identity.node),
            signed(round),
            signed(number)
        ],
    )?;
    Ok(())
}

/// Makes the tables that a format lacks.
fn add_tables<S: Alter>(tx: &mut Transaction<'_, S>, format: Format) -> Result<(), Error>
    ensures same_reference { tx.new.conn.ghost_name ≡ tx.old.conn.ghost_name }
    ensures clean { HasCleanDisk (state S.Store tx.new.conn.now) → HasCleanDisk (state S.Store tx.old.conn.now) }
    ensures crash { HasCleanDisk (state S.Store tx.new.conn.now) →
        LeavesOld (state S.Store tx.old.conn.now) (state S.Store tx.new.conn.now) }
    ensures made { HasCleanDisk (state S.Store tx.new.conn.now) →
        IsTrue (state S.Store tx.old.conn.now).in_transaction →
        (state S.Store tx.old.conn.now).now.schema ≡ schema_at format →
        OnOk result (Raised format (state S.Store tx.old.conn.now) (state S.Store tx.new.conn.now)) }
{
    match format {
        Format::One => {
            make_table(tx, NewTable::Floor)?;
            make_table(tx, NewTable::Learned)
        }
        Format::Two => make_table(tx, NewTable::Learned),
        Format::Three => Ok(()),
    }
}

/// Makes the tables and the row of an empty store, in one transaction.
pub(crate) fn make_anew<S: Alter>(conn: &mut Connection<S>, identity: Identity) -> Result<(), Error>
    requires auto { (state S.Store conn.old).in_transaction ≡ false }
    ensures clean { HasCleanDisk (state S.Store conn.new) → HasCleanDisk (state S.Store conn.old) }
    ensures stop { HasCleanDisk (state S.Store conn.new) → (state S.Store conn.old).now.schema ≡ no_schema →
        LeavesOr (AreBrought identity 0 0 [] [] []) (state S.Store conn.old) (state S.Store conn.new) }
    ensures made { HasCleanDisk (state S.Store conn.new) → (state S.Store conn.old).now.schema ≡ no_schema →
        OnOk result (Brought identity 0 0 [] [] [] (state S.Store conn.new)) }
{
    let mut tx = conn.transaction();
    make_table(&mut tx, NewTable::Meta)?;
    make_table(&mut tx, NewTable::Slots)?;
    make_table(&mut tx, NewTable::Floor)?;
    make_table(&mut tx, NewTable::Learned)?;
    set_row(&mut tx, identity, 0, 0)?;
    tx.commit()
}

/// Makes what a store of a format lacks, and sets its row, in one transaction.
pub(crate) fn make_rest<S: Alter>(
    conn: &mut Connection<S>,
    identity: Identity,
    format: Format,
    round: u64,
    number: u64,
) -> Result<(), Error>
    requires auto { (state S.Store conn.old).in_transaction ≡ false }
    requires round { round < INTEGERS }
    requires number { number < INTEGERS }
    ensures clean { HasCleanDisk (state S.Store conn.new) → HasCleanDisk (state S.Store conn.old) }
    ensures stop { HasCleanDisk (state S.Store conn.new) → (state S.Store conn.old).now.schema ≡ schema_at format →
        LeavesOr (AreBrought identity round number ((state S.Store conn.old).now.trees 1)
        (trees_at format (state S.Store conn.old).now.trees 2) (trees_at format (state S.Store conn.old).now.trees 3))
        (state S.Store conn.old) (state S.Store conn.new) }
    ensures made { HasCleanDisk (state S.Store conn.new) → (state S.Store conn.old).now.schema ≡ schema_at format →
        OnOk result (Brought identity round number ((state S.Store conn.old).now.trees 1)
        (trees_at format (state S.Store conn.old).now.trees 2) (trees_at format (state S.Store conn.old).now.trees 3)
        (state S.Store conn.new)) }
{
    let mut tx = conn.transaction();
    add_tables(&mut tx, format)?;
    set_row(&mut tx, identity, round, number)?;
    tx.commit()
}
