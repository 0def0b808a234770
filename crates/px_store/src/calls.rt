//! The SQL of reads and writes: a row of format 3 is put by one call, and rows of each format are asked for by another.

ghost use Rattle.std.specs.Prelude.{◌≡◌, ◌<◌, ◌↔◌, pos, true, [], Err, IfOk, IfErr, IsTrue, OnErr};
ghost use Rattle.sqlite.specs.Held.{state};
ghost use Rattle.sqlite.specs.State.{HasCleanDisk, Survives, Executes, CommitsBy};
ghost use Rattle.sqlite.specs.State.{Shown, FailsToQuery, CommitsShowing};
ghost use Rattle.px_store.specs.inner.Effect.{Serves};
ghost use Rattle.px_store.specs.Adopting.{LeavesOld};
ghost use Rattle.px_store.specs.Formats.{has_table};
ghost use Rattle.px_store.specs.Adopting.{Began};
ghost use Rattle.px_store.specs.inner.Questions.{asked_by, given_with, table_of, IsUnanswered, Looked};
ghost use Rattle.px_store.specs.inner.NewRows.{text_of, params_of, AreIntegers, Wrote};
ghost use Rattle.px_store.specs.declared.reading.TheConstants.{INTEGERS};

use crate::formats::Format;
use sqlite::{Alter, Connection, Error, ErrorCode, Row, params};

/// Whom a store belongs to.
#[derive(Clone, Copy, PartialEq, Eq)]
pub struct Identity {
    pub cluster: u32,
    pub members: u8,
    pub node: u8,
}

/// Why a statement failed: out of memory, with nothing changed and the connection serving, or else.
#[derive(Clone, Copy, PartialEq, Eq)]
pub(crate) enum Trouble {
    Memory,
    Failed,
}

pub(crate) fn signed(n: u64) -> i64
    requires { n < INTEGERS }
    ensures { result ≡ pos n }
{
    n as i64
}

/// Whether it was out of memory and the connection still serves: it reads an empty text.
pub(crate) fn cause_of<S: Alter>(conn: &mut Connection<S>, error: Error) -> Trouble
    ensures memory { result ≡ Trouble.Memory → error ≡ Error.SqliteFailure ErrorCode.OutOfMemory }
    ensures serves { HasCleanDisk (state S.Store conn.new) → result ≡ Trouble.Memory →
        Serves (state S.Store conn.old) (state S.Store conn.new) }
    ensures clean { HasCleanDisk (state S.Store conn.new) → HasCleanDisk (state S.Store conn.old) }
    ensures crash { HasCleanDisk (state S.Store conn.new) →
        LeavesOld (state S.Store conn.old) (state S.Store conn.new) }
{
    match error {
        Error::SqliteFailure(ErrorCode::OutOfMemory) if conn.prepare("").is_ok() => Trouble::Memory,
        _ => Trouble::Failed,
    }
}

/// A row that is put in the place of the one with its key. The entry of a slot, or of what is learned, is handed over
/// beside it, as bytes.
#[derive(Clone, Copy)]
pub(crate) enum NewRow {
    /// The row for the whole node, with what identifies the node beside it.
    Meta { round: u64, number: u64 },
    /// A slot: its position, the ballot promised, and that of the proposal accepted.
    Slot(u32, u64, u64),
    Floor { ballot: u64 },
    Learned { position: u32 },
}

/// Runs the statement that puts a row.
fn run<S: Alter>(
    conn: &mut Connection<S>,
    identity: Identity,
    row: NewRow,
    bytes: &[u8],
) -> Result<usize, Error>
    requires fits { AreIntegers row }
    ensures runs { HasCleanDisk (state S.Store conn.new) → Executes (text_of row) (params_of identity row bytes.now)
        (state S.Store conn.old) (state S.Store conn.new) result }
    ensures survives { Survives (state S.Store conn.old) (state S.Store conn.new)
        (CommitsBy (text_of row) (params_of identity row bytes.now) (state S.Store conn.old)) }
{
    match row {
        NewRow::Meta { round, number } => conn.execute(
            "INSERT OR REPLACE INTO meta VALUES (1, 3, ?1, ?2, ?3, ?4, ?5)",
            params![
                identity.cluster,
                u32::from(identity.members),
                u32::from(identity.node),
                signed(round),
                signed(number)
            ],
        ),
        NewRow::Slot(position, promised, ballot) => conn.execute(
            "INSERT OR REPLACE INTO slots VALUES (?1, ?2, ?3, ?4)",
            params![position, signed(promised), signed(ballot), bytes],
        ),
        NewRow::Floor { ballot } => conn.execute(
            "INSERT OR REPLACE INTO floor VALUES (1, ?1)",
            params![signed(ballot)],
        ),
        NewRow::Learned { position } => conn.execute(
            "INSERT OR REPLACE INTO learned VALUES (?1, ?2)",
            params![position, bytes],
        ),
    }
}

/// Puts a row, in a transaction of its own. The identity is in the row for the whole node alone, the bytes in those
/// of slots and of what is learned.
pub(crate) fn put<S: Alter>(
    conn: &mut Connection<S>,
    identity: Identity,
    row: NewRow,
    bytes: &[u8],
) -> Result<(), Trouble>
    requires fits { AreIntegers row }
    ensures clean { HasCleanDisk (state S.Store conn.new) → HasCleanDisk (state S.Store conn.old) }
    ensures wrote { HasCleanDisk (state S.Store conn.new) → Began Format.Three (state S.Store conn.old) →
        IsTrue (state S.Store conn.old).is_open → Wrote identity row bytes.now result (state S.Store conn.old)
        (state S.Store conn.new) }
{
    // for the proof: no transaction is open
    let _settled = conn.is_autocommit();
    match run(conn, identity, row, bytes) {
        Ok(_) => Ok(()),
        Err(error) => Err(cause_of(conn, error)),
    }
}

/// A statement that only reads.
#[derive(Clone, Copy)]
pub(crate) enum Question {
    /// The row for the whole node.
    Meta,
    Floor,
    Slot { position: u32 },
    Learned { position: u32 },
    /// The learned entries of the positions from `first` up to `end`, without that.
    Span { first: u32, end: u32 },
    /// The key of the last slot with a proposal.
    Top,
    /// The key of the last learned entry.
    End,
    /// The key of the last slot.
    LastSlot,
}

impl Question {
    /// The table that it asks, the first being 0.
    pub(crate) fn table(self) -> u64
        ensures { result ≡ table_of self }
    {
        match self {
            Question::Meta => 0,
            Question::Slot { .. } | Question::Top | Question::LastSlot => 1,
            Question::Floor => 2,
            Question::Learned { .. } | Question::Span { .. } | Question::End => 3,
        }
    }

    /// Its statement.
    fn text(self) -> &'static str
        ensures { result.now ≡ asked_by self }
    {
        match self {
            Question::Meta => {
                "SELECT id, format, cluster, members, node, round, number FROM meta WHERE id = ?1"
            }
            Question::Floor => "SELECT id, ballot FROM floor WHERE id = ?1",
            Question::Slot { .. } => {
                "SELECT position, promised, ballot, entry FROM slots WHERE position = ?1"
            }
            Question::Learned { .. } => "SELECT position, entry FROM learned WHERE position = ?1",
            Question::Span { .. } => {
                "SELECT position, entry FROM learned WHERE position >= ?1 AND position < ?2"
            }
            Question::Top => {
                "SELECT position FROM slots WHERE ballot > 0 ORDER BY position DESC LIMIT 1"
            }
            Question::End => "SELECT position FROM learned ORDER BY position DESC LIMIT 1",
            Question::LastSlot => "SELECT position FROM slots ORDER BY position DESC LIMIT 1",
        }
    }
}

/// Runs the statement.
fn ask<S: Alter>(conn: &mut Connection<S>, question: Question) -> Result<Vec<Row>, Error>
    ensures ok { HasCleanDisk (state S.Store conn.new) → IfOk result (λ rows. Shown (asked_by question)
        (given_with question) (state S.Store conn.old) (state S.Store conn.new) rows.items) }
    ensures err { HasCleanDisk (state S.Store conn.new) → IfErr result (FailsToQuery (asked_by question)
        (given_with question) (state S.Store conn.old) (state S.Store conn.new)) }
    ensures survives { Survives (state S.Store conn.old) (state S.Store conn.new)
        (CommitsShowing (asked_by question) (given_with question) (state S.Store conn.old)) }
{
    let text = question.text();
    match question {
        Question::Meta | Question::Floor => conn.query_all(text, params![1u32]),
        Question::Slot { position } | Question::Learned { position } => conn.query_all(
            text,
            params![position],
        ),
        Question::Span { first, end } => conn.query_all(text, params![first, end]),
        Question::Top | Question::End | Question::LastSlot => conn.query_all(text, &[]),
    }
}

/// Reads rows of a store that has their table.
pub(crate) fn get<S: Alter>(
    conn: &mut Connection<S>,
    question: Question,
) -> Result<Vec<Row>, Trouble>
    ensures clean { HasCleanDisk (state S.Store conn.new) → HasCleanDisk (state S.Store conn.old) }
    ensures unanswered { HasCleanDisk (state S.Store conn.new) →
        OnErr result (IsUnanswered S.Store question conn.old) }
    ensures looked { HasCleanDisk (state S.Store conn.new) → (f : Format) → Began f (state S.Store conn.old) →
        has_table (table_of question) f ≡ true → Looked question result (state S.Store conn.old)
        (state S.Store conn.new) }
{
    // for the proof: no transaction is open
    let _settled = conn.is_autocommit();
    match ask(conn, question) {
        Ok(rows) => Ok(rows),
        Err(error) => Err(cause_of(conn, error)),
    }
}
