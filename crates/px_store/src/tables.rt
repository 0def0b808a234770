//! Whose tables a schema has.
ghost use Rattle.std.specs.Prelude.{◌≡◌, ◌<◌, ◌-◌, ◌↔◌, [], ◌∷◌, codes, None, Some, IfSome, IsTrue};
ghost use Rattle.sqlite_value.specs.declared.value.Value.TheVariants.{Null};
ghost use Rattle.sqlite_sql.specs.Term.{lit};
ghost use Rattle.sqlite_schema.specs.Code.{term_to, op_term};
ghost use Rattle.px_store.specs.Tables as tables;
ghost use Rattle.px_store.specs.Tables.{column_of, key_column, number_column, bytes_column, sheet};
ghost use Rattle.px_store.specs.Tables.{key_is_one, only_row, with_tables, no_schema};
ghost use Rattle.px_store.specs.Formats.{schema_at};
ghost use Rattle.px_store.specs.inner.Tables.{IsPlain};

use crate::formats::Format;
use sqlite_schema::code::{Op, Terms};
use sqlite_schema::schema::{Column, Kind, Schema, Table};
use sqlite_sql::ops::{BinaryOp, CompareOp};
use sqlite_value::keys::Collation;
use sqlite_value::value::Value;

/// Whether a column has this name, kind and no other rule than whether it is without NULL.
fn is_column(column: &Column, name: &[u8], kind: Kind, not_null: bool) -> bool
    ensures { IsTrue result ↔ (column.now ≡ column_of name.now kind not_null) }
{
    column.name.as_slice() == name
        && column.kind == kind
        && column.is_strict
        && column.not_null == not_null
        && matches!(column.default, Value::Null)
        && column.collation == Collation::Binary
}

/// Whether it is a column of integers without NULL.
fn is_number(column: &Column, name: &[u8]) -> bool
    ensures { IsTrue result ↔ (column.now ≡ number_column name.now) }
{
    is_column(column, name, Kind::Integer, true)
}

/// Whether it is a column of blobs without NULL.
fn is_bytes(column: &Column, name: &[u8]) -> bool
    ensures { IsTrue result ↔ (column.now ≡ bytes_column name.now) }
{
    is_column(column, name, Kind::Blob, true)
}

/// Whether it is the column of a key.
fn is_key_column(column: &Column, name: &[u8]) -> bool
    ensures { IsTrue result ↔ (column.now ≡ key_column name.now) }
{
    is_column(column, name, Kind::Integer, false)
}

/// The node at a place, where its operands are read to a depth.
fn node_at(nodes: &[Op], depth: usize, at: usize) -> Option<&Op>
    ensures none { result ≡ None → term_to nodes.now depth at ≡ lit Null }
    ensures some { IfSome result (λ op. (0 < depth) ×
        (term_to nodes.now depth at ≡ op_term (term_to nodes.now (depth - 1)) op.now)) }
{
    if depth == 0 || at >= nodes.len() {
        return None;
    }
    Some(&nodes[at])
}

/// Whether the term is that the key equals 1.
fn is_key_one(nodes: &[Op], depth: usize, at: usize) -> bool
    ensures { IsTrue result ↔ (term_to nodes.now depth at ≡ key_is_one) }
{
    match node_at(nodes, depth, at) {
        Some(Op::Binary(BinaryOp::Compare(CompareOp::Eq, Collation::Binary), a, b)) => {
            matches!(node_at(nodes, depth - 1, *a), Some(Op::Column(1, 0)))
                && matches!(
                    node_at(nodes, depth - 1, *b),
                    Some(Op::Literal(Value::Int(1)))
                )
        }
        _ => false,
    }
}

/// Whether there is no check.
fn is_unchecked(checks: &Terms) -> bool
    ensures { IsTrue result ↔ (checks.now ≡ []) }
{
    checks.roots.is_empty()
}

/// Whether the one check is that the key is 1.
fn is_only_row(checks: &Terms) -> bool
    ensures { IsTrue result ↔ (checks.now ≡ only_row) }
{
    let nodes = checks.nodes.as_slice();
    match checks.roots.as_slice() {
        [root] => is_key_one(nodes, nodes.len(), *root),
        _ => false,
    }
}

/// Whether a list of places is the key alone.
fn is_key_alone(places: &[usize]) -> bool
    ensures { IsTrue result ↔ (places.now ≡ 0 ∷ []) }
{
    matches!(places, [0])
}

/// Whether no column is computed, or has a default that reads the time.
fn is_plain(table: &Table) -> bool
    ensures { IsTrue result ↔ IsPlain table.now }
{
    table.computed.is_empty()
        && table.stamps.places.is_empty()
        && is_unchecked(&table.stamps.terms)
        && table.stamps.formats.is_empty()
}

/// Whether a table has no other rules than those of its key, its columns and its checks.
fn is_sheet(table: &Table, name: &[u8], tree: u32) -> bool
    ensures { IsTrue result ↔ (table.now ≡ sheet name.now tree table.now.columns table.now.checks) }
{
    table.name.as_slice() == name
        && table.tree == tree
        && table.key == Some(0)
        && is_key_alone(table.primary.as_slice())
        && table.uniques.is_empty()
        && table.orders.is_empty()
        && table.references.is_empty()
        && is_plain(table)
        && !table.is_counted
}

fn is_meta(table: &Table) -> bool
    ensures { IsTrue result ↔ (table.now ≡ tables.meta) }
{
    match table.columns.as_slice() {
        [id, format, cluster, members, node, round, number] => {
            is_sheet(table, b"meta", 0)
                && is_only_row(&table.checks)
                && is_key_column(id, b"id")
                && is_number(format, b"format")
                && is_number(cluster, b"cluster")
                && is_number(members, b"members")
                && is_number(node, b"node")
                && is_number(round, b"round")
                && is_number(number, b"number")
        }
        _ => false,
    }
}

/// Whether the columns are those of a proposal.
fn are_proposal_columns(columns: &[Column]) -> bool
    ensures { IsTrue result ↔ (columns.now ≡ number_column (codes "ballot") ∷ bytes_column (codes "entry") ∷ []) }
{
    match columns {
        [ballot, entry] => is_number(ballot, b"ballot") && is_bytes(entry, b"entry"),
        _ => false,
    }
}

fn is_slots(table: &Table) -> bool
    ensures { IsTrue result ↔ (table.now ≡ tables.slots) }
{
    match table.columns.as_slice() {
        [position, promised, proposal @ ..] => {
            is_sheet(table, b"slots", 1)
                && is_unchecked(&table.checks)
                && is_key_column(position, b"position")
                && is_number(promised, b"promised")
                && are_proposal_columns(proposal)
        }
        _ => false,
    }
}

fn is_floor(table: &Table) -> bool
    ensures { IsTrue result ↔ (table.now ≡ tables.floor) }
{
    match table.columns.as_slice() {
        [id, ballot] => {
            is_sheet(table, b"floor", 2)
                && is_only_row(&table.checks)
                && is_key_column(id, b"id")
                && is_number(ballot, b"ballot")
        }
        _ => false,
    }
}

fn is_learned(table: &Table) -> bool
    ensures { IsTrue result ↔ (table.now ≡ tables.learned) }
{
    match table.columns.as_slice() {
        [position, entry] => {
            is_sheet(table, b"learned", 3)
                && is_unchecked(&table.checks)
                && is_key_column(position, b"position")
                && is_bytes(entry, b"entry")
        }
        _ => false,
    }
}

/// The format whose tables these are.
fn format_of(found: &[Table]) -> Option<Format>
    ensures is { IfSome result (λ f. found.now ≡ (schema_at f).tables) }
    ensures all { (f : Format) → found.now ≡ (schema_at f).tables → result ≡ Some f }
{
    match found {
        [meta, slots, more @ ..] if is_meta(meta) && is_slots(slots) => match more {
            [] => Some(Format::One),
            [floor] => is_floor(floor).then_some(Format::Two),
            [floor, learned] => (is_floor(floor) && is_learned(learned)).then_some(Format::Three),
            _ => None,
        },
        _ => None,
    }
}

/// Whether a schema has nothing but tables.
fn has_tables_alone(schema: &Schema) -> bool
    ensures { IsTrue result ↔ (schema.now ≡ with_tables schema.now.tables) }
{
    schema.indexes.is_empty() && schema.views.is_empty()
}

/// Whether a schema has nothing at all.
pub(crate) fn has_none(schema: &Schema) -> bool
    ensures { IsTrue result ↔ (schema.now ≡ no_schema) }
{
    has_tables_alone(schema) && schema.tables.is_empty()
}

/// The format of a schema; none where its tables aren't exactly those of one, or where it has more than tables.
pub fn format_in(schema: &Schema) -> Option<Format>
    ensures is { IfSome result (λ f. schema.now ≡ schema_at f) }
    ensures all { (f : Format) → schema.now ≡ schema_at f → result ≡ Some f }
{
    if !has_tables_alone(schema) {
        return None;
    }
    format_of(schema.tables.as_slice())
}
