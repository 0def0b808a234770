//! A change of one of the tables at a path.

ghost use Rattle.std.specs.Prelude.{◌≡◌, length, MatchResult};
ghost use Rattle.pf_config.specs.Map.{named};
ghost use Rattle.pf_config.specs.Changes.{with_table};
ghost use Rattle.pf_config.specs.Ordered.{AreOrdered};
ghost use Rattle.pf_config.specs.inner.TableChanges.{edited_table, edited_in, has_room, ChangesIf, IsTableIf};
ghost use Rattle.pf_config.specs.inner.TableChanges.{IsStoredAt, BelongsAt};

use crate::Made;
use crate::config::ENTRIES_MAX;
use pf_rules::{TableEntry, TableName};
use pf_tables::{Edit, Table};
use std::alloc::Global;

/// Whether an edit leaves a table no fuller than it may be.
fn has_room(table: &Table, edit: Edit) -> bool
    ensures { result ≡ has_room edit (length table.now.entries) }
{
    matches!(edit, Edit::Remove) || table.entry_count() < ENTRIES_MAX
}

/// Edits an entry of a table in place. False, and nothing is changed, where that can't be done, or the table is const
/// or may be full.
fn edit_table(table: &mut Table, entry: &TableEntry, edit: Edit) -> Made<bool>
    ensures { MatchResult result (λ done. IsTableIf done (edited_table edit entry.now table.old) table.old table.new)
        (λ e. table.new ≡ table.old) }
{
    if table.is_const() || !has_room(table, edit) {
        return Ok(false);
    }
    table.edit(entry, edit)
}

/// The index of the table of that name, or the one that a new table of that name gets.
pub(crate) fn place_of(tables: &[(TableName, Table)], name: &[u8]) -> Result<usize, usize>
    requires { AreOrdered tables.now }
    ensures { MatchResult result (λ at. IsStoredAt tables.now name.now at) (λ at. BelongsAt tables.now name.now at) }
{
    tables.binary_search_by(|held| held.0.as_bytes().cmp(name))
}

/// Edits an entry of the table of that name in place. False, and nothing is changed, where that can't be done.
pub(crate) fn edit_among(
    tables: &mut Vec<(TableName, Table)>,
    name: &TableName,
    entry: &TableEntry,
    edit: Edit,
) -> Made<bool>
    requires { AreOrdered tables.old.items }
    ensures ordered { AreOrdered tables.new.items }
    ensures changed { MatchResult result (λ done. ChangesIf done (edited_in edit entry.now (named name.now
        tables.old.items)) name.now tables.old.items tables.new.items) (λ e. tables.new.items ≡ tables.old.items) }
{
    let Ok(at) = place_of(tables, name.as_bytes()) else {
        return Ok(false);
    };
    edit_table(&mut tables[at].1, entry, edit)
}

/// Puts a table under its name. An error changes nothing.
pub(crate) fn put_among(
    alloc: Global,
    tables: &mut Vec<(TableName, Table)>,
    name: &TableName,
    table: Table,
) -> Made<()>
    requires { AreOrdered tables.old.items }
    ensures ordered { AreOrdered tables.new.items }
    ensures put { MatchResult result (λ o. tables.new.items ≡ with_table tables.old.items name.now table)
        (λ e. tables.new.items ≡ tables.old.items) }
{
    match place_of(tables, name.as_bytes()) {
        Ok(at) => tables[at].1 = table,
        Err(at) => tables.insert(at, (name.copied(alloc)?, table))?,
    }
    Ok(())
}
