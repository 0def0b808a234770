//! The tables of an anchor.

ghost use Rattle.std.specs.Prelude.{◌≡◌, [], IfOk, MatchResult, map, Some};
ghost use Rattle.std.specs.Option.{option_copied};
ghost use Rattle.pf_config.specs.Map.{named};
ghost use Rattle.pf_config.specs.Changes.{with_table};
ghost use Rattle.pf_config.specs.inner.TableChanges.{edited_in, ChangesIf};
ghost use Rattle.pf_config.specs.Ordered.{AreOrdered};

use crate::Made;
use crate::table_change::{edit_among, place_of, put_among};
use pf_rules::{TableEntry, TableName};
use pf_tables::{Edit, Table};
use std::alloc::Global;
use std::marker::Model;
use std::rc::Rc;

/// Tables in the order of their names, no two of one name. Copies share them.
#[derive(Drop)]
pub(crate) struct Tables {
    all: Rc<Vec<(TableName, Table)>>,
}

impl Model for Tables {
    ghost use Rattle.std.specs.Prelude.{List};
    ghost use Rattle.pf_rules.specs.Names.{Name};
    ghost use Rattle.pf_tables.specs.Tables.{TableValue};
    ghost use Rattle.pf_config.specs.Ordered.{AreOrdered};

    ghost Value = { List (Name × TableValue) };

    ghost view = { λ t. t.all.value.items };

    ghost invariant = { λ t. AreOrdered t.all.value.items };
}

impl Tables {
    /// None.
    pub(crate) fn new(alloc: Global) -> Made<Tables>
        ensures { IfOk result (λ t. t ≡ []) }
    {
        Tables::of(alloc, Vec::new(alloc))
    }

    /// These tables.
    pub(crate) fn of(alloc: Global, all: Vec<(TableName, Table)>) -> Made<Tables>
        requires { AreOrdered all.items }
        ensures { IfOk result (λ t. t ≡ all.items) }
    {
        let all = Rc::new(alloc, all)?;
        Ok(Tables { all })
    }

    /// Where they are kept.
    pub(crate) fn alloc(&self) -> Global {
        *self.all.allocator()
    }

    /// The tables themselves.
    pub(crate) fn list(&self) -> &[(TableName, Table)]
        ensures value { result.now ≡ self.now }
        ensures ordered { AreOrdered result.now }
    {
        &self.all
    }

    /// Edits an entry of the table of that name in place. False, and nothing is changed, where the tables are shared,
    /// or that can't be done.
    pub(crate) fn edit(&mut self, name: &TableName, entry: &TableEntry, edit: Edit) -> Made<bool>
        ensures { MatchResult result (λ done. ChangesIf done (edited_in edit entry.now (named name.now self.old))
            name.now self.old self.new) (λ e. self.new ≡ self.old) }
    {
        let Some(all) = Rc::get_mut(&mut self.all) else {
            return Ok(false);
        };
        edit_among(all, name, entry, edit)
    }

    /// Puts a table under its name in place. False, and nothing is changed, where the tables are shared.
    pub(crate) fn put(&mut self, name: &TableName, table: &Table) -> Made<bool>
        ensures { MatchResult result (λ done. ChangesIf done (Some table.now) name.now self.old self.new)
            (λ e. self.new ≡ self.old) }
    {
        let Some(all) = Rc::get_mut(&mut self.all) else {
            return Ok(false);
        };
        put_among(*all.allocator(), all, name, copied_table(table)?)?;
        Ok(true)
    }

    /// The same once more.
    pub(crate) fn copied(&self) -> Made<Tables>
        ensures { IfOk result (λ t. t ≡ self.now) }
    {
        let all = self.all.clone()?;
        Ok(Tables { all })
    }
}

/// The table of that name.
pub(crate) fn named<'c>(tables: &'c [(TableName, Table)], name: &str) -> Option<&'c Table>
    requires { AreOrdered tables.now }
    ensures { option_copied result ≡ named name.now tables.now }
{
    match place_of(tables, name.as_bytes()) {
        Ok(at) => Some(&tables[at].1),
        Err(_) => None,
    }
}

/// The names of the tables.
pub(crate) fn names_of(alloc: Global, tables: &[(TableName, Table)]) -> Made<Vec<&str>>
    ensures { IfOk result (λ v. map (λ n. n.now) v.items ≡ map (λ t. t.0) tables.now) }
{
    let mut names = Vec::new(alloc);
    for entry in tables {
        names.push(entry.0.as_str())?;
    }
    Ok(names)
}

/// The same table once more, which shares its entries.
pub(crate) fn copied_table(table: &Table) -> Made<Table>
    ensures { IfOk result (λ t. t ≡ table.now) }
{
    table.flagged(table.persist(), table.is_const())
}

/// The tables once more, each of which shares its entries.
pub(crate) fn copied_tables(
    alloc: Global,
    tables: &[(TableName, Table)],
) -> Made<Vec<(TableName, Table)>>
    ensures { IfOk result (λ v. v.items ≡ tables.now) }
{
    let mut next = Vec::new(alloc);
    for entry in tables {
        next.push((entry.0.copied(alloc)?, copied_table(&entry.1)?))?;
    }
    Ok(next)
}

/// The tables with this one under its name.
pub(crate) fn with_table(
    alloc: Global,
    tables: &[(TableName, Table)],
    name: &TableName,
    table: &Table,
) -> Made<Tables>
    requires { AreOrdered tables.now }
    ensures { IfOk result (λ t. t ≡ with_table tables.now name.now table.now) }
{
    let mut next = copied_tables(alloc, tables)?;
    put_among(alloc, &mut next, name, copied_table(table)?)?;
    Tables::of(alloc, next)
}
