//! Tables that no rule refers to.

ghost use Rattle.std.specs.Prelude.{◌≡◌, [], IfOk, filter, map};
ghost use Rattle.std.specs.List.{list_any};
ghost use Rattle.pf_rules.specs.Seen.{rule_of};
ghost use Rattle.pf_config.specs.Changes.{is_at_table, conditions_refer, refers, is_used, used_tables};
ghost use Rattle.pf_config.specs.inner.Trees.{is_idle};
ghost use Rattle.pf_config.specs.Ordered.{AreOrdered};
ghost use Rattle.pf_config.specs.inner.Referring.{KnowsAll, goes_by, stays_by};

use crate::Made;
use crate::anchor::Anchor;
use crate::own::Own;
use crate::referred::{FEW, Referred};
use crate::tables::{Tables, copied_table};
use pf_rules::{Addresses, Conditions, Host, Item, Name, TableName};
use pf_tables::Table;
use std::alloc::Global;

/// Whether the host is the table of that name.
fn is_at_table(name: &TableName, host: &Host) -> bool
    ensures { result ≡ is_at_table name.now host.now }
{
    match host {
        Host::In(Addresses::Table(own)) | Host::NotIn(Addresses::Table(own)) => own.as_bytes()
            == name.as_bytes(),
        _ => false,
    }
}

fn conditions_refer(name: &TableName, conditions: &Conditions) -> bool
    ensures { result ≡ conditions_refer name.now conditions.now }
{
    is_at_table(name, &conditions.source) || is_at_table(name, &conditions.destination)
}

/// Whether one of the rules refers to the table of that name.
pub(crate) fn items_refer(name: &TableName, items: &[Item]) -> bool
    ensures { result ≡ list_any (refers name.now) (map rule_of items.now) }
{
    for item in items {
        if conditions_refer(name, item.conditions()) {
            return true;
        }
    }
    false
}

/// Whether a table of that name at the path stays: any rule refers to main's, a rule of its own anchor to another.
fn is_used(main: &Anchor, path: &[Name], items: &[Item], name: &TableName) -> bool
    ensures { result ≡ is_used main.now.anchors (record {
      path = path.now;
      rules = map rule_of items.now;
      tables = [];
    }) name.now }
{
    if path.is_empty() {
        main.refers(name)
    } else {
        items_refer(name, items)
    }
}

/// Whether one of the tables at a path neither persists nor is used, where the rules are asked.
fn any_unasked(main: &Anchor, path: &[Name], items: &[Item], tables: &[(TableName, Table)]) -> bool
    ensures { result ≡ list_any (is_idle main.now.anchors (record {
      path = path.now;
      rules = map rule_of items.now;
      tables = [];
    })) tables.now }
{
    tables.iter().any(|entry| !(entry.1.persist() || is_used(main, path, items, &entry.0)))
}

/// Whether one of the tables neither persists nor is among the names.
fn any_unlisted(names: &Referred, tables: &[(TableName, Table)]) -> bool
    ensures { result ≡ list_any (goes_by names.now) tables.now }
{
    tables
        .iter()
        .any(|entry| !(entry.1.persist() || names.contains(&entry.0)))
}

/// Whether one of the tables at a path neither persists nor is used. The names that the rules of the whole
/// configuration refer to are known, or its rules are asked. An anchor's own are asked: they refer to 2,048 tables at
/// most, so that it is soon found where there are more.
#[tactic(auto, using(crate::proofs::Treed::empty_len))]
pub(crate) fn any_unused(main: &Anchor, known: &Option<Referred>, path: &[Name], own: &Own) -> bool
    requires { KnowsAll known.now main.now.anchors }
    ensures { result ≡ list_any (is_idle main.now.anchors (record {
      path = path.now;
      rules = map rule_of own.now.items.value.items;
      tables = [];
    })) own.now.tables }
{
    let tables = own.tables.list();
    if path.is_empty() {
        if let Some(names) = known {
            return any_unlisted(names, tables);
        }
    }
    any_unasked(main, path, &own.items, tables)
}

/// The tables at a path that persist or are used, where the rules are asked.
#[tactic(auto, using(crate::proofs::Ordered::ordered_filter))]
fn asked_tables(main: &Anchor, path: &[Name], own: &Own) -> Made<Tables>
    ensures { IfOk result (λ t. t ≡ used_tables main.now.anchors (record {
      path = path.now;
      rules = map rule_of own.now.items.value.items;
      tables = [];
    }) own.now.tables) }
{
    let alloc = own.tables.alloc();
    let items: &[Item] = &own.items;
    let mut next = Vec::new(alloc);
    for entry in own.tables.list() {
        if entry.1.persist() || is_used(main, path, items, &entry.0) {
            next.push((entry.0.copied(alloc)?, copied_table(&entry.1)?))?;
        }
    }
    Tables::of(alloc, next)
}

/// The tables that persist or are among the names.
#[tactic(auto, using(crate::proofs::Ordered::ordered_filter))]
fn listed_tables(names: &Referred, tables: &Tables) -> Made<Tables>
    ensures { IfOk result (λ t. t ≡ filter (stays_by names.now) tables.now) }
{
    let alloc = tables.alloc();
    let mut next = Vec::new(alloc);
    for entry in tables.list() {
        if entry.1.persist() || names.contains(&entry.0) {
            next.push((entry.0.copied(alloc)?, copied_table(&entry.1)?))?;
        }
    }
    Tables::of(alloc, next)
}

/// The tables at a path that persist or are used. Where there are many, the names that rules refer to are gathered.
#[tactic(auto, using(crate::proofs::Treed::empty_len))]
pub(crate) fn used_tables(
    main: &Anchor,
    known: &Option<Referred>,
    path: &[Name],
    own: &Own,
) -> Made<Tables>
    requires { KnowsAll known.now main.now.anchors }
    ensures { IfOk result (λ t. t ≡ used_tables main.now.anchors (record {
      path = path.now;
      rules = map rule_of own.now.items.value.items;
      tables = [];
    }) own.now.tables) }
{
    if path.is_empty() {
        if let Some(names) = known {
            return listed_tables(names, &own.tables);
        }
    } else if own.tables.list().len() > FEW {
        return listed_tables(&Referred::of(own.tables.alloc(), &own.items)?, &own.tables);
    }
    asked_tables(main, path, own)
}
