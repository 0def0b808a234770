//! A load: the rules, tables and blocks of a ruleset take their places.

ghost use Rattle.std.specs.Prelude.{◌≡◌, [], IfOk, fold, map};
ghost use Rattle.std.specs.List.{list_any};
ghost use Rattle.pf_config.specs.Changes.{placed, defined, defined_table, is_too_deep, loaded, without_unnamed};
ghost use Rattle.pf_config.specs.Ordered.{AreOrdered};
ghost use Rattle.pf_config.specs.inner.Texts.{definition_of, of_name};
ghost use Rattle.pf_rules.specs.Names.{Name};
ghost use Rattle.pf_config.specs.inner.Trees.{with_text};

use crate::Made;
use crate::anchor::{Anchor, with_entry};
use crate::changed::{cut, placed, tables_at, tidied};
use crate::depths::DEEPEST;
use crate::own::Own;
use crate::placing::Placing;
use crate::table_change::put_among;
use crate::tables::{Tables, copied_tables, named};
use pf_rules::{TableDef, TableName};
use pf_tables::Table;
use std::alloc::Global;

/// Whether one of the blocks is too deep.
pub(crate) fn any_too_deep(blocks: &[Placing]) -> bool
    ensures { result ≡ list_any is_too_deep blocks.now }
{
    blocks.iter().any(|block| is_too_deep(block))
}

/// Whether a block is too deep.
pub(crate) fn is_too_deep(block: &Placing) -> bool
    ensures { result ≡ is_too_deep block.now }
{
    block.path().len() > DEEPEST
}

/// The map with each block in its place.
fn with_blocks(alloc: Global, main: Anchor, blocks: &[Placing]) -> Made<Anchor>
    requires { main.names ≡ [] }
    ensures names { IfOk result (λ a. a.names ≡ []) }
    ensures map { IfOk result (λ a. a.anchors ≡ fold placed main.anchors blocks.now) }
{
    let mut next = main;
    for block in blocks {
        next = placed(alloc, next, block.path(), block.items()?)?;
    }
    Ok(next)
}

/// The table as it is defined, of which there may be one already.
fn defined_table(alloc: Global, definition: &TableDef, tables: &[(TableName, Table)]) -> Made<Table>
    requires { AreOrdered tables.now }
    ensures { IfOk result (λ t. t ≡ defined_table tables.now (definition_of definition.now)) }
{
    match &definition.entries {
        Some(list) => Table::of(alloc, definition.persist, definition.is_const, list),
        None => match named(tables, definition.name.as_str()) {
            Some(table) => table.flagged(definition.persist, definition.is_const),
            None => Table::new(alloc, definition.persist, definition.is_const),
        },
    }
}

/// The definitions, lent one by one.
fn lent(alloc: Global, definitions: &[TableDef]) -> Made<Vec<&TableDef>>
    ensures { IfOk result (λ v. map (λ d. d.now) v.items ≡ definitions.now) }
{
    let mut list = Vec::with_capacity(alloc, definitions.len())?;
    for definition in definitions {
        list.push(definition)?;
    }
    Ok(list)
}

/// The definitions in the order of their names, those of one name as they stand.
fn rising(alloc: Global, definitions: &[TableDef]) -> Made<Vec<&TableDef>>
    ensures { IfOk result (λ v. (n : Name) → of_name n (map (λ d. definition_of d.now) v.items) ≡
        of_name n (map definition_of definitions.now)) }
{
    let mut list = lent(alloc, definitions)?;
    list.sort_by(|a, b| a.name.as_bytes().cmp(b.name.as_bytes()))?;
    Ok(list)
}

/// The tables once more with each definition in its turn.
fn with_each(
    alloc: Global,
    tables: &[(TableName, Table)],
    definitions: &[&TableDef],
) -> Made<Vec<(TableName, Table)>>
    requires { AreOrdered tables.now }
    ensures ordered { IfOk result (λ v. AreOrdered v.items) }
    ensures all { IfOk result (λ v. v.items ≡
        fold defined tables.now (map (λ d. definition_of d.now) definitions.now)) }
{
    let mut next = copied_tables(alloc, tables)?;
    for definition in definitions {
        let table = defined_table(alloc, definition, &next)?;
        put_among(alloc, &mut next, &definition.name, table)?;
    }
    Ok(next)
}

/// The tables with each definition in its turn. They come in by name, since all tables after a new one are moved.
#[tactic(auto, using(crate::proofs::Definitions::in_any_order))]
pub(crate) fn with_definitions(
    alloc: Global,
    tables: Tables,
    definitions: &[TableDef],
) -> Made<Tables>
    ensures { IfOk result (λ t. t ≡ fold defined tables (map definition_of definitions.now)) }
{
    if definitions.is_empty() {
        return Ok(tables);
    }
    let next = with_each(alloc, tables.list(), &rising(alloc, definitions)?)?;
    Tables::of(alloc, next)
}

/// The map with a ruleset's rules and tables at its path, and no unnamed blocks below it.
fn placed_text(alloc: Global, main: Anchor, own: &Placing, definitions: &[TableDef]) -> Made<Anchor>
    requires { main.names ≡ [] }
    ensures names { IfOk result (λ a. a.names ≡ []) }
    ensures map { IfOk result (λ a. a.anchors ≡ with_text own.now (map definition_of definitions.now)
        (without_unnamed own.now.path main.anchors)) }
{
    let path = own.path();
    let left = cut(alloc, main, path)?;
    let tables = with_definitions(alloc, tables_at(alloc, &left, path)?, definitions)?;
    with_entry(left, path, Own::of(own.items()?, tables)?)
}

/// The map after a load.
#[tactic(auto, using(crate::proofs::Twice::loaded_is))]
pub(crate) fn loaded(
    alloc: Global,
    main: &Anchor,
    own: &Placing,
    definitions: &[TableDef],
    blocks: &[Placing],
) -> Made<Anchor>
    requires { main.now.names ≡ [] }
    ensures names { IfOk result (λ a. a.names ≡ []) }
    ensures map { IfOk result (λ a. a.anchors ≡ loaded own.now (map definition_of definitions.now) blocks.now
        main.now.anchors) }
{
    let first = placed_text(alloc, main.copied(alloc)?, own, definitions)?;
    tidied(alloc, with_blocks(alloc, first, blocks)?)
}
