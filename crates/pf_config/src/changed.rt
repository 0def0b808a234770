//! Changed maps: each function makes a new tree, so that a refused growth changes nothing. It shares rules, entries of
//! tables and the anchors off the changed path with the old one, and is the old one where nothing goes.

ghost use Rattle.std.specs.Prelude.{◌≡◌, ◌≤◌, [], IfOk, map, length};
ghost use Rattle.pf_rules.specs.Seen.{rule_of};
ghost use Rattle.pf_config.specs.Map.{anchor_at, rules_in, tables_in};
ghost use Rattle.pf_config.specs.Changes.{with_tables, with_rules, placed, tidied, without_unnamed};
ghost use Rattle.pf_config.specs.inner.Trees.{any_unnamed};
ghost use Rattle.pf_config.specs.declared.config.TheConstants.{RULES_MAX};

use crate::Made;
use crate::anchor::{Anchor, with_entry};
use crate::own::Own;
use crate::referred::gathered;
use crate::tables::Tables;
use crate::walk::descend;
use pf_rules::{Item, Name};
use std::alloc::Global;
use std::rc::Rc;

/// The tables at a path, which share their entries.
#[tactic(auto, using(crate::proofs::Descents::main_down, crate::proofs::Descents::found_tables, crate::proofs::Descents::no_tables_found))]
pub(crate) fn tables_at(alloc: Global, main: &Anchor, path: &[Name]) -> Made<Tables>
    requires { main.now.names ≡ [] }
    ensures { IfOk result (λ t. t ≡ tables_in (anchor_at path.now main.now.anchors)) }
{
    match descend(main, path) {
        Some(anchor) => anchor.own().tables.copied(),
        None => Tables::new(alloc),
    }
}

/// Whether a path of the map begins with this one and an unnamed name. The anchor at the path alone is asked.
pub(crate) fn has_unnamed(main: &Anchor, path: &[Name]) -> bool
    requires { main.now.names ≡ [] }
    ensures { result ≡ any_unnamed path.now main.now.anchors }
{
    match descend(main, path) {
        Some(anchor) => anchor.has_unnamed_kid(),
        None => false,
    }
}

/// The rules at a path, shared, and these tables.
#[tactic(auto, using(crate::proofs::Descents::main_down, crate::proofs::Descents::found_rules, crate::proofs::Descents::no_rules_found))]
fn own_with(main: &Anchor, path: &[Name], tables: Tables) -> Made<Own>
    requires { main.now.names ≡ [] }
    ensures rules { IfOk result (λ o. map rule_of o.items.value.items ≡
        rules_in (anchor_at path.now main.now.anchors)) }
    ensures tables { IfOk result (λ o. o.tables ≡ tables) }
{
    match descend(main, path) {
        Some(anchor) => anchor.own().with_tables(tables),
        None => Own::without_rules(tables),
    }
}

/// The map with these tables at a path.
pub(crate) fn with_tables(
    alloc: Global,
    main: &Anchor,
    path: &[Name],
    tables: Tables,
) -> Made<Anchor>
    requires { main.now.names ≡ [] }
    ensures names { IfOk result (λ a. a.names ≡ []) }
    ensures map { IfOk result (λ a. a.anchors ≡ with_tables path.now tables main.now.anchors) }
{
    let rules = own_with(main, path, tables)?;
    let own = main.copied(alloc)?;
    let next = with_entry(own, path, rules)?;
    Ok(next)
}

/// The map with these rules at a path.
fn with_rules(alloc: Global, main: Anchor, path: &[Name], items: Rc<Vec<Item>>) -> Made<Anchor>
    requires names { main.names ≡ [] }
    requires few { length items.value.items ≤ RULES_MAX }
    ensures names { IfOk result (λ a. a.names ≡ []) }
    ensures map { IfOk result (λ a. a.anchors ≡ with_rules path.now (map rule_of items.value.items) main.anchors) }
{
    let rules = Own::of(items, tables_at(alloc, &main, path)?)?;
    let next = with_entry(main, path, rules)?;
    Ok(next)
}

/// The map with no unnamed blocks below a path.
#[tactic(auto, using(crate::proofs::Cut::none_unnamed))]
pub(crate) fn cut(alloc: Global, main: Anchor, path: &[Name]) -> Made<Anchor>
    requires { main.names ≡ [] }
    ensures names { IfOk result (λ a. a.names ≡ []) }
    ensures map { IfOk result (λ a. a.anchors ≡ without_unnamed path.now main.anchors) }
{
    if !has_unnamed(&main, path) {
        return Ok(main);
    }
    main.without_unnamed(alloc, path)
}

/// The map with these rules at a path, and no unnamed blocks below it.
pub(crate) fn placed(
    alloc: Global,
    main: Anchor,
    path: &[Name],
    items: Rc<Vec<Item>>,
) -> Made<Anchor>
    requires names { main.names ≡ [] }
    requires few { length items.value.items ≤ RULES_MAX }
    ensures names { IfOk result (λ a. a.names ≡ []) }
    ensures map { IfOk result (λ a. a.anchors ≡ placed main.anchors (record {
      path = path.now;
      rules = map rule_of items.value.items;
    })) }
{
    with_rules(alloc, cut(alloc, main, path)?, path, items)
}

/// The map without the tables that no rule refers to.
#[tactic(auto, using(crate::proofs::Cut::none_sheds), unfolding(crate::specs::Changes::tidied))]
pub(crate) fn tidied(alloc: Global, all: Anchor) -> Made<Anchor>
    ensures names { IfOk result (λ a. a.names ≡ all.names) }
    ensures map { IfOk result (λ a. a.anchors ≡ tidied all.anchors) }
{
    let known = gathered(alloc, &all)?;
    if !all.has_unused(&all, &known) {
        return Ok(all);
    }
    all.tidied(alloc, &all, &known)
}
