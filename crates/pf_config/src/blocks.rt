//! The blocks of a ruleset, each with its path.

ghost use Rattle.std.specs.Prelude.{◌≡◌, ◌≤◌, ◌++◌, false, length, IfOk, OnOk};
ghost use Rattle.std.specs.List.{list_any};
ghost use Rattle.pf_rules.specs.Items.{values_of};
ghost use Rattle.pf_rules.specs.inner.Items.{is_overfull};
ghost use Rattle.pf_rules.specs.Seen.{item_of, items_of};
ghost use Rattle.pf_config.specs.Changes.{blocks_of, blocks_in};

use crate::Made;
use crate::paths::joined;
use crate::placing::Placing;
use pf_rules::{Item, Name};
use std::alloc::Global;
use std::rc::Rc;

/// The blocks of rules at a path: each is before those in it, and these before the blocks that follow.
pub(crate) fn blocks_in(alloc: Global, path: &[Name], items: &[Item]) -> Made<Vec<Placing>>
    requires { list_any is_overfull (items_of items.now) ≡ false }
    ensures { IfOk result (λ v. v.items ≡ blocks_in path.now (values_of (items_of items.now))) }
{
    let mut found = Vec::new(alloc);
    put_blocks(alloc, path, items, &mut found)?;
    Ok(found)
}

/// Puts the blocks of these rules behind those that were found.
#[cycle(blocks)]
fn put_blocks(alloc: Global, path: &[Name], items: &[Item], found: &mut Vec<Placing>) -> Made<()>
    requires { list_any is_overfull (items_of items.now) ≡ false }
    ensures { OnOk result (found.new.items ≡
        found.old.items ++ blocks_in path.now (values_of (items_of items.now))) }
{
    for item in items {
        put_blocks_of(alloc, path, item, found)?;
    }
    Ok(())
}

/// Puts the block of a rule, if it carries one, and those in it, behind those that were found.
#[cycle(blocks)]
fn put_blocks_of(alloc: Global, path: &[Name], item: &Item, found: &mut Vec<Placing>) -> Made<()>
    requires { is_overfull (item_of item.now) ≡ false }
    ensures { OnOk result (found.new.items ≡ found.old.items ++ blocks_of path.now (item_of item.now)) }
{
    match item {
        Item::Filter(_) => Ok(()),
        Item::Anchor(anchor) => match &anchor.block {
            None => Ok(()),
            Some(items) => {
                let names = joined(alloc, path, &anchor.heading.target.names)?;
                let own = joined(alloc, path, &anchor.heading.target.names)?;
                found.push(Placing::new(own, items.clone()?))?;
                put_blocks(alloc, &names, items, found)
            }
        },
    }
}
