//! The paths of blocks, counted from the root of the text.

ghost use Rattle.std.specs.Prelude.{◌≡◌, ◌++◌, ◌∷◌, [], ℕ, Some, is_none, IfOk, OnOk, IfSome, nat_eq};
ghost use Rattle.std.specs.List.{list_any};
ghost use Rattle.std.specs.Ordering.{nat_cmp};
ghost use Rattle.std.specs.BTreeSet.{contains};
ghost use Rattle.pf_rules.specs.Items.{values_of};
ghost use Rattle.pf_rules.specs.Seen.{item_of, items_of};
ghost use Rattle.pf_statements.specs.Seen.{item_text_of, item_texts_of};
ghost use Rattle.pf_expansion.specs.Blocks.{Path, block_paths, is_twice, item_paths, paths_in, paths_within};
ghost use Rattle.pf_expansion.specs.inner.Numbers.{AreNumbered, has_again, is_marked};

use crate::block_names::{target_or_given, unnamed_after, unnamed_in};
use crate::cause::Made;
use crate::numbers::Numbers;
use pf_rules::{AnchorHeading, Item};
use pf_statements::WrittenItem;
use std::alloc::{AllocError, Global};
use std::collections::BTreeSet;

/// Appends the numbers of the paths of the blocks in a written rule behind that many unnamed ones, which is at the
/// path of this number.
#[cycle(paths)]
fn push_item_paths(numbers: &mut Numbers, from: usize, unnamed: u32, item: &WrittenItem) -> Made<()>
    ensures { OnOk result (AreNumbered numbers.old.steps numbers.new.steps from numbers.old.found.items
        numbers.new.found.items
        (λ (path : Path). item_paths path unnamed (item_text_of item.now)) (λ (path : Path). [])) }
{
    match item {
        WrittenItem::Block(heading, items) => {
            let target = target_or_given(numbers.alloc, unnamed, &heading.target)?;
            let at = numbers.push_walk(from, &target.names)?;
            push_block_paths(numbers, at, items)?;
            numbers.found.push(at)?;
            Ok(())
        }
        WrittenItem::Rule(_) => Ok(()),
        WrittenItem::Anchor(_) => Ok(()),
    }
}

/// Appends the numbers of the paths of the blocks in the rules of a block, which is at the path of this number.
#[cycle(paths)]
fn push_block_paths(numbers: &mut Numbers, from: usize, items: &[WrittenItem]) -> Made<()>
    ensures { OnOk result (AreNumbered numbers.old.steps numbers.new.steps from numbers.old.found.items
        numbers.new.found.items (λ (path : Path). block_paths path 0 (item_texts_of items.now)) (λ (path : Path). [])) }
{
    let mut unnamed = 0u32;
    for item in items {
        push_item_paths(numbers, from, unnamed, item)?;
        unnamed = unnamed_after(unnamed, item);
    }
    Ok(())
}

/// The numbers as a set, none where one comes again.
fn as_set(alloc: Global, numbers: &[usize]) -> Result<Option<BTreeSet<usize>>, AllocError>
    ensures again { IfOk result (λ set. is_none set ≡ has_again numbers.now) }
    ensures numbers { IfOk result (λ set. IfSome set (λ set.
        (k : ℕ) → contains nat_cmp set k ≡ list_any (nat_eq k) numbers.now)) }
{
    let mut set = BTreeSet::new(alloc);
    for number in numbers {
        match set.insert(*number) {
            Ok(true) => {}
            Ok(false) => return Ok(None),
            Err(_) => return Err(AllocError),
        }
    }
    Ok(Some(set))
}

/// Whether a path of a block in the rule, which is at the path of this number, has a number of the set.
#[cycle(values)]
fn is_in(numbers: &Numbers, set: &BTreeSet<usize>, from: usize, item: &Item) -> Made<bool>
    ensures { IfOk result (λ found. found ≡
        list_any (is_marked numbers.now.steps set.now (Some from)) (paths_in [] (item_of item.now))) }
{
    match item {
        Item::Filter(_) => Ok(false),
        Item::Anchor(anchor) => match &anchor.block {
            None => Ok(false),
            Some(block) => is_carried(numbers, set, from, &anchor.heading, block.as_slice()),
        },
    }
}

/// Whether the path of a block with these rules, which is at the path of this number, has a number of the set, or
/// one of a block in it.
#[cycle(values)]
fn is_carried(
    numbers: &Numbers,
    set: &BTreeSet<usize>,
    from: usize,
    heading: &AnchorHeading,
    items: &[Item],
) -> Result<bool, AllocError>
    ensures { IfOk result (λ found. found ≡ list_any (is_marked numbers.now.steps set.now (Some from))
        (paths_within heading.now.target.names.items (values_of (items_of items.now)) ++
        heading.now.target.names.items ∷ [])) }
{
    let Some(at) = numbers.walk(from, &heading.target.names)? else {
        return Ok(false);
    };
    if set.contains(&at) {
        return Ok(true);
    }
    let found = any_in(numbers, set, at, items)?;
    Ok(found)
}

/// Whether a path of a block in the rules, which are at the path of this number, has a number of the set.
#[cycle(values)]
fn any_in(numbers: &Numbers, set: &BTreeSet<usize>, from: usize, items: &[Item]) -> Made<bool>
    ensures { IfOk result (λ found. found ≡ list_any (is_marked numbers.now.steps set.now (Some from))
        (paths_within [] (values_of (items_of items.now)))) }
{
    for item in items {
        if is_in(numbers, set, from, item)? {
            return Ok(true);
        }
    }
    Ok(false)
}

/// Whether a path of a block in this rule is that of another one, or of one in the rules that are before. The paths
/// in this rule are numbered, and those before are looked for among them: a block that no path in this rule leads to is
/// passed over with all that it holds.
#[tactic(auto, unfolding(crate::specs::Blocks::is_twice))]
pub(crate) fn is_twice(alloc: Global, before: &[Item], item: &WrittenItem) -> Made<bool>
    ensures { IfOk result (λ twice. twice ≡ is_twice (items_of before.now) (item_text_of item.now)) }
{
    let mut numbers = Numbers::new(alloc);
    push_item_paths(&mut numbers, 0, unnamed_in(before), item)?;
    let Some(set) = as_set(alloc, &numbers.found)? else {
        return Ok(true);
    };
    let twice = any_in(&numbers, &set, 0, before)?;
    Ok(twice)
}
