//! What anchor rules with blocks give, and why one is refused.

ghost use Rattle.std.specs.Prelude.{◌≡◌, ◌++◌, map, IfErr, IfOk, None, OnOk, Some};
ghost use Rattle.pf_rules.specs.declared.rule.Rule.{Rule as IRule};
ghost use Rattle.pf_rules.specs.Items.{Anchors, Filters, Heading as IHeading, values_of};
ghost use Rattle.pf_rules.specs.Seen.{heading_of, items_of};
ghost use Rattle.pf_statements.specs.Seen.{anchor_text_of, heading_text_of, item_text_of, item_texts_of, text_of};
ghost use Rattle.pf_expansion.specs.Anchors.{headings};
ghost use Rattle.pf_expansion.specs.Blocks.{block_causes, block_values, carried, item_values, named, unnamed_in};
ghost use Rattle.pf_expansion.specs.Causes.{lowest};
ghost use Rattle.pf_expansion.specs.Expansion.{expanded};

use crate::anchors::headings_of;
use crate::block_names::{item_misnamed, target_or_given, unnamed_after, unnamed_in};
use crate::block_paths::is_twice;
use crate::cause::{Cause, Made};
use crate::expand::combined;
use crate::judged::item_judged;
use crate::rules::{rule_flags, rules_with, tested_flags};
use pf_rules::{AnchorHeading, Item, Policy, Rule};
use pf_statements::{WrittenAnchor, WrittenHeading, WrittenItem, WrittenRule};
use std::alloc::{AllocError, Global};

/// Appends the rules. A growth that is refused is the error.
#[tactic(auto, using(crate::proofs::Pushed::items_push))]
pub fn push_rules(items: &mut Vec<Item>, rules: Vec<Rule>) -> Result<(), AllocError>
    ensures { OnOk result (items_of items.new.items ≡ items_of items.old.items ++
        map (λ (r : IRule). Filters r) rules.items) }
{
    for rule in rules {
        items.push(Item::filter(rule))?;
    }
    Ok(())
}

/// Appends the anchor rules. A growth that is refused is the error.
#[tactic(auto, using(crate::proofs::Pushed::items_push))]
pub fn push_anchors(items: &mut Vec<Item>, headings: Vec<AnchorHeading>) -> Result<(), AllocError>
    ensures { OnOk result (items_of items.new.items ≡ items_of items.old.items ++
        map (λ (h : IHeading). Anchors h) (map heading_of headings.items)) }
{
    for heading in headings {
        items.push(Item::anchor(heading))?;
    }
    Ok(())
}

/// Appends the anchor rules, of which the first carries the block.
#[tactic(auto, using(crate::proofs::Pushed::items_push))]
fn push_carried(items: &mut Vec<Item>, headings: Vec<AnchorHeading>, block: Vec<Item>) -> Made<()>
    ensures { OnOk result (items_of items.new.items ≡ items_of items.old.items ++
        carried (map heading_of headings.items) (values_of (items_of block.items))) }
{
    let mut headings = headings;
    if headings.is_empty() {
        return Ok(());
    }
    let first = headings.remove(0);
    let carrying = Item::block(*items.allocator(), first, block)?;
    items.push(carrying)?;
    push_anchors(items, headings)
}

/// The rules of a written one.
#[tactic(auto, unfolding(crate::specs::Expansion::expanded))]
fn expanded(alloc: Global, policy: Policy, rule: &WrittenRule) -> Result<Vec<Rule>, AllocError>
    ensures { IfOk result (λ rules. rules.items ≡ expanded policy (text_of rule.now)) }
{
    let found = combined(alloc, rule_flags(rule), &rule.conditions)?;
    rules_with(policy, rule, found)
}

/// The anchor rules of a written one.
#[tactic(auto, unfolding(crate::specs::Anchors::headings))]
fn headings(alloc: Global, anchor: &WrittenAnchor) -> Result<Vec<AnchorHeading>, AllocError>
    ensures { IfOk result (λ hs. map heading_of hs.items ≡ headings (anchor_text_of anchor.now)) }
{
    let test = tested_flags(false, anchor.conditions.flags);
    let found = combined(alloc, test, &anchor.conditions)?;
    headings_of(&anchor.target, anchor.quick, found)
}

/// The anchor rules of one with a block, behind that many unnamed blocks.
#[tactic(auto, unfolding(crate::specs::Anchors::headings))]
fn named_headings(alloc: Global, unnamed: u32, heading: &WrittenHeading) -> Made<Vec<AnchorHeading>>
    ensures { IfOk result (λ hs. map heading_of hs.items ≡
        headings (named unnamed (heading_text_of heading.now))) }
{
    let test = tested_flags(false, heading.conditions.flags);
    let found = combined(alloc, test, &heading.conditions)?;
    let target = target_or_given(alloc, unnamed, &heading.target)?;
    headings_of(&target, heading.quick, found)
}

/// Appends the rules of a written one behind that many unnamed blocks of its ruleset.
#[cycle(values)]
fn push_item(policy: Policy, unnamed: u32, item: &WrittenItem, items: &mut Vec<Item>) -> Made<()>
    ensures { OnOk result (items_of items.new.items ≡ items_of items.old.items ++
        item_values policy unnamed (item_text_of item.now)) }
{
    let alloc = *items.allocator();
    match item {
        WrittenItem::Rule(rule) => push_rules(items, expanded(alloc, policy, rule)?),
        WrittenItem::Anchor(anchor) => push_anchors(items, headings(alloc, anchor)?),
        WrittenItem::Block(heading, within) => {
            let block = block_items(alloc, policy, within)?;
            let headings = named_headings(alloc, unnamed, heading)?;
            push_carried(items, headings, block)
        }
    }
}

/// The rules of a block.
#[cycle(values)]
fn block_items(alloc: Global, policy: Policy, items: &[WrittenItem]) -> Made<Vec<Item>>
    ensures { IfOk result (λ found. items_of found.items ≡ block_values policy 0 (item_texts_of items.now)) }
{
    let mut found = Vec::new(alloc);
    let mut unnamed = 0u32;
    for item in items {
        push_item(policy, unnamed, item, &mut found)?;
        unnamed = unnamed_after(unnamed, item);
    }
    Ok(found)
}

/// The rules of an anchor rule with its block behind others, a plain `block` being the policy's, or the lowest cause
/// that refuses it or a rule within (pf.conf(5), ANCHORS). A growth that is refused is the error.
pub fn judge_block(
    alloc: Global,
    policy: Policy,
    before: &[Item],
    item: &WrittenItem,
) -> Result<Result<Vec<Item>, Cause>, AllocError>
    ensures allowed { IfOk result (λ judged. IfOk judged (λ items.
        lowest (block_causes (items_of before.now) (item_text_of item.now)) ≡ None)) }
    ensures items { IfOk result (λ judged. IfOk judged (λ items. items_of items.items ≡
        item_values policy (unnamed_in 0 (items_of before.now)) (item_text_of item.now))) }
    ensures refused { IfOk result (λ judged. IfErr judged (λ cause.
        lowest (block_causes (items_of before.now) (item_text_of item.now)) ≡ Some cause)) }
{
    let unnamed = unnamed_in(before);
    let misnamed = item_misnamed(alloc, unnamed, item)?;
    let twice = is_twice(alloc, before, item)?;
    if let Some(cause) = item_judged(item).cause(before.len(), misnamed, twice) {
        return Ok(Err(cause));
    }
    let mut items = Vec::new(alloc);
    push_item(policy, unnamed, item, &mut items)?;
    Ok(Ok(items))
}
