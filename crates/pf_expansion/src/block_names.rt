//! The names that unnamed blocks are given, and which rules may use them.

ghost use Rattle.std.specs.Prelude.{◌≡◌, ◌<◌, ◌^◌, IfOk, option_map};
ghost use Rattle.pf_rules.specs.Seen.{item_of, items_of, target_of};
ghost use Rattle.pf_statements.specs.Seen.{item_text_of, item_texts_of};
ghost use Rattle.pf_expansion.specs.Anchors.{given_name, is_given, is_given_alone, is_misnamed};
ghost use Rattle.pf_expansion.specs.Blocks.{block_misnamed, is_reserved_name, is_unnamed};
ghost use Rattle.pf_expansion.specs.Blocks.{item_misnamed, next_unnamed, target_or_given, unnamed_after};
ghost use Rattle.pf_expansion.specs.Blocks.{unnamed_in, unnamed_with};

use crate::anchors::is_reserved;
use crate::cause::Made;
use pf_rules::{Item, Name, Target, parse_decimal};
use pf_statements::WrittenItem;
use std::alloc::{AllocError, Global};

/// The most unnamed blocks that are distinguished: a statement has no more tokens.
const MOST_UNNAMED: u16 = 65_535;

/// One more unnamed block.
fn next_unnamed(count: u32) -> u32
    ensures { result ≡ next_unnamed count }
{
    if count < 65_535 { count + 1 } else { 65_535 }
}

/// The name of the k-th unnamed block of a ruleset.
fn given_name(alloc: Global, k: u32) -> Result<Name, AllocError>
    ensures { IfOk result (λ name. name ≡ given_name k) }
{
    let text = format!(in alloc; "_{k}")?;
    let name = Name::new(alloc, text.as_bytes())?;
    Ok(name.unwrap())
}

/// The target of a block behind that many unnamed ones: the one that is written, or the one that it is given.
pub(crate) fn target_or_given(alloc: Global, unnamed: u32, target: &Option<Target>) -> Made<Target>
    ensures { IfOk result (λ found. target_of found ≡ target_or_given unnamed (option_map target_of target.now)) }
{
    if let Some(target) = target {
        return target.copied(alloc);
    }
    let names = vec![in alloc; given_name(alloc, next_unnamed(unnamed))?]?;
    let children = false;
    Ok(Target { names, children })
}

/// How many unnamed blocks there are with this rule.
pub(crate) fn unnamed_after(unnamed: u32, item: &WrittenItem) -> u32
    ensures { result ≡ unnamed_after unnamed (item_text_of item.now) }
{
    match item {
        WrittenItem::Block(heading, _) if heading.target.is_none() => next_unnamed(unnamed),
        WrittenItem::Rule(_) | WrittenItem::Anchor(_) | WrittenItem::Block(..) => unnamed,
    }
}

/// Whether it is the name of an unnamed block, and nothing else.
fn is_unnamed(names: &[Name]) -> bool
    ensures { result ≡ is_unnamed names.now }
{
    matches!(names, [name] if name.is_unnamed())
}

/// How many unnamed blocks there are with this rule, which is before.
fn unnamed_with(unnamed: u32, item: &Item) -> u32
    ensures { result ≡ unnamed_with unnamed (item_of item.now) }
{
    let Item::Anchor(anchor) = item else {
        return unnamed;
    };
    if anchor.block.is_some() && is_unnamed(&anchor.heading.target.names) {
        next_unnamed(unnamed)
    } else {
        unnamed
    }
}

/// How many unnamed blocks the rules carry.
pub fn unnamed_in(items: &[Item]) -> u32
    ensures { result ≡ unnamed_in 0 (items_of items.now) }
{
    let mut unnamed = 0u32;
    for item in items {
        unnamed = unnamed_with(unnamed, item);
    }
    unnamed
}

/// Whether it is the name of one of the first that many unnamed blocks.
#[tactic(auto, unfolding(crate::specs::Anchors::is_given))]
fn is_given(alloc: Global, unnamed: u32, name: &Name) -> Result<bool, AllocError>
    ensures { IfOk result (λ given. given ≡ is_given unnamed name.now) }
{
    let Some((_, digits)) = name.as_bytes().split_first() else {
        return Ok(false);
    };
    let Some(k) = parse_decimal(digits, 5, MOST_UNNAMED) else {
        return Ok(false);
    };
    let k = u32::from(k);
    Ok(k >= 1 && k <= unnamed && name.as_bytes() == given_name(alloc, k)?.as_bytes())
}

/// Whether it is that name, and nothing else.
fn is_given_alone(alloc: Global, unnamed: u32, names: &[Name]) -> Result<bool, AllocError>
    ensures { IfOk result (λ given. given ≡ is_given_alone unnamed names.now) }
{
    match names {
        [name] => is_given(alloc, unnamed, name),
        _ => Ok(false),
    }
}

/// Whether a name begins with `_` and isn't that of an unnamed block that is before, alone.
#[tactic(auto, unfolding(crate::specs::Anchors::is_misnamed))]
pub(crate) fn is_misnamed(alloc: Global, unnamed: u32, target: &Target) -> Result<bool, AllocError>
    ensures { IfOk result (λ misnamed. misnamed ≡ is_misnamed unnamed (target_of target.now)) }
{
    if !is_reserved(target) {
        return Ok(false);
    }
    Ok(target.children || !is_given_alone(alloc, unnamed, &target.names)?)
}

/// Whether a name of a block, if it has one, begins with `_`.
fn is_reserved_name(target: &Option<Target>) -> bool
    ensures { result ≡ is_reserved_name (option_map target_of target.now) }
{
    target.as_ref().is_some_and(|target| is_reserved(target))
}

/// Whether a name in a rule, or in its block, begins with `_` where none may.
#[cycle(misnamed)]
pub(crate) fn item_misnamed(alloc: Global, unnamed: u32, item: &WrittenItem) -> Made<bool>
    ensures { IfOk result (λ misnamed. misnamed ≡ item_misnamed unnamed (item_text_of item.now)) }
{
    match item {
        WrittenItem::Rule(_) => Ok(false),
        WrittenItem::Anchor(anchor) => is_misnamed(alloc, unnamed, &anchor.target),
        WrittenItem::Block(heading, items) => {
            Ok(is_reserved_name(&heading.target) || items_misnamed(alloc, items)?)
        }
    }
}

/// Whether a name in the rules of a block begins with `_` where none may.
#[cycle(misnamed)]
fn items_misnamed(alloc: Global, items: &[WrittenItem]) -> Result<bool, AllocError>
    ensures { IfOk result (λ misnamed. misnamed ≡ block_misnamed 0 (item_texts_of items.now)) }
{
    let mut unnamed = 0u32;
    for item in items {
        if item_misnamed(alloc, unnamed, item)? {
            return Ok(true);
        }
        unnamed = unnamed_after(unnamed, item);
    }
    Ok(false)
}
