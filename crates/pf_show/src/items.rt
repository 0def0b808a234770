//! Rules as text: a line for each, and those of a block between the lines of its braces.

ghost use Rattle.std.specs.Prelude.{◌≡◌, ◌∷◌, ◌++◌, Some, OnOk, codes, string_bytes};
ghost use Rattle.std.specs.List.{flat_map};
ghost use Rattle.pf_rules.specs.Seen.{heading_of, target_of};
ghost use Rattle.pf_show.specs.Shown.{slashed, target_part, heading_parts, anchor_parts, is_unnamed, block_target};
ghost use Rattle.pf_show.specs.Shown.{block_parts, line};
ghost use Rattle.pf_show.specs.inner.Spaced.{spaced, item_line, item_text, slash_name};

use crate::shown::{direction_part, push_conditions, push_flags, push_rule, quick_part, text_if};
use pf_rules::{Action, AnchorHeading, Item, Name, Target};
use std::alloc::AllocError;
use std::fmt;

/// Names, each behind a slash.
#[derive(Clone, Copy)]
struct SlashNames<'a>(&'a [Name]);

impl fmt::Display for SlashNames<'_> {
    ghost output = { λ n. Some (flat_map slash_name n.0.now) };

    fn fmt<W: fmt::Write>(&self, f: &mut fmt::Formatter<W>) -> fmt::Result {
        for name in self.0 {
            write!(f, "/{}", name.as_str())?;
        }
        Ok(())
    }
}

/// Names between slashes.
#[derive(Clone, Copy)]
pub struct Slashed<'a>(pub &'a [Name]);

impl fmt::Display for Slashed<'_> {
    ghost output = { λ n. Some (slashed n.0.now) };

    #[tactic(auto, using(crate::proofs::Anchors::slashed_is))]
    fn fmt<W: fmt::Write>(&self, f: &mut fmt::Formatter<W>) -> fmt::Result {
        let Some((first, more)) = self.0.split_first() else {
            return Ok(());
        };
        let name = first.as_str();
        let behind = SlashNames(more);
        write!(f, "{name}{behind}")
    }
}

/// Puts the target of an anchor rule behind a blank behind the text.
#[tactic(auto, using(crate::proofs::Anchors::children_is))]
fn push_target(out: &mut String, target: &Target) -> Result<(), AllocError>
    ensures { OnOk result (string_bytes out.new ≡ string_bytes out.old ++ 32 ∷ target_part (target_of target.now)) }
{
    let children = text_if(target.children, "/*");
    write!(out, " \"{}{children}\"", Slashed(&target.names))
}

/// Whether they are the name of an unnamed block.
fn is_unnamed(names: &[Name]) -> bool
    ensures { result ≡ is_unnamed names.now }
{
    match names {
        [name] => name.is_unnamed(),
        _ => false,
    }
}

/// Puts the target of a rule that carries a block behind a blank, unless the block is unnamed, behind the text.
fn push_block_target(out: &mut String, target: &Target) -> Result<(), AllocError>
    ensures { OnOk result (string_bytes out.new
        ≡ string_bytes out.old ++ spaced (block_target (target_of target.now))) }
{
    if is_unnamed(&target.names) {
        return Ok(());
    }
    push_target(out, target)
}

/// Puts what is behind an anchor rule's target behind the text.
fn push_heading(out: &mut String, heading: &AnchorHeading) -> Result<(), AllocError>
    ensures { OnOk result (string_bytes out.new
        ≡ string_bytes out.old ++ spaced (heading_parts (heading_of heading.now))) }
{
    out.push_str(direction_part(heading.conditions.direction))?;
    out.push_str(quick_part(heading.quick))?;
    push_conditions(out, &heading.conditions)?;
    push_flags(out, Action::Drop, heading.conditions.flags)
}

/// Puts the line of an anchor rule without a block behind the text.
fn push_anchor(out: &mut String, heading: &AnchorHeading) -> Result<(), AllocError>
    ensures { OnOk result (string_bytes out.new
        ≡ string_bytes out.old ++ line (anchor_parts (heading_of heading.now))) }
{
    out.push_str("anchor")?;
    push_target(out, &heading.target)?;
    push_heading(out, heading)?;
    out.push_str("\n")
}

/// Puts the line of an anchor rule that carries a block, up to the brace that opens it, behind the text.
fn push_opening(out: &mut String, heading: &AnchorHeading) -> Result<(), AllocError>
    ensures { OnOk result (string_bytes out.new
        ≡ string_bytes out.old ++ line (block_parts (heading_of heading.now))) }
{
    out.push_str("anchor")?;
    push_block_target(out, &heading.target)?;
    push_heading(out, heading)?;
    out.push_str(" {\n")
}

/// Puts the line of an item without its block behind the text.
pub(crate) fn push_line(out: &mut String, item: &Item) -> Result<(), AllocError>
    ensures { OnOk result (string_bytes out.new ≡ string_bytes out.old ++ item_line item.now) }
{
    match item {
        Item::Filter(rule) => push_rule(out, rule),
        Item::Anchor(anchor) => push_anchor(out, &anchor.heading),
    }
}

/// Puts an item, with its block if it carries one, behind the text.
#[cycle(text)]
#[tactic(auto, using(crate::proofs::Anchors::block_text_is))]
fn push_item(out: &mut String, item: &Item) -> Result<(), AllocError>
    ensures { OnOk result (string_bytes out.new ≡ string_bytes out.old ++ item_text item.now) }
{
    match item {
        Item::Filter(rule) => push_rule(out, rule),
        Item::Anchor(anchor) => match &anchor.block {
            None => push_anchor(out, &anchor.heading),
            Some(block) => push_block(out, &anchor.heading, block.as_slice()),
        },
    }
}

/// Puts an anchor rule and the items of the block that it carries behind the text.
#[cycle(text)]
fn push_block(out: &mut String, heading: &AnchorHeading, items: &[Item]) -> Result<(), AllocError>
    ensures { OnOk result (string_bytes out.new ≡ string_bytes out.old
        ++ (line (block_parts (heading_of heading.now)) ++ (flat_map item_text items.now ++ codes "}\n"))) }
{
    push_opening(out, heading)?;
    push_items(out, items)?;
    out.push_str("}\n")
}

/// Puts items, with their blocks, behind the text.
#[cycle(text)]
pub(crate) fn push_items(out: &mut String, items: &[Item]) -> Result<(), AllocError>
    ensures { OnOk result (string_bytes out.new ≡ string_bytes out.old ++ flat_map item_text items.now) }
{
    for item in items {
        push_item(out, item)?;
    }
    Ok(())
}
