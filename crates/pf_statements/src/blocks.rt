//! Rules of any kind, and the blocks that anchor rules carry.

ghost use Rattle.std.specs.Prelude.{◌≡◌, ◌≤◌, ◌<◌, ℕ, length, option_map, OnOk};
ghost use Rattle.pf_rules.specs.Seen.{target_of};
ghost use Rattle.pf_tokens.specs.Parsing.{left, later, Parses};
ghost use Rattle.pf_statements.specs.Statements.{anchor_item, is_wild, item_at, items_at, rule_item_at};
ghost use Rattle.pf_statements.specs.Seen.{heading_text_of, item_text_of, item_texts_of};

use crate::anchors::read_heading;
use crate::common::{Context, Read, expect};
use crate::options::is_over;
use crate::statements::read_rule;
use crate::written::{WrittenAnchor, WrittenHeading, WrittenItem};
use pf_rules::Target;
use pf_tokens::{Parser, Stop, Symbol};

/// The most blocks that may be in one another: a statement has no more braces open at once.
const MOST_NESTED: u8 = 64;

/// Whether `/*` is behind the name.
fn is_wild(target: &Option<Target>) -> bool
    ensures { result ≡ is_wild (option_map target_of target.now) }
{
    target.as_ref().is_some_and(|target| target.children)
}

/// A filter rule.
fn read_rule_item<'t: 's, 's>(cx: Context, parser: &mut Parser<'t, 's>) -> Read<WrittenItem>
    ensures read { Parses item_text_of result (left parser.new) (rule_item_at cx.profile (left parser.old)) }
    ensures later { later parser.new ≡ later parser.old }
{
    Ok(WrittenItem::Rule(read_rule(cx, parser)?))
}

/// An anchor rule without a block, behind its heading.
fn end_anchor(heading: WrittenHeading, parser: &Parser<'_, '_>) -> Read<WrittenItem>
    ensures { Parses item_text_of result (left parser.now) (anchor_item (heading_text_of heading) (left parser.now)) }
{
    let target = heading.target.ok_or(Stop::Syntax)?;
    expect(is_over(parser))?;
    Ok(WrittenItem::Anchor(WrittenAnchor {
        target,
        quick: heading.quick,
        conditions: heading.conditions,
    }))
}

/// A filter rule, or an anchor rule with its block, where that many blocks are open. `TooMany` where there are more
/// than a statement may have open braces.
#[cycle(block)]
pub(crate) fn read_item<'t: 's, 's>(
    cx: Context,
    open: u8,
    parser: &mut Parser<'t, 's>,
) -> Read<WrittenItem>
    ensures read { (n : ℕ) → length (left parser.old) ≤ n → Parses item_text_of result (left parser.new)
        (item_at n cx.profile (left parser.old)) }
    ensures later { later parser.new ≡ later parser.old }
    ensures shorter { OnOk result (length (left parser.new) < length (left parser.old)) }
{
    if !parser.accept(b"anchor") {
        return read_rule_item(cx, parser);
    }
    let heading = read_heading(cx, parser)?;
    if !parser.accept_symbol(Symbol::Open) {
        return end_anchor(heading, parser);
    }
    if is_wild(&heading.target) {
        return Err(Stop::Syntax);
    }
    if open >= MOST_NESTED {
        return Err(Stop::TooMany);
    }
    let items = read_items(cx, open + 1, parser)?;
    if !is_over(parser) {
        return Err(Stop::Syntax);
    }
    Ok(WrittenItem::Block(heading, items))
}

/// The rules behind the brace that opens a block, up to the one that closes it, where that many blocks are open.
#[cycle(block)]
fn read_items<'t: 's, 's>(
    cx: Context,
    open: u8,
    parser: &mut Parser<'t, 's>,
) -> Read<Vec<WrittenItem>>
    ensures read { (n : ℕ) → length (left parser.old) < n → Parses (λ v. item_texts_of v.items) result (left parser.new)
        (items_at n cx.profile (left parser.old)) }
    ensures later { later parser.new ≡ later parser.old }
    ensures shorter { OnOk result (length (left parser.new) < length (left parser.old)) }
{
    let mut items = Vec::new(cx.alloc);
    loop {
        if parser.accept_newline() {
            continue;
        }
        if parser.accept_symbol(Symbol::Close) {
            return Ok(items);
        }
        let item = read_item(cx, open, parser)?;
        items.push(item)?;
    }
}
