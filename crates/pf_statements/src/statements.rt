//! Statements that define no macro.

ghost use Rattle.std.specs.Prelude.{◌≡◌};
ghost use Rattle.pf_tokens.specs.Parsing.{left, later, Parses, Reads};
ghost use Rattle.pf_statements.specs.Statements.{policy_at, action_at, may_keep, rule_at};
ghost use Rattle.pf_statements.specs.Statements.{setting_of, value_of};
ghost use Rattle.pf_statements.specs.Seen.{text_of, statement_of, Spells};
ghost use Rattle.pf_statements.specs.Seen as seen;

use crate::blocks::read_item;
use crate::common::{Context, Read, expect, read_common};
use crate::conditions::WrittenConditions;
use crate::directions::read_direction;
use crate::interfaces::InterfaceNameProduction;
use crate::options::read_options;
use crate::tables::read_table_text;
use crate::written::{Setting, Statement, WrittenAction, WrittenItem, WrittenRule};
use pf_rules::{Policy, Profile};
use pf_tokens::{Parser, Stop, some};
use std::alloc::Global;

/// What a block does, if it is given.
#[tactic(auto, unfolding(pf_tokens::specs::Productions::option_at, crate::specs::Statements::policy_at))]
fn read_policy<'t: 's, 's>(parser: &mut Parser<'t, 's>) -> Option<Policy>
    ensures read { (result, left parser.new) ≡ policy_at (left parser.old) }
    ensures later { later parser.new ≡ later parser.old }
{
    if parser.accept(b"drop") {
        return Some(Policy::Drop);
    }
    parser.accept(b"return").then_some(Policy::Return)
}

/// What a rule does.
#[tactic(auto, unfolding(pf_tokens::specs::Productions::option_at, crate::specs::Statements::action_at))]
fn read_action<'t: 's, 's>(parser: &mut Parser<'t, 's>) -> Option<WrittenAction>
    ensures read { Reads result (left parser.new) (action_at (left parser.old)) }
    ensures later { later parser.new ≡ later parser.old }
{
    if parser.accept(b"pass") {
        return Some(WrittenAction::Pass);
    }
    parser.accept(b"block").then_some(())?;
    Some(WrittenAction::Block(read_policy(parser)))
}

/// Whether the rule may have this option on its state: a block rule keeps none.
fn may_keep(action: WrittenAction, state: Option<bool>) -> bool
    ensures { result ≡ may_keep action state }
{
    !matches!((action, state), (WrittenAction::Block(_), Some(true)))
}

/// A filter rule.
#[inline(always)]
#[tactic(auto, unfolding(crate::specs::Statements::rule_at))]
pub(crate) fn read_rule<'t: 's, 's>(cx: Context, parser: &mut Parser<'t, 's>) -> Read<WrittenRule>
    ensures read { Parses text_of result (left parser.new) (rule_at cx.profile (left parser.old)) }
    ensures later { later parser.new ≡ later parser.old }
{
    let action = read_action(parser).ok_or(Stop::Syntax)?;
    let direction = read_direction(parser);
    let _log = parser.accept(b"log");
    let quick = parser.accept(b"quick");
    let common = read_common(cx, parser)?;
    let options = read_options(cx, parser)?;
    expect(may_keep(action, options.state))?;
    Ok(WrittenRule {
        action,
        quick,
        conditions: WrittenConditions {
            direction,
            common,
            flags: options.flags,
            types: options.types,
        },
        state: options.state,
    })
}

/// The setting of a `set` statement, after that keyword.
#[tactic(auto, unfolding(pf_tokens::specs::Productions::option_at, crate::specs::Statements::setting_of, crate::specs::Statements::skip_set))]
fn read_setting<'t: 's, 's>(cx: Context, parser: &mut Parser<'t, 's>) -> Read<Setting>
    ensures value { Spells seen.setting_of result (setting_of cx.profile (left parser.old)) }
    ensures later { later parser.new ≡ later parser.old }
{
    if parser.accept(b"block-policy") {
        let policy = read_policy(parser).ok_or(Stop::Syntax)?;
        expect(parser.at_end())?;
        return Ok(Setting::Policy(policy));
    }
    expect(parser.accept(b"skip") && parser.accept(b"on"))?;
    let names = some::<InterfaceNameProduction>(cx.alloc, cx.profile, parser)?;
    expect(parser.at_end())?;
    Ok(Setting::Skip(names))
}

/// A statement that defines no macro.
#[tactic(auto, unfolding(pf_tokens::specs::Productions::option_at, crate::specs::Statements::value_of, crate::specs::Statements::item_at, crate::specs::Statements::item_with))]
pub fn read_statement<'t: 's, 's>(
    alloc: Global,
    profile: Profile,
    parser: &mut Parser<'t, 's>,
) -> Result<Statement, Stop>
    ensures value { Spells statement_of result (value_of profile (left parser.old)) }
    ensures later { later parser.new ≡ later parser.old }
{
    let cx = Context { alloc, profile };
    if parser.accept(b"set") {
        return Ok(Statement::Sets(read_setting(cx, parser)?));
    }
    if parser.accept(b"table") {
        return Ok(Statement::Tables(read_table_text(cx, parser)?));
    }
    if !parser.begins(b"anchor") {
        // Most statements are rules: none of them goes through an item.
        let rule = read_rule(cx, parser)?;
        expect(parser.at_end())?;
        return Ok(Statement::Rules(rule));
    }
    let item = read_item(cx, 0, parser)?;
    expect(parser.at_end())?;
    Ok(match item {
        WrittenItem::Rule(rule) => Statement::Rules(rule),
        WrittenItem::Anchor(anchor) => Statement::Anchors(anchor),
        WrittenItem::Block(heading, items) => Statement::Blocks(heading, items),
    })
}
