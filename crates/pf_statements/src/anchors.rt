//! Anchor rules up to their blocks.

ghost use Rattle.std.specs.Prelude.{◌≡◌, option_map};
ghost use Rattle.pf_tokens.specs.Parsing.{left, later, Parses};
ghost use Rattle.pf_rules.specs.Seen.{target_of};
ghost use Rattle.pf_statements.specs.Anchors.{said_flags, heading_at, optional_target_at};
ghost use Rattle.pf_statements.specs.Seen.{heading_text_of};

use crate::common::{Context, Read, read_common};
use crate::conditions::WrittenConditions;
use crate::directions::read_direction;
use crate::flags::read_flags;
use crate::targets::{may_begin_target, read_target};
use crate::written::WrittenHeading;
use pf_rules::{FlagTest, Target};
use pf_tokens::{Parser, Stop};

/// The flags after their keyword, if it comes next.
#[tactic(auto, unfolding(pf_tokens::specs::Productions::option_at, crate::specs::Anchors::said_flags))]
fn read_said_flags<'t: 's, 's>(parser: &mut Parser<'t, 's>) -> Read<Option<FlagTest>>
    ensures read { Parses (λ flags. flags) result (left parser.new) (said_flags (left parser.old)) }
    ensures later { later parser.new ≡ later parser.old }
{
    if !parser.accept(b"flags") {
        return Ok(None);
    }
    Ok(Some(read_flags(parser).ok_or(Stop::Syntax)?))
}

/// The name, if it is given.
#[tactic(auto, unfolding(crate::specs::Anchors::optional_target_at))]
fn optional_target<'t: 's, 's>(cx: Context, parser: &mut Parser<'t, 's>) -> Read<Option<Target>>
    ensures read { Parses (λ target. option_map target_of target) result (left parser.new)
        (optional_target_at cx.profile (left parser.old)) }
    ensures later { later parser.new ≡ later parser.old }
{
    if !may_begin_target(cx, parser) {
        return Ok(None);
    }
    Ok(Some(read_target(cx, parser)?))
}

/// An anchor rule after its first keyword, up to its block.
#[tactic(auto, unfolding(crate::specs::Anchors::heading_at))]
pub fn read_heading<'t: 's, 's>(cx: Context, parser: &mut Parser<'t, 's>) -> Read<WrittenHeading>
    ensures read { Parses heading_text_of result (left parser.new) (heading_at cx.profile (left parser.old)) }
    ensures later { later parser.new ≡ later parser.old }
{
    let target = optional_target(cx, parser)?;
    let direction = read_direction(parser);
    let quick = parser.accept(b"quick");
    let common = read_common(cx, parser)?;
    let flags = read_said_flags(parser)?;
    Ok(WrittenHeading {
        target,
        quick,
        conditions: WrittenConditions {
            direction,
            common,
            flags,
            types: None,
        },
    })
}
