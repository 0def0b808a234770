//! The two ends of a rule: hosts and ports.

ghost use Rattle.std.specs.Prelude.{◌≡◌, IfOk};
ghost use Rattle.pf_tokens.specs.Lists.{elements_of};
ghost use Rattle.pf_tokens.specs.Parsing.{left, later, Parses};
ghost use Rattle.pf_statements.specs.Conditions.{any_end, spec_at, end_behind, ends_at};
ghost use Rattle.pf_statements.specs.ConditionsSeen.{ends_of};
ghost use Rattle.pf_statements.specs.inner.ConditionsSeen.{pair_of};

use crate::behind::read_behind;
use crate::common::{Context, Read};
use crate::conditions::{End, WrittenPort};
use crate::hosts::{HostProduction, any_host};
use pf_rules::Host;
use pf_tokens::{Listed, Parser, some};
use std::alloc::{AllocError, Global};

/// Any host and any port.
fn any_end(alloc: Global) -> Result<End, AllocError>
    ensures { IfOk result (λ e. ends_of e ≡ any_end) }
{
    let hosts = any_host(alloc)?;
    Ok(End { hosts, ports: None })
}

/// The hosts at one end, which may be left out before ports.
#[tactic(auto, unfolding(crate::specs::Conditions::spec_at))]
fn read_hosts<'t: 's, 's>(cx: Context, parser: &mut Parser<'t, 's>) -> Read<Listed<Host>>
    ensures read { Parses elements_of result (left parser.new) (spec_at cx.profile (left parser.old)) }
    ensures later { later parser.new ≡ later parser.old }
{
    if parser.begins(b"port") {
        return Ok(any_host(cx.alloc)?);
    }
    some::<HostProduction>(cx.alloc, cx.profile, parser)
}

/// The hosts and the ports at the end that the keyword introduces; any where the keyword doesn't come next.
#[tactic(auto, unfolding(pf_tokens::specs::Productions::option_at, crate::specs::Conditions::end_behind, crate::specs::Conditions::part_at, crate::specs::Conditions::ports_at))]
fn read_end<'t: 's, 's>(cx: Context, word: &[u8], parser: &mut Parser<'t, 's>) -> Read<End>
    ensures read { Parses ends_of result (left parser.new) (end_behind cx.profile word.now (left parser.old)) }
    ensures later { later parser.new ≡ later parser.old }
{
    if !parser.accept(word) {
        return Ok(any_end(cx.alloc)?);
    }
    let hosts = read_hosts(cx, parser)?;
    let ports = read_behind::<WrittenPort>(cx, b"port", parser)?;
    Ok(End { hosts, ports })
}

/// The source and the destination.
#[inline(always)]
#[tactic(auto, unfolding(pf_tokens::specs::Productions::option_at, crate::specs::Conditions::ends_at))]
pub(crate) fn read_ends<'t: 's, 's>(cx: Context, parser: &mut Parser<'t, 's>) -> Read<(End, End)>
    ensures read { Parses pair_of result (left parser.new) (ends_at cx.profile (left parser.old)) }
    ensures later { later parser.new ≡ later parser.old }
{
    if parser.accept(b"all") {
        return Ok((any_end(cx.alloc)?, any_end(cx.alloc)?));
    }
    let source = read_end(cx, b"from", parser)?;
    let destination = read_end(cx, b"to", parser)?;
    Ok((source, destination))
}
