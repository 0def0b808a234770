//! What rules and anchor rules have in common.

ghost use Rattle.std.specs.Prelude.{◌≡◌, IfErr, IfOk, false, true};
ghost use Rattle.pf_tokens.specs.Parsing.{left, later, Parses};
ghost use Rattle.pf_statements.specs.Conditions.{common_at};
ghost use Rattle.pf_statements.specs.ConditionsSeen.{common_of};
ghost use Rattle.pf_tokens.specs.declared.stop.Stop.TheVariants.{Syntax};

use crate::behind::read_behind;
use crate::conditions::{Common, Protocol};
use crate::ends::read_ends;
use crate::interfaces::InterfaceProduction;
use crate::protocols::read_family;
use pf_rules::Profile;
use pf_tokens::{Parser, Stop};
use std::alloc::Global;

/// What statements are read with: memory, and the profile, which decides on reserved words.
#[derive(Clone, Copy)]
pub(crate) struct Context {
    pub alloc: Global,
    pub profile: Profile,
}

/// What was read, or why it was not.
pub(crate) type Read<T> = Result<T, Stop>;

/// Nothing where it holds, else the error `Syntax`.
pub(crate) fn expect(holds: bool) -> Read<()>
    ensures holds { IfOk result (λ done. holds ≡ true) }
    ensures error { IfErr result (λ e. e ≡ Syntax) }
    ensures not { IfErr result (λ e. holds ≡ false) }
{
    holds.then_some(()).ok_or(Stop::Syntax)
}

/// The interfaces, the family, the protocols and the hosts of a rule or an anchor rule.
#[inline(always)]
#[tactic(auto, unfolding(crate::specs::Conditions::common_at, crate::specs::Conditions::interfaces_at, crate::specs::Conditions::protocols_at))]
pub(crate) fn read_common<'t: 's, 's>(cx: Context, parser: &mut Parser<'t, 's>) -> Read<Common>
    ensures read { Parses common_of result (left parser.new) (common_at cx.profile (left parser.old)) }
    ensures later { later parser.new ≡ later parser.old }
{
    let interfaces = read_behind::<InterfaceProduction>(cx, b"on", parser)?;
    let family = read_family(parser);
    let protocols = read_behind::<Protocol>(cx, b"proto", parser)?;
    let (source, destination) = read_ends(cx, parser)?;
    Ok(Common {
        interfaces,
        family,
        protocols,
        source,
        destination,
    })
}
