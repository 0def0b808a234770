//! Families and protocols.

ghost use Rattle.std.specs.Prelude.{◌≡◌};
ghost use Rattle.pf_tokens.specs.Parsing.{left, later};
ghost use Rattle.pf_statements.specs.Conditions.{family_at, protocol_at};
ghost use Rattle.pf_statements.specs.inner.Shorter.{protocol_shorter};

use crate::common::Read;
use crate::conditions::Protocol;
use pf_addr::Family;
use pf_rules::{Profile, parse_protocol};
use pf_tokens::{Element, Parser, Stop};
use std::alloc::Global;

/// The family, if it is given.
#[tactic(auto, unfolding(pf_tokens::specs::Productions::option_at, crate::specs::Conditions::family_at))]
pub(crate) fn read_family<'t: 's, 's>(parser: &mut Parser<'t, 's>) -> Option<Family>
    ensures read { (result, left parser.new) ≡ family_at (left parser.old) }
    ensures later { later parser.new ≡ later parser.old }
{
    if parser.accept(b"inet") {
        return Some(Family::Inet);
    }
    parser.accept(b"inet6").then_some(Family::Inet6)
}

impl Element for Protocol {
    type Value = Protocol;

    ghost read = { protocol_at };

    #[tactic(auto, unfolding(crate::specs::Conditions::protocol_at))]
    fn read<'t: 's, 's>(_: Global, _: Profile, parser: &mut Parser<'t, 's>) -> Read<Protocol> {
        let text = parser.word().ok_or(Stop::Syntax)?;
        let number = parse_protocol(text).ok_or(Stop::Syntax)?;
        Ok(Protocol { number })
    }

    ghost shorter = { protocol_shorter };
}
