//! Types of ICMP in rules.

ghost use Rattle.std.specs.Prelude.{◌≡◌};
ghost use Rattle.pf_tokens.specs.Lists.{elements_of};
ghost use Rattle.pf_tokens.specs.Parsing.{left, later, Parses};
ghost use Rattle.pf_statements.specs.Conditions.{type_at, types_at};
ghost use Rattle.pf_statements.specs.inner.Shorter.{type_shorter};

use crate::behind::lone;
use crate::common::{Context, Read};
use crate::conditions::WrittenType;
use crate::ports::read_port_word;
use pf_rules::{Profile, parse_icmp_type};
use pf_tokens::{Element, Listed, Parser, Stop, Symbol, some};
use std::alloc::Global;

impl Element for WrittenType {
    type Value = WrittenType;

    ghost read = { type_at };

    #[tactic(auto, unfolding(crate::specs::Conditions::type_at))]
    fn read<'t: 's, 's>(_: Global, _: Profile, parser: &mut Parser<'t, 's>) -> Read<WrittenType> {
        let number = parse_icmp_type(parser.word().ok_or(Stop::Syntax)?);
        Ok(WrittenType { number })
    }

    ghost shorter = { type_shorter };
}

/// A type of ICMP or a list of them, behind `icmp-type` (pf.conf(5), `icmp-type`).
#[tactic(auto, unfolding(crate::specs::Conditions::types_at))]
pub fn read_types<'t: 's, 's>(cx: Context, parser: &mut Parser<'t, 's>) -> Read<Listed<WrittenType>>
    ensures read { Parses elements_of result (left parser.new) (types_at cx.profile (left parser.old)) }
    ensures later { later parser.new ≡ later parser.old }
{
    if parser.begins_symbol(Symbol::Open) {
        return some::<WrittenType>(cx.alloc, cx.profile, parser);
    }
    let number = parse_icmp_type(read_port_word(cx, parser).ok_or(Stop::Syntax)?);
    Ok(lone(cx.alloc, WrittenType { number })?)
}
