//! Hosts: prefixes and ranges of addresses, the addresses of a table, or any.

ghost use Rattle.std.specs.Prelude.{◌≡◌, IfOk, MatchOption};
ghost use Rattle.pf_tokens.specs.Lists.{elements_of};
ghost use Rattle.pf_tokens.specs.Parsing.{left, later, Reads, Parses};
ghost use Rattle.pf_statements.specs.Conditions.{any_host, in_or_not, prefix_behind, prefix_at};
ghost use Rattle.pf_statements.specs.Conditions.{addresses_at, table_at, set_at, host_at};
ghost use Rattle.pf_statements.specs.inner.Shorter.{host_shorter};

use crate::behind::lone;
use crate::common::{Context, Read, expect};
use pf_addr::{Prefix, Range, parse_bytes, parse_words};
use pf_rules::{Addresses, Host, Profile, TableName, is_table_name};
use pf_tokens::{Element, Listed, Parser, Stop, Symbol};
use std::alloc::{AllocError, Global};

/// The hosts in the set, or those outside it; without a set any host.
fn host_of(negated: bool, set: Option<Addresses>) -> Host
    ensures { MatchOption set (result ≡ Host.Any) (λ s. result ≡ in_or_not negated s) }
{
    match set {
        None => Host::Any,
        Some(set) if negated => Host::NotIn(set),
        Some(set) => Host::In(set),
    }
}

/// Any host.
pub(crate) fn any_host(alloc: Global) -> Result<Listed<Host>, AllocError>
    ensures { IfOk result (λ list. elements_of list ≡ any_host) }
{
    lone::<Host>(alloc, host_of(false, None))
}

/// The rest of a prefix behind its address.
#[inline(always)]
#[tactic(auto, unfolding(pf_tokens::specs::Productions::symbol_at, crate::specs::Conditions::length_at, crate::specs::Conditions::prefix_behind))]
fn prefix_behind<'t: 's, 's>(addr: &[u8], parser: &mut Parser<'t, 's>) -> Option<Prefix>
    ensures read { Reads result (left parser.new) (prefix_behind addr.now (left parser.old)) }
    ensures later { later parser.new ≡ later parser.old }
{
    if parser.accept_symbol(Symbol::Slash) {
        let len = parser.word()?;
        return parse_words(addr, Some(len)).ok();
    }
    parse_words(addr, None).ok()
}

/// A prefix: an address, with its length behind a slash or not (pf.conf(5), host forms).
#[tactic(auto, unfolding(crate::specs::Conditions::prefix_at))]
pub(crate) fn read_prefix<'t: 's, 's>(parser: &mut Parser<'t, 's>) -> Option<Prefix>
    ensures read { Reads result (left parser.new) (prefix_at (left parser.old)) }
    ensures later { later parser.new ≡ later parser.old }
{
    let addr = parser.word()?;
    prefix_behind(addr, parser)
}

/// A prefix or a range.
#[tactic(auto, unfolding(pf_tokens::specs::Productions::option_at, crate::specs::Conditions::addresses_at, crate::specs::Conditions::range_behind))]
fn read_addresses<'t: 's, 's>(parser: &mut Parser<'t, 's>) -> Option<Addresses>
    ensures read { Reads result (left parser.new) (addresses_at (left parser.old)) }
    ensures later { later parser.new ≡ later parser.old }
{
    let addr = parser.word()?;
    if parser.accept(b"-") {
        let last = parser.word()?;
        let range = Range::new(parse_bytes(addr).ok()?, parse_bytes(last).ok()?)?;
        return Some(Addresses::Range(range));
    }
    Some(Addresses::Prefix(prefix_behind(addr, parser)?))
}

/// The name of a table between `<` and `>` (pf.conf(5), TABLES).
#[tactic(auto, using(pf_rules::proofs::Reserved::table_names_alike), unfolding(pf_tokens::specs::Productions::symbol_at, crate::specs::Conditions::table_at))]
pub(crate) fn read_table<'t: 's, 's>(cx: Context, parser: &mut Parser<'t, 's>) -> Read<TableName>
    ensures read { Parses (λ x. x) result (left parser.new) (table_at cx.profile (left parser.old)) }
    ensures later { later parser.new ≡ later parser.old }
{
    expect(parser.accept_symbol(Symbol::Less))?;
    let word = parser.word().ok_or(Stop::Syntax)?;
    expect(is_table_name(cx.profile, word))?;
    let name = TableName::new(cx.alloc, word)?.ok_or(Stop::Syntax)?;
    expect(parser.accept_symbol(Symbol::Greater))?;
    Ok(name)
}

/// A prefix, a range, or the addresses of a table.
#[tactic(auto, unfolding(crate::specs::Conditions::set_at))]
fn read_set<'t: 's, 's>(cx: Context, parser: &mut Parser<'t, 's>) -> Read<Addresses>
    ensures read { Parses (λ x. x) result (left parser.new) (set_at cx.profile (left parser.old)) }
    ensures later { later parser.new ≡ later parser.old }
{
    if parser.begins_symbol(Symbol::Less) {
        return Ok(Addresses::Table(read_table(cx, parser)?));
    }
    read_addresses(parser).ok_or(Stop::Syntax)
}

/// A host in a rule: `any`, or a set of addresses behind `!` or not.
pub(crate) struct HostProduction;

impl Element for HostProduction {
    type Value = Host;

    ghost read = { host_at };

    #[tactic(auto, unfolding(pf_tokens::specs::Productions::option_at, pf_tokens::specs::Productions::symbol_at, crate::specs::Conditions::host_at))]
    fn read<'t: 's, 's>(
        alloc: Global,
        profile: Profile,
        parser: &mut Parser<'t, 's>,
    ) -> Result<Host, Stop> {
        if parser.accept(b"any") {
            return Ok(Host::Any);
        }
        let negated = parser.accept_symbol(Symbol::Not);
        let set = read_set(Context { alloc, profile }, parser)?;
        Ok(host_of(negated, Some(set)))
    }

    ghost shorter = { host_shorter };
}
