//! Why a written rule is refused, the lowest cause first.

ghost use Rattle.std.specs.Prelude.{◌≡◌, ◌≤◌, ◌+◌, length, IfOk, IfErr};
ghost use Rattle.std.specs.Prelude.{None, Some};
ghost use Rattle.std.specs.List.{list_any, list_all};
ghost use Rattle.pf_expansion.specs.Causes.{is_bad_port, has_ports, is_bad_type, is_icmp, any_listed, all_listed};
ghost use Rattle.pf_expansion.specs.Causes.{is_deep, is_deep_list, bad_ports, is_too_wide, has_deep_list};
ghost use Rattle.pf_expansion.specs.Causes.{bad_types, lowest, condition_causes};
ghost use Rattle.pf_expansion.specs.Expansion.{combined};
ghost use Rattle.pf_statements.specs.ConditionsSeen.{list_of, conditions_of};
ghost use Rattle.pf_tokens.specs.Lists.{elements_of};
ghost use Rattle.pf_expansion.specs.declared.judge.TheConstants.{MOST_RULES};

use crate::cause::Cause;
use crate::counts::count_of;
use crate::expand::combined;
use crate::judged::conditions_judged;
use pf_rules::{Conditions, FlagTest};
use pf_statements::{Protocol, WrittenConditions, WrittenPort, WrittenType};
use pf_tokens::Listed;
use std::alloc::{AllocError, Global};

/// The most combinations that the lists of one rule may have, before families are compared.
const MOST_COMBINATIONS: usize = 65_536;

/// The most lists that may be in one another.
const MOST_NESTED: u64 = 8;

/// The most rules that a ruleset may give.
pub(crate) const MOST_RULES: usize = 1_024;

/// The number of tcp.
const TCP: u8 = 6;

/// The number of udp.
const UDP: u8 = 17;

/// The number of icmp.
const ICMP: u8 = 1;

/// Whether one of the ports is neither number nor name.
fn any_bad_port(ports: &[WrittenPort]) -> bool
    ensures { result ≡ list_any is_bad_port ports.now }
{
    ports.iter().any(|port| port.test.is_none())
}

/// Whether a port in the list is neither number nor name.
fn has_bad_port(ports: &Option<Listed<WrittenPort>>) -> bool
    ensures { result ≡ any_listed is_bad_port (list_of ports.now) }
{
    ports.as_ref().is_some_and(|list| any_bad_port(&list.items))
}

/// Whether each of the protocols has ports.
fn have_ports(protocols: &[Protocol]) -> bool
    ensures { result ≡ list_all has_ports protocols.now }
{
    protocols.iter().all(|protocol| protocol.number == TCP || protocol.number == UDP)
}

/// Whether there is a list of protocols, and all have ports.
fn all_have_ports(list: &Option<Listed<Protocol>>) -> bool
    ensures { result ≡ all_listed has_ports (list_of list.now) }
{
    list.as_ref().is_some_and(|list| have_ports(&list.items))
}

/// Whether a port is neither number nor name, or the protocols don't all have ports.
#[tactic(auto, unfolding(crate::specs::Causes::bad_ports))]
pub(crate) fn bad_ports(text: &WrittenConditions) -> bool
    ensures { result ≡ bad_ports (conditions_of text.now) }
{
    let source = &text.common.source.ports;
    let destination = &text.common.destination.ports;
    has_bad_port(source)
        || has_bad_port(destination)
        || ((source.is_some() || destination.is_some()) && !all_have_ports(&text.common.protocols))
}

/// Whether the lists have more combinations than there may be, counted up to the greatest number of the type.
#[tactic(auto, using(crate::proofs::Products::capped, crate::proofs::Products::below_cap), unfolding(crate::specs::Causes::is_too_wide, crate::specs::Expansion::combinations))]
pub(crate) fn is_too_wide(text: &WrittenConditions) -> bool
    ensures { result ≡ is_too_wide (conditions_of text.now) }
{
    let combinations = count_of(&text.common.interfaces)
        .saturating_mul(count_of(&text.common.protocols))
        .saturating_mul(text.common.source.hosts.items.len())
        .saturating_mul(count_of(&text.common.source.ports))
        .saturating_mul(text.common.destination.hosts.items.len())
        .saturating_mul(count_of(&text.common.destination.ports))
        .saturating_mul(count_of(&text.types));
    combinations > MOST_COMBINATIONS
}

/// Whether too many lists are in one another.
pub fn is_deep<E: Drop>(list: &Listed<E>) -> bool
    ensures { result ≡ is_deep (elements_of list.now) }
{
    list.deepest > MOST_NESTED
}

/// Whether there is a list in which too many are in one another.
fn is_deep_list<E: Drop>(list: &Option<Listed<E>>) -> bool
    ensures { result ≡ is_deep_list (list_of list.now) }
{
    list.as_ref().is_some_and(|list| is_deep(list))
}

/// Whether too many lists are in one another anywhere in the rule.
#[tactic(auto, unfolding(crate::specs::Causes::has_deep_list))]
pub(crate) fn has_deep_list(text: &WrittenConditions) -> bool
    ensures { result ≡ has_deep_list (conditions_of text.now) }
{
    is_deep_list(&text.common.interfaces)
        || is_deep_list(&text.common.protocols)
        || is_deep(&text.common.source.hosts)
        || is_deep_list(&text.common.source.ports)
        || is_deep(&text.common.destination.hosts)
        || is_deep_list(&text.common.destination.ports)
        || is_deep_list(&text.types)
}

/// Whether one of the types is neither number nor name.
fn any_bad_type(types: &[WrittenType]) -> bool
    ensures { result ≡ list_any is_bad_type types.now }
{
    types.iter().any(|icmp_type| icmp_type.number.is_none())
}

/// Whether a type in the list is neither number nor name.
fn has_bad_type(types: &Option<Listed<WrittenType>>) -> bool
    ensures { result ≡ any_listed is_bad_type (list_of types.now) }
{
    types.as_ref().is_some_and(|list| any_bad_type(&list.items))
}

/// Whether each of the protocols is icmp.
fn are_icmp(protocols: &[Protocol]) -> bool
    ensures { result ≡ list_all is_icmp protocols.now }
{
    protocols.iter().all(|protocol| protocol.number == ICMP)
}

/// Whether there is a list of protocols, and all are icmp.
fn all_are_icmp(list: &Option<Listed<Protocol>>) -> bool
    ensures { result ≡ all_listed is_icmp (list_of list.now) }
{
    list.as_ref().is_some_and(|list| are_icmp(&list.items))
}

/// Whether a type is neither number nor name, or the protocols aren't all icmp.
#[tactic(auto, unfolding(crate::specs::Causes::bad_types))]
pub(crate) fn bad_types(text: &WrittenConditions) -> bool
    ensures { result ≡ bad_types (conditions_of text.now) }
{
    has_bad_type(&text.types) || (text.types.is_some() && !all_are_icmp(&text.common.protocols))
}

/// The conditions of all combinations behind that many rules, or the lowest cause that refuses them, where a name is
/// reserved or not.
pub(crate) fn judge_conditions(
    alloc: Global,
    test: FlagTest,
    before: usize,
    reserved: bool,
    text: &WrittenConditions,
) -> Result<Result<Vec<Conditions>, Cause>, AllocError>
    ensures allowed { IfOk result (λ judged.
        IfOk judged (λ found. lowest (condition_causes test before reserved (conditions_of text.now)) ≡ None)) }
    ensures found { IfOk result (λ judged. IfOk judged (λ found. found.items ≡
        combined test (conditions_of text.now))) }
    ensures few { IfOk result (λ judged. IfOk judged (λ found. before + length found.items ≤ MOST_RULES)) }
    ensures refused { IfOk result (λ judged.
        IfErr judged (λ cause. lowest (condition_causes test before reserved (conditions_of text.now)) ≡
        Some cause)) }
{
    if let Some(cause) = conditions_judged(text).cause(before, reserved, false) {
        return Ok(Err(cause));
    }
    Ok(Ok(combined(alloc, test, text)?))
}
