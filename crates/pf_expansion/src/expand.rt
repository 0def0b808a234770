//! The conditions of each combination of what is listed.

ghost use Rattle.std.specs.Prelude.{◌≡◌, ◌++◌, OnOk, IfOk};
ghost use Rattle.std.specs.Option.{option_copied};
ghost use Rattle.pf_expansion.specs.inner.Chosen.{combination_of, given_by};
ghost use Rattle.pf_expansion.specs.Expansion.{addresses_family, host_family, with_family, occurring};
ghost use Rattle.pf_expansion.specs.Expansion.{families, conditions_with, conditions_at};
ghost use Rattle.pf_expansion.specs.Expansion.{by_type, by_destination_port, by_destination, by_source_port, by_source};
ghost use Rattle.pf_expansion.specs.Expansion.{by_protocol, by_interface, nothing_chosen, combined};
ghost use Rattle.pf_statements.specs.ConditionsSeen.{conditions_of};

use crate::cause::Made;
use pf_addr::Family;
use pf_rules::{Addresses, Conditions, FlagTest, Host, Interface};
use pf_statements::{Protocol, WrittenConditions, WrittenPort, WrittenType};
use std::alloc::{AllocError, Global};

/// What is chosen from each list of the conditions, where this is asked of the flags.
#[derive(Clone, Copy)]
pub(crate) struct Chosen<'a> {
    pub(crate) test: FlagTest,
    pub(crate) text: &'a WrittenConditions,
    pub(crate) interface: Option<&'a Interface>,
    pub(crate) protocol: Option<Protocol>,
    pub(crate) source: &'a Host,
    pub(crate) source_port: Option<WrittenPort>,
    pub(crate) destination: &'a Host,
    pub(crate) destination_port: Option<WrittenPort>,
    pub(crate) icmp_type: Option<WrittenType>,
}

/// The family of a set of addresses, none of a table.
fn addresses_family(set: &Addresses) -> Option<Family>
    ensures { result ≡ addresses_family set.now }
{
    match set {
        Addresses::Prefix(prefix) => Some(prefix.base().family()),
        Addresses::Range(range) => Some(range.first().family()),
        Addresses::Table(_) => None,
    }
}

/// The family of a host, also of a negated one.
pub(crate) fn host_family(host: &Host) -> Option<Family>
    ensures { result ≡ host_family host.now }
{
    match host {
        Host::Any => None,
        Host::In(set) | Host::NotIn(set) => addresses_family(set),
    }
}

/// The family of this one and of others, none where two occur.
pub fn with_family(one: Option<Family>, others: Option<Option<Family>>) -> Option<Option<Family>>
    ensures { result ≡ with_family one others }
{
    let found = others?;
    (one.is_none() || found.is_none() || one == found).then_some(one.or(found))
}

/// The family that occurs in a combination, if one does; none where two do.
fn occurring(chosen: &Chosen<'_>) -> Option<Option<Family>>
    ensures { result ≡ occurring (families (conditions_of chosen.now.text.now) (combination_of chosen.now)) }
{
    let icmp = chosen.icmp_type.is_some().then_some(Family::Inet);
    let destination = with_family(host_family(chosen.destination), Some(icmp));
    let source = with_family(host_family(chosen.source), destination);
    with_family(chosen.text.common.family, source)
}

/// The interface once more.
fn copied(interface: Option<&Interface>) -> Option<Interface>
    ensures { result ≡ option_copied interface.entry }
{
    let interface = interface?;
    let negated = interface.negated;
    let name = interface.name.copied();
    Some(Interface { negated, name })
}

/// The addresses once more.
fn copied_addresses(alloc: Global, set: &Addresses) -> Result<Addresses, AllocError>
    ensures { IfOk result (λ copy. copy ≡ set.now) }
{
    match set {
        Addresses::Prefix(prefix) => Ok(Addresses::Prefix(*prefix)),
        Addresses::Range(range) => Ok(Addresses::Range(*range)),
        Addresses::Table(name) => Ok(Addresses::Table(name.copied(alloc)?)),
    }
}

/// The host once more.
fn copied_host(alloc: Global, host: &Host) -> Result<Host, AllocError>
    ensures { IfOk result (λ copy. copy ≡ host.now) }
{
    match host {
        Host::Any => Ok(Host::Any),
        Host::In(set) => Ok(Host::In(copied_addresses(alloc, set)?)),
        Host::NotIn(set) => Ok(Host::NotIn(copied_addresses(alloc, set)?)),
    }
}

/// The conditions of what is chosen, in which this family occurs.
fn conditions_with(alloc: Global, chosen: &Chosen<'_>, family: Option<Family>) -> Made<Conditions>
    ensures { IfOk result (λ c. c ≡ conditions_with chosen.now.test (conditions_of chosen.now.text.now)
        (combination_of chosen.now) family) }
{
    Ok(Conditions {
        direction: chosen.text.direction,
        interface: copied(chosen.interface),
        family,
        protocol: chosen.protocol.map(|protocol| protocol.number),
        source: copied_host(alloc, chosen.source)?,
        source_port: chosen.source_port.and_then(|port| port.test),
        destination: copied_host(alloc, chosen.destination)?,
        destination_port: chosen.destination_port.and_then(|port| port.test),
        flags: chosen.test,
        icmp_type: chosen.icmp_type.and_then(|found| found.number),
    })
}

/// The conditions of what is chosen, unless two families occur in it.
#[tactic(auto, unfolding(crate::specs::Expansion::conditions_at))]
fn push_chosen(found: &mut Vec<Conditions>, chosen: &Chosen<'_>) -> Result<(), AllocError>
    ensures { OnOk result (found.new.items ≡ found.old.items ++ given_by conditions_at chosen.now) }
{
    let Some(family) = occurring(chosen) else {
        return Ok(());
    };
    let conditions = conditions_with(*found.allocator(), chosen, family)?;
    Ok(found.push(conditions)?)
}

/// The conditions with each type of ICMP.
#[inline(always)]
#[tactic(auto, unfolding(crate::specs::Expansion::by_type))]
fn push_types(found: &mut Vec<Conditions>, chosen: &Chosen<'_>) -> Result<(), AllocError>
    ensures { OnOk result (found.new.items ≡ found.old.items ++ given_by by_type chosen.now) }
{
    let mut next = *chosen;
    let Some(types) = &chosen.text.types else {
        next.icmp_type = None;
        return push_chosen(found, &next);
    };
    for icmp_type in &types.items {
        next.icmp_type = Some(*icmp_type);
        push_chosen(found, &next)?;
    }
    Ok(())
}

/// The conditions with each port of the destination.
#[inline(always)]
#[tactic(auto, unfolding(crate::specs::Expansion::by_destination_port))]
fn push_destination_ports(found: &mut Vec<Conditions>, chosen: &Chosen<'_>) -> Made<()>
    ensures { OnOk result (found.new.items ≡ found.old.items ++ given_by by_destination_port chosen.now) }
{
    let mut next = *chosen;
    let Some(ports) = &chosen.text.common.destination.ports else {
        next.destination_port = None;
        return push_types(found, &next);
    };
    for destination_port in &ports.items {
        next.destination_port = Some(*destination_port);
        push_types(found, &next)?;
    }
    Ok(())
}

/// The conditions with each destination.
#[inline(always)]
#[tactic(auto, unfolding(crate::specs::Expansion::by_destination))]
fn push_destinations(found: &mut Vec<Conditions>, chosen: &Chosen<'_>) -> Result<(), AllocError>
    ensures { OnOk result (found.new.items ≡ found.old.items ++ given_by by_destination chosen.now) }
{
    let mut next = *chosen;
    for destination in &chosen.text.common.destination.hosts.items {
        next.destination = destination;
        push_destination_ports(found, &next)?;
    }
    Ok(())
}

/// The conditions with each port of the source.
#[inline(always)]
#[tactic(auto, unfolding(crate::specs::Expansion::by_source_port))]
fn push_source_ports(found: &mut Vec<Conditions>, chosen: &Chosen<'_>) -> Result<(), AllocError>
    ensures { OnOk result (found.new.items ≡ found.old.items ++ given_by by_source_port chosen.now) }
{
    let mut next = *chosen;
    let Some(ports) = &chosen.text.common.source.ports else {
        next.source_port = None;
        return push_destinations(found, &next);
    };
    for source_port in &ports.items {
        next.source_port = Some(*source_port);
        push_destinations(found, &next)?;
    }
    Ok(())
}

/// The conditions with each source.
#[inline(always)]
#[tactic(auto, unfolding(crate::specs::Expansion::by_source))]
fn push_sources(found: &mut Vec<Conditions>, chosen: &Chosen<'_>) -> Result<(), AllocError>
    ensures { OnOk result (found.new.items ≡ found.old.items ++ given_by by_source chosen.now) }
{
    let mut next = *chosen;
    for source in &chosen.text.common.source.hosts.items {
        next.source = source;
        push_source_ports(found, &next)?;
    }
    Ok(())
}

/// The conditions with each protocol.
#[inline(always)]
#[tactic(auto, unfolding(crate::specs::Expansion::by_protocol))]
fn push_protocols(found: &mut Vec<Conditions>, chosen: &Chosen<'_>) -> Result<(), AllocError>
    ensures { OnOk result (found.new.items ≡ found.old.items ++ given_by by_protocol chosen.now) }
{
    let mut next = *chosen;
    let Some(protocols) = &chosen.text.common.protocols else {
        next.protocol = None;
        return push_sources(found, &next);
    };
    for protocol in &protocols.items {
        next.protocol = Some(*protocol);
        push_sources(found, &next)?;
    }
    Ok(())
}

/// The conditions on each interface.
#[tactic(auto, unfolding(crate::specs::Expansion::by_interface))]
fn push_interfaces(found: &mut Vec<Conditions>, chosen: &Chosen<'_>) -> Result<(), AllocError>
    ensures { OnOk result (found.new.items ≡ found.old.items ++ given_by by_interface chosen.now) }
{
    let mut next = *chosen;
    let Some(interfaces) = &chosen.text.common.interfaces else {
        next.interface = None;
        return push_protocols(found, &next);
    };
    for interface in &interfaces.items {
        next.interface = Some(interface);
        push_protocols(found, &next)?;
    }
    Ok(())
}

/// The conditions of all combinations, with this host where none is chosen yet.
fn push_all<'a>(
    found: &mut Vec<Conditions>,
    test: FlagTest,
    text: &'a WrittenConditions,
    any: &'a Host,
) -> Result<(), AllocError>
    ensures { OnOk result (found.new.items ≡ found.old.items ++ by_interface test (conditions_of text.now)
        (record nothing_chosen { source = any.now; destination = any.now })) }
{
    let nothing = Chosen {
        test,
        text,
        interface: None,
        protocol: None,
        source: any,
        source_port: None,
        destination: any,
        destination_port: None,
        icmp_type: None,
    };
    push_interfaces(found, &nothing)
}

/// The conditions of all combinations, the interface outermost and the type of ICMP innermost (pf.conf(5), lists),
/// where this is asked of the flags. A combination of two families gives none.
#[tactic(auto, unfolding(crate::specs::Expansion::combined))]
pub fn combined(alloc: Global, test: FlagTest, text: &WrittenConditions) -> Made<Vec<Conditions>>
    ensures { IfOk result (λ found. found.items ≡ combined test (conditions_of text.now)) }
{
    // Most rules have no list.
    let mut found = Vec::with_capacity(alloc, 1)?;
    push_all(&mut found, test, text, &Host::Any)?;
    Ok(found)
}
