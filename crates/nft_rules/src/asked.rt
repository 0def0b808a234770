//! Each condition of a rule, as matches of nftables.

ghost use Rattle.std.specs.Prelude.{◌≡◌, ◌∷◌, [], IfOk, map, option_map};
ghost use Rattle.nft_rules.specs.Rendering.{always, direction_alternatives, family_alternatives, protocol_alternatives};
ghost use Rattle.nft_rules.specs.Rendering.{type_alternatives, masked_by, flag_alternatives, on_some};
ghost use Rattle.nft_rules.specs.Rendering.{interface_alternatives, ports_from, ports_but, port_span, of_protocol};
ghost use Rattle.nft_rules.specs.Rendering.{PortSpan, on_ports, port_alternatives};
ghost use Rattle.nft_rules.specs.Rendering.{such_alternatives, end_alternatives, alternatives};
ghost use Rattle.nft_rules.specs.Subset.{AtPort, OnInterface};
ghost use Rattle.nft_rules.specs.Seen.{match_of, machine_of};
ghost use Rattle.nft_rules.specs.inner.Asked.{alternative_of};

use crate::Made;
use crate::alternative::{Alternative, Alternatives, Protocol, both};
use crate::chains::Place;
use crate::hosts::host_alternatives;
use crate::machine::interfaces_named;
use crate::subset::{Match, Side};
use pf_addr::Family;
use pf_rules::{Conditions, Direction, FlagTest, Interface, InterfaceName, PortTest, TcpFlags};
use std::alloc::Global;
use std::rc::Rc;
use std::slice;

/// Nothing is asked.
pub(crate) fn always<'c>(alloc: Global) -> Alternatives<'c>
    ensures { IfOk result (λ v. map alternative_of v.items ≡ always ∷ []) }
{
    family_alternatives(alloc, None)
}

/// One test of packets of this protocol.
fn of_protocol<'c>(alloc: Global, number: u8, test: Match<'c>) -> Alternatives<'c>
    ensures { IfOk result (λ v. map alternative_of v.items ≡ of_protocol number (match_of test.entry) ∷ []) }
{
    let tests = vec![in alloc; test]?;
    Ok(vec![in alloc; Alternative::of(None, Protocol::Only(number), tests)]?)
}

fn direction_alternatives<'c>(place: Place<'c>, wanted: Option<Direction>) -> Alternatives<'c>
    ensures { IfOk result (λ v. map alternative_of v.items ≡ direction_alternatives place.entry.direction wanted) }
{
    match (wanted, place.direction) {
        (Some(Direction::In), Direction::Out) | (Some(Direction::Out), Direction::In) => Ok(
            Vec::new(place.alloc),
        ),
        _ => always(place.alloc),
    }
}

fn family_alternatives<'c>(alloc: Global, family: Option<Family>) -> Alternatives<'c>
    ensures { IfOk result (λ v. map alternative_of v.items ≡ family_alternatives family) }
{
    Ok(vec![in alloc; Alternative::of(family, Protocol::AnyProtocol, Vec::new(alloc))]?)
}

fn protocol_alternatives<'c>(alloc: Global, protocol: Option<u8>) -> Alternatives<'c>
    ensures { IfOk result (λ v. map alternative_of v.items ≡ protocol_alternatives protocol) }
{
    let protocol = protocol.map_or(Protocol::AnyProtocol, |number| Protocol::Only(number));
    Ok(vec![in alloc; Alternative::of(None, protocol, Vec::new(alloc))]?)
}

fn type_alternatives<'c>(alloc: Global, wanted: Option<u8>) -> Alternatives<'c>
    ensures { IfOk result (λ v. map alternative_of v.items ≡ type_alternatives wanted) }
{
    match wanted {
        None => always(alloc),
        Some(number) => of_protocol(alloc, 1, Match::OfType(number)),
    }
}

/// Of the flags in the mask those that are to be set.
fn masked_by(mask: TcpFlags, flags: TcpFlags) -> TcpFlags
    ensures { result ≡ masked_by mask flags }
{
    TcpFlags {
        fin: flags.fin && mask.fin,
        syn: flags.syn && mask.syn,
        rst: flags.rst && mask.rst,
        psh: flags.psh && mask.psh,
        ack: flags.ack && mask.ack,
        urg: flags.urg && mask.urg,
        ece: flags.ece && mask.ece,
        cwr: flags.cwr && mask.cwr,
    }
}

/// Flags are asked of TCP packets alone.
fn flag_alternatives<'c>(alloc: Global, test: FlagTest) -> Alternatives<'c>
    ensures { IfOk result (λ v. map alternative_of v.items ≡ flag_alternatives test) }
{
    match test {
        FlagTest::Any => always(alloc),
        FlagTest::Just { set, of } => {
            let value = masked_by(of, set);
            let mut all = of_protocol(alloc, 6, Match::WithFlags(of, value))?;
            all.push(Alternative::of(None, Protocol::NotTcp, Vec::new(alloc)))?;
            Ok(all)
        }
    }
}

/// A packet on one of these interfaces, or, negated, on none of them.
pub(crate) fn on_names<'c>(names: Vec<InterfaceName>, negated: bool) -> Made<Vec<Match<'c>>>
    ensures { IfOk result (λ v. map match_of v.items ≡ OnInterface names.items negated ∷ []) }
{
    let alloc = *names.allocator();
    let names = Rc::new(alloc, names)?;
    Ok(vec![in alloc; Match::OnInterface(names, negated)]?)
}

/// A packet on one of these interfaces, of which there may be none.
pub(crate) fn on_some<'c>(names: Vec<InterfaceName>) -> Alternatives<'c>
    ensures { IfOk result (λ v. map alternative_of v.items ≡ on_some names.items) }
{
    let alloc = *names.allocator();
    if names.is_empty() {
        return Ok(Vec::new(alloc));
    }
    let tests = on_names(names, false)?;
    Ok(vec![in alloc; Alternative::of(None, Protocol::AnyProtocol, tests)]?)
}

#[tactic(auto, using(crate::proofs::Named::matched_by))]
fn interface_alternatives<'c>(place: Place<'c>, wanted: &Option<Interface>) -> Alternatives<'c>
    ensures { IfOk result (λ v. map alternative_of v.items
        ≡ interface_alternatives (machine_of place.entry.machine.now) wanted.now) }
{
    let Some(wanted) = wanted else {
        return always(place.alloc);
    };
    let names = slice::from_ref(&wanted.name);
    on_some(interfaces_named(place.alloc, place.machine, names, wanted.negated)?)
}

/// A packet's port at this end is one of these, or, negated, none of them.
fn ports<'c>(side: Side, low: u16, high: u16, negated: bool) -> Match<'c>
    ensures { match_of result ≡ AtPort side low high negated }
{
    Match::AtPort(side, low, high, negated)
}

/// What is asked of a packet's port at this end, none if no port passes.
fn port_match<'c>(side: Side, test: PortTest) -> Option<Match<'c>>
    ensures { option_map match_of result
        ≡ option_map (λ (s : PortSpan). AtPort side s.low s.high s.negated) (port_span test) }
{
    let asked = match test {
        PortTest::Equal(n) => ports(side, n, n, false),
        PortTest::NotEqual(n) => ports(side, n, n, true),
        PortTest::Less(n) if n > 0 => ports(side, 0, n - 1, false),
        PortTest::LessEqual(n) => ports(side, 0, n, false),
        PortTest::Greater(n) => ports(side, 0, n, true),
        PortTest::GreaterEqual(n) => ports(side, n, 65535, false),
        PortTest::FromTo(a, b) if a <= b => ports(side, a, b, false),
        PortTest::Between(a, b) if a < b && a + 1 < b => ports(side, a + 1, b - 1, false),
        PortTest::Outside(a, b) if a <= b => ports(side, a, b, true),
        PortTest::Outside(_, _) => ports(side, 0, 65535, false),
        _ => return None,
    };
    Some(asked)
}

/// TCP and UDP have ports.
fn port_alternatives<'c>(alloc: Global, side: Side, wanted: Option<PortTest>) -> Alternatives<'c>
    ensures { IfOk result (λ v. map alternative_of v.items ≡ port_alternatives side wanted) }
{
    let Some(test) = wanted else {
        return always(alloc);
    };
    let Some(asked) = port_match(side, test) else {
        return Ok(Vec::new(alloc));
    };
    let mut all = of_protocol(alloc, 6, asked.clone()?)?;
    let tests = vec![in alloc; asked]?;
    all.push(Alternative::of(None, Protocol::Only(17), tests))?;
    Ok(all)
}

/// What is asked of the packet itself.
#[tactic(auto, unfolding(crate::specs::Rendering::such_alternatives))]
fn such_alternatives<'c>(place: Place<'c>, rule: &Conditions) -> Alternatives<'c>
    ensures { IfOk result (λ v. map alternative_of v.items
        ≡ such_alternatives (machine_of place.entry.machine.now) place.entry.direction rule.now) }
{
    let alloc = place.alloc;
    let asked = direction_alternatives(place, rule.direction)?;
    let asked = both(asked, &family_alternatives(alloc, rule.family)?)?;
    let asked = both(asked, &protocol_alternatives(alloc, rule.protocol)?)?;
    let asked = both(asked, &type_alternatives(alloc, rule.icmp_type)?)?;
    let asked = both(asked, &flag_alternatives(alloc, rule.flags)?)?;
    both(asked, &interface_alternatives(place, &rule.interface)?)
}

/// What is asked of its two ends.
#[tactic(auto, unfolding(crate::specs::Rendering::end_alternatives))]
fn end_alternatives<'c>(place: Place<'c>, rule: &'c Conditions) -> Alternatives<'c>
    ensures { IfOk result (λ v. map alternative_of v.items
        ≡ end_alternatives place.entry.config.now place.entry.path.now rule.now) }
{
    let ports = port_alternatives(place.alloc, Side::Source, rule.source_port)?;
    let others = port_alternatives(place.alloc, Side::Destination, rule.destination_port)?;
    let all = both(ports, &others)?;
    let all = both(all, &host_alternatives(place, Side::Source, &rule.source)?)?;
    let destinations = host_alternatives(place, Side::Destination, &rule.destination)?;
    both(all, &destinations)
}

/// What a rule at a path asks, for packets of a direction.
#[tactic(auto, unfolding(crate::specs::Rendering::alternatives))]
pub(crate) fn alternatives<'c>(place: Place<'c>, rule: &'c Conditions) -> Alternatives<'c>
    ensures { IfOk result (λ v. map alternative_of v.items ≡ alternatives place.entry.config.now
        (machine_of place.entry.machine.now) place.entry.direction place.entry.path.now rule.now) }
{
    let such = such_alternatives(place, rule)?;
    both(such, &end_alternatives(place, rule)?)
}
