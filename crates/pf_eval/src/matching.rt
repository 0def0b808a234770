//! Whether a rule matches a packet.

ghost use Rattle.std.specs.Prelude.{◌≡◌, ◌==◌};
ghost use Rattle.pf_eval.specs.inner.Seen.{tables_of};
ghost use Rattle.pf_eval.specs.Matching.{direction_eq, on_interface, of_family, in_some, in_addresses, at_host};
ghost use Rattle.pf_eval.specs.Matching.{port_passes, flag_passes, just, flags_pass, matches, is_such, is_between};
ghost use Rattle.pf_eval.specs.Matching.{if_set, if_there};

use crate::packet::Packet;
use crate::scope::Scope;
use pf_addr::{Addr, Family};
use pf_rules::{
    Addresses, Conditions, Direction, FlagTest, Host, Interface, PortTest, TableName, TcpFlags,
};

/// Whether each condition holds of the packet; those are asked first that cost least.
#[tactic(auto, unfolding(crate::specs::Matching::matches))]
pub(crate) fn matches(scope: Scope<'_>, rule: &Conditions, packet: &Packet) -> bool
    ensures { result ≡ matches (tables_of scope.entry) rule.now packet.now }
{
    is_such(rule, packet) && is_between(scope, rule, packet)
}

#[tactic(auto, unfolding(crate::specs::Matching::is_such))]
fn is_such(rule: &Conditions, packet: &Packet) -> bool
    ensures { result ≡ is_such rule.now packet.now }
{
    is_direction(rule.direction, packet.direction)
        && is_family(rule.family, packet.source)
        && is_number(rule.protocol, packet.protocol)
        && is_type(rule.icmp_type, packet.icmp_type)
        && have_flags(rule.flags, packet)
        && is_interface(&rule.interface, packet)
}

#[tactic(auto, unfolding(crate::specs::Matching::is_between))]
fn is_between(scope: Scope<'_>, rule: &Conditions, packet: &Packet) -> bool
    ensures { result ≡ is_between (tables_of scope.entry) rule.now packet.now }
{
    is_port(rule.source_port, packet.source_port)
        && is_port(rule.destination_port, packet.destination_port)
        && at_host(scope, packet.source, &rule.source)
        && at_host(scope, packet.destination, &rule.destination)
}

/// Whether the packet has the direction that is asked for, if one is.
pub(crate) fn is_direction(wanted: Option<Direction>, direction: Direction) -> bool
    ensures { result ≡ if_set (direction_eq direction) wanted }
{
    match (wanted, direction) {
        (Some(Direction::In), Direction::Out) | (Some(Direction::Out), Direction::In) => false,
        _ => true,
    }
}

#[tactic(auto, unfolding(crate::specs::Matching::on_interface))]
fn is_interface(wanted: &Option<Interface>, packet: &Packet) -> bool
    ensures { result ≡ if_set (on_interface packet.now) wanted.now }
{
    match wanted {
        None => true,
        Some(it) => packet.is_on(it.name.as_bytes()) != it.negated,
    }
}

/// Whether the address is of the family that is asked for, if one is.
pub(crate) fn is_family(wanted: Option<Family>, addr: Addr) -> bool
    ensures { result ≡ if_set (of_family addr) wanted }
{
    match (wanted, addr) {
        (None, _) | (Some(Family::Inet), Addr::V4(_)) | (Some(Family::Inet6), Addr::V6(_)) => true,
        (Some(Family::Inet), Addr::V6(_)) | (Some(Family::Inet6), Addr::V4(_)) => false,
    }
}

/// Whether the number is the one that is asked for, if one is.
pub(crate) fn is_number(wanted: Option<u8>, number: u8) -> bool
    ensures { result ≡ if_set (λ n. number == n) wanted }
{
    wanted.is_none_or(|wanted| number == wanted)
}

fn at_host(scope: Scope<'_>, addr: Addr, host: &Host) -> bool
    ensures { result ≡ at_host (tables_of scope.entry) addr host.now }
{
    match host {
        Host::Any => true,
        Host::In(set) => in_addresses(scope, addr, set),
        Host::NotIn(set) => !in_addresses(scope, addr, set),
    }
}

#[tactic(auto, unfolding(crate::specs::Matching::in_addresses))]
fn in_addresses(scope: Scope<'_>, addr: Addr, set: &Addresses) -> bool
    ensures { result ≡ in_addresses (tables_of scope.entry) addr set.now }
{
    match set {
        Addresses::Prefix(prefix) => prefix.contains(addr),
        Addresses::Range(range) => range.contains(addr),
        Addresses::Table(name) => in_table(scope, name, addr),
    }
}

/// Whether the address is in the table of that name; in none where there is no such table.
#[tactic(auto, unfolding(crate::specs::inner::Seen::tables_of))]
fn in_table(scope: Scope<'_>, name: &TableName, addr: Addr) -> bool
    ensures { result ≡ in_some addr (tables_of scope.entry name.now) }
{
    let Some(config) = scope.config else {
        return false;
    };
    let table = config.table_for(scope.path, name.as_str());
    table.is_some_and(|table| table.holds(addr))
}

fn is_port(wanted: Option<PortTest>, port: Option<u16>) -> bool
    ensures { result ≡ if_set (λ t. if_there (port_passes t) port) wanted }
{
    match (wanted, port) {
        (None, _) => true,
        (Some(_), None) => false,
        (Some(test), Some(port)) => port_passes(test, port),
    }
}

#[tactic(auto, unfolding(crate::specs::Matching::port_passes))]
fn port_passes(test: PortTest, port: u16) -> bool
    ensures { result ≡ port_passes test port }
{
    match test {
        PortTest::Equal(n) => port == n,
        PortTest::NotEqual(n) => port != n,
        PortTest::Less(n) => port < n,
        PortTest::LessEqual(n) => port <= n,
        PortTest::Greater(n) => n < port,
        PortTest::GreaterEqual(n) => n <= port,
        PortTest::FromTo(a, b) => a <= port && port <= b,
        PortTest::Between(a, b) => a < port && port < b,
        PortTest::Outside(a, b) => port < a || b < port,
    }
}

#[tactic(auto, unfolding(crate::specs::Matching::flags_pass))]
fn have_flags(test: FlagTest, packet: &Packet) -> bool
    ensures { result ≡ flags_pass test packet.now }
{
    match test {
        FlagTest::Any => true,
        FlagTest::Just { set, of } => packet.protocol != 6 || just(set, of, packet.flags),
    }
}

fn flag_passes(looked: bool, wanted: bool, here: bool) -> bool
    ensures { result ≡ flag_passes looked wanted here }
{
    !looked || wanted == here
}

#[tactic(auto, unfolding(crate::specs::Matching::just))]
fn just(set: TcpFlags, of: TcpFlags, here: TcpFlags) -> bool
    ensures { result ≡ just set of here }
{
    flag_passes(of.fin, set.fin, here.fin)
        && flag_passes(of.syn, set.syn, here.syn)
        && flag_passes(of.rst, set.rst, here.rst)
        && flag_passes(of.psh, set.psh, here.psh)
        && flag_passes(of.ack, set.ack, here.ack)
        && flag_passes(of.urg, set.urg, here.urg)
        && flag_passes(of.ece, set.ece, here.ece)
        && flag_passes(of.cwr, set.cwr, here.cwr)
}

fn is_type(wanted: Option<u8>, kind: Option<u8>) -> bool
    ensures { result ≡ if_set (λ n. if_there (λ m. m == n) kind) wanted }
{
    wanted.is_none() || kind == wanted
}
