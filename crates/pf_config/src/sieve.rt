//! The sieve of a rule.

ghost use Rattle.std.specs.Prelude.{◌≡◌, ◌≤◌};
ghost use Rattle.pf_config.specs.Orders.{everything, around, between, front_bits, set_interval};
ghost use Rattle.pf_config.specs.Orders.{host_interval, test_interval, port_interval, sieve_of};

use crate::candidate::Sieve;
use pf_addr::Addr;
use pf_rules::{Addresses, Conditions, Host, PortTest};
use pf_tables::Interval;

/// All numbers.
#[tactic(auto, unfolding(crate::specs::Orders::between))]
fn everything() -> Interval
    ensures { result ≡ everything }
{
    between(0, u32::MAX)
}

/// The numbers that agree with this one in all but the given number of last bits.
#[tactic(auto, unfolding(crate::specs::Orders::around))]
fn around(number: u32, bits: u8) -> Interval
    requires { bits ≤ 32 }
    ensures { result ≡ around number bits }
{
    if bits == 32 {
        return everything();
    }
    Interval {
        first: number >> bits << bits,
        width: (1u32 << bits) - 1,
    }
}

/// The numbers from a to b.
#[tactic(auto, unfolding(crate::specs::Orders::between))]
fn between(a: u32, b: u32) -> Interval
    ensures { result ≡ between a b }
{
    Interval {
        first: a,
        width: b.saturating_sub(a),
    }
}

/// The first 32 bits of an address.
pub fn front_bits(addr: Addr) -> u32
    ensures { result ≡ front_bits addr }
{
    match addr {
        Addr::V4(bits) => bits,
        Addr::V6(bits) => (bits >> 96) as u32,
    }
}

/// Where the first 32 bits are of the addresses in a set.
#[tactic(auto, unfolding(crate::specs::Orders::set_interval))]
fn set_interval(set: &Addresses) -> Interval
    ensures { result ≡ set_interval set.now }
{
    match set {
        Addresses::Prefix(prefix) => {
            around(front_bits(prefix.base()), 32u8.saturating_sub(prefix.len()))
        }
        Addresses::Range(range) => between(front_bits(range.first()), front_bits(range.last())),
        Addresses::Table(_) => everything(),
    }
}

/// Where those of the addresses are that a condition on a host asks for.
#[tactic(auto, unfolding(crate::specs::Orders::host_interval))]
fn host_interval(host: &Host) -> Interval
    ensures { result ≡ host_interval host.now }
{
    match host {
        Host::In(set) => set_interval(set),
        Host::Any | Host::NotIn(_) => everything(),
    }
}

/// Where the ports are that a test lets pass.
#[tactic(auto, unfolding(crate::specs::Orders::test_interval))]
fn test_interval(test: PortTest) -> Interval
    ensures { result ≡ test_interval test }
{
    match test {
        PortTest::Equal(n) => between(n as u32, n as u32),
        PortTest::Less(n) | PortTest::LessEqual(n) => between(0, n as u32),
        PortTest::FromTo(a, b) | PortTest::Between(a, b) => between(a as u32, b as u32),
        _ => everything(),
    }
}

/// Where the ports are that a condition asks for: anywhere, if there is none.
fn port_interval(wanted: Option<PortTest>) -> Interval
    ensures { result ≡ port_interval wanted }
{
    wanted.map_or(everything(), test_interval)
}

/// The sieve of a rule with these conditions.
#[tactic(auto, unfolding(crate::specs::Orders::sieve_of))]
pub(crate) fn sieve_of(conditions: &Conditions) -> Sieve
    ensures { result ≡ sieve_of conditions.now }
{
    Sieve {
        direction: conditions.direction,
        family: conditions.family,
        protocol: conditions.protocol,
        source: host_interval(&conditions.source),
        destination: host_interval(&conditions.destination),
        destination_port: port_interval(conditions.destination_port),
    }
}
