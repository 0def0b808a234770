//! Whether rules are the same.

ghost use Rattle.std.specs.Prelude.{◌≡◌, true, map};
ghost use Rattle.pf_rules.specs.Seen.{rule_of, heading_of};
ghost use Rattle.pf_config.specs.Map.{path_eq};

use crate::same_parts::{same_flag_test, same_host, same_interface};
use pf_rules::{AnchorHeading, Conditions, InterfaceName, Item, Name, Rule};

/// Whether two lists have the same names in one order.
pub(crate) fn same_names(a: &[Name], b: &[Name]) -> bool
    ensures value { result ≡ path_eq a.now b.now }
    ensures same { result ≡ true → a.now ≡ b.now }
    ensures back { a.now ≡ b.now → result ≡ true }
{
    a == b
}

/// Whether two lists name the same interfaces in one order.
pub(crate) fn same_interfaces(a: &[InterfaceName], b: &[InterfaceName]) -> bool
    ensures same { result ≡ true → a.now ≡ b.now }
    ensures back { a.now ≡ b.now → result ≡ true }
{
    a == b
}

/// Whether the same packets are meant by hosts and ports.
fn same_ends(a: &Conditions, b: &Conditions) -> bool
    ensures source { result ≡ true → a.now.source ≡ b.now.source }
    ensures source_port { result ≡ true → a.now.source_port ≡ b.now.source_port }
    ensures destination { result ≡ true → a.now.destination ≡ b.now.destination }
    ensures destination_port { result ≡ true → a.now.destination_port ≡ b.now.destination_port }
    ensures back { a.now.source ≡ b.now.source →
        a.now.source_port ≡ b.now.source_port →
        a.now.destination ≡ b.now.destination →
        a.now.destination_port ≡ b.now.destination_port → result ≡ true }
{
    same_host(&a.source, &b.source)
        && same_host(&a.destination, &b.destination)
        && a.source_port == b.source_port
        && a.destination_port == b.destination_port
}

/// The same by the other conditions.
fn same_others(a: &Conditions, b: &Conditions) -> bool
    ensures direction { result ≡ true → a.now.direction ≡ b.now.direction }
    ensures interface { result ≡ true → a.now.interface ≡ b.now.interface }
    ensures family { result ≡ true → a.now.family ≡ b.now.family }
    ensures protocol { result ≡ true → a.now.protocol ≡ b.now.protocol }
    ensures flags { result ≡ true → a.now.flags ≡ b.now.flags }
    ensures icmp_type { result ≡ true → a.now.icmp_type ≡ b.now.icmp_type }
    ensures back { a.now.direction ≡ b.now.direction →
        a.now.interface ≡ b.now.interface →
        a.now.family ≡ b.now.family →
        a.now.protocol ≡ b.now.protocol →
        a.now.flags ≡ b.now.flags →
        a.now.icmp_type ≡ b.now.icmp_type → result ≡ true }
{
    same_interface(&a.interface, &b.interface)
        && a.direction == b.direction
        && a.family == b.family
        && a.protocol == b.protocol
        && same_flag_test(a.flags, b.flags)
        && a.icmp_type == b.icmp_type
}

/// Whether two conditions are written in the same way.
fn same_conditions(a: &Conditions, b: &Conditions) -> bool
    ensures same { result ≡ true → a.now ≡ b.now }
    ensures back { a.now ≡ b.now → result ≡ true }
{
    same_ends(a, b) && same_others(a, b)
}

/// Whether two filter rules are the same.
fn same_rule(a: &Rule, b: &Rule) -> bool
    ensures same { result ≡ true → a.now ≡ b.now }
    ensures back { a.now ≡ b.now → result ≡ true }
{
    a.action == b.action
        && a.quick == b.quick
        && a.keeps_state == b.keeps_state
        && same_conditions(&a.conditions, &b.conditions)
}

/// Whether two anchor rules are the same, whatever blocks they have.
fn same_heading(a: &AnchorHeading, b: &AnchorHeading) -> bool
    ensures same { result ≡ true → heading_of a.now ≡ heading_of b.now }
    ensures back { heading_of a.now ≡ heading_of b.now → result ≡ true }
{
    a.quick == b.quick
        && a.target.children == b.target.children
        && same_names(&a.target.names, &b.target.names)
        && same_conditions(&a.conditions, &b.conditions)
}

/// Whether two rules are the same, whatever blocks they carry.
#[tactic(auto, using(crate::proofs::Items::same_filters, crate::proofs::Items::same_anchors))]
fn same_item(a: &Item, b: &Item) -> bool
    ensures same { result ≡ true → rule_of a.now ≡ rule_of b.now }
    ensures back { rule_of a.now ≡ rule_of b.now → result ≡ true }
{
    match (a, b) {
        (Item::Filter(a), Item::Filter(b)) => same_rule(a, b),
        (Item::Anchor(a), Item::Anchor(b)) => same_heading(&a.heading, &b.heading),
        _ => false,
    }
}

/// Whether two lists of rules are the same, whatever blocks they carry.
pub(crate) fn same_items(a: &[Item], b: &[Item]) -> bool
    ensures same { result ≡ true → map rule_of a.now ≡ map rule_of b.now }
    ensures back { map rule_of a.now ≡ map rule_of b.now → result ≡ true }
{
    let mut left = a;
    let mut right = b;
    while let [x, xs @ ..] = left {
        let [y, ys @ ..] = right else {
            return false;
        };
        if !same_item(x, y) {
            return false;
        }
        left = xs;
        right = ys;
    }
    right.is_empty()
}
