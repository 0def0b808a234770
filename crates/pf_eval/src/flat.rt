//! The two walks over rules without tables and anchors.

ghost use Rattle.std.specs.Prelude.{◌≡◌, ◌≤◌, [], length, map};
ghost use Rattle.pf_rules.specs.Seen.{rule_of};
ghost use Rattle.pf_eval.specs.Verdicts.{hits_with, last_spot, no_tables, no_hits};
ghost use Rattle.pf_eval.specs.inner.TwoWalks.{first_rule, last_rule, flat_stop, flat_last, spot_in};
ghost use Rattle.pf_config.specs.declared.config.TheConstants.{RULES_MAX};

use crate::hit::{Hit, rule_hit};
use crate::packet::Packet;
use crate::scope::nowhere;
use pf_rules::Item;

/// The hit of a quick filter rule.
#[inline(always)]
#[tactic(auto, using(crate::proofs::Walks::stop_of_filter, crate::proofs::Walks::flat_stop_of_anchor))]
fn quick_at<'r>(packet: &Packet, index: u32, item: &Item) -> Option<Hit<'r>>
    ensures { spot_in result ≡ flat_stop packet.now index (rule_of item.now) }
{
    match item {
        Item::Filter(rule) if rule.quick => rule_hit(nowhere(), packet, index, rule),
        _ => None,
    }
}

/// The hit of a filter rule that isn't quick.
#[inline(always)]
#[tactic(auto, using(crate::proofs::Walks::last_of_filter, crate::proofs::Walks::flat_last_of_anchor))]
fn other_at<'r>(packet: &Packet, index: u32, item: &Item) -> Option<Hit<'r>>
    ensures { spot_in result ≡ flat_last packet.now index (rule_of item.now) }
{
    match item {
        Item::Filter(rule) if !rule.quick => rule_hit(nowhere(), packet, index, rule),
        _ => None,
    }
}

/// The first hit of a quick rule.
fn first_quick<'r>(items: &'r [Item], packet: &Packet) -> Option<Hit<'r>>
    requires { length items.now ≤ RULES_MAX }
    ensures { spot_in result ≡ first_rule (flat_stop packet.now) 0 (map rule_of items.now) }
{
    for (index, item) in items.iter().enumerate() {
        if let Some(hit) = quick_at(packet, index as u32, item) {
            return Some(hit);
        }
    }
    None
}

/// The last hit of a rule that isn't quick, looked for from the back.
fn last_other<'r>(items: &'r [Item], packet: &Packet) -> Option<Hit<'r>>
    requires { length items.now ≤ RULES_MAX }
    ensures { spot_in result ≡ last_rule (flat_last packet.now) 0 (map rule_of items.now) }
{
    let mut left = items.len();
    while left > 0 {
        let index = left - 1;
        if let Some(hit) = other_at(packet, index as u32, &items[index]) {
            return Some(hit);
        }
        left = index;
    }
    None
}

/// The hit that decides: the first of a quick rule, else the last.
#[tactic(auto, using(crate::proofs::Deciding::flat_first, crate::proofs::Deciding::flat_second))]
pub(crate) fn deciding_flat<'r>(items: &'r [Item], packet: &Packet) -> Option<Hit<'r>>
    requires { length items.now ≤ RULES_MAX }
    ensures { spot_in result ≡ last_spot (hits_with no_tables no_hits packet.now [] 0 (map rule_of items.now)) }
{
    match first_quick(items, packet) {
        Some(hit) => Some(hit),
        None => last_other(items, packet),
    }
}
