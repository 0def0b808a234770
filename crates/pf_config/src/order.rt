//! The order in which a verdict walks over the rules of a path. It is made once, where the rules take their place.

ghost use Rattle.std.specs.Prelude.{◌≡◌, ◌≤◌, IfOk, length, map};
ghost use Rattle.pf_rules.specs.Seen.{rule_of};
ghost use Rattle.pf_config.specs.Orders.{may_stop, is_other, candidate_at, stops_of, others_of};
ghost use Rattle.pf_config.specs.declared.config.TheConstants.{RULES_MAX};

use crate::Made;
use crate::candidate::Candidate;
use crate::candidate_list::CandidateList;
use crate::places::Places;
use crate::sieve::sieve_of;
use pf_rules::Item;
use std::alloc::Global;

/// The rules that may end the evaluation, the first one first, and those that aren't quick, the last one first. And
/// where the anchors may be that they lead to.
#[derive(Drop)]
pub(crate) struct Order {
    pub(crate) stops: CandidateList,
    pub(crate) others: CandidateList,
    pub(crate) places: Places,
}

/// Whether the evaluation may end with the rule.
#[tactic(auto, using(crate::proofs::Candidates::filter_stops, crate::proofs::Candidates::anchor_stops))]
fn may_stop(item: &Item) -> bool
    ensures { result ≡ may_stop (rule_of item.now) }
{
    match item {
        Item::Filter(rule) => rule.quick,
        Item::Anchor(_) => true,
    }
}

/// Whether the rule isn't quick.
#[tactic(auto, using(crate::proofs::Candidates::filter_other, crate::proofs::Candidates::anchor_other))]
fn is_other(item: &Item) -> bool
    ensures { result ≡ is_other (rule_of item.now) }
{
    match item {
        Item::Filter(rule) => !rule.quick,
        Item::Anchor(rule) => !rule.heading.quick,
    }
}

/// The rule with this index, and its sieve.
fn candidate_at(index: u32, item: &Item) -> Candidate
    ensures { result ≡ candidate_at index (rule_of item.now) }
{
    Candidate {
        index,
        sieve: sieve_of(item.conditions()),
    }
}

/// The rules that may end the evaluation, the first one first.
#[tactic(auto, unfolding(crate::specs::Orders::stops_of))]
fn stops_of(alloc: Global, items: &[Item]) -> Made<Vec<Candidate>>
    requires { length items.now ≤ RULES_MAX }
    ensures { IfOk result (λ v. v.items ≡ stops_of (map rule_of items.now)) }
{
    let mut found = Vec::new(alloc);
    for (index, item) in items.iter().enumerate() {
        if may_stop(item) {
            found.push(candidate_at(index as u32, item))?;
        }
    }
    Ok(found)
}

/// The rules that aren't quick, the last one first.
#[tactic(auto, unfolding(crate::specs::Orders::others_of))]
fn others_of(alloc: Global, items: &[Item]) -> Made<Vec<Candidate>>
    requires { length items.now ≤ RULES_MAX }
    ensures { IfOk result (λ v. v.items ≡ others_of (map rule_of items.now)) }
{
    let mut found = Vec::new(alloc);
    for (index, item) in items.iter().enumerate() {
        if is_other(item) {
            found.push(candidate_at(index as u32, item))?;
        }
    }
    found.reverse();
    Ok(found)
}

/// The order of these rules.
pub(crate) fn order_of(alloc: Global, items: &[Item]) -> Made<Order>
    requires { length items.now ≤ RULES_MAX }
    ensures stops { IfOk result (λ o. o.stops ≡ stops_of (map rule_of items.now)) }
    ensures others { IfOk result (λ o. o.others ≡ others_of (map rule_of items.now)) }
{
    let stops = CandidateList::of(alloc, stops_of(alloc, items)?)?;
    let others = CandidateList::of(alloc, others_of(alloc, items)?)?;
    let places = Places::of(alloc, items)?;
    Ok(Order {
        stops,
        others,
        places,
    })
}
