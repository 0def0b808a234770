//! How many conditions the lists of a rule give, counted without making them.

ghost use Rattle.std.specs.Prelude.{◌≡◌, ◌^◌, ◌-◌, false, length, min};
ghost use Rattle.pf_rules.specs.declared.parts.FlagTest.{FlagTest};
ghost use Rattle.pf_statements.specs.ConditionsSeen.{conditions_of, list_of};
ghost use Rattle.pf_expansion.specs.Causes.{is_too_wide};
ghost use Rattle.pf_expansion.specs.Expansion.{combined, count_of};
ghost use Rattle.pf_expansion.specs.inner.Counts.{is_of_one, count_hosts, pairs_from, all_of};

use crate::expand::{host_family, with_family};
use pf_addr::Family;
use pf_rules::Host;
use pf_statements::WrittenConditions;
use pf_tokens::Listed;

/// How many elements are to be combined: one where there is no list.
pub(crate) fn count_of<E: Drop>(list: &Option<Listed<E>>) -> usize
    ensures { result ≡ count_of (list_of list.now) }
{
    list.as_ref().map_or(1, |list| list.items.len())
}

/// Whether a combination with these hosts is of one family.
fn is_of_one(text: &WrittenConditions, source: &Host, destination: &Host) -> bool
    ensures { result ≡ is_of_one (conditions_of text.now) source.now destination.now }
{
    let icmp = text.types.is_some().then_some(Family::Inet);
    let hosts = with_family(host_family(destination), Some(icmp));
    let hosts = with_family(host_family(source), hosts);
    with_family(text.common.family, hosts).is_some()
}

/// How many of the destinations are of one family with a source.
fn destinations(text: &WrittenConditions, source: &Host) -> usize
    ensures { result ≡ count_hosts (is_of_one (conditions_of text.now) source.now)
        (conditions_of text.now).common.destination.hosts.items }
{
    let mut count = 0usize;
    for destination in &text.common.destination.hosts.items {
        if is_of_one(text, source, destination) {
            count += 1;
        }
    }
    count
}

/// How many pairs of hosts are of one family, the greatest number of the type where they are more.
fn pairs(text: &WrittenConditions) -> usize
    ensures { result ≡ min (pairs_from (conditions_of text.now)
        (conditions_of text.now).common.source.hosts.items) (2 ^ 64 - 1) }
{
    let mut count = 0usize;
    for source in &text.common.source.hosts.items {
        count = count.saturating_add(destinations(text, source));
    }
    count
}

/// How many conditions the lists give, the greatest number of the type where they are more.
#[tactic(auto, using(crate::proofs::Products::capped))]
fn capped_count(text: &WrittenConditions) -> usize
    ensures { result ≡ min (all_of (conditions_of text.now)) (2 ^ 64 - 1) }
{
    pairs(text)
        .saturating_mul(count_of(&text.types))
        .saturating_mul(count_of(&text.common.destination.ports))
        .saturating_mul(count_of(&text.common.source.ports))
        .saturating_mul(count_of(&text.common.protocols))
        .saturating_mul(count_of(&text.common.interfaces))
}

/// How many conditions the lists give, where they don't have too many combinations.
pub(crate) fn count_combined(text: &WrittenConditions) -> usize
    requires { is_too_wide (conditions_of text.now) ≡ false }
    ensures { (test : FlagTest) → result ≡ length (combined test (conditions_of text.now)) }
{
    capped_count(text)
}
