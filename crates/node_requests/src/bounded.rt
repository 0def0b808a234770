//! How many rules verdicts may meet.

ghost use Rattle.std.specs.Prelude.{◌≡◌, []};
ghost use Rattle.pf_rules.specs.Seen.{rule_of};
ghost use Rattle.pf_config.specs.Trees.{paths_of, shared};
ghost use Rattle.pf_eval.specs.inner.TwoWalks.{IsAnchorOf, AreAnchorsOf};
ghost use Rattle.node_requests.specs.Bounded.{met_by, met_at, met_member, met_members, met_called, met_target};
ghost use Rattle.node_requests.specs.Bounded.{most_met, fitting};
ghost use Rattle.node_requests.specs.declared.bounded.TheConstants.{MET_MAX, NESTED};
ghost use Rattle.node_requests.specs.inner.Left.{minus, within};

use pf_config::{Anchor, Config};
use pf_rules::Item;
use std::rc::Rc;

/// How many rules, and anchors attached to another, the verdicts that one request asks a running node for may meet at
/// most: they are one piece of work, during which the node does nothing else.
pub const MET_MAX: u32 = 10_000;

/// How deep a path may be.
const DEEPEST: usize = 8;

/// How deep main's rules nest at most.
const NESTED: u8 = 9;

/// What is left of so much, behind this rule; none if it isn't enough.
#[cycle(bounded)]
#[tactic(auto, using(crate::proofs::Budget::no_rule))]
fn left_behind(
    config: &Config,
    anchor: &Anchor,
    depth: u8,
    index: u32,
    item: &Item,
    left: u32,
) -> Option<u32>
    requires { IsAnchorOf config.now anchor.now }
    ensures { result ≡ minus left
        (met_by (met_target (most_met depth config.now) config.now anchor.now.names) (rule_of item.now)) }
{
    if left == 0 {
        return None;
    }
    match item {
        Item::Filter(_) => Some(left - 1),
        Item::Anchor(rule) => {
            let target = &rule.heading.target;
            match anchor.below(index, &target.names) {
                Some(base) => left_within(config, base, depth, target.children, left - 1),
                None => Some(left - 1),
            }
        }
    }
}

/// The same behind the anchor, or those directly attached to it.
#[cycle(bounded)]
#[tactic(auto, using(pf_eval::proofs::Anchors::own_kids, pf_eval::proofs::Anchors::kids_are))]
fn left_within(config: &Config, base: &Anchor, depth: u8, children: bool, left: u32) -> Option<u32>
    requires { IsAnchorOf config.now base.now }
    ensures { result ≡ minus left (met_called (most_met depth config.now) config.now base.now.names children) }
{
    if children {
        left_in_members(config, base.kids(), depth, left)
    } else {
        left_at(config, base, depth, left)
    }
}

/// The same behind these anchors.
#[cycle(bounded)]
#[tactic(auto, using(crate::proofs::Budget::nothing_less, pf_eval::proofs::Anchors::kid_is))]
fn left_in_members(config: &Config, kids: &[Rc<Anchor>], depth: u8, left: u32) -> Option<u32>
    requires { AreAnchorsOf config.now (shared kids.now) }
    ensures { result ≡ minus left (met_members (most_met depth config.now) (paths_of (shared kids.now))) }
{
    let mut now = left;
    for kid in kids {
        now = left_in_member(config, kid, depth, now)?;
    }
    Some(now)
}

/// The same behind an attached anchor.
#[cycle(bounded)]
#[tactic(auto, using(crate::proofs::Budget::one_member))]
fn left_in_member(config: &Config, kid: &Anchor, depth: u8, left: u32) -> Option<u32>
    requires { IsAnchorOf config.now kid.now }
    ensures { result ≡ minus left (met_member (most_met depth config.now) kid.now.names) }
{
    if left == 0 {
        return None;
    }
    if kid.is_unnamed() {
        return Some(left - 1);
    }
    left_at(config, kid, depth, left - 1)
}

/// The same behind an anchor, all of it where its path is too deep.
#[cycle(bounded)]
#[tactic(auto, using(crate::proofs::Budget::nothing_less))]
fn left_at(config: &Config, anchor: &Anchor, depth: u8, left: u32) -> Option<u32>
    requires { IsAnchorOf config.now anchor.now }
    ensures { result ≡ minus left (met_at (most_met depth config.now) anchor.now.names) }
{
    if anchor.names().len() <= DEEPEST {
        left_after(config, anchor, depth, left)
    } else {
        Some(left)
    }
}

/// The same behind an anchor's rules, where anchor rules nest less deep than this.
#[cycle(bounded)]
#[tactic(auto, using(crate::proofs::Budget::some_rules))]
fn left_after(config: &Config, anchor: &Anchor, depth: u8, left: u32) -> Option<u32>
    requires { IsAnchorOf config.now anchor.now }
    ensures { result ≡ minus left (most_met depth config.now anchor.now.names) }
{
    if depth == 0 {
        return Some(left);
    }
    let mut now = left;
    let mut index = 0u32;
    for item in anchor.items() {
        now = left_behind(config, anchor, depth - 1, index, item, now)?;
        index = index.saturating_add(1);
    }
    Some(now)
}

/// How many rules a verdict may meet, none where they are more than verdicts may.
#[tactic(auto, using(crate::proofs::Budget::met, crate::proofs::Budget::met_none))]
fn met(config: &Config) -> Option<u32>
    ensures { result ≡ within MET_MAX (most_met NESTED config.now []) }
{
    let Some(main) = config.anchor(&[]) else {
        return Some(0);
    };
    let left = left_after(config, main, NESTED, MET_MAX)?;
    Some(MET_MAX - left)
}

/// For how many packets one request is answered: none where a verdict may meet more rules than verdicts may.
#[tactic(auto, using(crate::proofs::Budget::none_fits, crate::proofs::Budget::some_fit))]
pub(crate) fn fitting(config: &Config) -> u32
    ensures { result ≡ fitting config.now }
{
    met(config).map_or(0, |met| MET_MAX / met.max(1))
}
