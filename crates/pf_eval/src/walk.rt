//! The two walks over rules and anchors, and what they have in common.

ghost use Rattle.std.specs.Prelude.{◌≡◌, slice_get};
ghost use Rattle.pf_rules.specs.Items.{AnchorRule};
ghost use Rattle.pf_rules.specs.Seen.{heading_of, rule_of};
ghost use Rattle.pf_config.specs.Map.{anchor_at, rules_at, rules_in};
ghost use Rattle.pf_config.specs.Orders.{stops_of};
ghost use Rattle.pf_config.specs.Trees.{paths_of, shared};
ghost use Rattle.pf_eval.specs.inner.TwoWalks.{shallow, in_member, called, called_stop, called_last, ending, is_quiet};
ghost use Rattle.pf_eval.specs.inner.TwoWalks.{candidate_spot, some_rule, first_some, last_some};
ghost use Rattle.pf_eval.specs.inner.TwoWalks.{IsAnchorOf, AreAnchorsOf, candidates_of, first_walk, second_walk};
ghost use Rattle.pf_eval.specs.inner.TwoWalks.{walked, rule_at, stop_at, last_at, spot_in};

use crate::hit::{Hit, rule_hit};
use crate::matching::matches;
use crate::packet::Packet;
use crate::scope::scope_at;
use crate::sieving::{key_of, next_passing};
use pf_config::{Anchor, CandidateList, Config};
use pf_rules::{AnchorHeading, Item, PATH_MAX};
use std::rc::Rc;

/// One of the two walks.
#[derive(Clone, Copy)]
pub(crate) enum Walk {
    /// From the front, to the first hit that ends the evaluation: over the quick filter rules and the anchor rules.
    Stops,
    /// From the back, to the last hit of the rules that aren't quick.
    Others,
}

/// The rules of an anchor that a walk goes over, in its order.
fn candidates_of(walk: Walk, anchor: &Anchor) -> &CandidateList
    ensures { result.now ≡ candidates_of walk (rules_in (anchor_at anchor.now.names anchor.now.anchors)) }
{
    match walk {
        Walk::Stops => anchor.stops(),
        Walk::Others => anchor.others(),
    }
}

/// Whether no rule of the anchor that a rule leads to can end the evaluation, nor that rule by itself.
fn is_quiet(heading: &AnchorHeading, base: &Anchor) -> bool
    ensures { result ≡ is_quiet heading.now.quick heading.now.target.children
        (stops_of (rules_in (anchor_at base.now.names base.now.anchors))) }
{
    !heading.quick && !heading.target.children && base.stops().list().is_empty()
}

/// The rules of a configuration for a packet, where anchor rules nest less deep than this.
#[derive(Clone, Copy)]
pub(crate) struct Rules<'c, 'p> {
    pub(crate) config: &'c Config,
    pub(crate) packet: &'p Packet,
    pub(crate) depth: u8,
}

impl<'c> Rules<'c, '_> {
    /// What a walk finds in an anchor.
    #[cycle(walks)]
    #[tactic(auto, using(crate::proofs::Candidates::walked_none, crate::proofs::Candidates::candidates_are))]
    pub(crate) fn found(self, walk: Walk, anchor: &'c Anchor) -> Option<Hit<'c>>
        requires { IsAnchorOf self.config.now anchor.now }
        ensures { spot_in result ≡ walked walk self.entry.depth self.entry.config.now self.entry.packet.now
            anchor.now.names }
    {
        if self.depth == 0 {
            return None;
        }
        let depth = self.depth - 1;
        Rules { depth, ..self }.of_candidates(walk, anchor, candidates_of(walk, anchor))
    }

    /// The first hit of these rules. A rule whose sieve doesn't let the packet pass isn't looked at.
    #[cycle(walks)]
    fn of_candidates(
        self,
        walk: Walk,
        anchor: &'c Anchor,
        candidates: &CandidateList,
    ) -> Option<Hit<'c>>
        requires { IsAnchorOf self.config.now anchor.now }
        ensures { spot_in result ≡ first_some (candidate_spot (rule_at walk self.entry.depth self.entry.config.now
            self.entry.packet.now anchor.now.names)
            (rules_at self.entry.config.now anchor.now.names) self.entry.packet.now) candidates.now }
    {
        let key = key_of(self.packet);
        let list = candidates.list();
        let search = candidates.search(key.source, key.destination, key.destination_port);
        let mut from = 0;
        while let Some(at) = next_passing(&search, list, &key, from) {
            let candidate = &list[at];
            if let Some(hit) = self.of_index(walk, anchor, candidate.index) {
                return Some(hit);
            }
            from = at + 1;
        }
        None
    }

    /// The hit of the rule with this index.
    #[cycle(walks)]
    #[inline(never)]
    #[tactic(auto, using(crate::proofs::Anchors::own_rules, crate::proofs::Candidates::no_rule))]
    fn of_index(self, walk: Walk, anchor: &'c Anchor, index: u32) -> Option<Hit<'c>>
        requires { IsAnchorOf self.config.now anchor.now }
        ensures { spot_in result ≡ some_rule (rule_at walk self.entry.depth self.entry.config.now
            self.entry.packet.now anchor.now.names index)
            (slice_get (rules_at self.entry.config.now anchor.now.names) index) }
    {
        let items = anchor.items();
        let at = index as usize;
        if at >= items.len() {
            return None;
        }
        self.of_item(walk, anchor, index, &items[at])
    }

    /// The hit by which a rule ends the evaluation, or its last hit, none if it is quick.
    #[cycle(walks)]
    #[tactic(auto, using(crate::proofs::Walks::stop_of_filter, crate::proofs::Walks::stop_of_anchor, crate::proofs::Walks::last_of_filter, crate::proofs::Walks::last_of_anchor))]
    fn of_item(self, walk: Walk, anchor: &'c Anchor, index: u32, item: &Item) -> Option<Hit<'c>>
        requires { IsAnchorOf self.config.now anchor.now }
        ensures { spot_in result ≡ rule_at walk self.entry.depth self.entry.config.now self.entry.packet.now
            anchor.now.names index (rule_of item.now) }
    {
        match (walk, item) {
            (Walk::Stops, Item::Anchor(rule)) => self.stop_within(anchor, index, &rule.heading),
            (Walk::Others, Item::Anchor(rule)) => self.last_within(anchor, index, &rule.heading),
            (Walk::Stops, Item::Filter(rule)) if !rule.quick => None,
            (Walk::Others, Item::Filter(rule)) if rule.quick => None,
            (_, Item::Filter(rule)) => {
                rule_hit(
                    scope_at(self.config, anchor.names()),
                    self.packet,
                    index,
                    rule,
                )
            }
        }
    }

    /// The hit by which the anchor rule with this index ends the evaluation. The cheapest look comes first: few anchors
    /// have rules that are quick.
    #[cycle(walks)]
    #[tactic(auto, using(crate::proofs::Anchors::below_is))]
    fn stop_within(self, anchor: &'c Anchor, index: u32, heading: &AnchorHeading) -> Option<Hit<'c>>
        requires { IsAnchorOf self.config.now anchor.now }
        ensures { spot_in result ≡
            stop_at self.entry.depth self.entry.config.now self.entry.packet.now anchor.now.names 0 (AnchorRule
            (heading_of heading.now)) }
    {
        let Some(base) = anchor.below(index, &heading.target.names) else {
            return None;
        };
        if is_quiet(heading, base) {
            return None;
        }
        let scope = scope_at(self.config, anchor.names());
        if !matches(scope, &heading.conditions, self.packet) {
            return None;
        }
        self.ended(base, heading)
    }

    /// The first hit that ends the evaluation within what an anchor rule evaluates. If the rule is quick, the last hit
    /// there ends it too.
    #[cycle(walks)]
    fn ended(self, base: &'c Anchor, heading: &AnchorHeading) -> Option<Hit<'c>>
        requires { IsAnchorOf self.config.now base.now }
        ensures { spot_in result ≡ ending heading.now.quick
            (called_stop (first_walk self.entry.depth self.entry.config.now self.entry.packet.now)
            self.entry.config.now base.now.names heading.now.target.children)
            (called_last (second_walk self.entry.depth self.entry.config.now self.entry.packet.now)
            self.entry.config.now base.now.names heading.now.target.children) }
    {
        let children = heading.target.children;
        match self.called(Walk::Stops, base, children) {
            None if heading.quick => self.called(Walk::Others, base, children),
            stop => stop,
        }
    }

    /// The last hit within what an anchor rule evaluates, none if the rule is quick.
    #[cycle(walks)]
    #[tactic(auto, using(crate::proofs::Walks::none_called, crate::proofs::Anchors::below_is, crate::proofs::Anchors::last_below, crate::proofs::Anchors::no_rules_below, crate::proofs::Anchors::no_kids_below))]
    fn last_within(self, anchor: &'c Anchor, index: u32, heading: &AnchorHeading) -> Option<Hit<'c>>
        requires { IsAnchorOf self.config.now anchor.now }
        ensures { spot_in result ≡
            last_at self.entry.depth self.entry.config.now self.entry.packet.now anchor.now.names 0 (AnchorRule
            (heading_of heading.now)) }
    {
        let scope = scope_at(self.config, anchor.names());
        if heading.quick || !matches(scope, &heading.conditions, self.packet) {
            return None;
        }
        let base = anchor.below(index, &heading.target.names)?;
        self.called(Walk::Others, base, heading.target.children)
    }

    /// What a walk finds within the anchor, or within those directly attached to it.
    #[cycle(walks)]
    #[tactic(auto, using(crate::proofs::Anchors::own_kids, crate::proofs::Anchors::kids_are))]
    fn called(self, walk: Walk, base: &'c Anchor, children: bool) -> Option<Hit<'c>>
        requires { IsAnchorOf self.config.now base.now }
        ensures { spot_in result ≡
            called walk (walked walk self.entry.depth self.entry.config.now self.entry.packet.now)
            self.entry.config.now base.now.names children }
    {
        if !children {
            return self.at(walk, base);
        }
        match walk {
            Walk::Stops => self.first_of(base.kids()),
            Walk::Others => self.last_of(base.kids()),
        }
    }

    /// The first hit that ends the evaluation within these anchors.
    #[cycle(walks)]
    #[tactic(auto, using(crate::proofs::Anchors::kid_is))]
    fn first_of(self, kids: &'c [Rc<Anchor>]) -> Option<Hit<'c>>
        requires { AreAnchorsOf self.config.now (shared kids.now) }
        ensures { spot_in result ≡
            first_some (in_member (first_walk self.entry.depth self.entry.config.now self.entry.packet.now))
            (paths_of (shared kids.now)) }
    {
        for kid in kids {
            if let Some(hit) = self.of_member(Walk::Stops, kid) {
                return Some(hit);
            }
        }
        None
    }

    /// The last hit within these anchors, looked for from the back.
    #[cycle(walks)]
    #[tactic(auto, using(crate::proofs::Anchors::kid_is))]
    fn last_of(self, kids: &'c [Rc<Anchor>]) -> Option<Hit<'c>>
        requires { AreAnchorsOf self.config.now (shared kids.now) }
        ensures { spot_in result ≡
            last_some (in_member (second_walk self.entry.depth self.entry.config.now self.entry.packet.now))
            (paths_of (shared kids.now)) }
    {
        let mut left = kids.len();
        while left > 0 {
            let index = left - 1;
            if let Some(hit) = self.of_member(Walk::Others, &kids[index]) {
                return Some(hit);
            }
            left = index;
        }
        None
    }

    /// What a walk finds within an anchor, none if it is an unnamed block.
    #[cycle(walks)]
    fn of_member(self, walk: Walk, kid: &'c Anchor) -> Option<Hit<'c>>
        requires { IsAnchorOf self.config.now kid.now }
        ensures { spot_in result ≡ in_member (walked walk self.entry.depth self.entry.config.now
            self.entry.packet.now) kid.now.names }
    {
        if kid.is_unnamed() {
            None
        } else {
            self.at(walk, kid)
        }
    }

    /// What a walk finds in an anchor, none if its path is too deep.
    #[cycle(walks)]
    fn at(self, walk: Walk, anchor: &'c Anchor) -> Option<Hit<'c>>
        requires { IsAnchorOf self.config.now anchor.now }
        ensures { spot_in result ≡ shallow (walked walk self.entry.depth self.entry.config.now self.entry.packet.now)
            anchor.now.names }
    {
        if anchor.names().len() > PATH_MAX {
            return None;
        }
        self.found(walk, anchor)
    }
}
