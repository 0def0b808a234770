//! Rules of each kind, and the blocks that anchor rules carry.

ghost use Rattle.std.specs.Prelude.{◌≡◌, IfOk};
ghost use Rattle.pf_rules.specs.Items.{Anchors, Blocks, Filters, conditions_of, values_of};
ghost use Rattle.pf_rules.specs.Seen.{heading_of, item_of, items_of, rule_of, target_of};

use crate::name::Name;
use crate::rule::{Conditions, Rule};
use std::alloc::{AllocError, Global};
use std::rc::Rc;

/// Which anchors an anchor rule evaluates, named relative to the anchor that holds the rule (pf.conf(5), ANCHORS).
pub struct Target {
    /// The names that lead to the anchor: 1 to 8 in a rule that a ruleset gives.
    pub names: Vec<Name>,
    /// Whether `/*` follows: the anchors directly attached to it are evaluated, and not itself.
    pub children: bool,
}

impl Drop for Target {
    fn drop(self) {
        let Target {
            names: _,
            children: _,
        } = self;
    }
}

/// An anchor rule without the block that it may carry.
pub struct AnchorHeading {
    /// The anchors that it evaluates.
    pub target: Target,
    /// Whether the evaluation ends where a filter rule within it matched.
    pub quick: bool,
    /// For which packets it evaluates them.
    pub conditions: Conditions,
}

impl Drop for AnchorHeading {
    fn drop(self) {
        let AnchorHeading {
            target: _,
            quick: _,
            conditions: _,
        } = self;
    }
}

/// A rule that evaluates anchors (pf.conf(5), ANCHORS).
#[cycle(item)]
pub struct AnchorRule {
    /// The anchor rule without its block.
    pub heading: AnchorHeading,
    /// The rules that it carries for its anchor, if it carries a block. They are shared, so that a load copies none.
    pub block: Option<Rc<Vec<Item>>>,
}

impl Drop for AnchorRule {
    #[cycle(item_drop)]
    fn drop(self) {
        let AnchorRule {
            heading: _,
            block: _,
        } = self;
    }
}

/// What is evaluated in its turn.
#[cycle(item)]
pub enum Item {
    Filter(Rule),
    Anchor(AnchorRule),
}

impl Drop for Item {
    #[cycle(item_drop)]
    fn drop(self) {
        match self {
            Item::Filter(_) => {}
            Item::Anchor(_) => {}
        }
    }
}

impl Target {
    /// The same target once more. A growth that is refused is the error.
    pub fn copied(&self, alloc: Global) -> Result<Target, AllocError>
        ensures { IfOk result (λ target. target_of target ≡ target_of self.now) }
    {
        let mut names = Vec::new(alloc);
        for name in &self.names {
            names.push(name.copied(alloc)?)?;
        }
        Ok(Target {
            names,
            children: self.children,
        })
    }
}

impl Item {
    /// A filter rule.
    pub fn filter(rule: Rule) -> Item
        ensures { item_of result ≡ Filters rule }
    {
        Item::Filter(rule)
    }

    /// An anchor rule that carries no block.
    pub fn anchor(heading: AnchorHeading) -> Item
        ensures { item_of result ≡ Anchors (heading_of heading) }
    {
        Item::Anchor(AnchorRule {
            heading,
            block: None,
        })
    }

    /// An anchor rule that carries a block of these rules. A growth that is refused is the error.
    pub fn block(
        alloc: Global,
        heading: AnchorHeading,
        items: Vec<Item>,
    ) -> Result<Item, AllocError>
        ensures { IfOk result (λ item. item_of item ≡
            Blocks (heading_of heading) (values_of (items_of items.items))) }
    {
        let shared = Rc::new(alloc, items)?;
        Ok(Item::carrying(heading, shared))
    }

    /// An anchor rule that carries a block of these rules, which are shared.
    fn carrying(heading: AnchorHeading, items: Rc<Vec<Item>>) -> Item
        ensures { item_of result ≡ Blocks (heading_of heading) (values_of (items_of items.value.items)) }
    {
        Item::Anchor(AnchorRule {
            heading,
            block: Some(items),
        })
    }

    /// What a packet must be for the rule.
    pub fn conditions(&self) -> &Conditions
        ensures { result.now ≡ conditions_of (rule_of self.now) }
    {
        match self {
            Item::Filter(rule) => &rule.conditions,
            Item::Anchor(anchor) => &anchor.heading.conditions,
        }
    }
}
