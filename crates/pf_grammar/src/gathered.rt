//! What the statements of a source so far give, and what one more changes.

ghost use Rattle.std.specs.Prelude.{◌≡◌, OnOk};
ghost use Rattle.pf_grammar.specs.Reading.{nothing};
ghost use Rattle.pf_grammar.specs.inner.Gathering.{sofar_of, with_change};

use pf_expansion::{DefinedTables, push_anchors, push_rules};
use pf_rules::{AnchorHeading, InterfaceName, Item, Policy, Rule, TableDef};
use pf_tokens::{Macro, Macros};
use std::alloc::{AllocError, Global};

/// What the statements so far give: what is the text's alone, and the ruleset.
#[derive(Drop)]
pub(crate) struct Gathered {
    pub(crate) macros: Macros,
    /// What a plain `block` does.
    pub(crate) policy: Policy,
    pub(crate) skip: Vec<InterfaceName>,
    pub(crate) tables: DefinedTables,
    pub(crate) items: Vec<Item>,
}

/// What a statement that isn't refused changes.
#[derive(Drop)]
pub(crate) enum Change {
    /// It defines a macro.
    Defines(Macro),
    /// It sets what a plain `block` does from here on.
    Sets(Policy),
    /// It names interfaces whose packets aren't filtered.
    Skips(Vec<InterfaceName>),
    /// It defines a table.
    Tables(TableDef),
    /// It gives these rules.
    Adds(Vec<Rule>),
    /// It gives these anchor rules.
    AddsAnchors(Vec<AnchorHeading>),
    /// It gives these rules of any kind.
    AddsItems(Vec<Item>),
}

impl Gathered {
    /// Before the first statement.
    pub(crate) fn new(alloc: Global) -> Gathered
        ensures { sofar_of result ≡ nothing }
    {
        Gathered {
            macros: Macros::new(alloc),
            policy: Policy::Drop,
            skip: Vec::new(alloc),
            tables: DefinedTables::new(alloc),
            items: Vec::new(alloc),
        }
    }

    /// With one statement more.
    #[tactic(auto, using(crate::proofs::ReadingSteps::items_append))]
    pub(crate) fn add(&mut self, alloc: Global, change: Change) -> Result<(), AllocError>
        ensures { OnOk result (sofar_of self.new ≡ with_change (sofar_of self.old) change) }
    {
        match change {
            Change::Defines(made) => self.macros.push(alloc, made)?,
            Change::Sets(policy) => self.policy = policy,
            Change::Skips(mut names) => self.skip.append(&mut names)?,
            Change::Tables(table) => self.tables.push(alloc, table)?,
            Change::Adds(rules) => push_rules(&mut self.items, rules)?,
            Change::AddsAnchors(headings) => push_anchors(&mut self.items, headings)?,
            Change::AddsItems(mut items) => self.items.append(&mut items)?,
        }
        Ok(())
    }
}
