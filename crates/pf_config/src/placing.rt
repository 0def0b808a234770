//! Rules and the path that they are loaded at.

ghost use Rattle.std.specs.Prelude.{◌≡◌, ◌≤◌, IfOk, map, length};
ghost use Rattle.pf_rules.specs.Seen.{rule_of};
ghost use Rattle.pf_config.specs.declared.config.TheConstants.{RULES_MAX};

use crate::Made;
use pf_rules::{Item, Name};
use std::marker::Model;
use std::rc::Rc;

/// The rules of a ruleset, or of a block in it, and their path.
#[derive(Drop)]
pub(crate) struct Placing {
    path: Vec<Name>,
    items: Rc<Vec<Item>>,
}

impl Model for Placing {
    ghost use Rattle.std.specs.Prelude.{map, length, ◌≤◌};
    ghost use Rattle.pf_rules.specs.Seen.{rule_of};
    ghost use Rattle.pf_config.specs.Changes.{Block};

    ghost Value = { Block };

    ghost view = { λ b. record { path = b.path.items; rules = map rule_of b.items.value.items } };

    ghost invariant = { λ b. length b.items.value.items ≤ 1024 };
}

impl Placing {
    /// These rules at a path.
    pub(crate) fn new(path: Vec<Name>, items: Rc<Vec<Item>>) -> Placing
        requires { length items.value.items ≤ RULES_MAX }
        ensures { result ≡ record { path = path.items; rules = map rule_of items.value.items } }
    {
        Placing { path, items }
    }

    pub(crate) fn path(&self) -> &[Name]
        ensures { result.now ≡ self.now.path }
    {
        &self.path
    }

    pub(crate) fn items(&self) -> Made<Rc<Vec<Item>>>
        ensures rules { IfOk result (λ rc. map rule_of rc.value.items ≡ self.now.rules) }
        ensures few { IfOk result (λ rc. length rc.value.items ≤ RULES_MAX) }
    {
        self.items.clone()
    }
}
