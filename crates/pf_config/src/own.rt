//! An anchor's own entry: the rules and tables at its path.

ghost use Rattle.std.specs.Prelude.{◌≡◌, ◌≤◌, ◌&&◌, [], IfOk, length, map};
ghost use Rattle.pf_rules.specs.Seen.{rule_of};
ghost use Rattle.pf_config.specs.Map.{name_after};
ghost use Rattle.pf_config.specs.Changes.{is_empty, is_some_unnamed};
ghost use Rattle.pf_config.specs.Trees.{own_entry};
ghost use Rattle.pf_config.specs.Orders.{IsOrder};
ghost use Rattle.pf_config.specs.inner.Trees.{any_unnamed, own_count, room_after, are_apart};
ghost use Rattle.pf_config.specs.declared.config.TheConstants.{RULES_MAX};

use crate::Made;
use crate::order::{Order, order_of};
use crate::tables::Tables;
use pf_rules::{Item, Name};
use std::alloc::Global;
use std::rc::Rc;

/// The rules and tables at a path, and the order in which a verdict walks over the rules. All are shared, so that a
/// change of tables alone makes no order anew.
#[derive(Drop)]
pub(crate) struct Own {
    pub(crate) items: Rc<Vec<Item>>,
    pub(crate) order: Rc<Order>,
    pub(crate) tables: Tables,
    ghost few: { length items.value.items ≤ 1024 },
    ghost ordered: { IsOrder (map rule_of items.value.items) order.value.stops order.value.others },
}

impl Own {
    /// These rules, with the order that is made of them, and tables.
    pub(crate) fn of(items: Rc<Vec<Item>>, tables: Tables) -> Made<Own>
        requires { length items.value.items ≤ RULES_MAX }
        ensures rules { IfOk result (λ o. o.items ≡ items) }
        ensures tables { IfOk result (λ o. o.tables ≡ tables) }
    {
        let alloc = *items.allocator();
        let order = Rc::new(alloc, order_of(alloc, &items)?)?;
        Ok(Own {
            items,
            order,
            tables,
        })
    }

    /// These tables, and no rules.
    pub(crate) fn without_rules(tables: Tables) -> Made<Own>
        ensures rules { IfOk result (λ o. o.items.value.items ≡ []) }
        ensures tables { IfOk result (λ o. o.tables ≡ tables) }
    {
        let alloc = tables.alloc();
        Own::of(Rc::new(alloc, Vec::new(alloc))?, tables)
    }

    /// The rules, shared, and these tables.
    pub(crate) fn with_tables(&self, tables: Tables) -> Made<Own>
        ensures rules { IfOk result (λ o. map rule_of o.items.value.items ≡ map rule_of self.now.items.value.items) }
        ensures tables { IfOk result (λ o. o.tables ≡ tables) }
    {
        let items = self.items.clone()?;
        let order = self.order.clone()?;
        Ok(Own {
            items,
            order,
            tables,
        })
    }

    /// The same, shared.
    pub(crate) fn copied(&self) -> Made<Own>
        ensures rules { IfOk result (λ o. map rule_of o.items.value.items ≡ map rule_of self.now.items.value.items) }
        ensures tables { IfOk result (λ o. o.tables ≡ self.now.tables) }
    {
        self.with_tables(self.tables.copied()?)
    }

    /// Whether there is neither a rule nor a table.
    #[tactic(auto, using(crate::proofs::Treed::empty_len, crate::proofs::Treed::empty_map))]
    pub(crate) fn is_empty(&self) -> bool
        ensures { result ≡ (is_empty (map rule_of self.now.items.value.items) && is_empty self.now.tables) }
    {
        self.items.is_empty() && self.tables.list().is_empty()
    }

    /// The room that is left once the entry has its place.
    pub(crate) fn room_after(&self, room: usize) -> Option<usize>
        ensures { result ≡ room_after room (own_count (map rule_of self.now.items.value.items) self.now.tables) }
    {
        if self.is_empty() {
            Some(room)
        } else {
            room.checked_sub(1)
        }
    }

    /// Whether it isn't empty, and its path begins with the other and an unnamed name.
    pub(crate) fn is_unnamed_below(&self, names: &[Name], path: &[Name]) -> bool
        ensures { result ≡ any_unnamed path.now (own_entry names.now (map rule_of self.now.items.value.items)
            self.now.tables) }
    {
        !self.is_empty() && is_unnamed_below(names, path)
    }
}

/// Whether neither of the paths begins with the other.
pub(crate) fn are_apart(own: &[Name], path: &[Name]) -> bool
    ensures { result ≡ are_apart own.now path.now }
{
    !own.starts_with(path) && !path.starts_with(own)
}

/// Whether the path begins with the other and an unnamed name.
pub(crate) fn is_unnamed_below(own: &[Name], path: &[Name]) -> bool
    ensures { result ≡ is_some_unnamed (name_after path.now own.now) }
{
    own.get(path.len())
        .is_some_and(|name| name.is_unnamed() && own.starts_with(path))
}
