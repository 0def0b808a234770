//! An anchor, with all that is below it.

ghost use Rattle.std.specs.Prelude.{◌≡◌, ◌≤◌, ◌&&◌, ◌++◌, [], IfOk, OnOk, MatchResult, map};
ghost use Rattle.std.specs.Prelude.{false, find, fold, is_some, length};
ghost use Rattle.std.specs.List.{list_any};
ghost use Rattle.std.specs.Option.{option_copied};
ghost use Rattle.pf_rules.specs.Seen.{rule_of};
ghost use Rattle.pf_rules.specs.Names.{is_before, begins_below};
ghost use Rattle.pf_config.specs.Map.{anchor_at, rules_in, tables_in, named, put_name, names_after, followed_by};
ghost use Rattle.pf_config.specs.Map.{paths_in};
ghost use Rattle.pf_config.specs.Changes.{is_empty, without_unnamed, refer, tidied_of};
ghost use Rattle.pf_config.specs.Trees.{shared, child_at, last_name, paths_of, AreBelow, AreKids};
ghost use Rattle.pf_config.specs.inner.Trees.{any_unnamed, any_sheds, is_named, kids_before, placed_in, room_after};
ghost use Rattle.pf_config.specs.Ordered.{AreOrdered};
ghost use Rattle.pf_config.specs.Orders.{stops_of, others_of};
ghost use Rattle.pf_config.specs.inner.KidOrder.{AreInOrder};
ghost use Rattle.pf_config.specs.inner.TableChanges.{Makes, TreeChangesIf, KidChangesIf};
ghost use Rattle.pf_config.specs.inner.Referring.{Gains, KnowsAll, any_may_shed};
ghost use Rattle.pf_config.specs.declared.config.TheConstants.{RULES_MAX};

use crate::Made;
use crate::below::{
    any_unnamed, count_before, is_at, kid_named, last_name, owned_or_empty, push_some, put_kid,
    shared_kids, take_named,
};
use crate::candidate_list::CandidateList;
use crate::change::{Change, change_own};
use crate::own::{Own, are_apart, is_unnamed_below};
use crate::paths::{copied_path, followed_by};
use crate::referred::{Referred, any_fleeting};
use crate::tables::{Tables, named};
use crate::unused::{any_unused, items_refer, used_tables};
use pf_rules::{Item, Name, TableName};
use pf_tables::Table;
use std::alloc::Global;
use std::cmp::Ordering;
use std::marker::Model;
use std::rc::Rc;

/// An anchor: its full names, the rules and tables at its path, and the anchors below it.
#[derive(Drop)]
pub struct Anchor {
    names: Vec<Name>,
    own: Own,
    kids: Vec<Rc<Anchor>>,
}

impl Model for Anchor {
    ghost use Rattle.std.specs.Prelude.{map, length, ◌++◌};
    ghost use Rattle.pf_rules.specs.Seen.{rule_of};
    ghost use Rattle.pf_config.specs.Trees.{AnchorTree, own_entry, below, shared, AreKids, weight};
    ghost use Rattle.pf_config.specs.inner.TreeFalls.{shared_lighter};

    ghost Value = { AnchorTree };

    ghost view = { λ a. record {
      names = a.names.items;
      anchors = own_entry a.names.items (map rule_of a.own.items.value.items) a.own.tables
          ++ below (shared a.kids.items);
    } };

    ghost invariant = { λ a. AreKids a.names.items (shared a.kids.items) };

    ghost size = { λ t. weight (length t.names) t.anchors };

    ghost size_decreases = { λ a h. shared_lighter a.names.items (own_entry a.names.items (map rule_of
        a.own.items.value.items) a.own.tables) a.kids.items h };
}

impl Anchor {
    /// Its full names.
    pub fn names(&self) -> &[Name]
        ensures { result.now ≡ self.now.names }
    {
        &self.names
    }

    /// The rules at its path.
    #[tactic(auto, using(crate::proofs::Treed::own_rules))]
    pub fn items(&self) -> &[Item]
        ensures rules { map rule_of result.now ≡ rules_in (anchor_at self.now.names self.now.anchors) }
        ensures few { length result.now ≤ RULES_MAX }
    {
        &self.own.items
    }

    /// The rules at its path that may end an evaluation, which are the quick filter rules and the anchor rules: the
    /// first one first.
    #[tactic(auto, using(crate::proofs::Treed::own_rules))]
    pub fn stops(&self) -> &CandidateList
        ensures { result.now ≡ stops_of (rules_in (anchor_at self.now.names self.now.anchors)) }
    {
        &self.own.order.stops
    }

    /// The rules at its path that aren't quick: the last one first.
    #[tactic(auto, using(crate::proofs::Treed::own_rules))]
    pub fn others(&self) -> &CandidateList
        ensures { result.now ≡ others_of (rules_in (anchor_at self.now.names self.now.anchors)) }
    {
        &self.own.order.others
    }

    /// The tables at its path.
    #[tactic(auto, using(crate::proofs::Treed::own_tables))]
    pub(crate) fn tables(&self) -> &[(TableName, Table)]
        ensures value { result.now ≡ tables_in (anchor_at self.now.names self.now.anchors) }
        ensures ordered { AreOrdered result.now }
    {
        self.own.tables.list()
    }

    /// The table of that name at its path.
    pub fn table(&self, name: &str) -> Option<&Table>
        ensures { option_copied result ≡ named name.now (tables_in (anchor_at self.now.names self.now.anchors)) }
    {
        named(self.tables(), name)
    }

    /// Whether its last name is before this one.
    pub(crate) fn is_before(&self, name: &Name) -> bool
        ensures { result ≡ is_before (last_name self.now.names) name.now }
    {
        last_name(&self.names).cmp(name.as_bytes()) == Ordering::Less
    }

    /// Whether its last name is this one.
    pub(crate) fn is_named(&self, name: &Name) -> bool
        ensures { result ≡ is_named name.now self.now }
    {
        last_name(&self.names) == name.as_bytes()
    }

    /// Whether there are rules or tables at its path.
    #[tactic(auto, using(crate::proofs::Changing::own_is))]
    pub(crate) fn has_own(&self) -> bool
        ensures { result ≡ is_some (anchor_at self.now.names self.now.anchors) }
    {
        !self.own.is_empty()
    }

    /// Whether it holds nothing.
    #[tactic(auto, using(crate::proofs::Treed::nothing_is))]
    pub(crate) fn is_nothing(&self) -> bool
        ensures { result ≡ is_empty self.now.anchors }
    {
        self.own.is_empty() && self.kids.is_empty()
    }

    /// The anchor of that name directly below. None where no path of the configuration begins with its names.
    pub fn child(&self, name: &str) -> Option<&Anchor>
        ensures { option_copied result ≡ child_at self.now name.now }
    {
        kid_named(&self.kids, name, self.kids.len() / 2)
    }

    /// The anchor of that name directly below, to which the rule with this index leads: it is looked for first where
    /// it is if rules lead to all anchors below.
    pub(crate) fn target(&self, index: u32, name: &str) -> Option<&Anchor>
        ensures { option_copied result ≡ child_at self.now name.now }
    {
        kid_named(&self.kids, name, self.own.order.places.of_rule(index))
    }

    /// The anchors directly below, in byte order of their names.
    #[tactic(auto, using(crate::proofs::Kids::paths_are))]
    pub fn kids(&self) -> &[Rc<Anchor>]
        ensures own { AreBelow self.now (shared result.now) }
        ensures paths { paths_of (shared result.now) ≡ map (followed_by self.now.names)
            (fold put_name [] (names_after self.now.names self.now.anchors)) }
    {
        &self.kids
    }

    /// Whether it is an unnamed block: the last name of such an anchor begins with `_`.
    pub fn is_unnamed(&self) -> bool
        ensures { result ≡ begins_below (last_name self.now.names) }
    {
        matches!(last_name(&self.names), [b'_', ..])
    }

    /// How much room is left once its entries have theirs. None where there isn't room for all.
    pub(crate) fn room_after(&self, room: usize) -> Option<usize>
        ensures { result ≡ room_after room (length self.now.anchors) }
    {
        let mut left = self.own.room_after(room)?;
        for kid in &self.kids {
            left = kid.room_after(left)?;
        }
        Some(left)
    }

    /// Puts the paths of its entries behind those that are there.
    pub(crate) fn push_paths<'c>(&'c self, paths: &mut Vec<&'c [Name]>) -> Made<()>
        ensures { OnOk result (map (λ p. p.now) paths.new.items
            ≡ map (λ p. p.now) paths.old.items ++ paths_in self.now.anchors) }
    {
        if !self.own.is_empty() {
            paths.push(&self.names)?;
        }
        for kid in &self.kids {
            kid.push_paths(paths)?;
        }
        Ok(())
    }

    /// Whether an unnamed block is directly below it.
    #[tactic(auto, using(crate::proofs::Unnamed::kids_unnamed))]
    pub(crate) fn has_unnamed_kid(&self) -> bool
        ensures { result ≡ any_unnamed self.now.names self.now.anchors }
    {
        any_unnamed(&self.kids)
    }

    /// Whether one of its paths begins with this one and an unnamed name. No anchor is entered that is off the path.
    #[tactic(auto, using(crate::proofs::Cut::apart_unnamed))]
    pub(crate) fn has_unnamed(&self, path: &[Name]) -> bool
        ensures { result ≡ any_unnamed path.now self.now.anchors }
    {
        if are_apart(&self.names, path) {
            return false;
        }
        if self.own.is_unnamed_below(&self.names, path) {
            return true;
        }
        for kid in &self.kids {
            if kid.has_unnamed(path) {
                return true;
            }
        }
        false
    }

    /// The same without the paths that begin with this one and an unnamed name. An anchor below in which nothing
    /// changes is shared.
    pub(crate) fn without_unnamed(&self, alloc: Global, path: &[Name]) -> Made<Anchor>
        ensures { IfOk result (λ a. a ≡ record {
          names = self.now.names;
          anchors = without_unnamed path.now self.now.anchors;
        }) }
    {
        let names = copied_path(alloc, &self.names)?;
        if is_unnamed_below(&names, path) {
            let none = Anchor::empty(alloc, names)?;
            return Ok(none);
        }
        let own = self.own.copied()?;
        let mut kids = Vec::new(alloc);
        for kid in &self.kids {
            if !kid.has_unnamed(path) {
                push_some(&mut kids, kid.clone()?)?;
                continue;
            }
            let next = kid.without_unnamed(alloc, path)?;
            push_some(&mut kids, Rc::new(alloc, next)?)?;
        }
        Ok(Anchor { names, own, kids })
    }

    /// Whether a rule here or below refers to the table of that name.
    pub(crate) fn refers(&self, name: &TableName) -> bool
        ensures { result ≡ list_any (refer name.now) self.now.anchors }
    {
        if items_refer(name, &self.own.items) {
            return true;
        }
        for kid in &self.kids {
            if kid.refers(name) {
                return true;
            }
        }
        false
    }

    /// Puts the names of the tables that rules here or below refer to. After an error nothing is known of the names.
    pub(crate) fn put_referred(&self, alloc: Global, names: &mut Referred) -> Made<()>
        ensures { OnOk result (Gains names.old (λ n. list_any (refer n) self.now.anchors) names.new) }
    {
        names.put_items(alloc, &self.own.items)?;
        for kid in &self.kids {
            kid.put_referred(alloc, names)?;
        }
        Ok(())
    }

    /// Whether a table here or below doesn't persist.
    #[tactic(auto, using(crate::proofs::Cut::may_shed_own))]
    pub(crate) fn has_fleeting(&self) -> bool
        ensures { result ≡ any_may_shed self.now.anchors }
    {
        if any_fleeting(self.own.tables.list()) {
            return true;
        }
        for kid in &self.kids {
            if kid.has_fleeting() {
                return true;
            }
        }
        false
    }

    /// Whether a table here or below neither persists nor is referred to by a rule of the whole configuration. The
    /// names that its rules refer to are known, or its rules are asked.
    pub(crate) fn has_unused(&self, main: &Anchor, known: &Option<Referred>) -> bool
        requires { KnowsAll known.now main.now.anchors }
        ensures { result ≡ any_sheds main.now.anchors self.now.anchors }
    {
        if any_unused(main, known, &self.names, &self.own) {
            return true;
        }
        for kid in &self.kids {
            if kid.has_unused(main, known) {
                return true;
            }
        }
        false
    }

    /// The same without the tables that no rule of the whole configuration refers to. An anchor below in which nothing
    /// changes is shared.
    pub(crate) fn tidied(
        &self,
        alloc: Global,
        main: &Anchor,
        known: &Option<Referred>,
    ) -> Made<Anchor>
        requires { KnowsAll known.now main.now.anchors }
        ensures { IfOk result (λ a. a ≡ record {
          names = self.now.names;
          anchors = tidied_of main.now.anchors self.now.anchors;
        }) }
    {
        let names = copied_path(alloc, &self.names)?;
        let tables = used_tables(main, known, &self.names, &self.own)?;
        let own = self.own.with_tables(tables)?;
        let mut kids = Vec::new(alloc);
        for kid in &self.kids {
            if !kid.has_unused(main, known) {
                push_some(&mut kids, kid.clone()?)?;
                continue;
            }
            let next = kid.tidied(alloc, main, known)?;
            push_some(&mut kids, Rc::new(alloc, next)?)?;
        }
        Ok(Anchor { names, own, kids })
    }

    /// An anchor with nothing in it.
    pub(crate) fn empty(alloc: Global, names: Vec<Name>) -> Made<Anchor>
        ensures { IfOk result (λ a. a ≡ record { names = names.items; anchors = [] }) }
    {
        let own = Own::without_rules(Tables::new(alloc)?)?;
        Ok(Anchor {
            names,
            own,
            kids: Vec::new(alloc),
        })
    }

    /// What is at its path.
    #[tactic(auto, using(crate::proofs::Treed::own_rules, crate::proofs::Treed::own_tables))]
    pub(crate) fn own(&self) -> &Own
        ensures rules { map rule_of result.now.items.value.items ≡
            rules_in (anchor_at self.now.names self.now.anchors) }
        ensures tables { result.now.tables ≡ tables_in (anchor_at self.now.names self.now.anchors) }
    {
        &self.own
    }

    /// The same once more. The anchors below are shared.
    pub(crate) fn copied(&self, alloc: Global) -> Made<Anchor>
        ensures { IfOk result (λ a. a ≡ self.now) }
    {
        let names = copied_path(alloc, &self.names)?;
        let own = self.own.copied()?;
        let kids = shared_kids(alloc, &self.kids)?;
        Ok(Anchor { names, own, kids })
    }
}

/// The anchor with these rules and tables at a path below it. It is taken apart: what nobody else shares is changed in
/// its place, and what is shared stays as it is.
pub(crate) fn with_entry(anchor: Anchor, rest: &[Name], own: Own) -> Made<Anchor>
    ensures { IfOk result (λ a. a ≡ placed_in anchor rest.now (map rule_of own.items.value.items) own.tables) }
{
    let Anchor {
        names,
        own: held,
        mut kids,
    } = anchor;
    let [name, more @ ..] = rest else {
        return Ok(Anchor { names, own, kids });
    };
    let alloc = *kids.allocator();
    let at = count_before(&kids, name);
    let removed = take_named(&mut kids, at, name);
    let kid = owned_or_empty(alloc, &names, name, removed)?;
    let changed = with_entry(kid, more, own)?;
    put_kid(&mut kids, at, Rc::new(alloc, changed)?)?;
    Ok(Anchor {
        names,
        own: held,
        kids,
    })
}

/// Changes the rules and tables of the anchor at a path below this one in place, which comes in where there is none.
/// False, and nothing is changed, where that can't be done: what would change is shared, or nothing would be left at
/// the path.
#[cycle(changes)]
pub(crate) fn change_below(
    alloc: Global,
    anchor: &mut Anchor,
    rest: &[Name],
    change: &Change,
) -> Made<bool>
    ensures { MatchResult result (λ done. TreeChangesIf done (Makes change.now) rest.now anchor.old anchor.new)
        (λ e. anchor.new ≡ anchor.old) }
{
    match rest {
        [] => change_own(&mut anchor.own, change),
        [first, more @ ..] => change_kid(
            alloc,
            &anchor.names,
            &mut anchor.kids,
            first,
            more,
            change,
        ),
    }
}

/// The same of the one of that name among the anchors directly below.
#[cycle(changes)]
fn change_kid(
    alloc: Global,
    names: &[Name],
    kids: &mut Vec<Rc<Anchor>>,
    first: &Name,
    more: &[Name],
    change: &Change,
) -> Made<bool>
    requires kids { AreKids names.now (shared kids.old.items) }
    requires order { AreInOrder (shared kids.old.items) }
    ensures { MatchResult result (λ done. KidChangesIf done (Makes change.now) names.now first.now more.now
        (shared kids.old.items) (shared kids.new.items)) (λ e. shared kids.new.items ≡ shared kids.old.items) }
{
    let at = count_before(kids, first);
    if !is_at(kids, at, first) {
        return add_kid(alloc, names, kids, at, first, more, change);
    }
    let held = &mut kids[at];
    let Some(kid) = Rc::get_mut(held) else {
        return Ok(false);
    };
    change_below(alloc, kid, more, change)
}

/// Puts an anchor of that name in its place among the others, with what a change makes at a path below it. False, and
/// nothing is changed, where it makes nothing.
fn add_kid(
    alloc: Global,
    names: &[Name],
    kids: &mut Vec<Rc<Anchor>>,
    at: usize,
    first: &Name,
    more: &[Name],
    change: &Change,
) -> Made<bool>
    requires kids { AreKids names.now (shared kids.old.items) }
    requires place { at ≡ length (kids_before first.now (shared kids.old.items)) }
    requires none { is_some (find (is_named first.now) (shared kids.old.items)) ≡ false }
    ensures { MatchResult result (λ done. KidChangesIf done (Makes change.now) names.now first.now more.now
        (shared kids.old.items) (shared kids.new.items)) (λ e. shared kids.new.items ≡ shared kids.old.items) }
{
    let Some(own) = change.made_of_none(alloc)? else {
        return Ok(false);
    };
    let none = Anchor::empty(alloc, followed_by(alloc, names, first)?)?;
    let kid = Rc::new(alloc, with_entry(none, more, own)?)?;
    kids.insert(at, kid)?;
    Ok(true)
}
