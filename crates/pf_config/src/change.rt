//! A change of what is at one path, made in place: wholly, or not at all.

ghost use Rattle.std.specs.Prelude.{◌≡◌, IfOk, MatchResult, map, option_map};
ghost use Rattle.pf_rules.specs.Seen.{rule_of};
ghost use Rattle.pf_config.specs.inner.TableChanges.{AreNew, IsGiven, Makes, OwnChangesIf, makes_fleeting};

use crate::Made;
use crate::own::Own;
use crate::referred::any_fleeting;
use crate::tables::with_table;
use pf_rules::{TableEntry, TableName};
use pf_tables::{Edit, Table};
use std::alloc::Global;

/// A change of the rules and tables at one path.
#[derive(Clone, Copy)]
pub(crate) enum Change<'c> {
    /// An entry of the table of that name is added or removed.
    Entry(&'c TableName, &'c TableEntry, Edit),
    /// The table of that name is this one.
    Whole(&'c TableName, &'c Table),
    /// The rules and tables are these.
    Own(&'c Own),
}

/// Puts rules and tables in the place of others. False, and nothing is changed, where there are none.
fn place(own: &mut Own, given: &Own) -> Made<bool>
    ensures { MatchResult result (λ done. OwnChangesIf done (IsGiven (map rule_of given.now.items.value.items)
        given.now.tables) (map rule_of own.old.items.value.items) own.old.tables
        (map rule_of own.new.items.value.items) own.new.tables)
        (λ e. (map rule_of own.new.items.value.items ≡ map rule_of own.old.items.value.items)
        × (own.new.tables ≡ own.old.tables)) }
{
    if given.is_empty() {
        return Ok(false);
    }
    *own = given.copied()?;
    Ok(true)
}

/// Changes rules and tables. False, and nothing is changed, where that can't be done.
pub(crate) fn change_own(own: &mut Own, change: &Change) -> Made<bool>
    ensures { MatchResult result (λ done. OwnChangesIf done (Makes change.now)
        (map rule_of own.old.items.value.items) own.old.tables (map rule_of own.new.items.value.items) own.new.tables)
        (λ e. (map rule_of own.new.items.value.items ≡ map rule_of own.old.items.value.items)
        × (own.new.tables ≡ own.old.tables)) }
{
    match change {
        Change::Entry(name, entry, edit) => own.tables.edit(name, entry, *edit),
        Change::Whole(name, table) => own.tables.put(name, table),
        Change::Own(given) => place(own, given),
    }
}

impl Change<'_> {
    /// The rules and tables that it makes where there are none. None where it makes none.
    pub(crate) fn made_of_none(&self, alloc: Global) -> Made<Option<Own>>
        ensures { IfOk result (λ o. AreNew (Makes self.now)
            (option_map (λ m. (map rule_of m.items.value.items, m.tables)) o)) }
    {
        match self {
            Change::Whole(name, table) => {
                let own = Own::without_rules(with_table(alloc, &[], name, table)?)?;
                Ok(Some(own))
            }
            Change::Own(given) if !given.is_empty() => {
                let own = given.copied()?;
                Ok(Some(own))
            }
            _ => Ok(None),
        }
    }

    /// Whether a table that it makes doesn't persist.
    pub(crate) fn makes_fleeting(&self) -> bool
        ensures { result ≡ makes_fleeting self.now }
    {
        match self {
            Change::Entry(_, _, _) => false,
            Change::Whole(_, table) => !table.persist(),
            Change::Own(own) => any_fleeting(own.tables.list()),
        }
    }
}
