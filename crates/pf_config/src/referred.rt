//! The names of the tables that rules refer to.

ghost use Rattle.std.specs.Prelude.{◌≡◌, [], map, IfOk, OnOk};
ghost use Rattle.std.specs.List.{list_any};
ghost use Rattle.std.specs.Str.{bytes_eq};
ghost use Rattle.pf_rules.specs.Seen.{rule_of};
ghost use Rattle.pf_config.specs.Changes.{is_at_table, conditions_refer, refers};
ghost use Rattle.pf_config.specs.SkippedNames.{is_listed};
ghost use Rattle.pf_config.specs.inner.Referring.{Gains, AreJust, KnowsAll, is_fleeting};

use crate::Made;
use crate::anchor::Anchor;
use pf_rules::{Addresses, Conditions, Host, Item, TableName};
use pf_tables::Table;
use std::alloc::{AllocError, Global};
use std::collections::BTreeSet;
use std::marker::Model;

/// Of how many tables each is asked of the rules themselves; of more the names that rules refer to are gathered.
pub(crate) const FEW: usize = 16;

/// Names of tables, of which one is found at the logarithm of their number.
#[derive(Drop)]
pub(crate) struct Referred {
    known: BTreeSet<Vec<u8>>,
}

impl Model for Referred {
    ghost use Rattle.std.specs.Prelude.{List};
    ghost use Rattle.pf_rules.specs.Names.{Name};
    ghost use Rattle.pf_config.specs.inner.Referring.{names_in};

    ghost Value = { List Name };

    ghost view = { λ s. names_in s.known.keys };
}

impl Referred {
    /// None.
    fn new(alloc: Global) -> Referred
        ensures { result ≡ [] }
    {
        Referred {
            known: BTreeSet::new(alloc),
        }
    }

    /// Those that one of the rules refers to.
    #[tactic(auto, using(crate::proofs::Referrals::of_none))]
    pub(crate) fn of(alloc: Global, items: &[Item]) -> Made<Referred>
        ensures { IfOk result (λ s. AreJust s (λ n. list_any (refers n) (map rule_of items.now))) }
    {
        let mut names = Referred::new(alloc);
        names.put_items(alloc, items)?;
        Ok(names)
    }

    /// Whether the name is among them.
    pub(crate) fn contains(&self, name: &TableName) -> bool
        ensures { result ≡ is_listed name.now self.now }
    {
        self.known.contains(name.as_bytes())
    }

    /// Puts a name among them. After an error nothing is known of them.
    fn put(&mut self, alloc: Global, name: &TableName) -> Made<()>
        ensures { OnOk result (Gains self.old (λ n. bytes_eq name.now n) self.new) }
    {
        let key = name.as_bytes().to_vec(alloc)?;
        let Ok(_) = self.known.insert(key) else {
            return Err(AllocError);
        };
        Ok(())
    }

    /// Puts the name of the table that the host is, if it is one. After an error nothing is known of them.
    #[tactic(auto, using(crate::proofs::Referrals::gains_nothing))]
    fn put_host(&mut self, alloc: Global, host: &Host) -> Made<()>
        ensures { OnOk result (Gains self.old (λ n. is_at_table n host.now) self.new) }
    {
        match host {
            Host::In(Addresses::Table(own)) | Host::NotIn(Addresses::Table(own)) => self.put(
                alloc, own,
            ),
            _ => Ok(()),
        }
    }

    /// Puts the names of the tables that the conditions refer to. After an error nothing is known of them.
    fn put_conditions(&mut self, alloc: Global, conditions: &Conditions) -> Made<()>
        ensures { OnOk result (Gains self.old (λ n. conditions_refer n conditions.now) self.new) }
    {
        self.put_host(alloc, &conditions.source)?;
        self.put_host(alloc, &conditions.destination)
    }

    /// Puts the names of the tables that the rules refer to. After an error nothing is known of them.
    pub(crate) fn put_items(&mut self, alloc: Global, items: &[Item]) -> Made<()>
        ensures { OnOk result (Gains self.old (λ n. list_any (refers n) (map rule_of items.now)) self.new) }
    {
        for item in items {
            self.put_conditions(alloc, item.conditions())?;
        }
        Ok(())
    }
}

/// Whether one of the tables doesn't persist.
pub(crate) fn any_fleeting(tables: &[(TableName, Table)]) -> bool
    ensures { result ≡ list_any is_fleeting tables.now }
{
    tables.iter().any(|entry| !entry.1.persist())
}

/// The names that the rules of the whole configuration refer to, if main has tables enough of which some may go.
#[tactic(auto, using(crate::proofs::Referrals::of_none))]
pub(crate) fn gathered(alloc: Global, main: &Anchor) -> Made<Option<Referred>>
    ensures { IfOk result (λ known. KnowsAll known main.now.anchors) }
{
    let tables = main.tables();
    if tables.len() <= FEW || !any_fleeting(tables) {
        return Ok(None);
    }
    let mut names = Referred::new(alloc);
    main.put_referred(alloc, &mut names)?;
    Ok(Some(names))
}
