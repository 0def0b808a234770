//! The configuration: anchors with their rules and tables.

ghost use Rattle.std.specs.Prelude.{◌≡◌, ◌≤◌, ◌+◌, IfSome, is_some, map, length, not, nat_lt};
ghost use Rattle.std.specs.Prelude.{[], IfOk, MatchResult};
ghost use Rattle.std.specs.Prelude.{unwrap_or, Ok, false};
ghost use Rattle.std.specs.Option.{option_copied};
ghost use Rattle.pf_rules.specs.Seen.{rule_of};
ghost use Rattle.pf_config.specs.Map.{anchor_at, rules_at, tables_at, table_at, table_for, table_names, paths_in};
ghost use Rattle.pf_tables.specs.Contents.{with_entries, contents_of};
ghost use Rattle.pf_config.specs.Changes.{Changes, RefusesFirst, load, flush_rules, flush_tables, flush_all};
ghost use Rattle.pf_config.specs.Changes.{placed, tidied};
ghost use Rattle.pf_config.specs.inner.Changes.{FailsWith};
ghost use Rattle.pf_config.specs.Changes.{add, replace, delete, flush_table, set_table, filled, new_table};
ghost use Rattle.pf_config.specs.Changes.{load_ruleset};
ghost use Rattle.pf_rules.specs.Rulesets.{ruleset_of};
ghost use Rattle.pf_config.specs.inner.TableChanges.{commanded, count_of, GivesIf, LoadsIf, Makes, MapChangesIf};
ghost use Rattle.pf_config.specs.inner.Texts.{definition_of};
ghost use Rattle.pf_config.specs.Ordered.{AreOrdered};
ghost use Rattle.pf_config.specs.SkippedNames.{is_listed};
ghost use Rattle.pf_config.specs.Trees.{anchor_in};
ghost use Rattle.pf_config.specs.declared.config.TheConstants.{RULES_MAX, ANCHORS_MAX};

use crate::Made;
use crate::anchor::{Anchor, change_below};
use crate::blocks::blocks_in;
use crate::change::Change;
use crate::changed::{has_unnamed, placed, tables_at, tidied, with_tables};
use crate::depths::go_too_deep;
use crate::fault::ConfigFault;
use crate::loading::{any_too_deep, is_too_deep, loaded, with_definitions};
use crate::own::Own;
use crate::paths::copied_path;
use crate::placing::Placing;
use crate::referred::any_fleeting;
use crate::skipped::Skipped;
use crate::tables::{Tables, named, names_of, with_table};
use crate::walk::descend;
use pf_rules::{InterfaceName, Item, Name, Path, Ruleset, TableDef, TableEntry, TableName};
use pf_tables::{Edit, Table};
use std::alloc::{AllocError, Global};
use std::marker::Model;
use std::rc::Rc;

/// How many paths a configuration has at most.
const ANCHORS_MAX: usize = 1024;

/// How many rules an anchor has at most.
pub const RULES_MAX: usize = 1024;

/// How many entries a table has at most.
pub(crate) const ENTRIES_MAX: usize = 4096;

/// Anchors with their rules and tables, and the interfaces that are skipped.
pub struct Config {
    alloc: Global,
    skip: Skipped,
    main: Anchor,
    /// False only where each table persists: a load then asks no rules which tables they refer to.
    has_fleeting: bool,
    /// How many paths more there may be at least. Where it is 0 they are counted before one comes in.
    room: usize,
}

impl Drop for Config {
    fn drop(self) {
        let Config {
            alloc: _,
            skip: _,
            main: _,
            has_fleeting: _,
            room: _,
        } = self;
    }
}

impl Model for Config {
    ghost use Rattle.std.specs.Prelude.{◌≡◌, ◌≤◌, ◌+◌, ◌&&◌, [], length, not, false};
    ghost use Rattle.pf_config.specs.Map.{Configuration};
    ghost use Rattle.pf_config.specs.inner.Referring.{any_may_shed};

    ghost Value = { Configuration };

    ghost view = { λ c. record { skip = c.skip; anchors = c.main.anchors } };

    ghost invariant = { λ c. (c.main.names ≡ []) × (length c.main.anchors ≤ 1024)
        × ((not c.has_fleeting && any_may_shed c.main.anchors) ≡ false) × (length c.main.anchors + c.room ≤ 1024) };
}

impl Config {
    /// A configuration with nothing in it.
    pub fn new(alloc: Global) -> Result<Config, AllocError>
        ensures { IfOk result (λ c. c ≡ record { skip = []; anchors = [] }) }
    {
        let main = Anchor::empty(alloc, Vec::new(alloc))?;
        Ok(Config {
            alloc,
            skip: Skipped::new(alloc),
            main,
            has_fleeting: false,
            room: 0,
        })
    }

    /// The interfaces that are skipped.
    pub fn skip(&self) -> &[InterfaceName]
        ensures { result.now ≡ self.now.skip }
    {
        self.skip.names()
    }

    /// Whether the name is one of an interface that is skipped. Takes the logarithm of their number.
    pub fn is_skipped(&self, name: &[u8]) -> bool
        ensures { result ≡ is_listed name.now self.now.skip }
    {
        self.skip.contains(name)
    }

    /// The anchor at a path: main always, another one exactly where a path of the configuration begins with it.
    #[tactic(auto, using(crate::proofs::Descents::main_down))]
    pub fn anchor(&self, path: &[Name]) -> Option<&Anchor>
        ensures { option_copied result ≡ anchor_in self.now.anchors path.now }
    {
        descend(&self.main, path)
    }

    /// The rules at a path.
    #[tactic(auto, using(crate::proofs::Descents::found_rules, crate::proofs::Descents::no_rules_found), unfolding(crate::specs::Map::rules_at))]
    pub fn items(&self, path: &[Name]) -> &[Item]
        ensures rules { map rule_of result.now ≡ rules_at self.now path.now }
        ensures few { length result.now ≤ RULES_MAX }
    {
        self.anchor(path).map_or(&[], |anchor| anchor.items())
    }

    /// The tables at a path.
    #[tactic(auto, using(crate::proofs::Descents::found_tables, crate::proofs::Descents::no_tables_found), unfolding(crate::specs::Map::tables_at))]
    fn tables(&self, path: &[Name]) -> &[(TableName, Table)]
        ensures value { result.now ≡ tables_at self.now path.now }
        ensures ordered { AreOrdered result.now }
    {
        self.anchor(path).map_or(&[], |anchor| anchor.tables())
    }

    /// The names of the tables at a path, in their order: byte by byte.
    #[tactic(auto, unfolding(crate::specs::Map::tables_at))]
    pub fn table_names(&self, path: &[Name]) -> Result<Vec<&str>, AllocError>
        ensures { IfOk result (λ v. map (λ n. n.now) v.items ≡ table_names self.now path.now) }
    {
        names_of(self.alloc, self.tables(path))
    }

    /// The paths that have rules or tables, in byte order.
    pub fn paths(&self) -> Result<Vec<&[Name]>, AllocError>
        ensures { IfOk result (λ v. map (λ p. p.now) v.items ≡ paths_in self.now.anchors) }
    {
        let mut paths = Vec::new(self.alloc);
        self.main.push_paths(&mut paths)?;
        Ok(paths)
    }

    /// The table of that name at the path.
    pub fn table(&self, path: &[Name], name: &str) -> Option<&Table>
        ensures { option_copied result ≡ table_at self.now path.now name.now }
    {
        named(self.tables(path), name)
    }

    /// The table that a rule at the path names: its own anchor's, else main's.
    pub fn table_for(&self, path: &[Name], name: &str) -> Option<&Table>
        ensures { option_copied result ≡ table_for self.now path.now name.now }
    {
        self.table(path, name).or_else(|| self.table(&[], name))
    }

    /// Removes all tables of a path.
    #[tactic(auto, using(crate::proofs::Few::tables_few), unfolding(crate::specs::Changes::flush_tables))]
    pub fn flush_tables(&mut self, path: &Path) -> Result<(), ConfigFault>
        ensures { Changes result self.old self.new (Ok (flush_tables self.old path.now)) }
    {
        let none = Tables::new(self.alloc)?;
        let next = with_tables(self.alloc, &self.main, path.names(), none)?;
        self.put(next);
        Ok(())
    }

    /// Loads a ruleset at a path: its rules take the place of those there, each of its tables gets the flags that the
    /// ruleset gives it and, where entries are listed, these, each of its blocks is loaded in the same way at its path
    /// below, and tables that no rule refers to any more go unless they persist. At the main ruleset's path the skip
    /// list becomes the ruleset's (pfctl(8), `-f`).
    ///
    /// Refused are 24 a block that is deeper than 8 names, and 23 a configuration of more than 1,024 paths. A refused
    /// load leaves the configuration as it was.
    pub fn load(&mut self, path: &Path, rules: Ruleset) -> Result<(), ConfigFault>
        ensures { Changes result self.old self.new (load_ruleset self.old path.now (ruleset_of rules)) }
    {
        if go_too_deep(path.names(), &rules.items) {
            return Err(ConfigFault::BadPath);
        }
        self.load_blocks(path, rules)
    }

    /// Loads a ruleset at a path, with the paths of its blocks made.
    fn load_blocks(&mut self, path: &Path, rules: Ruleset) -> Result<(), ConfigFault>
        ensures { Changes result self.old self.new (load_ruleset self.old path.now (ruleset_of rules)) }
    {
        let Ruleset {
            skip,
            tables,
            items,
        } = rules;
        let names = copied_path(self.alloc, path.names())?;
        let blocks = blocks_in(self.alloc, path.names(), &items)?;
        let items = Rc::new(self.alloc, items)?;
        let own = Placing::new(names, items);
        self.load_placed(skip, &own, &tables, &blocks)
    }

    /// Loads a ruleset's rules and tables at a path, and its blocks below it. The skip list is taken where the path is
    /// main.
    #[tactic(auto, unfolding(crate::specs::Changes::load))]
    fn load_placed(
        &mut self,
        skip: Vec<InterfaceName>,
        own: &Placing,
        definitions: &[TableDef],
        blocks: &[Placing],
    ) -> Result<(), ConfigFault>
        ensures { Changes result self.old self.new (load self.old skip.items own.now (map definition_of definitions.now)
            blocks.now) }
    {
        if is_too_deep(own) || any_too_deep(blocks) {
            return Err(ConfigFault::BadPath);
        }
        if self.load_alone(own, definitions, blocks)? {
            return Ok(());
        }
        let next = loaded(self.alloc, &self.main, own, definitions, blocks)?;
        if !has_room(&next) {
            return Err(ConfigFault::AnchorsFull);
        }
        if own.path().is_empty() {
            self.skip = Skipped::of(self.alloc, skip)?;
        }
        self.put(next);
        Ok(())
    }

    /// Loads rules and tables at a path in place, if no blocks come or go and each table persists. False, and nothing
    /// is changed, where that can't be done, and for main.
    fn load_alone(
        &mut self,
        own: &Placing,
        definitions: &[TableDef],
        blocks: &[Placing],
    ) -> Made<bool>
        ensures { MatchResult result (λ done. LoadsIf done own.now (map definition_of definitions.now) blocks.now
            self.old self.new) (λ e. self.new ≡ self.old) }
    {
        let path = own.path();
        if path.is_empty() || !blocks.is_empty() {
            return Ok(false);
        }
        if self.has_fleeting || has_unnamed(&self.main, path) {
            return Ok(false);
        }
        let old = tables_at(self.alloc, &self.main, path)?;
        let own = Own::of(
            own.items()?,
            with_definitions(self.alloc, old, definitions)?,
        )?;
        if any_fleeting(own.tables.list()) {
            return Ok(false);
        }
        self.change(path, &Change::Own(&own))
    }

    /// The map without the rules of a path, its unnamed blocks, and the tables that no rule refers to any more.
    #[tactic(auto, using(crate::proofs::Few::rules_few))]
    fn without_rules(&self, path: &Path) -> Made<Anchor>
        ensures names { IfOk result (λ a. a.names ≡ []) }
        ensures few { IfOk result (λ a. length a.anchors ≤ ANCHORS_MAX) }
        ensures map { IfOk result (λ a. a.anchors ≡ tidied (placed self.now.anchors (record {
          path = path.now;
          rules = [];
        }))) }
    {
        let items = Rc::new(self.alloc, Vec::new(self.alloc))?;
        let main = self.main.copied(self.alloc)?;
        tidied(self.alloc, placed(self.alloc, main, path.names(), items)?)
    }

    /// Removes the rules of a path, its unnamed blocks, and the tables that no rule refers to any more.
    #[tactic(auto, unfolding(crate::specs::Changes::flush_rules))]
    pub fn flush_rules(&mut self, path: &Path) -> Result<(), ConfigFault>
        ensures { Changes result self.old self.new (Ok (flush_rules self.old path.now)) }
    {
        let next = self.without_rules(path)?;
        self.put(next);
        Ok(())
    }

    /// Removes what `flush_rules` does, and then all tables of the path.
    #[tactic(auto, using(crate::proofs::Few::tables_few), unfolding(crate::specs::Changes::flush_rules, crate::specs::Changes::flush_tables))]
    pub fn flush_all(&mut self, path: &Path) -> Result<(), ConfigFault>
        ensures { Changes result self.old self.new (Ok (flush_all self.old path.now)) }
    {
        let tidy = self.without_rules(path)?;
        let next = with_tables(self.alloc, &tidy, path.names(), Tables::new(self.alloc)?)?;
        self.put(next);
        Ok(())
    }

    /// Puts entries into a table, which is created if it is missing.
    #[tactic(auto, using(crate::proofs::FirstRefusals::fill_first, crate::proofs::FirstRefusals::fill_const), unfolding(crate::specs::Changes::add))]
    pub fn add(
        &mut self,
        path: &Path,
        name: &TableName,
        list: &[TableEntry],
    ) -> Result<(), ConfigFault>
        ensures made { Changes result self.old self.new (add self.old path.now name.now list.now) }
        ensures first { RefusesFirst result (add self.old path.now name.now list.now) }
    {
        if is_const(self.table(path.names(), name.as_str())) {
            return Err(ConfigFault::ConstTable);
        }
        if self.edit_one(path.names(), name, list, Edit::Insert)? {
            return Ok(());
        }
        let table = added(self.alloc, self.table(path.names(), name.as_str()), list)?;
        self.set_table(path.names(), name, &table)
    }

    /// Makes the list the contents of a table, which is created if it is missing.
    #[tactic(auto, using(crate::proofs::FirstRefusals::fill_first, crate::proofs::FirstRefusals::fill_const), unfolding(crate::specs::Changes::replace))]
    pub fn replace(
        &mut self,
        path: &Path,
        name: &TableName,
        list: &[TableEntry],
    ) -> Result<(), ConfigFault>
        ensures made { Changes result self.old self.new (replace self.old path.now name.now list.now) }
        ensures first { RefusesFirst result (replace self.old path.now name.now list.now) }
    {
        if is_const(self.table(path.names(), name.as_str())) {
            return Err(ConfigFault::ConstTable);
        }
        let table = replaced(self.alloc, self.table(path.names(), name.as_str()), list)?;
        self.set_table(path.names(), name, &table)
    }

    /// Takes the listed entries out of a table.
    #[tactic(auto, using(crate::proofs::FirstRefusals::set_first), unfolding(crate::specs::Changes::delete))]
    pub fn delete(
        &mut self,
        path: &Path,
        name: &TableName,
        list: &[TableEntry],
    ) -> Result<(), ConfigFault>
        ensures made { Changes result self.old self.new (delete self.old path.now name.now list.now) }
        ensures first { RefusesFirst result (delete self.old path.now name.now list.now) }
    {
        let old = self
            .table(path.names(), name.as_str())
            .ok_or(ConfigFault::NoTable)?;
        if old.is_const() {
            return Err(ConfigFault::ConstTable);
        }
        if self.edit_one(path.names(), name, list, Edit::Remove)? {
            return Ok(());
        }
        let old = self
            .table(path.names(), name.as_str())
            .ok_or(ConfigFault::NoTable)?;
        let table = old.without_entries(self.alloc, list)?;
        self.set_table(path.names(), name, &table)
    }

    /// Takes all entries out of a table.
    #[tactic(auto, using(crate::proofs::FirstRefusals::set_first), unfolding(crate::specs::Changes::flush_table))]
    pub fn flush_table(&mut self, path: &Path, name: &TableName) -> Result<(), ConfigFault>
        ensures made { Changes result self.old self.new (flush_table self.old path.now name.now) }
        ensures first { RefusesFirst result (flush_table self.old path.now name.now) }
    {
        let old = self
            .table(path.names(), name.as_str())
            .ok_or(ConfigFault::NoTable)?;
        if old.is_const() {
            return Err(ConfigFault::ConstTable);
        }
        let table = Table::new(self.alloc, old.persist(), false)?;
        self.set_table(path.names(), name, &table)
    }

    /// Puts a new map in the place of the old one.
    fn put(&mut self, main: Anchor)
        requires names { main.names ≡ [] }
        requires few { length main.anchors ≤ ANCHORS_MAX }
        ensures { self.new ≡ record { skip = self.old.skip; anchors = main.anchors } }
    {
        self.has_fleeting = main.has_fleeting();
        self.room = 0;
        self.main = main;
    }

    /// Makes a change at a path in place. False, and nothing is changed, where that can't be done.
    fn change(&mut self, path: &[Name], change: &Change) -> Made<bool>
        ensures { MatchResult result (λ done. MapChangesIf done (Makes change.now) path.now self.old self.new)
            (λ e. self.new ≡ self.old) }
    {
        let Some(left) = room_after_one(&self.main, path, self.room) else {
            return Ok(false);
        };
        self.room = left;
        self.has_fleeting = self.has_fleeting || change.makes_fleeting();
        change_below(self.alloc, &mut self.main, path, change)
    }

    /// Adds or deletes the one entry of a list in place. False, and nothing is changed, where the list has more, or
    /// that can't be done.
    fn edit_one(
        &mut self,
        path: &[Name],
        name: &TableName,
        list: &[TableEntry],
        edit: Edit,
    ) -> Made<bool>
        ensures { MatchResult result (λ done. GivesIf done (commanded edit self.old path.now name.now list.now) self.old
            self.new) (λ e. self.new ≡ self.old) }
    {
        match list {
            [entry] => self.change(path, &Change::Entry(name, entry, edit)),
            _ => Ok(false),
        }
    }

    /// Puts a table in its place.
    fn set_table(
        &mut self,
        path: &[Name],
        name: &TableName,
        table: &Table,
    ) -> Result<(), ConfigFault>
        ensures { Changes result self.old self.new (set_table self.old path.now name.now table.now) }
    {
        if self.change(path, &Change::Whole(name, table))? {
            return Ok(());
        }
        let tables = with_table(self.alloc, self.tables(path), name, table)?;
        let next = with_tables(self.alloc, &self.main, path, tables)?;
        if !has_room(&next) {
            return Err(ConfigFault::AnchorsFull);
        }
        self.put(next);
        Ok(())
    }
}

/// Whether there are rules or tables at a path.
#[tactic(auto, using(crate::proofs::Descents::main_down, crate::proofs::Changing::found_own, crate::proofs::Changing::no_own_found))]
fn has_own(main: &Anchor, path: &[Name]) -> bool
    requires { main.now.names ≡ [] }
    ensures { result ≡ is_some (anchor_at path.now main.now.anchors) }
{
    descend(main, path).is_some_and(|anchor| anchor.has_own())
}

/// How many paths more there may be at least after a change at a path: of the known room one is taken where the path is
/// new, and the paths are counted where none is known. None where there may be no more.
#[tactic(auto, using(crate::proofs::Changing::takes_none, crate::proofs::Changing::takes_one, crate::proofs::Changing::takes_counted))]
fn room_after_one(main: &Anchor, path: &[Name], room: usize) -> Option<usize>
    requires names { main.now.names ≡ [] }
    requires room { length main.now.anchors + room ≤ ANCHORS_MAX }
    ensures { IfSome result (λ left. length main.now.anchors + left + 1 ≤ ANCHORS_MAX + count_of (anchor_at path.now
        main.now.anchors)) }
{
    if has_own(main, path) {
        return Some(room);
    }
    if room > 0 {
        return Some(room - 1);
    }
    main.room_after(ANCHORS_MAX)?.checked_sub(1)
}

/// Whether the map has no more entries than it may.
fn has_room(main: &Anchor) -> bool
    ensures { result ≡ not (nat_lt ANCHORS_MAX (length main.now.anchors)) }
{
    main.room_after(ANCHORS_MAX).is_some()
}

/// Whether there is a table that may not be changed.
fn is_const(table: Option<&Table>) -> bool
    ensures { result ≡ (unwrap_or (option_copied table.entry) new_table).is_const }
{
    table.is_some_and(|table| table.is_const())
}

/// The table with entries put in, a new one if there is none.
fn added(alloc: Global, old: Option<&Table>, list: &[TableEntry]) -> Result<Table, ConfigFault>
    requires { (unwrap_or (option_copied old) new_table).is_const ≡ false }
    ensures { MatchResult result (λ t. filled (unwrap_or (option_copied old.entry) new_table)
        (with_entries (unwrap_or (option_copied old.entry) new_table).entries list.now) ≡ Ok t) (λ e.
        FailsWith e (filled (unwrap_or (option_copied old.entry) new_table)
        (with_entries (unwrap_or (option_copied old.entry) new_table).entries list.now))) }
{
    match old {
        None => few_enough(Table::of(alloc, true, false, list)?),
        Some(old) => few_enough(old.with_entries(alloc, list)?),
    }
}

/// The table with the list as its contents, a new one if there is none.
fn replaced(alloc: Global, old: Option<&Table>, list: &[TableEntry]) -> Result<Table, ConfigFault>
    requires { (unwrap_or (option_copied old) new_table).is_const ≡ false }
    ensures { MatchResult result (λ t. filled (unwrap_or (option_copied old.entry) new_table) (contents_of list.now)
        ≡ Ok t) (λ e. FailsWith e (filled (unwrap_or (option_copied old.entry) new_table) (contents_of list.now))) }
{
    let persist = old.map_or(true, |old| old.persist());
    few_enough(Table::of(alloc, persist, false, list)?)
}

/// The table, if its entries are few enough.
fn few_enough(table: Table) -> Result<Table, ConfigFault>
    requires { table.is_const ≡ false }
    ensures { MatchResult result (λ t. filled table table.entries ≡ Ok t) (λ e.
        FailsWith e (filled table table.entries)) }
{
    if table.entry_count() > ENTRIES_MAX {
        return Err(ConfigFault::TableFull);
    }
    Ok(table)
}
