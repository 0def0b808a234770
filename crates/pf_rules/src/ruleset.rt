//! Rulesets.

ghost use Rattle.std.specs.Prelude.{◌≡◌, ◌≤◌, false, length};
ghost use Rattle.std.specs.List.{list_any};
ghost use Rattle.pf_rules.specs.inner.Items.{is_overfull};
ghost use Rattle.pf_rules.specs.Seen.{items_of};

use crate::interface_name::InterfaceName;
use crate::item::Item;
use crate::table_name::TableName;
use pf_addr::Prefix;

/// A prefix that a table holds, or where it is negated one that it leaves out (pf.conf(5), TABLES).
#[derive(Clone, Copy, PartialEq, Eq)]
pub struct TableEntry {
    /// Whether `!` is before it.
    pub negated: bool,
    /// The prefix.
    pub prefix: Prefix,
}

/// A table that a ruleset defines (pf.conf(5), TABLES).
#[derive(Drop)]
pub struct TableDef {
    /// Its name.
    pub name: TableName,
    /// Whether it stays where no rule refers to it.
    pub persist: bool,
    /// Whether commands may not change its entries.
    pub is_const: bool,
    /// Its entries, the first of each prefix, in the order of the text; none where the text has no list, and the
    /// contents stay as they are.
    pub entries: Option<Vec<TableEntry>>,
}

/// What a ruleset gives.
#[derive(Drop)]
pub struct Ruleset {
    /// The interfaces and groups whose packets aren't filtered, in the order of the text, as often as written.
    pub skip: Vec<InterfaceName>,
    /// The tables that the text defines.
    pub tables: Vec<TableDef>,
    /// The rules in their expanded order, 1,024 at most, and as many in each block.
    pub items: Vec<Item>,
    ghost few: { length items.items ≤ 1024 },
    ghost blocks: { list_any is_overfull (items_of items.items) ≡ false },
}
