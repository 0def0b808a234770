//! Tables that a ruleset defines.

ghost use Rattle.std.specs.Prelude.{◌≡◌, option_map, IfOk, IfErr, OnOk, None, Some, false, true};
ghost use Rattle.pf_rules.specs.Rulesets.{table_of};
ghost use Rattle.pf_statements.specs.Seen.{table_text_of};
ghost use Rattle.pf_statements.specs.ConditionsSeen.{list_of};
ghost use Rattle.pf_expansion.specs.declared.cause.Cause.TheVariants.{TooMany};
ghost use Rattle.pf_expansion.specs.Causes.{lowest};
ghost use Rattle.pf_expansion.specs.Defined.{tables_of};
ghost use Rattle.pf_expansion.specs.Tables.{first_of_each, is_too_long, table_causes, table_value, with_first};
ghost use Rattle.pf_expansion.specs.inner.Tables.{AreKeys, kept, key_of};

use crate::cause::{Cause, Made};
use crate::defined_tables::DefinedTables;
use crate::judge::is_deep;
use pf_addr::{Addr, Prefix};
use pf_rules::{TableDef, TableEntry};
use pf_statements::WrittenTable;
use pf_tokens::Listed;
use std::alloc::{AllocError, Global};
use std::collections::BTreeSet;

/// The most different prefixes that a table may have.
const MOST_ENTRIES: usize = 4_096;

/// The entries of a table, if they are listed.
type Entries = Option<Vec<TableEntry>>;

/// A prefix as numbers: the version of IP, the length, and the address.
type Key = (u8, (u8, u128));

/// The prefix as numbers.
fn key_of(prefix: &Prefix) -> Key
    ensures { result ≡ key_of prefix.now }
{
    match prefix.base() {
        Addr::V4(bits) => (4, (prefix.len(), u128::from(bits))),
        Addr::V6(bits) => (6, (prefix.len(), bits)),
    }
}

/// Appends the entry to those that were found, whose prefixes these are, unless its prefix is among them.
fn push_first(found: &mut Vec<TableEntry>, keys: &mut BTreeSet<Key>, entry: &TableEntry) -> Made<()>
    requires { AreKeys keys.old found.old.items }
    ensures prefixes { OnOk result (AreKeys keys.new found.new.items) }
    ensures found { OnOk result (found.new.items ≡ with_first found.old.items entry.now) }
{
    match keys.insert(key_of(&entry.prefix)) {
        Ok(true) => Ok(found.push(*entry)?),
        Ok(false) => Ok(()),
        Err(_) => Err(AllocError),
    }
}

/// The first entry of each prefix, none where they are too many.
fn kept_entries(alloc: Global, entries: &[TableEntry]) -> Made<Option<Vec<TableEntry>>>
    ensures { IfOk result (λ found. option_map (λ v. v.items) found ≡ kept entries.now) }
{
    let mut found = Vec::new(alloc);
    let mut prefixes = BTreeSet::new(alloc);
    for entry in entries {
        push_first(&mut found, &mut prefixes, entry)?;
        if found.len() > MOST_ENTRIES {
            return Ok(None);
        }
    }
    Ok(Some(found))
}

/// The first entry of each prefix in the list, if there is one, or the cause that refuses it.
fn listed_entries(alloc: Global, list: &Option<Listed<TableEntry>>) -> Made<Result<Entries, Cause>>
    ensures kept { IfOk result (λ judged. IfOk judged (λ found. (is_too_long (list_of list.now) ≡ false) ×
        (option_map (λ v. v.items) found ≡ option_map (λ l. first_of_each l.items) (list_of list.now)))) }
    ensures refused { IfOk result (λ judged. IfErr judged (λ cause. (is_too_long (list_of list.now) ≡ true) ×
        (cause ≡ TooMany))) }
{
    let Some(list) = list else {
        return Ok(Ok(None));
    };
    if is_deep(list) {
        return Ok(Err(Cause::TooMany));
    }
    let found = kept_entries(alloc, &list.items)?;
    Ok(found.ok_or(Cause::TooMany).map(|found| Some(found)))
}

/// The table of a statement behind others, with the first entry of each prefix, or the lowest cause that refuses it
/// (pf.conf(5), TABLES). A growth that is refused is the error.
pub fn judge_table(
    alloc: Global,
    tables: &DefinedTables,
    text: WrittenTable,
) -> Result<Result<TableDef, Cause>, AllocError>
    ensures allowed { let said = table_text_of text in
        IfOk result (λ judged. IfOk judged (λ table. lowest (table_causes (tables_of tables.now) said) ≡ None)) }
    ensures table { let said = table_text_of text in IfOk result (λ judged. IfOk judged (λ table. table_of table ≡
        table_value said)) }
    ensures refused { let said = table_text_of text in
        IfOk result (λ judged. IfErr judged (λ cause. lowest (table_causes (tables_of tables.now) said) ≡
        Some cause)) }
{
    if tables.is_defined(&text.name) {
        return Ok(Err(Cause::Twice));
    }
    match listed_entries(alloc, &text.entries)? {
        Ok(entries) => Ok(Ok(TableDef {
            name: text.name,
            persist: text.persist,
            is_const: text.is_const,
            entries,
        })),
        Err(cause) => Ok(Err(cause)),
    }
}
