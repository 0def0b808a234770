//! Table statements.

ghost use Rattle.std.specs.Prelude.{◌≡◌, suc, length};
ghost use Rattle.pf_tokens.specs.Lists.{elements_of};
ghost use Rattle.pf_tokens.specs.Parsing.{left, later, Parses};
ghost use Rattle.pf_statements.specs.Options.{to_end};
ghost use Rattle.pf_statements.specs.Tables.{new_table, entry_at, entries_at, table_option};
ghost use Rattle.pf_statements.specs.Tables.{table_of};
ghost use Rattle.pf_statements.specs.inner.TableShorter.{entry_shorter};
ghost use Rattle.pf_statements.specs.Seen.{table_text_of, Spells};

use crate::common::{Context, Read, expect};
use crate::hosts::{read_prefix, read_table};
use crate::written::WrittenTable;
use pf_rules::{Profile, TableEntry, TableName};
use pf_tokens::{Element, Listed, Parser, Stop, Symbol, list};
use std::alloc::Global;

/// An entry of a table, behind `!` or not.
struct EntryProduction;

impl Element for EntryProduction {
    type Value = TableEntry;

    ghost read = { entry_at };

    #[tactic(auto, unfolding(pf_tokens::specs::Productions::symbol_at, crate::specs::Tables::entry_at))]
    fn read<'t: 's, 's>(_: Global, _: Profile, parser: &mut Parser<'t, 's>) -> Read<TableEntry> {
        let negated = parser.accept_symbol(Symbol::Not);
        let prefix = read_prefix(parser).ok_or(Stop::Syntax)?;
        Ok(TableEntry { negated, prefix })
    }

    ghost shorter = { entry_shorter };
}

/// The entries between braces, of which there may be none.
#[tactic(auto, unfolding(pf_tokens::specs::Productions::symbol_at, crate::specs::Tables::empty_at, crate::specs::Tables::entries_at))]
fn read_entries<'t: 's, 's>(cx: Context, parser: &mut Parser<'t, 's>) -> Read<Listed<TableEntry>>
    ensures read { Parses elements_of result (left parser.new) (entries_at cx.profile (left parser.old)) }
    ensures later { later parser.new ≡ later parser.old }
{
    let mut ahead = *parser;
    if ahead.open_list() && ahead.accept_symbol(Symbol::Close) {
        *parser = ahead;
        let items = Vec::new(cx.alloc);
        return Ok(Listed { items, deepest: 1 });
    }
    list::<EntryProduction>(cx.alloc, cx.profile, parser)
}

/// The next option, beside those before it: entries may be listed once.
#[tactic(auto, unfolding(pf_tokens::specs::Productions::option_at, crate::specs::Tables::table_option, crate::specs::Tables::listed_option))]
fn read_option<'t: 's, 's>(
    cx: Context,
    table: WrittenTable,
    parser: &mut Parser<'t, 's>,
) -> Read<WrittenTable>
    ensures read { Parses table_text_of result (left parser.new) (table_option cx.profile (table_text_of table)
        (left parser.old)) }
    ensures later { later parser.new ≡ later parser.old }
{
    if parser.accept(b"persist") {
        let persist = true;
        Ok(WrittenTable { persist, ..table })
    } else if parser.accept(b"const") {
        let is_const = true;
        Ok(WrittenTable { is_const, ..table })
    } else if parser.accept(b"counters") {
        Ok(table)
    } else {
        expect(table.entries.is_none())?;
        let entries = Some(read_entries(cx, parser)?);
        Ok(WrittenTable { entries, ..table })
    }
}

/// The options of a table up to the end of the statement.
fn read_options<'t: 's, 's>(
    cx: Context,
    name: TableName,
    parser: &mut Parser<'t, 's>,
) -> Read<WrittenTable>
    ensures value { Spells table_text_of result (to_end (table_option cx.profile) (suc (length (left parser.old)))
        (new_table name) (left parser.old)) }
    ensures later { later parser.new ≡ later parser.old }
{
    let mut table = WrittenTable {
        name,
        persist: false,
        is_const: false,
        entries: None,
    };
    'options: while !parser.at_end() {
        table = read_option(cx, table, parser)?;
    }
    Ok(table)
}

/// A table statement after its first keyword.
#[tactic(auto, unfolding(crate::specs::Tables::table_of))]
pub fn read_table_text<'t: 's, 's>(cx: Context, parser: &mut Parser<'t, 's>) -> Read<WrittenTable>
    ensures value { Spells table_text_of result (table_of cx.profile (left parser.old)) }
    ensures later { later parser.new ≡ later parser.old }
{
    let name = read_table(cx, parser)?;
    read_options(cx, name, parser)
}
