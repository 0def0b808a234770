//! Tables as text: a line for each.

ghost use Rattle.std.specs.Prelude.{◌≡◌, Some, codes, option_map};
ghost use Rattle.std.specs.List.{flat_map};
ghost use Rattle.pf_rules.specs.Rulesets.{table_of};
ghost use Rattle.pf_show.specs.Shown.{entries_parts, line, spaced_entry, table_parts, word_parts};
ghost use Rattle.pf_show.specs.Seen.{table_in};
ghost use Rattle.pf_show.specs.inner.Spaced.{spaced, table_line};

use pf_rules::{TableDef, TableEntry};
use std::fmt;

/// Entries, each behind a blank.
#[derive(Clone, Copy)]
pub struct Entries<'a>(pub &'a [TableEntry]);

impl fmt::Display for Entries<'_> {
    ghost output = { λ e. Some (flat_map spaced_entry e.0.now) };

    fn fmt<W: fmt::Write>(&self, f: &mut fmt::Formatter<W>) -> fmt::Result {
        for entry in self.0 {
            write!(f, "{}", Entry(*entry))?;
        }
        Ok(())
    }
}

/// An entry behind a blank.
#[derive(Clone, Copy)]
pub struct Entry(pub TableEntry);

impl fmt::Display for Entry {
    ghost output = { λ e. Some (spaced_entry e.0) };

    fn fmt<W: fmt::Write>(&self, f: &mut fmt::Formatter<W>) -> fmt::Result {
        if self.0.negated {
            write!(f, " !{}", self.0.prefix)
        } else {
            write!(f, " {}", self.0.prefix)
        }
    }
}

/// The list of entries behind a blank, if there is one.
#[derive(Clone, Copy)]
struct EntriesParts<'a>(Option<&'a [TableEntry]>);

impl fmt::Display for EntriesParts<'_> {
    ghost output = { λ e. Some (spaced (entries_parts (option_map (λ v. v.now) e.0))) };

    #[tactic(auto, using(crate::proofs::TableSpacing::entries_are))]
    fn fmt<W: fmt::Write>(&self, f: &mut fmt::Formatter<W>) -> fmt::Result {
        match self.0 {
            Some(entries) => write!(f, " {{{} }}", Entries(entries)),
            None => Ok(()),
        }
    }
}

/// `persist` after a blank, if it is given.
fn persist_part(persist: bool) -> &'static str
    ensures { result.now ≡ spaced (word_parts persist (codes "persist")) }
{
    if persist { " persist" } else { "" }
}

/// `const` after a blank, if it is given.
fn const_part(is_const: bool) -> &'static str
    ensures { result.now ≡ spaced (word_parts is_const (codes "const")) }
{
    if is_const { " const" } else { "" }
}

/// The line that defines a table.
#[derive(Clone, Copy)]
pub struct TableLine<'a> {
    /// Its name.
    pub name: &'a str,
    /// Whether it stays where no rule refers to it.
    pub persist: bool,
    /// Whether no command changes its entries.
    pub is_const: bool,
    /// Its entries, if they are listed.
    pub entries: Option<&'a [TableEntry]>,
}

impl fmt::Display for TableLine<'_> {
    ghost output = { λ t. Some (line (table_parts (table_in t))) };

    #[tactic(auto, using(crate::proofs::TableSpacing::table_line_is))]
    fn fmt<W: fmt::Write>(&self, f: &mut fmt::Formatter<W>) -> fmt::Result {
        let name = self.name;
        let persist = persist_part(self.persist);
        let is_const = const_part(self.is_const);
        let entries = EntriesParts(self.entries);
        writeln!(f, "table <{name}>{persist}{is_const}{entries}")
    }
}

/// The line of a table of a ruleset.
fn line_of(table: &TableDef) -> TableLine<'_>
    ensures { table_in result ≡ table_of table.now }
{
    TableLine {
        name: table.name.as_str(),
        persist: table.persist,
        is_const: table.is_const,
        entries: table.entries.as_deref(),
    }
}

/// The lines of tables.
#[derive(Clone, Copy)]
pub(crate) struct TableLines<'a>(pub(crate) &'a [TableDef]);

impl fmt::Display for TableLines<'_> {
    ghost output = { λ t. Some (flat_map table_line t.0.now) };

    fn fmt<W: fmt::Write>(&self, f: &mut fmt::Formatter<W>) -> fmt::Result {
        for table in self.0 {
            write!(f, "{}", line_of(table))?;
        }
        Ok(())
    }
}
