//! A command's arguments, as an operator types them.

ghost use Rattle.std.specs.Prelude.{◌≡◌, Some};
ghost use Rattle.pf_entry.specs.Owned.{command_value};
ghost use Rattle.pf_command.specs.Arguments.{path_words, table_words, command_words};

use pf_entry::{Command, Name, Path, TableName};
use pf_show::{Entries, Slashed};
use std::fmt;

/// `-a PATH` and a blank; of the main ruleset nothing.
#[derive(Clone, Copy)]
pub struct PathArguments<'a>(pub &'a [Name]);

impl fmt::Display for PathArguments<'_> {
    ghost output = { λ p. Some (path_words p.0.now) };

    fn fmt<W: fmt::Write>(&self, f: &mut fmt::Formatter<W>) -> fmt::Result {
        match self.0 {
            [] => Ok(()),
            [_, ..] => write!(f, "-a {} ", Slashed(self.0)),
        }
    }
}

/// `-t TABLE -T WORD` at a path.
#[derive(Clone, Copy)]
pub struct TableArguments<'a> {
    /// The path.
    pub path: &'a [Name],
    /// The table.
    pub table: &'a str,
    /// What is done with it.
    pub word: &'a str,
}

impl fmt::Display for TableArguments<'_> {
    ghost output = { λ t. Some (table_words t.path.now t.table.now t.word.now) };

    fn fmt<W: fmt::Write>(&self, f: &mut fmt::Formatter<W>) -> fmt::Result {
        let path = PathArguments(self.path);
        write!(f, "{path}-t {} -T {}", self.table, self.word)
    }
}

/// A command's arguments, without `pfctl`; a load's text is only counted.
#[derive(Clone, Copy)]
pub struct CommandArguments<'a>(pub &'a Command);

/// The arguments for a table of a path.
fn table_arguments<'a>(path: &'a Path, table: &'a TableName, word: &'a str) -> TableArguments<'a>
    ensures { table_words result.path.now result.table.now result.word.now
        ≡ table_words path.entry.now table.entry.now word.entry.now }
{
    TableArguments {
        path: path.names(),
        table: table.as_str(),
        word,
    }
}

impl fmt::Display for CommandArguments<'_> {
    ghost output = { λ c. Some (command_words (command_value c.0.now)) };

    #[tactic(auto, using(crate::proofs::EntryTexts::addresses_are))]
    fn fmt<W: fmt::Write>(&self, f: &mut fmt::Formatter<W>) -> fmt::Result {
        match self.0 {
            Command::Load(path, _, text) => {
                write!(f, "{}-f - ({})", PathArguments(path.names()), text.len())
            }
            Command::FlushRules(path) => write!(f, "{}-F rules", PathArguments(path.names())),
            Command::FlushTables(path) => write!(f, "{}-F Tables", PathArguments(path.names())),
            Command::FlushAll(path) => write!(f, "{}-F all", PathArguments(path.names())),
            Command::Add(path, table, addresses) => {
                let words = table_arguments(path, table, "add");
                write!(f, "{words}{}", Entries(&addresses.items))
            }
            Command::Delete(path, table, addresses) => {
                let words = table_arguments(path, table, "delete");
                write!(f, "{words}{}", Entries(&addresses.items))
            }
            Command::Replace(path, table, addresses) => {
                let words = table_arguments(path, table, "replace");
                write!(f, "{words}{}", Entries(addresses))
            }
            Command::FlushTable(path, table) => {
                write!(f, "{}", table_arguments(path, table, "flush"))
            }
        }
    }
}
