//! Commands and entries that own what they name.

ghost use Rattle.std.specs.Prelude.{◌<◌, ◌^◌, IsTrue, length};
ghost use Rattle.pf_entry.specs.Entry.{is_origin};

use pf_rules::{Path, Profile, TableEntry, TableName};

/// One address or more.
pub struct SomeAddresses {
    /// The addresses, in the order given.
    pub items: Vec<TableEntry>,
    pub ghost some: { 0 < length items.items },
}

impl Drop for SomeAddresses {
    fn drop(self) {
        let SomeAddresses { items: _ } = self;
    }
}

/// A change of the configuration; the first of each is the path of the anchor that it changes.
pub enum Command {
    /// Reads a ruleset by a profile, and makes it the anchor's rules and tables. The text may be any bytes.
    Load(Path, Profile, Vec<u8>),
    /// Takes the anchor's rules away.
    FlushRules(Path),
    /// Takes the anchor's tables away.
    FlushTables(Path),
    /// Takes both away.
    FlushAll(Path),
    /// Adds addresses to a table.
    Add(Path, TableName, SomeAddresses),
    /// Takes addresses from a table.
    Delete(Path, TableName, SomeAddresses),
    /// Makes a table of these addresses alone.
    Replace(Path, TableName, Vec<TableEntry>),
    /// Empties a table.
    FlushTable(Path, TableName),
}

impl Drop for Command {
    fn drop(self) {
        match self {
            Command::Load(_, _, _) => {}
            Command::FlushRules(_) => {}
            Command::FlushTables(_) => {}
            Command::FlushAll(_) => {}
            Command::Add(_, _, _) => {}
            Command::Delete(_, _, _) => {}
            Command::Replace(_, _, _) => {}
            Command::FlushTable(_, _) => {}
        }
    }
}

/// A command, who asked for it (a member, or 255), and its number there, below 2^48.
#[derive(Drop)]
pub struct Entry {
    /// Who was asked: a member, 0 to 14, or 255 where the command comes from outside.
    pub origin: u8,
    /// Its number there, below 2^48; from outside, the client's token.
    pub number: u64,
    /// The command.
    pub command: Command,
    pub ghost asked: { IsTrue (is_origin origin) },
    pub ghost numbered: { number < 2 ^ 48 },
}
