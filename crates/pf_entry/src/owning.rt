//! The entry that a view shows, with memory of its own.

ghost use Rattle.std.specs.Prelude.{◌≡◌, ◌≤◌, length, true, IfOk};
ghost use Rattle.pf_entry.specs.Entry.{is_name, are_names};
ghost use Rattle.pf_entry.specs.Seen.{names_of, addresses_of, command_of, entry_of};
ghost use Rattle.pf_entry.specs.Owned.{addresses_value, command_value, entry_value};

use crate::command::{Command, Entry, SomeAddresses};
use crate::view::{Addresses, CommandView, EntryView, Names, SomeAddressesView, TableNameView};
use pf_rules::{Name, Path, TableEntry, TableName};
use std::alloc::{AllocError, Global};

fn name_owned(alloc: Global, bytes: &[u8]) -> Result<Name, AllocError>
    requires { is_name bytes.now ≡ true }
    ensures { IfOk result (λ name. name ≡ bytes.now) }
{
    match Name::new(alloc, bytes)? {
        Some(name) => Ok(name),
        None => unreachable!(),
    }
}

/// The table's name, with memory of its own. Fails only when out of memory.
pub fn table_owned(alloc: Global, table: &TableNameView) -> Result<TableName, AllocError>
    ensures { IfOk result (λ name. name ≡ table.now.bytes.now) }
{
    match TableName::new(alloc, table.bytes)? {
        Some(name) => Ok(name),
        None => unreachable!(),
    }
}

fn names_owned(alloc: Global, names: &Names) -> Result<Vec<Name>, AllocError>
    requires { are_names (names_of names.now) ≡ true }
    ensures { IfOk result (λ v. v.items ≡ names_of names.now) }
{
    let mut owned = Vec::new(alloc);
    for bytes in *names {
        let name = name_owned(alloc, bytes)?;
        owned.push(name)?;
    }
    Ok(owned)
}

/// The path of a view's names, with memory of its own. Fails only when out of memory.
#[tactic(auto, using(crate::proofs::Kept::path_fits))]
pub fn path_owned(alloc: Global, names: &Names) -> Result<Path, AllocError>
    ensures { IfOk result (λ path. path ≡ names_of names.now) }
{
    let owned = names_owned(alloc, names)?;
    match Path::new(owned) {
        Some(path) => Ok(path),
        None => unreachable!(),
    }
}

/// The addresses of a view, with memory of their own. Fails only when out of memory.
pub fn addresses_owned(alloc: Global, list: &Addresses) -> Result<Vec<TableEntry>, AllocError>
    ensures { IfOk result (λ v. addresses_value v.items ≡ addresses_of list.now) }
{
    let mut owned = Vec::new(alloc);
    for address in *list {
        owned.push(address)?;
    }
    Ok(owned)
}

fn some_owned(alloc: Global, list: &SomeAddressesView) -> Result<SomeAddresses, AllocError>
    ensures { IfOk result (λ s. addresses_value s.items.items ≡ addresses_of list.now.items) }
{
    let items = addresses_owned(alloc, &list.items)?;
    Ok(SomeAddresses { items })
}

fn command_owned(alloc: Global, command: &CommandView) -> Result<Command, AllocError>
    ensures { IfOk result (λ c. command_value c ≡ command_of command.now) }
{
    Ok(match command {
        CommandView::Load(path, profile, text) => {
            let path = path_owned(alloc, path)?;
            Command::Load(path, *profile, Vec::from_slice(alloc, text)?)
        }
        CommandView::FlushRules(path) => Command::FlushRules(path_owned(alloc, path)?),
        CommandView::FlushTables(path) => Command::FlushTables(path_owned(alloc, path)?),
        CommandView::FlushAll(path) => Command::FlushAll(path_owned(alloc, path)?),
        CommandView::Add(path, table, addresses) => {
            let (path, table) = (path_owned(alloc, path)?, table_owned(alloc, table)?);
            Command::Add(path, table, some_owned(alloc, addresses)?)
        }
        CommandView::Delete(path, table, addresses) => {
            let (path, table) = (path_owned(alloc, path)?, table_owned(alloc, table)?);
            Command::Delete(path, table, some_owned(alloc, addresses)?)
        }
        CommandView::Replace(path, table, addresses) => {
            let (path, table) = (path_owned(alloc, path)?, table_owned(alloc, table)?);
            Command::Replace(path, table, addresses_owned(alloc, addresses)?)
        }
        CommandView::FlushTable(path, table) => Command::FlushTable(
            path_owned(alloc, path)?,
            table_owned(alloc, table)?,
        ),
    })
}

impl EntryView<'_> {
    /// The entry that the view shows, with memory of its own. Fails only when out of memory.
    pub fn to_entry(&self, alloc: Global) -> Result<Entry, AllocError>
        ensures { IfOk result (λ e. entry_value e ≡ entry_of self.now) }
    {
        let command = command_owned(alloc, &self.command)?;
        Ok(Entry {
            origin: self.origin,
            number: self.number,
            command,
        })
    }
}
