//! Writing an entry at the end of some bytes.

ghost use Rattle.std.specs.Prelude.{◌≡◌, ◌≤◌, ◌<◌, ◌^◌, ◌++◌, ◌∷◌, [], length, map};
ghost use Rattle.std.specs.Prelude.{◌/◌, ◌%◌, OnOk, IsTrue, ◌==◌, true, false};
ghost use Rattle.std.specs.List.{flat_map, list_all};
ghost use Rattle.std.specs.Int.{w32, to_be_bytes};
ghost use Rattle.pf_entry.specs.Entry.{is_table, are_names, in_family, is_address, rest_fits, counted, path, sign};
ghost use Rattle.pf_entry.specs.Entry.{family, halves, bits, address, addresses, format, kind, path_of, rest, spelling};
ghost use Rattle.pf_entry.specs.Seen.{address_of};
ghost use Rattle.pf_entry.specs.Owned.{addresses_value, command_value, entry_value, is_long};
ghost use Rattle.pf_entry.specs.declared.limits.TheConstants.{ADDRESSES, ENTRY_BYTES};

use crate::command::{Command, Entry};
use crate::limits::{ADDRESSES, ENTRY_BYTES, HALF};
use crate::numbers::{put_u16, put_u32, put_u64};
use pf_addr::Addr;
use pf_rules::{Path, Profile, TableEntry, TableName};
use std::alloc::AllocError;

/// A length of one byte, and the bytes.
fn put_counted(out: &mut Vec<u8>, bytes: &[u8]) -> Result<(), AllocError>
    requires { length bytes.now < 256 }
    ensures { OnOk result (out.new.items ≡ out.old.items ++ counted bytes.now) }
{
    out.push(bytes.len() as u8)?;
    out.extend_from_slice(bytes)
}

#[tactic(auto, using(crate::proofs::Short::table_short))]
fn put_table(out: &mut Vec<u8>, table: &TableName) -> Result<(), AllocError>
    ensures valid { is_table table.now ≡ true }
    ensures bytes { OnOk result (out.new.items ≡ out.old.items ++ counted table.now) }
{
    put_counted(out, table.as_bytes())
}

fn put_path(out: &mut Vec<u8>, names_of: &Path) -> Result<(), AllocError>
    ensures valid { OnOk result (are_names names_of.now ≡ true) }
    ensures bytes { OnOk result (out.new.items ≡ out.old.items ++ path names_of.now) }
{
    let names = names_of.names();
    out.push(names.len() as u8)?;
    for name in names {
        put_counted(out, name.as_bytes())?;
    }
    Ok(())
}

#[tactic(auto, unfolding(crate::specs::Entry::halves))]
fn put_halves(out: &mut Vec<u8>, wide: u128) -> Result<(), AllocError>
    ensures { OnOk result (out.new.items ≡ out.old.items ++ halves wide) }
{
    put_u64(out, (wide / HALF) as u64)?;
    put_u64(out, (wide % HALF) as u64)?;
    Ok(())
}

fn put_base(out: &mut Vec<u8>, base: Addr) -> Result<(), AllocError>
    ensures valid { in_family base ≡ true }
    ensures bytes { OnOk result (out.new.items ≡ out.old.items ++ bits base) }
{
    match base {
        Addr::V4(bits) => put_u32(out, bits),
        Addr::V6(wide) => put_halves(out, wide),
    }
}

fn family_of(base: Addr) -> u8
    ensures { result ≡ family base }
{
    match base {
        Addr::V4(_) => 4,
        Addr::V6(_) => 6,
    }
}

#[tactic(auto, using(crate::proofs::Valid::address_valid))]
fn put_address(out: &mut Vec<u8>, a: &TableEntry) -> Result<(), AllocError>
    ensures valid { OnOk result (is_address (address_of a.now) ≡ true) }
    ensures bytes { OnOk result (out.new.items ≡ out.old.items ++ address (address_of a.now)) }
{
    let base = a.prefix.base();
    out.push(if a.negated { 1 } else { 0 })?;
    out.push(family_of(base))?;
    out.push(a.prefix.len())?;
    put_base(out, base)
}

fn put_addresses(out: &mut Vec<u8>, list: &[TableEntry]) -> Result<(), AllocError>
    requires { length list.now ≤ ADDRESSES }
    ensures valid { OnOk result (list_all is_address (addresses_value list.now) ≡ true) }
    ensures bytes { OnOk result (out.new.items ≡ out.old.items ++ addresses (addresses_value list.now)) }
{
    put_u16(out, list.len() as u16)?;
    for a in list {
        put_address(out, a)?;
    }
    Ok(())
}

fn format_of(command: &Command) -> u8
    ensures { result ≡ format (command_value command.now) }
{
    match command {
        Command::Load(_, Profile::Two, _) => 2,
        _ => 1,
    }
}

fn kind_of(command: &Command) -> u8
    ensures { result ≡ kind (command_value command.now) }
{
    match command {
        Command::Load(_, _, _) => 1,
        Command::FlushRules(_) => 2,
        Command::FlushTables(_) => 3,
        Command::FlushAll(_) => 4,
        Command::Add(_, _, _) => 5,
        Command::Delete(_, _, _) => 6,
        Command::Replace(_, _, _) => 7,
        Command::FlushTable(_, _) => 8,
    }
}

/// Whether a ruleset or a list of addresses is longer than any entry's.
pub(crate) fn is_long(command: &Command) -> bool
    ensures { result ≡ is_long (command_value command.now) }
{
    match command {
        Command::Load(_, _, text) => text.len() > ENTRY_BYTES,
        Command::Add(_, _, addresses) | Command::Delete(_, _, addresses) => {
            addresses.items.len() > ADDRESSES
        }
        Command::Replace(_, _, addresses) => addresses.len() > ADDRESSES,
        _ => false,
    }
}

fn path_of(command: &Command) -> &Path
    ensures { result.now ≡ path_of (command_value command.now) }
{
    match command {
        Command::Load(path, _, _)
        | Command::FlushRules(path)
        | Command::FlushTables(path)
        | Command::FlushAll(path)
        | Command::Add(path, _, _)
        | Command::Delete(path, _, _)
        | Command::Replace(path, _, _)
        | Command::FlushTable(path, _) => path,
    }
}

fn put_text(out: &mut Vec<u8>, text: &[u8]) -> Result<(), AllocError>
    requires { length text.now ≤ ENTRY_BYTES }
    ensures { OnOk result (out.new.items ≡ out.old.items ++ to_be_bytes w32 (length text.now) ++ text.now) }
{
    put_u32(out, text.len() as u32)?;
    out.extend_from_slice(text)
}

/// A table, and its addresses.
fn put_change(out: &mut Vec<u8>, table: &TableName, list: &[TableEntry]) -> Result<(), AllocError>
    requires { length list.now ≤ ADDRESSES }
    ensures table { is_table table.now ≡ true }
    ensures list { OnOk result (list_all is_address (addresses_value list.now) ≡ true) }
    ensures bytes { OnOk result (out.new.items ≡
        out.old.items ++ counted table.now ++ addresses (addresses_value list.now)) }
{
    put_table(out, table)?;
    put_addresses(out, list)
}

/// What follows the path.
fn put_rest(out: &mut Vec<u8>, command: &Command) -> Result<(), AllocError>
    requires { is_long (command_value command.now) ≡ false }
    ensures valid { OnOk result (rest_fits (command_value command.now) ≡ true) }
    ensures bytes { OnOk result (out.new.items ≡ out.old.items ++ rest (command_value command.now)) }
{
    match command {
        Command::Load(_, _, text) => put_text(out, text),
        Command::FlushRules(_) | Command::FlushTables(_) | Command::FlushAll(_) => { Ok(()) }
        Command::Add(_, table, addresses) | Command::Delete(_, table, addresses) => put_change(
            out,
            table,
            &addresses.items,
        ),
        Command::Replace(_, table, addresses) => put_change(out, table, addresses),
        Command::FlushTable(_, table) => put_table(out, table),
    }
}

/// Format, origin, number, kind, path, rest.
pub(crate) fn put_asked(
    out: &mut Vec<u8>,
    origin: u8,
    number: u64,
    command: &Command,
) -> Result<(), AllocError>
    requires { is_long (command_value command.now) ≡ false }
    ensures names { OnOk result (are_names (path_of (command_value command.now)) ≡ true) }
    ensures rest { OnOk result (rest_fits (command_value command.now) ≡ true) }
    ensures bytes { OnOk result (out.new.items ≡ out.old.items ++
        spelling (record { origin = origin; number = number; command = command_value command.now })) }
{
    out.push(format_of(command))?;
    out.push(origin)?;
    put_u64(out, number)?;
    out.push(kind_of(command))?;
    put_path(out, path_of(command))?;
    put_rest(out, command)?;
    Ok(())
}
