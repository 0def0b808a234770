//! The commands of a script.

ghost use Rattle.std.specs.Prelude.{◌≡◌, ◌++◌, false, IfOk, OnOk, string_bytes};
ghost use Rattle.pf_dump.specs.declared.script.TheConstants.{ADDRESSES};
ghost use Rattle.std.specs.Option.{option_copied};
ghost use Rattle.pf_entry.specs.Owned.{command_value};
ghost use Rattle.pf_dump.specs.Written.{is_open_after, load_lines, table_command, addresses_text, entries_lines};
ghost use Rattle.pf_dump.specs.Written.{entries_lines_if, all_entries_lines, path_lines, script_of, change_lines};

use crate::Made;
use crate::path_texts::text_paths;
use crate::text::push_text;
use pf_arguments::Command;
use pf_command::{CommandArguments, PathArguments, TableArguments};
use pf_config::{Config, Table};
use pf_rules::{Name, TableEntry};
use pf_show::Entry;
use std::alloc::{AllocError, Global};

/// How many bytes a ruleset has at most, so that an entry has room for it.
const TEXT_MAX: usize = 32_000;

/// How many addresses a command has at most, so that an entry has room for them.
const ADDRESSES: usize = 1_600;

/// Whether a ruleset doesn't end with a newline; not of an empty one.
fn is_open(text: &[u8]) -> bool
    ensures { result ≡ is_open_after false text.now }
{
    let mut pending = false;
    for byte in text {
        pending = *byte != b'\n';
    }
    pending
}

/// Puts the line of a load and its text behind a script.
fn push_load(script: &mut Vec<u8>, path: &[Name], text: &[u8]) -> Made<()>
    ensures { OnOk result (script.new.items ≡ script.old.items ++ load_lines path.now text.now) }
{
    let line = format!(in *script.allocator(); "pfctl {}-f -\n", PathArguments(path))?;
    script.extend_from_slice(line.as_bytes())?;
    script.extend_from_slice(text)?;
    if is_open(text) {
        script.extend_from_slice(b"\n")?;
    }
    script.extend_from_slice(b".\n")
}

/// Puts a command behind a script, as a line of it: with the text of a load and a line `.` behind it.
pub fn push_change(script: &mut Vec<u8>, command: &Command) -> Result<(), AllocError>
    ensures { OnOk result (script.new.items ≡ script.old.items ++ change_lines (command_value command.now)) }
{
    match command {
        Command::Load(path, _, text) => push_load(script, path.names(), text),
        _ => {
            let line = format!(in *script.allocator(); "pfctl {}\n", CommandArguments(command))?;
            script.extend_from_slice(line.as_bytes())
        }
    }
}

/// Puts a command on a table behind the text, up to its addresses.
fn push_begin(out: &mut String, path: &[Name], table: &str, word: &str) -> Made<()>
    ensures { OnOk result (string_bytes out.new
        ≡ string_bytes out.old ++ table_command path.now table.now word.now) }
{
    let begin = TableArguments { path, table, word };
    write!(out, "pfctl {begin}")
}

/// Puts addresses behind the text, with a new command where one has no room for more.
fn push_addresses(out: &mut String, path: &[Name], name: &str, entries: &[TableEntry]) -> Made<()>
    ensures { OnOk result (string_bytes out.new
        ≡ string_bytes out.old ++ addresses_text path.now name.now ADDRESSES entries.now) }
{
    let mut room = ADDRESSES;
    for entry in entries {
        if room == 0 {
            out.push('\n')?;
            push_begin(out, path, name, "add")?;
            room = ADDRESSES;
        }
        write!(out, "{}", Entry(*entry))?;
        room -= 1;
    }
    out.push('\n')
}

/// Puts the lines behind a script that give a table its entries: a replacement, and where they are too many additions.
fn push_entries(script: &mut Vec<u8>, path: &[Name], name: &str, table: &Table) -> Made<()>
    ensures { OnOk result (script.new.items ≡ script.old.items ++ entries_lines path.now name.now table.now.entries) }
{
    let alloc = *script.allocator();
    let entries = table.gathered(alloc)?;
    let mut line = String::new(alloc);
    push_begin(&mut line, path, name, "replace")?;
    push_addresses(&mut line, path, name, &entries)?;
    script.extend_from_slice(line.as_bytes())
}

/// The same of all tables of a path.
fn push_all_entries(script: &mut Vec<u8>, config: &Config, path: &[Name]) -> Made<()>
    ensures { OnOk result (script.new.items ≡ script.old.items ++ all_entries_lines config.now path.now) }
{
    let names = config.table_names(path)?;
    for name in &names {
        if let Some(table) = config.table(path, name) {
            push_entries(script, path, name, table)?;
        }
    }
    Ok(())
}

/// Puts the lines of a path behind a script: its load, and before it the entries of its tables where the text would be
/// too long with them.
fn push_lines(script: &mut Vec<u8>, config: &Config, path: &[Name]) -> Made<()>
    ensures { OnOk result (script.new.items ≡ script.old.items ++ path_lines config.now path.now) }
{
    let mut text = String::new(*script.allocator());
    push_text(&mut text, config, path, true)?;
    if text.as_bytes().len() > TEXT_MAX {
        push_all_entries(script, config, path)?;
        text = String::new(*script.allocator());
        push_text(&mut text, config, path, false)?;
    }
    push_load(script, path, text.as_bytes())
}

/// The script of a configuration: the lines of each path that a command may load, main last, so that a table of main
/// isn't taken away before the rules that name it are there.
pub(crate) fn script_of(alloc: Global, config: &Config) -> Made<Vec<u8>>
    ensures { IfOk result (λ s. s.items ≡ script_of config.now) }
{
    let mut script = Vec::new(alloc);
    let paths = text_paths(alloc, config)?;
    for path in &paths {
        push_lines(&mut script, config, path)?;
    }
    Ok(script)
}
